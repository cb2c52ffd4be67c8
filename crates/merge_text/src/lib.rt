#![tactic(auto)]

ghost use Rattle.std.specs.Prelude.{◌≡◌};
ghost use Rattle.print_bytes.specs.Writing.{with_bytes};
ghost use Rattle.merge_questions.specs.Merging.{blamed_sheet};
ghost use Rattle.merge_text.specs.MergeText.{merged_text, merging_text};
ghost use Rattle.merge_text.specs.MergeText as says;

use forms::House;
use merge_join::JoinedLists;
use merge_questions::Blamed;
use write_lines::MAX_TEXT;

// The place just past what was written on the page: the merged sheet as a text of our own format, or the line of a refusal, where there is one.
#[derive(Clone, Copy)]
pub struct Merged {
    pub place: usize,
    pub blamed: Option<Blamed>,
}

// Merges two texts into one, from the first place of the page on. The lists are long enough for every sheet and the page for every text, so that nothing is
// refused by 12 or 15.
pub fn merge_text(one: &[u8], two: &[u8], page: &mut [u8; MAX_TEXT]) -> Merged
    ensures result_value { says.reply_of result ≡ merging_text one.now two.now }
    ensures result_value_2 { says.blame_of result ≡ blamed_sheet one.now two.now }
    ensures page_after { page.new ≡ with_bytes page.old 0 (merged_text one.now two.now) }
{
    let mut lists = JoinedLists::cleared();
    match lists.join(one, two) {
        Err(blamed) => {
            let refusal = blamed.refusal;
            let place = write_fronts::put_refused(page, refusal.number, refusal.line);
            Merged {
                place,
                blamed: Some(blamed),
            }
        }
        Ok(merged) => {
            let place = write_fronts::put_fronts(
                House::Ours,
                merged,
                &lists.numbers,
                &lists.firsts,
                &lists.lasts,
                &lists.froms,
                &lists.tos,
                &lists.lows,
                &lists.highs,
                page,
            );
            Merged {
                place,
                blamed: None,
            }
        }
    }
}
