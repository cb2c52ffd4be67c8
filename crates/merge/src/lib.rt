#![tactic(auto)]

ghost use Rattle.std.specs.Prelude.{◌≡◌};
ghost use Rattle.read_questions.specs.Reading.{reply_of, rooms};
ghost use Rattle.read_rooms.specs.Rooms.{sizes_of, leaves};
ghost use Rattle.merge_questions.specs.Merging.{merged_in, merging};

use merge_join::JoinedLists;
use questions::{Question, Refusal};
use sheet::Sheet;

// The open entry: two texts of our own format as one sheet. A refusal leaves every room as it was; else the merged units and rules stand at the front of
// theirs.
// stays: the lists one by one; of a struct of `&mut` lists a clause can tell what is left only part by part, as `exit.1.0.now` (docs/DECISIONS.md)
pub fn merge(
    one: &[u8],
    two: &[u8],
    loader: &mut [u16],
    first: &mut [u16],
    last: &mut [u16],
    from: &mut [u16],
    to: &mut [u16],
    low: &mut [u16],
    high: &mut [u16],
) -> Result<Sheet, Refusal>
    ensures result_value { reply_of result
        ≡ merging one.now two.now
        (sizes_of (rooms loader.old first.old last.old from.old to.old low.old
        high.old)) }
    ensures high_after { rooms loader.new first.new last.new from.new to.new low.new
        high.new
        ≡ (let m = rooms loader.old first.old last.old from.old to.old low.old
        high.old in
        leaves (merging one.now two.now (sizes_of m)) (merged_in one.now two.now) m) }
{
    let mut lists = JoinedLists::cleared();
    let merged = lists.join(one, two)?;
    if !read_rooms::lists_fit(
        merged,
        loader.len(),
        first.len(),
        last.len(),
        from.len(),
        to.len(),
        low.len(),
        high.len(),
    ) {
        return Err(Question::Rooms.refused());
    }
    read_rooms::fill(
        merged,
        &lists.numbers,
        &lists.firsts,
        &lists.lasts,
        &lists.froms,
        &lists.tos,
        &lists.lows,
        &lists.highs,
        loader,
        first,
        last,
        from,
        to,
        low,
        high,
    );
    Ok(merged)
}
