#![tactic(auto)]

ghost use Rattle.std.specs.Prelude.{◌≡◌, ◌≤◌, ◌<◌, length};
ghost use Rattle.questions.specs.Questions.{first_no};
ghost use Rattle.sheet.specs.Sizes.{max_bytes};
ghost use Rattle.sheet.specs.Lists.{given_by, written_by};
ghost use Rattle.plan_ask.specs.Asking.{Listed};
ghost use Rattle.write_ask.specs.HouseQuestions.{house_questions};
ghost use Rattle.sheet_texts.specs.SheetText.{sheet_text};
ghost use Rattle.print_bytes.specs.Writing.{with_bytes, refused_line};
ghost use Rattle.write_fronts.specs.Outcome.{refused, bytes_by, reply_by};
ghost use Rattle.convert_lists.specs.Converting as says;

use forms::House;
use questions::Refusal;
use sheet::WrittenLists;
use write_lines::MAX_TEXT;

// What was written on the page: the place just past it; and the refusal, where it is the line of one and not the sheet as a text of the other house.
#[derive(Clone, Copy)]
pub struct Converted {
    pub place: usize,
    pub refusal: Option<Refusal>,
}

// The line of a refusal, from the first place of the page on.
pub fn refuse(page: &mut [u8; MAX_TEXT], refusal: Refusal) -> Converted
    requires { (refusal.number < 100) × (refusal.line ≤ max_bytes) }
    ensures { let line = refused_line refusal.number refusal.line in
        (says.reply_of result ≡ refused refusal.number refusal.line (length line)) × (page.new ≡ with_bytes page.old 0 line) }
{
    let next = write_fronts::put_refused(page, refusal.number, refusal.line);
    Converted {
        place: next,
        refusal: Some(refusal),
    }
}

// What the house asks of a sheet, which planning accepts, and then its text.
pub fn convert_sheet(house: House, lists: &WrittenLists<'_>, page: &mut [u8; MAX_TEXT]) -> Converted
    requires { Listed lists.now }
    ensures { let v = first_no (house_questions house (given_by lists.now)) in
        let text = sheet_text house (written_by lists.now) in
        (says.reply_of result ≡ reply_by v text) × (page.new ≡ with_bytes page.old 0 (bytes_by v text)) }
{
    let given = &lists.constraints;
    match write_ask::ask_house(house, given.span, given.last, given.low) {
        Err(refusal) => refuse(page, refusal),
        Ok(()) => {
            let next = write_lines::put_sheet(house, page, 0, lists);
            Converted {
                place: next,
                refusal: None,
            }
        }
    }
}
