#![tactic(auto)]

ghost use Rattle.std.specs.Prelude.{◌≡◌, length};
ghost use Rattle.questions.specs.Questions.{first_no, verdict_of};
ghost use Rattle.plan_ask.specs.Asking.{Listed};
ghost use Rattle.write.specs.Writing.{text_of, sheet_asked, page_asked, concluded, leaves, writing, page_after};
ghost use Rattle.write.specs.Writing as says;

use forms::House;
use questions::{Question, Refusal};
use sheet::WrittenLists;
use write_lines::MAX_TEXT;

// What is asked of the lists: planning's questions, and then those of the house.
fn ask(house: House, lists: &WrittenLists<'_>) -> Result<(), Refusal>
    ensures { verdict_of result ≡ first_no (sheet_asked house lists.now) }
{
    plan_ask::ask_lists(lists)?;
    write_ask::ask_house(
        house,
        lists.constraints.span,
        lists.constraints.last,
        lists.constraints.low,
    )
}

// A page that may be too short: the text is written into an array of the call's own and, where the page holds it, put there.
fn write_copy(
    house: House,
    lists: &WrittenLists<'_>,
    page: &mut [u8],
    at: usize,
) -> Result<usize, Refusal>
    requires { Listed lists.now }
    ensures { let bytes = text_of house lists.now in
        let v = first_no (page_asked (length page.old) at bytes) in
        (says.reply_of result ≡ concluded v at bytes) × (page.new ≡ leaves v page.old at bytes) }
{
    let mut text = [0u8; MAX_TEXT];
    let length = write_lines::put_sheet(house, &mut text, 0, lists);
    if !print_writer::holds(page.len(), at, length) {
        return Err(Question::Page.refused());
    }
    let next = print_writer::write(page, at, &text[..length]);
    Ok(next)
}

// The text, and question 15. A page that holds every text, as the Rust package lends it, is spared the array and the copy.
fn write_text(
    house: House,
    lists: &WrittenLists<'_>,
    page: &mut [u8],
    at: usize,
) -> Result<usize, Refusal>
    requires { Listed lists.now }
    ensures { let bytes = text_of house lists.now in
        let v = first_no (page_asked (length page.old) at bytes) in
        (says.reply_of result ≡ concluded v at bytes) × (page.new ≡ leaves v page.old at bytes) }
{
    if print_writer::holds(page.len(), at, MAX_TEXT) {
        return Ok(write_lines::put_sheet(house, page, at, lists));
    }
    write_copy(house, lists, page, at)
}

// Writes a sheet in lists onto the page as a text of the house, from the place on: what planning asks of the lists, then what the house asks, and then
// question 15. It answers the place just past the text; a refusal leaves the page.
pub fn write_sheet(
    house: House,
    lists: &WrittenLists<'_>,
    page: &mut [u8],
    at: usize,
) -> Result<usize, Refusal>
    ensures { (says.reply_of result ≡ writing house lists.now (length page.old) at)
        × (page.new ≡ page_after house lists.now page.old at) }
{
    ask(house, lists)?;
    write_text(house, lists, page, at)
}
