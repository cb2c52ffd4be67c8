#![tactic(auto)]

ghost use Rattle.sheet.specs.Lists.{given_by};
ghost use Rattle.plan_ask.specs.Asking.{Listed};
ghost use Rattle.answer_conditions.specs.Answer.{AnswerToSheet, AnswerTo, Answered};

use answer_lists::{fits_sheet, plan_sheet};
use forms::House;
use print_page::MAX_PAGE;
use read_arrays::SheetArrays;
use sheet::WrittenLists;
use wave_words::Query;

// The answer to what is asked of a sheet.
fn answer_sheet(query: Query, lists: &WrittenLists<'_>, page: &mut [u8; MAX_PAGE]) -> usize
    requires { Listed lists.now }
    ensures { Answered (AnswerToSheet query lists.now.loader (given_by lists.now)) page.old page.new result }
{
    match query {
        Query::Plan => plan_sheet(lists, page),
        Query::Fits => fits_sheet(&lists.constraints, page),
    }
}

// The answer to what is asked of a text of a house, from the first place of the page on, and the place just past it. The lists are long enough for every
// sheet and the page for every answer, so that no text is refused by 12 or 15.
pub fn answer(house: House, query: Query, text: &[u8], page: &mut [u8; MAX_PAGE]) -> usize
    ensures { Answered (AnswerTo house query text.now) page.old page.new result }
{
    let mut arrays = SheetArrays::cleared();
    match arrays.read(house, text) {
        Err(refusal) => print_lines::put_refusal(
            page,
            0,
            refusal.number as u16,
            refusal.line as u16,
        ),
        Ok(s) => answer_sheet(query, &arrays.lists(s), page),
    }
}
