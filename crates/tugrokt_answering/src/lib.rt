// Answering a text for other languages: the page of the answer onto a lent page, with the reply as its numbers.
#![tactic(auto)]

ghost use Rattle.answer_conditions.specs.Answer.{AnswerTo};
ghost use Rattle.tugrokt_answering.specs.Told.{AnswerTold};

use forms::House;
use print_page::MAX_PAGE;
use questions::Question;
use tugrokt_replies::writing;
use tugrokt_replies::writing::Writing;
use wave_words::Query;

// Answers what is asked of a text of a house, and puts the answer onto the page from the place on. A text that reading refuses has the page of its refusal:
// the call is refused by 15 alone, so the answer is first written into an array of the call's own.
pub fn answer_house(
    house: House,
    query: Query,
    text: &[u8],
    page: &mut [u8],
    place: usize,
) -> Writing
    ensures { AnswerTold (AnswerTo house query text.now) page.old place result page.new }
{
    let mut bytes = [0u8; MAX_PAGE];
    let length = answer::answer(house, query, text, &mut bytes);
    if print_writer::holds(page.len(), place, length) {
        let next = print_writer::write(page, place, &bytes[..length]);
        writing::numbers_of(place, Ok(next))
    } else {
        writing::numbers_of(place, Err(Question::Page.refused()))
    }
}
