ghost use Rattle.answer_conditions.specs.Answer.{AnswerTo};
ghost use Rattle.tugrokt_answering.specs.Told.{AnswerTold};

use forms::House;
use tugrokt_replies::writing::Writing;
use wave_words::Query;

// Answers a text of our own with its plan, as the program prints it.
#[unsafe(no_mangle)]
pub extern "C" fn tugrokt_answer(text: &[u8], page: &mut [u8], place: usize) -> Writing
    ensures { AnswerTold (AnswerTo House.Ours Query.Plan text.now) page.old place result page.new }
{
    tugrokt_answering::answer_house(House::Ours, Query::Plan, text, page, place)
}

// Answers whether a text of our own fits, and how many units each slot may have.
#[unsafe(no_mangle)]
pub extern "C" fn tugrokt_answer_fits(text: &[u8], page: &mut [u8], place: usize) -> Writing
    ensures { AnswerTold (AnswerTo House.Ours Query.Fits text.now) page.old place result page.new }
{
    tugrokt_answering::answer_house(House::Ours, Query::Fits, text, page, place)
}

// Answers a text of the partner house with its plan.
#[unsafe(no_mangle)]
pub extern "C" fn tugrokt_answer_partner(text: &[u8], page: &mut [u8], place: usize) -> Writing
    ensures { AnswerTold (AnswerTo House.Partner Query.Plan text.now) page.old place result page.new }
{
    tugrokt_answering::answer_house(House::Partner, Query::Plan, text, page, place)
}

// Answers whether a text of the partner house fits.
#[unsafe(no_mangle)]
pub extern "C" fn tugrokt_answer_fits_partner(text: &[u8], page: &mut [u8], place: usize) -> Writing
    ensures { AnswerTold (AnswerTo House.Partner Query.Fits text.now) page.old place result page.new }
{
    tugrokt_answering::answer_house(House::Partner, Query::Fits, text, page, place)
}
