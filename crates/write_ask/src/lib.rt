#![tactic(auto)]

ghost use Rattle.std.specs.Prelude.{◌≡◌, [], ◌∷◌, leb, nat_lt};
ghost use Rattle.std.specs.List.{position};
ghost use Rattle.questions.specs.Questions.{first_no, verdict_of};
ghost use Rattle.questions.specs.Numbers.{number_of};
ghost use Rattle.write_ask.specs.HouseQuestions.{end_questions};
ghost use Rattle.write_ask.specs.HouseQuestions as asks;

use forms::House;
use questions::{Question, Refusal};

// What is asked of a sheet before it goes out as a text of a house.

// The place of the first number of a list that is past the most allowed, or none.
fn first_past(xs: &[u16], most: usize) -> Option<usize>
    ensures { result ≡ position (λ x. nat_lt most x) xs.now }
{
    xs.iter().position(|x| most < *x as usize)
}

// A question that is asked of each number of a list: is it at most so much? The line of the first that is not is to blame; lines are counted from 1.
fn ask_each(question: Question, xs: &[u16], most: usize) -> Result<(), Refusal>
    ensures { verdict_of result ≡ first_no (asks.ask_each (number_of question) (λ x. leb x most) xs.now ∷ []) }
{
    match first_past(xs, most) {
        Some(place) => Err(question.at(place + 1)),
        None => Ok(()),
    }
}

// What the house asks, of the last slots of the units and the lows of the rules.
pub fn ask_house(house: House, span: usize, last: &[u16], low: &[u16]) -> Result<(), Refusal>
    ensures { verdict_of result ≡ first_no (end_questions house span last.now low.now) }
{
    match house {
        House::Ours => Ok(()),
        House::Partner => {
            ask_each(Question::CarriedUnit, last, span)?;
            ask_each(Question::RuleLow, low, 0)
        }
    }
}
