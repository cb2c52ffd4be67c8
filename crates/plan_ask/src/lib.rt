#![tactic(auto)]

ghost use Rattle.std.specs.Prelude.{◌≡◌};
ghost use Rattle.questions.specs.Questions.{first_no, verdict_of};
ghost use Rattle.sheet.specs.Lists.{given_by};
ghost use Rattle.plan_rooms.specs.Rooms.{rooms_fit};
ghost use Rattle.plan_ask.specs.Questions.{list_questions, refusal_by};

use plan_rooms::Lengths;
use questions::{Question, Refusal};
use sheet::{Sheet, WrittenLists};

// What is asked of the lists, in its order: the first no, or none. No line is to blame. Every call asks this, and then for rooms of its own.
pub fn ask_lists(lists: &WrittenLists<'_>) -> Result<(), Refusal>
    ensures { verdict_of result ≡ first_no (list_questions lists.now) }
{
    if !plan_lists::all_agree(lists) {
        return Err(Question::ListLengths.refused());
    }
    let l = &lists.constraints;
    if !sheet::is_span(l.span) {
        return Err(Question::Span.refused());
    }
    if l.first.len() > Sheet::MAX_UNITS {
        return Err(Question::Units.refused());
    }
    if l.from.len() > Sheet::MAX_RULES {
        return Err(Question::Rules.refused());
    }
    if !plan_lists::all_rise(1, l.span, sheet::carried_place(l.span), l.first, l.last) {
        return Err(Question::Stretch.refused());
    }
    if !plan_lists::all_rise(1, l.span, l.span, l.from, l.to) {
        return Err(Question::Stretch.refused());
    }
    if !loaders::all_new(lists.loader) {
        return Err(Question::Loader.refused());
    }
    if !plan_lists::all_rise(0, Sheet::MAX_COUNT, Sheet::MAX_COUNT, l.low, l.high) {
        return Err(Question::Counts.refused());
    }
    Ok(())
}

// What a call asks: the lists first, and then for the rooms that it lends.
pub fn ask(lists: &WrittenLists<'_>, rooms: Lengths) -> Result<(), Refusal>
    ensures { verdict_of result ≡ refusal_by lists.now (rooms_fit (given_by lists.now) rooms) }
{
    ask_lists(lists)?;
    let l = &lists.constraints;
    if plan_rooms::rooms_fit(sheet::boundaries(l.span), l.first.len(), rooms) {
        Ok(())
    } else {
        Err(Question::Rooms.refused())
    }
}
