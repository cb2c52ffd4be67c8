#![tactic(auto)]

ghost use Rattle.std.specs.Prelude.{◌≡◌};
ghost use Rattle.sheet.specs.Lists.{given_by};
ghost use Rattle.plan_rooms.specs.Rooms.{lent, decide_rooms, seat_rooms, decide_lent, seat_lent};
ghost use Rattle.plan_answers.specs.Planning.{conclusion, conclusion_in, looked_by, Settled, DecideSettled, SeatSettled};
ghost use Rattle.plan_answers.specs.Reply.{reply_of, decision_reply, seat_reply, looks_told};

use plan_answers::Fit;
use questions::Refusal;
use sheet::WrittenLists;

// Plans from lists. The questions come first; then the sheet gets a plan, or none and a ring.
// stays: the rooms one by one; of a struct of `&mut` lists a clause can tell what is left only part by part, as `exit.1.0.now` (docs/DECISIONS.md)
pub fn plan(
    lists: &WrittenLists<'_>,
    table: &mut [i16],
    plan: &mut [u16],
    earliest: &mut [u16],
    latest: &mut [u16],
    ring: &mut [u16],
) -> Result<Fit, Refusal>
    ensures { let before = lent table.old plan.old earliest.old latest.old ring.old in
        Settled (conclusion lists.now before) (given_by lists.now) before (reply_of result)
        (lent table.new plan.new earliest.new latest.new ring.new) }
{
    let rooms = plan_rooms::for_plan(table, plan, earliest, latest, ring);
    plan_ask::ask(lists, rooms)?;
    Ok(plan_solve::solve(&lists.constraints, table, plan, earliest, latest, ring))
}

// Decides from lists whether the sheet fits. The questions come first, of the table's and the ring's room alone; no unit is seated.
pub fn decide(lists: &WrittenLists<'_>, table: &mut [i16], ring: &mut [u16]) -> Result<Fit, Refusal>
    ensures { let before = decide_rooms table.old ring.old in
        DecideSettled (conclusion_in lists.now (decide_lent before)) (given_by lists.now) before (decision_reply result) (decide_rooms table.new ring.new) }
{
    plan_ask::ask(lists, plan_rooms::for_decision(table, ring))?;
    Ok(plan_solve::decide(&lists.constraints, table, ring))
}

// Seats the units of a sheet in lists and narrows their windows, and counts the units that it looks at. The questions come first, of these rooms alone. The
// table is worked out from the lists: what its room holds before the call is not looked at.
pub fn seat(
    lists: &WrittenLists<'_>,
    table: &mut [i16],
    plan: &mut [u16],
    earliest: &mut [u16],
    latest: &mut [u16],
) -> Result<Option<usize>, Refusal>
    ensures settled { let before = seat_rooms table.old plan.old earliest.old latest.old in
        SeatSettled (conclusion_in lists.now (seat_lent before)) (given_by lists.now) before (seat_reply result)
        (seat_rooms table.new plan.new earliest.new latest.new) }
    ensures looked { let before = seat_rooms table.old plan.old earliest.old latest.old in
        looks_told result ≡ looked_by (conclusion_in lists.now (seat_lent before)) (given_by lists.now) }
{
    plan_ask::ask(lists, plan_rooms::for_seats(table, plan, earliest, latest))?;
    Ok(plan_solve::seat(&lists.constraints, table, plan, earliest, latest))
}
