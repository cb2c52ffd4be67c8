#![tactic(auto)]

ghost use Rattle.std.specs.Prelude.{◌≡◌};
ghost use Rattle.sheet.specs.Lists.{given};
ghost use Rattle.plan_rooms.specs.Rooms.{lent, decide_rooms, seat_rooms, plan_lent, decide_lent, seat_lent, rooms_fit};
ghost use Rattle.plan_ask.specs.Asking.{Solvable};
ghost use Rattle.plan_steps.specs.Closing.{passed};
ghost use Rattle.plan_answers.specs.Planning.{by_pass, looked_by, Settled, DecideSettled, SeatSettled};
ghost use Rattle.plan_answers.specs.Reply.{fit_reply, seated_reply, seated_looks};

use network_pass::NegativeCycle;
use plan_answers::{Fit, Ring};
use sheet::Lists;

// Whether a sheet of which every question is answered yes fits: the finished table, or none and a ring.
pub fn decide(lists: &Lists<'_>, table: &mut [i16], ring: &mut [u16]) -> Fit
    requires { Solvable lists.now (rooms_fit (given lists.now) (decide_lent (decide_rooms table.old ring.old))) }
    ensures { let s = given lists.now in
        DecideSettled (by_pass (passed s)) s (decide_rooms table.old ring.old) (fit_reply result)
        (decide_rooms table.new ring.new) }
{
    match plan_steps::close_limits(lists, table) {
        Ok(()) => Ok(()),
        Err(NegativeCycle) => {
            let length = plan_steps::find_ring(lists, table, ring);
            Err(Ring { length })
        }
    }
}

// The seats of a sheet of which every question is answered yes, and its narrowed windows, and how many units were looked at, or none. The table is worked
// out from the lists, whatever its room held.
pub fn seat(
    lists: &Lists<'_>,
    table: &mut [i16],
    plan: &mut [u16],
    earliest: &mut [u16],
    latest: &mut [u16],
) -> Option<usize>
    requires { Solvable lists.now (rooms_fit (given lists.now) (seat_lent (seat_rooms table.old plan.old earliest.old latest.old))) }
    ensures settled { let s = given lists.now in
        SeatSettled (by_pass (passed s)) s (seat_rooms table.old plan.old earliest.old latest.old) (seated_reply result)
        (seat_rooms table.new plan.new earliest.new latest.new) }
    ensures looked { let s = given lists.now in
        seated_looks result ≡ looked_by (by_pass (passed s)) s }
{
    plan_steps::close_limits(lists, table).ok()?;
    let w = sheet::boundaries(lists.span);
    let looked = plan_steps::fill_plan(w, lists.first, lists.last, table, plan, earliest, latest);
    Some(looked)
}

// A plan in the rooms for a sheet of which every question is answered yes, or none and a ring.
// stays: the rooms one by one; of a struct of `&mut` lists a clause can tell what is left only part by part, as `exit.1.0.now` (docs/DECISIONS.md)
pub fn solve(
    lists: &Lists<'_>,
    table: &mut [i16],
    plan: &mut [u16],
    earliest: &mut [u16],
    latest: &mut [u16],
    ring: &mut [u16],
) -> Fit
    requires { Solvable lists.now (rooms_fit (given lists.now) (plan_lent (lent table.old plan.old earliest.old latest.old ring.old))) }
    ensures { let s = given lists.now in
        Settled (by_pass (passed s)) s
        (lent table.old plan.old earliest.old latest.old ring.old) (fit_reply result)
        (lent table.new plan.new earliest.new latest.new ring.new) }
{
    decide(lists, table, ring)?;
    let w = sheet::boundaries(lists.span);
    plan_steps::fill_plan(w, lists.first, lists.last, table, plan, earliest, latest);
    Ok(())
}
