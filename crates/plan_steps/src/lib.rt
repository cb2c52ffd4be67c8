#![tactic(auto)]

ghost use Rattle.std.specs.Prelude.{◌≡◌, ◌++◌, ◌≤◌, length, drop};
ghost use Rattle.network_pass.specs.Pass.{stopped};
ghost use Rattle.sheet.specs.Sheet.{Sheet, printed_plan, looked, boundaries};
ghost use Rattle.sheet.specs.Lists.{given};
ghost use Rattle.limits.specs.LimitTable.{CanFill};
ghost use Rattle.plan_steps.specs.Closing.{passed, Closed, RingFound};
ghost use Rattle.plan_steps.specs.Filling.{Ready, PlanFilled};

use network_pass::NegativeCycle;
use sheet::Lists;

// The limits of all steps, and the pass over them.
pub fn close_limits(lists: &Lists<'_>, table: &mut [i16]) -> Result<(), NegativeCycle>
    requires { CanFill lists.now (length table.old) }
    ensures { Closed (given lists.now) table.old result table.new }
{
    limits::fill::fill_limits(lists, table);
    network_passes::pass(table, sheet::boundaries(lists.span))
}

// The printed plan, from row 0 of the finished table. Answers how many units were looked at.
fn seat_units(w: usize, first: &[u16], last: &[u16], table: &[i16], plan: &mut [u16]) -> usize
    requires { ((s : Sheet) × Ready s w first.now last.now table.now) × (length first.now ≤ length plan.old) }
    ensures { (s : Sheet) → Ready s w first.now last.now table.now
        → (plan.new ≡ printed_plan s ++ drop (length first.now) plan.old) × (result ≡ looked s) }
{
    plan_seats::seat(first, last, &table[0..w], plan)
}

// A ring of the sheet's own limits, where the pass has stopped: its length. The table's places are 0 again after it.
pub fn find_ring(lists: &Lists<'_>, table: &mut [i16], ring: &mut [u16]) -> usize
    requires { let s = given lists.now in
        CanFill lists.now (length table.old) × (boundaries s ≤ length ring.old) × (passed s ≡ stopped) }
    ensures { RingFound (given lists.now) table.old ring.old result table.new ring.new }
{
    let w = sheet::boundaries(lists.span);
    limits::fill::fill_limits(lists, table);
    let n = network_cycles::negative_cycle(table, w, ring);
    network::clear(w * w, table);
    n
}

// Seats and narrowed windows, from the finished table. Answers how many units seating looked at.
pub fn fill_plan(
    w: usize,
    first: &[u16],
    last: &[u16],
    table: &[i16],
    plan: &mut [u16],
    earliest: &mut [u16],
    latest: &mut [u16],
) -> usize
    requires ready { (s : Sheet) × Ready s w first.now last.now table.now }
    requires rooms { (length first.now ≤ length plan.old) × (length first.now ≤ length earliest.old) × (length first.now ≤ length latest.old) }
    ensures { (s : Sheet) → Ready s w first.now last.now table.now
        → PlanFilled s plan.old earliest.old latest.old result plan.new earliest.new latest.new }
{
    let looked = seat_units(w, first, last, table, plan);
    plan_windows::narrow(first, last, plan, table, w, earliest, latest);
    looked
}
