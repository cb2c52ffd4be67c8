#![tactic(auto)]

ghost use Rattle.std.specs.Prelude.{◌≡◌, ◌≤◌, length};
ghost use Rattle.sheet.specs.Sheet.{Sheet};
ghost use Rattle.network_cuts.specs.Decider.{CutNetwork};
ghost use Rattle.plan_marks.specs.Marks.{Units};
ghost use Rattle.plan_windows.specs.Windows.{Admitted, LeastCuts, AdmittedLate, GreatestCuts};
ghost use Rattle.plan_windows.specs.Narrowing.{Narrowable, earliest_room, latest_room};

use plan_arcs::{cut_arcs, mirror};
use plan_cuts::cut_windows;
use plan_marks::{Side, mark, read_marks};

// Each unit's least cut.
fn least_cuts(
    side: Side,
    w: usize,
    d: &[i16],
    m: &[i16],
    opens: &[u16],
    closes: &[u16],
    plan: &[u16],
    out: &mut [u16],
)
    requires cut_network { CutNetwork w d.now m.now × Units side w opens.now closes.now plan.now × (length opens.now ≤ length out.old) }
    requires admitted { Admitted side w d.now m.now opens.now closes.now plan.now }
    ensures { LeastCuts side w d.now m.now opens.now closes.now out.old out.new }
{
    let mut marks = [0u16; sheet::Sheet::MAX_CELLS];
    mark(side, w, opens, closes, plan, &mut marks);
    cut_windows(d, m, w, &mut marks);
    read_marks(side, w, opens, closes, &marks, out);
}

// Each unit's greatest cut from below: its least cut in the network seen from its end, where its window opens at its last slot.
fn greatest_cuts(
    d: &[i16],
    m: &[i16],
    w: usize,
    first: &[u16],
    last: &[u16],
    plan: &[u16],
    out: &mut [u16],
)
    requires cut_network { CutNetwork w d.now m.now × Units Side.Front w first.now last.now plan.now × (length first.now ≤ length out.old) }
    requires admitted_late { AdmittedLate w d.now m.now first.now last.now plan.now }
    ensures { GreatestCuts w d.now m.now first.now last.now out.old out.new }
{
    let mut table = [0i16; sheet::Sheet::MAX_CELLS];
    mirror(d, w, &mut table);
    let mut added = [0i16; sheet::Sheet::MAX_CELLS];
    mirror(m, w, &mut added);
    least_cuts(Side::End, w, &table, &added, last, first, plan, out);
}

// Every unit's earliest and latest slot over all lawful plans.
pub fn narrow(
    first: &[u16],
    last: &[u16],
    plan: &[u16],
    table: &[i16],
    w: usize,
    earliest: &mut [u16],
    latest: &mut [u16],
)
    requires narrowable { (s : Sheet) × Narrowable s first.now last.now plan.now table.now w }
    requires rooms { (length first.now ≤ length earliest.old) × (length first.now ≤ length latest.old) }
    ensures early { (s : Sheet) → Narrowable s first.now last.now plan.now table.now w
        → earliest.new ≡ earliest_room s earliest.old }
    ensures late { (s : Sheet) → Narrowable s first.now last.now plan.now table.now w
        → latest.new ≡ latest_room s latest.old }
{
    let mut added = [0i16; sheet::Sheet::MAX_CELLS];
    cut_arcs(first, last, w, &mut added);
    least_cuts(Side::Front, w, table, &added, first, last, plan, earliest);
    greatest_cuts(table, &added, w, first, last, plan, latest);
}
