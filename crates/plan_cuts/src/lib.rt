#![tactic(auto)]

ghost use Rattle.std.specs.Prelude.{◌≡◌, ◌*◌, ◌<◌, ◌≤◌, ℕ, MatchOption, IfSome, length, get_or};
ghost use Rattle.slots.specs.Slots.{slot_end};
ghost use Rattle.network_cuts.specs.Decider.{CutNetwork};
ghost use Rattle.plan_cuts.specs.Cuts.{LastMark, KnownRow, CommonCut, CutRow, Floor, KnownCuts, CutRows};

use network_cuts::{admits, least_cut};
use slots::Slot;

// The last place of the row that is marked.
fn last_marked(row: &[u16]) -> Option<usize>
    ensures { MatchOption result ((j : ℕ) → get_or row.now j 0 ≡ 0) (λ r. LastMark row.now r) }
{
    row.iter().rposition(|&mark| 0 < mark)
}

// A cut of every marked window that reaches to it. What the longest window admits, the others that open with it do too, so one try mostly
// serves the whole row. None where it fails, or where no window is marked.
fn common_cut(d: &[i16], m: &[i16], w: usize, f: Slot, row: &[u16], floor: &[u16]) -> Option<usize>
    requires { CutNetwork w d.now m.now × (1 ≤ f.0) × (slot_end f.0 < w) × (length row.now ≡ w) × (w ≤ length floor.now)
        × KnownRow w d.now m.now f.0 row.now }
    ensures { IfSome result (λ v. CommonCut w d.now m.now f.0 row.now v) }
{
    let l = last_marked(row)?;
    let v = f.0.max(floor[l] as usize);
    let known = row[l] as usize;
    if known <= v || admits(d, m, w, f, Slot(v), Slot(l)) {
        Some(v)
    } else {
        None
    }
}

// The least cuts of the windows that open in f, in the order in which they close: what is barred for one is barred for the next, and for
// the window that opens later and closes in the same slot.
fn cut_row(d: &[i16], m: &[i16], w: usize, f: Slot, row: &mut [u16], floor: &mut [u16])
    requires cut_network { CutNetwork w d.now m.now × (1 ≤ f.0) × (slot_end f.0 < w) × (length row.old ≡ w) × (w ≤ length floor.old) }
    requires known_row { KnownRow w d.now m.now f.0 row.old × Floor w d.now m.now f.0 floor.old }
    ensures cut_row { CutRow w d.now m.now f.0 w row.old row.new }
    ensures floor { Floor w d.now m.now f.0 floor.new }
{
    // No window reaches to w.
    let common = common_cut(d, m, w, f, row, floor).unwrap_or(w);
    let mut low = f.0;
    // stays: each slot is a number that the tries are given, beside its places in the two lists.
    for l in f.0..w {
        low = low.max(floor[l] as usize);
        let known = row[l] as usize;
        if 0 < known {
            let most = known.min(common);
            low = least_cut(d, m, w, f, Slot(l), Slot(low), Slot(most)).0;
            row[l] = low as u16;
        }
        floor[l] = low as u16;
    }
}

// The least cut of every marked window.
pub fn cut_windows(d: &[i16], m: &[i16], w: usize, marks: &mut [u16])
    requires { CutNetwork w d.now m.now × (w * w ≤ length marks.old) × KnownCuts w d.now m.now marks.old }
    ensures { CutRows w d.now m.now w marks.old marks.new }
{
    let mut floor = [0u16; sheet::Sheet::MAX_BOUNDARIES];
    // stays: the slot in which the windows of a row open is a number that cutting is given.
    for f in 1..w {
        let from = f * w;
        let to = from + w;
        cut_row(d, m, w, Slot(f), &mut marks[from..to], &mut floor);
    }
}
