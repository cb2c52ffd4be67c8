#![tactic(auto)]

ghost use Rattle.std.specs.Prelude.{◌+◌, ◌<◌, ◌≤◌, length};
ghost use Rattle.slots.specs.Slots.{slot_end};
ghost use Rattle.network_cuts.specs.Decider.{Modest, LeastSum, CutNetwork, Cuts, Sinks, AdmitsAt, Settles, Decides, Barred, LeastCutAt};

use slots::{Boundary, Slot};

// What lowering a potential to the arcs of a cut comes to: it keeps them, it fell, or no potential keeps the arcs.
// stays: with a `Result<bool, _>` and `?` in its place the decider takes a tenth more instructions.
#[derive(Clone, Copy)]
enum Settled {
    Still,
    Lower,
    Lost,
}

// The window f..l cut at v, in the network of the table d with the arcs m that cuts add. Its methods take it by value, which is faster.
#[derive(Clone, Copy)]
struct CutWindow<'a> {
    d: &'a [i16],
    m: &'a [i16],
    w: usize,
    f: Slot,
    v: Slot,
    l: Slot,
}

// The least sum of two numbers at one place.
fn least_sum(xs: &[i16], ys: &[i16]) -> i16
    requires { (0 < length xs.now) × (length xs.now ≤ length ys.now) × Modest xs.now × Modest ys.now }
    ensures { LeastSum (length xs.now) xs.now ys.now result }
{
    let mut least = xs[0] + ys[0];
    // stays: over a `zip` the decider takes a tenth more instructions.
    for i in 0..xs.len() {
        least = least.min(xs[i] + ys[i]);
    }
    least
}

impl CutWindow<'_> {
    // Lowers z to what the arcs of the cut ask at boundary b, and carries that through row b of the table.
    fn settle(self, b: Boundary, z: &mut [i16]) -> Settled
        requires { Sinks self z.old × (b.0 < slot_end self.f.0) }
        ensures { Settles self.entry b.0 (b.0 + 1) z.old z.new result }
    {
        let row = b.0 * self.w;
        let from = self.v.end().0;
        let to = self.l.end().0;
        let asked = least_sum(&z[from..to], &self.m[row + from..row + to]);
        if asked >= z[b.0] {
            return Settled::Still;
        }
        network::relax_row(z, &self.d[row..row + self.w], asked);
        let lost = z[self.f.start().0] < 0;
        if lost {
            return Settled::Lost;
        }
        Settled::Lower
    }

    // Settles every boundary before the window once.
    fn sweep(self, z: &mut [i16]) -> Settled
        requires { Sinks self z.old }
        ensures { Settles self.entry 0 (slot_end self.entry.f.0) z.old z.new result }
    {
        let mut fell = false;
        // stays: boundaries are counted, which settling is given.
        for b in 0..self.f.end().0 {
            match self.settle(Boundary(b), z) {
                Settled::Still => {}
                Settled::Lower => fell = true,
                Settled::Lost => return Settled::Lost,
            }
        }
        if fell { Settled::Lower } else { Settled::Still }
    }

    // Lowers z until it keeps the arcs of the cut, or until no potential does.
    fn sink(self, z: &mut [i16]) -> bool
        requires { Sinks self z.old }
        ensures { let c = self.entry in Decides result (AdmitsAt c.w c.d.now c.m.now c.f.0 c.v.0 c.l.0) }
    {
        // stays: a loop until the cut is settled; how often is known by no number.
        loop {
            match self.sweep(z) {
                Settled::Still => return true,
                Settled::Lower => {}
                Settled::Lost => return false,
            }
        }
    }
}

// Whether the network admits the cut of the window f..l at v. The potential starts as the highest that is 0 before the window.
pub fn admits(d: &[i16], m: &[i16], w: usize, f: Slot, v: Slot, l: Slot) -> bool
    requires { CutNetwork w d.now m.now × Cuts w f.0 v.0 l.0 }
    ensures { Decides result (AdmitsAt w d.now m.now f.0 v.0 l.0) }
{
    let mut z = [0i16; network::MAX_BOUNDARIES];
    let row = f.start().0 * w;
    lists::copy_list(&d[row..row + w], &mut z);
    let cut = CutWindow { d, m, w, f, v, l };
    cut.sink(&mut z[..w])
}

// The least admitted cut of the window f..l: `known` is an admitted one, and none below `low` is. Mostly `low` is the one, so it is tried
// first; the rest is found by halving.
pub fn least_cut(d: &[i16], m: &[i16], w: usize, f: Slot, l: Slot, low: Slot, known: Slot) -> Slot
    requires cut_network { CutNetwork w d.now m.now × (1 ≤ f.0) × (f.0 ≤ low.0) × (f.0 ≤ known.0) × (known.0 ≤ l.0) × (slot_end l.0 < w) }
    requires admits_at { AdmitsAt w d.now m.now f.0 known.0 l.0 × Barred w d.now m.now f.0 l.0 low.0 }
    ensures { LeastCutAt w d.now m.now f.0 l.0 result.0 }
{
    let mut from = low.0;
    let mut to = known.0;
    let mut middle = low.0;
    // stays: halving; no index is counted.
    while from < to {
        if admits(d, m, w, f, Slot(middle), l) {
            to = middle;
        } else {
            from = middle + 1;
        }
        middle = from + (to - from) / 2;
    }
    Slot(to)
}
