#![tactic(auto)]

ghost use Rattle.std.specs.Prelude.{ℕ, ◌-◌, ◌*◌, ◌<◌, ◌≤◌, length};
ghost use Rattle.integers.specs.Parts.{Within};
ghost use Rattle.network.specs.Table.{entry};
ghost use Rattle.sheet.specs.Questions.{windows_of};
ghost use Rattle.sheet.specs.Sizes.{max_units};
ghost use Rattle.limit_windows.specs.Inside.{WindowsFit, inside_weights};
ghost use Rattle.plan_arcs.specs.Arcs.{mirrored, one_less, HasEntries};

use limit_windows::windows_inside;

// The table seen from its end.
pub fn mirror(t: &[i16], w: usize, out: &mut [i16])
    requires { (w * w ≤ length t.now) × (w * w ≤ length out.old) }
    ensures { HasEntries w (mirrored (w - 1) (entry w t.now)) out.new }
{
    // stays: both loops count boundaries, of which places of two tables come; here and in `arcs`.
    for a in 0..w {
        let row = a * w;
        let column = w - 1 - a;
        for b in 0..w {
            out[row + b] = t[(w - 1 - b) * w + column];
        }
    }
}

// The arcs into every boundary, from the windows inside every stretch. Those stand below the diagonal, and the arcs above it.
fn arcs(w: usize, t: &mut [i16])
    requires { (w * w ≤ length t.old) × ((a b : ℕ) → a < w → b < w → Within max_units (entry w t.old a b)) }
    ensures { HasEntries w (one_less (entry w t.old)) t.new }
{
    for b in 0..w {
        let row = b * w;
        for a in b + 1..w {
            t[row + a] = t[a * w + b] - 1;
        }
    }
}

// The arcs that cuts may add, from the units' windows.
pub fn cut_arcs(first: &[u16], last: &[u16], w: usize, out: &mut [i16])
    requires { WindowsFit w first.now last.now × (w * w ≤ length out.old) }
    ensures { HasEntries w (one_less (inside_weights (windows_of first.now last.now))) out.new }
{
    windows_inside(first, last, w, out);
    arcs(w, out);
}
