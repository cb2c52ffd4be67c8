#![tactic(auto)]

ghost use Rattle.std.specs.Prelude.{◌≡◌, ◌++◌, ◌+◌, ◌*◌, ◌<◌, ◌≤◌, length, drop};
ghost use Rattle.network.specs.Table.{table_of};
ghost use Rattle.sheet.specs.Questions.{windows_of};
ghost use Rattle.limit_windows.specs.Inside.{WindowsFit, inside_weights, exact_weights};

use limit_places::back_place;

// Entry (a, b): minus the number of windows that are exactly the slots b+1 to a.
pub fn exact_windows(first: &[u16], last: &[u16], w: usize, t: &mut [i16])
    requires { (w * w ≤ length t.old) × WindowsFit w first.now last.now }
    ensures { t.new ≡ table_of w (exact_weights (windows_of first.now last.now)) ++ drop (w * w) t.old }
{
    network::clear(w * w, t);
    for (&first, &last) in first.iter().zip(last) {
        t[back_place(first, last, w)] -= 1;
    }
}

// Entry (a, b): minus the number of windows inside the slots b+1 to a, by sums along each row and down each column.
pub fn windows_inside(first: &[u16], last: &[u16], w: usize, t: &mut [i16])
    requires { (w * w ≤ length t.old) × WindowsFit w first.now last.now }
    ensures { t.new ≡ table_of w (inside_weights (windows_of first.now last.now)) ++ drop (w * w) t.old }
{
    exact_windows(first, last, w, t);
    // stays: both loops count boundaries, of which the places of the table come.
    for a in 1..w {
        let row = a * w;
        let mut sum: i16 = 0;
        // Right of the diagonal no window lies inside.
        for b in (0..a).rev() {
            let at = row + b;
            sum += t[at];
            t[at] = sum + t[at - w];
        }
    }
}
