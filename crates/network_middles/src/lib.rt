#![tactic(auto)]

ghost use Rattle.std.specs.Prelude.{◌≡◌, ◌-◌, ◌*◌, ◌≤◌, ◌<◌, length};
ghost use Rattle.network.specs.Table.{max_boundaries};
ghost use Rattle.network_pass.specs.Pass.{pass_from, Ran, After};
ghost use Rattle.network_pass.specs.PassBounds.{StaysSmall};

use network::{MAX_BOUNDARIES, STRETCH, clear, falls, load_row, relax_row, stretch_end, stretches};
use network_pass::{NegativeCycle, Outcome};

// The middle boundaries from..to, until a diagonal entry falls below 0. The table is then left half done.
fn run_middles(t: &mut [i16], w: usize, from: usize, to: usize) -> Outcome
    requires { (0 < w) × (w ≤ max_boundaries) × (w * w ≤ length t.old) × (from ≤ to) × (to ≤ w) × StaysSmall w from (to - from) t.old }
    ensures { Ran w t.old (pass_from (to - from) from w t.old) result t.new }
{
    let mut mid = [0i16; MAX_BOUNDARIES];
    // stays: one labelled break leaves all three loops, the form that the request names (docs/DECISIONS.md)
    'pass: {
        for m in from..to {
            load_row(t, m, w, &mut mid);
            for a in 0..w {
                let start = a * w;
                let row = &mut t[start..start + w];
                let am = row[m];
                for k in 0..stretches(w) {
                    let b = k * STRETCH;
                    let e = stretch_end(b, w);
                    relax_row(&mut row[b..e], &mid[b..e], am);
                    if falls(row, a, b, e) {
                        break 'pass Err(NegativeCycle);
                    }
                }
            }
        }
        Ok(())
    }
}

// The middle boundaries from..to. Where they do not all finish, the table's places become 0; places past the table never change.
pub fn pass_middles(t: &mut [i16], w: usize, from: usize, to: usize) -> Outcome
    requires { (0 < w) × (w ≤ max_boundaries) × (w * w ≤ length t.old) × (from ≤ to) × (to ≤ w) × StaysSmall w from (to - from) t.old }
    ensures { After w t.old (pass_from (to - from) from w t.old) result t.new }
{
    // The compiler reads no contracts. This tells it how many boundaries there are at most, and so that a row's second stretch is its last.
    let capped = w.min(MAX_BOUNDARIES);
    let outcome = run_middles(t, capped, from, to);
    if outcome.is_err() {
        clear(w * w, t);
    }
    outcome
}
