#![tactic(auto)]

ghost use Rattle.std.specs.Prelude.{◌*◌, ◌≤◌, ◌<◌, length};
ghost use Rattle.network.specs.Table.{max_boundaries};
ghost use Rattle.network.specs.Bounds.{Small};
ghost use Rattle.network_pass.specs.Pass.{pass_from, pass_of, After};
ghost use Rattle.network_pass.specs.PassBounds.{Limited};

use network_middles::pass_middles;
use network_pass::Outcome;

// One middle boundary, of a table that may come from anywhere as long as its numbers are small.
pub fn pass_middle(t: &mut [i16], w: usize, m: usize) -> Outcome
    requires { (m < w) × (w ≤ max_boundaries) × (w * w ≤ length t.old) × Small w t.old }
    ensures { After w t.old (pass_from 1 m w t.old) result t.new }
{
    pass_middles(t, w, m, m + 1)
}

// The whole pass.
pub fn pass(t: &mut [i16], w: usize) -> Outcome
    requires { (0 < w) × (w ≤ max_boundaries) × (w * w ≤ length t.old) × Limited w t.old }
    ensures { After w t.old (pass_of w t.old) result t.new }
{
    pass_middles(t, w, 0, w)
}
