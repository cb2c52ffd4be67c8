#![tactic(auto)]

ghost use Rattle.std.specs.Prelude.{◌≡◌, ◌*◌, ◌<◌, ◌≤◌, length};
ghost use Rattle.network.specs.Table.{max_boundaries};
ghost use Rattle.network.specs.Bounds.{Small};
ghost use Rattle.network_pass.specs.Pass.{pass_from, pass_of};
ghost use Rattle.network_pass.specs.PassBounds.{Limited};
ghost use Rattle.network_levels.specs.Finder.{Weighed, Infeasible, CycleAt};
ghost use Rattle.network_border.specs.Codes.{code_of, PassTold};

use network_pass::{NegativeCycle, Outcome};

// The pass and the finder of negative cycles for the tests, numbers and slices only. All three ask something of their caller, so they are no part of the
// library for other languages; what calls them from there tests it first.

// How a pass ended, as a number: 0 where it finished, 1 where it stopped.
fn code(outcome: Outcome) -> usize
    ensures { result ≡ code_of outcome }
{
    // stays: C has numbers.
    match outcome {
        Ok(()) => 0,
        Err(NegativeCycle) => 1,
    }
}

// The pass over limits.
#[unsafe(no_mangle)]
pub extern "C" fn tugrokt_pass(t: &mut [i16], w: usize) -> usize
    requires { (0 < w) × (w ≤ max_boundaries) × (w * w ≤ length t.old) × Limited w t.old }
    ensures { PassTold w t.old (pass_of w t.old) result t.new }
{
    let outcome = network_passes::pass(t, w);
    code(outcome)
}

// One middle boundary of a pass, over a table of small numbers.
#[unsafe(no_mangle)]
pub extern "C" fn tugrokt_middle(t: &mut [i16], w: usize, m: usize) -> usize
    requires { (m < w) × (w ≤ max_boundaries) × (w * w ≤ length t.old) × Small w t.old }
    ensures { PassTold w t.old (pass_from 1 m w t.old) result t.new }
{
    let outcome = network_passes::pass_middle(t, w, m);
    code(outcome)
}

// The finder of negative cycles: the cycle's length; the cycle stands at the front of `out`.
#[unsafe(no_mangle)]
pub extern "C" fn tugrokt_cycle(d: &[i16], w: usize, out: &mut [u16]) -> usize
    requires { Weighed w d.now × Infeasible w d.now × (w ≤ length out.old) }
    ensures { CycleAt w d.now out.old result out.new }
{
    network_cycles::negative_cycle(d, w, out)
}
