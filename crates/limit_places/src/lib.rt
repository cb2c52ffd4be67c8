#![tactic(auto)]

ghost use Rattle.std.specs.Prelude.{◌≡◌, ◌+◌, ◌*◌, ◌^◌, ◌<◌, ◌≤◌};
ghost use Rattle.slots.specs.Slots.{slot_end, slot_start};

use slots::{Boundary, Slot};

// The place of the step from one boundary to another in a table of w boundaries.
pub fn place(from: Boundary, to: Boundary, w: usize) -> usize
    requires { (from.0 < w) × (to.0 < w) × (w * w < 2 ^ 64) }
    ensures { result ≡ from.0 * w + to.0 }
{
    from.0 * w + to.0
}

// The place of the step forward over the slots first to last.
// stays: two steps with a name each, here and below; a direction as an argument would be a flag.
pub fn forward_place(first: u16, last: u16, w: usize) -> usize
    requires { (1 ≤ first) × (first ≤ last) × (slot_end last < w) × (w * w < 2 ^ 64) }
    ensures { result ≡ slot_start first * w + slot_end last }
{
    let end = Slot(last as usize).end();
    let start = Slot(first as usize).start();
    place(start, end, w)
}

// The place of the step back over the slots first to last.
pub fn back_place(first: u16, last: u16, w: usize) -> usize
    requires { (1 ≤ first) × (first ≤ last) × (slot_end last < w) × (w * w < 2 ^ 64) }
    ensures { result ≡ slot_end last * w + slot_start first }
{
    let end = Slot(last as usize).end();
    let start = Slot(first as usize).start();
    place(end, start, w)
}
