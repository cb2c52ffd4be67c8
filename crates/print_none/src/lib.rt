#![tactic(auto)]

ghost use Rattle.std.specs.Prelude.{◌≡◌, ◌∷◌, [], ◌+◌, ◌*◌, ◌%◌, ◌^◌, ◌<◌, ◌≤◌, length, get_or};
ghost use Rattle.lists.specs.Lists.{joined};
ghost use Rattle.network.specs.Table.{entry, max_boundaries};
ghost use Rattle.forms.specs.Decimal.{form_line};
ghost use Rattle.print_bytes.specs.Writing.{Room, Written};
ghost use Rattle.pages.specs.Page.{bound_form, step_line, ring_lines, shortfall_of, none_page, RingFits};

use network::entry_at;
use print_bytes::{put_no_number, put_one_number, put_pair};
use print_counts::{above, below};
use sheet::Sheet;
use slots::{Boundary, Slot};

// The answer page of a ring, written into a slice from a place on.

// No page of a ring is longer: the head, a line of 29 bytes for each boundary, and the shortfall.
pub const MAX_RING_PAGE: usize = 18 + 29 * Sheet::MAX_BOUNDARIES + 18;

// The line of a step, by its first word.
fn put_bound(page: &mut [u8], at: usize, word: &[u8], bound: u16, first: Slot, last: Slot) -> usize
    requires first_bound { (first.0 < 2 ^ 16) × (last.0 < 2 ^ 16) }
    requires room { Room page.old at (form_line (bound_form word.now) (bound ∷ first.0 ∷ last.0 ∷ [])) }
    ensures { Written page.old at (form_line (bound_form word.now) (bound ∷ first.0 ∷ last.0 ∷ [])) page.new result }
{
    let next = put_pair(page, at, word, bound);
    let next2 = put_pair(page, next, b" (slots ", first.0 as u16);
    let next3 = put_pair(page, next2, b" ", last.0 as u16);
    put_no_number(page, next3, b"))")
}

// The step from boundary a to boundary b, with the sheet's own limit.
fn put_step(page: &mut [u8], at: usize, limits: &[i16], w: usize, a: Boundary, b: Boundary) -> usize
    requires a_lt_w { (a.0 < w) × (b.0 < w) × (w ≤ max_boundaries) × (w * w ≤ length limits.now) }
    requires room { Room page.old at (step_line (entry w limits.now) a.0 b.0) }
    ensures { Written page.old at (step_line (entry w limits.now) a.0 b.0) page.new result }
{
    let limit = entry_at(limits, w, a.0, b.0);
    if a.0 < b.0 {
        put_bound(
            page,
            at,
            b"(at-most ",
            above(limit),
            a.slot_after(),
            b.slot_before(),
        )
    } else {
        put_bound(
            page,
            at,
            b"(at-least ",
            below(limit),
            b.slot_after(),
            a.slot_before(),
        )
    }
}

// The step from place i of a ring: on to the next place's boundary, and from the last place back to the first.
fn step_at(ring: &[u16], i: usize) -> (Boundary, Boundary)
    requires { i < length ring.now }
    ensures { (result.0.0 ≡ get_or ring.now i 0) × (result.1.0 ≡ get_or ring.now ((i + 1) % length ring.now) 0) }
{
    let next = (i + 1) % ring.len();
    (Boundary(ring[i] as usize), Boundary(ring[next] as usize))
}

// stays: the limits, w and the ring by themselves, as callers have them. `RingFits` is the one fact of all three
fn put_steps(page: &mut [u8], at: usize, limits: &[i16], w: usize, ring: &[u16]) -> usize
    requires ring_fits { RingFits w limits.now ring.now }
    requires room { Room page.old at (joined (ring_lines (entry w limits.now) ring.now)) }
    ensures { Written page.old at (joined (ring_lines (entry w limits.now) ring.now)) page.new result }
{
    let mut next = at;
    // stays: steps by their places, here and below, since the last goes back to the first.
    for i in 0..ring.len() {
        let (a, b) = step_at(ring, i);
        next = put_step(page, next, limits, w, a, b);
    }
    next
}

// Minus the sum of the ring's limits: what its steps fall by, less what they rise by.
fn shortfall(limits: &[i16], w: usize, ring: &[u16]) -> u16
    requires { RingFits w limits.now ring.now }
    ensures { result ≡ shortfall_of (entry w limits.now) ring.now }
{
    let mut rise: u16 = 0;
    let mut fall: u16 = 0;
    for i in 0..ring.len() {
        let (a, b) = step_at(ring, i);
        let limit = entry_at(limits, w, a.0, b.0);
        rise += above(limit);
        fall += below(limit);
    }
    fall.saturating_sub(rise)
}

// The page of a ring: its head, a line for each step and the shortfall.
pub fn put_none(page: &mut [u8], at: usize, limits: &[i16], w: usize, ring: &[u16]) -> usize
    requires ring_fits { RingFits w limits.now ring.now }
    requires room { Room page.old at (none_page (entry w limits.now) ring.now) }
    ensures { Written page.old at (none_page (entry w limits.now) ring.now) page.new result }
{
    let next = put_no_number(page, at, b"(answer none)");
    let next2 = put_steps(page, next, limits, w, ring);
    put_one_number(
        page,
        next2,
        b"(shortfall ",
        shortfall(limits, w, ring),
        b")",
    )
}
