#![tactic(auto)]

ghost use Rattle.std.specs.Prelude.{◌≡◌, length};
ghost use Rattle.print_bytes.specs.Writing.{Room, Written};
ghost use Rattle.pages.specs.Page.{placed_line, unit_lines};

use print_lines::{put_carried, put_unit};

// The line of a unit with a slot: past the span it is carried.
fn put_placed(
    page: &mut [u8],
    at: usize,
    span: usize,
    loader: u16,
    slot: u16,
    earliest: u16,
    latest: u16,
) -> usize
    requires { Room page.old at (placed_line span loader slot earliest latest) }
    ensures { Written page.old at (placed_line span loader slot earliest latest) page.new result }
{
    if slot as usize <= span {
        put_unit(page, at, loader, slot, earliest, latest)
    } else {
        put_carried(page, at, loader, earliest, latest)
    }
}

pub fn put_units(
    page: &mut [u8],
    at: usize,
    span: usize,
    loader: &[u16],
    plan: &[u16],
    earliest: &[u16],
    latest: &[u16],
) -> usize
    requires loader_len { (length loader.now ≡ length plan.now) × (length earliest.now ≡ length plan.now) × (length latest.now ≡ length plan.now) }
    requires room { Room page.old at (unit_lines span loader.now plan.now earliest.now latest.now) }
    ensures { Written page.old at
        (unit_lines span loader.now plan.now earliest.now latest.now) page.new result }
{
    let mut next = at;
    // stays: places of four lists; a `zip` of zips hands out nested pairs, which is no plainer.
    for j in 0..plan.len() {
        next = put_placed(page, next, span, loader[j], plan[j], earliest[j], latest[j]);
    }
    next
}
