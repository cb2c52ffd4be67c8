#![tactic(auto)]

ghost use Rattle.print_bytes.specs.Writing.{Room, Written, unit_line, carried_line, slot_line, range_line, refused_line};

use print_bytes::{put_no_number, put_pair};

// stays: each line its own calls of `put_pair`. One function over a list of words and numbers takes nearly twice the instructions

// The line of a unit.
pub fn put_unit(
    page: &mut [u8],
    at: usize,
    loader: u16,
    slot: u16,
    earliest: u16,
    latest: u16,
) -> usize
    requires { Room page.old at (unit_line loader slot earliest latest) }
    ensures { Written page.old at (unit_line loader slot earliest latest) page.new result }
{
    let next = put_pair(page, at, b"(unit ", loader);
    let next2 = put_pair(page, next, b" (slot ", slot);
    let next3 = put_pair(page, next2, b") (between ", earliest);
    let next4 = put_pair(page, next3, b" ", latest);
    put_no_number(page, next4, b"))")
}

// The line of a unit that is carried over into the next wave.
pub fn put_carried(page: &mut [u8], at: usize, loader: u16, earliest: u16, latest: u16) -> usize
    requires { Room page.old at (carried_line loader earliest latest) }
    ensures { Written page.old at (carried_line loader earliest latest) page.new result }
{
    let next = put_pair(page, at, b"(unit ", loader);
    let next2 = put_pair(page, next, b" (carried) (between ", earliest);
    let next3 = put_pair(page, next2, b" ", latest);
    put_no_number(page, next3, b"))")
}

// The line of a slot on the page of a plan.
pub fn put_slot(
    page: &mut [u8],
    at: usize,
    slot: u16,
    count: u16,
    least: u16,
    greatest: u16,
) -> usize
    requires { Room page.old at (slot_line slot count least greatest) }
    ensures { Written page.old at (slot_line slot count least greatest) page.new result }
{
    let next = put_pair(page, at, b"(slot ", slot);
    let next2 = put_pair(page, next, b" (count ", count);
    let next3 = put_pair(page, next2, b") (range ", least);
    let next4 = put_pair(page, next3, b" ", greatest);
    put_no_number(page, next4, b"))")
}

// The line of a slot on the page of a sheet that fits.
pub fn put_range(page: &mut [u8], at: usize, slot: u16, least: u16, greatest: u16) -> usize
    requires { Room page.old at (range_line slot least greatest) }
    ensures { Written page.old at (range_line slot least greatest) page.new result }
{
    let next = put_pair(page, at, b"(slot ", slot);
    let next2 = put_pair(page, next, b" (range ", least);
    let next3 = put_pair(page, next2, b" ", greatest);
    put_no_number(page, next3, b"))")
}

// The line of a refusal.
pub fn put_refusal(page: &mut [u8], at: usize, number: u16, line: u16) -> usize
    requires { Room page.old at (refused_line number line) }
    ensures { Written page.old at (refused_line number line) page.new result }
{
    let next = put_pair(page, at, b"(refused ", number);
    let next2 = put_pair(page, next, b" (line ", line);
    put_no_number(page, next2, b"))")
}
