#![tactic(auto)]

ghost use Rattle.std.specs.Prelude.{◌≡◌, length, get_or};
ghost use Rattle.network.specs.Table.{max_boundaries};
ghost use Rattle.sheet.specs.Sizes.{boundaries_of};
ghost use Rattle.print_bytes.specs.Writing.{Room, Written};
ghost use Rattle.pages.specs.Page.{slot_lines, range_lines, least_from, greatest_from, TableFits};

use print_counts::range_of;
use print_lines::{put_range, put_slot};
use slots::Slot;

pub fn put_slots(page: &mut [u8], at: usize, span: usize, counts: &[u16], table: &[i16]) -> usize
    requires table { TableFits span table.now }
    requires counts { length counts.now ≡ max_boundaries }
    requires room { Room page.old at
        (slot_lines span (λ t. get_or counts.now t 0) (least_from (boundaries_of span) table.now) (greatest_from (boundaries_of span) table.now)) }
    ensures { Written page.old at
        (slot_lines span (λ t. get_or counts.now t 0) (least_from (boundaries_of span) table.now)
        (greatest_from (boundaries_of span) table.now)) page.new result }
{
    let mut next = at;
    // stays: slots are counted, here and below, since a slot's number stands on its line.
    for t in 1..=span {
        let range = range_of(table, span, Slot(t));
        next = put_slot(page, next, t as u16, counts[t], range.least, range.greatest);
    }
    next
}

pub fn put_ranges(page: &mut [u8], at: usize, span: usize, table: &[i16]) -> usize
    requires table { TableFits span table.now }
    requires room { Room page.old at (range_lines span (least_from (boundaries_of span) table.now) (greatest_from (boundaries_of span) table.now)) }
    ensures { Written page.old at
        (range_lines span (least_from (boundaries_of span) table.now) (greatest_from (boundaries_of span) table.now))
        page.new result }
{
    let mut next = at;
    for slot in 1..=span {
        let range = range_of(table, span, Slot(slot));
        next = put_range(page, next, slot as u16, range.least, range.greatest);
    }
    next
}
