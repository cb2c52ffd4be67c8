#![tactic(auto)]

ghost use Rattle.std.specs.Prelude.{◌*◌, ◌≤◌, length};
ghost use Rattle.sheet.specs.Sizes.{max_slots, max_units, boundaries_of};
ghost use Rattle.print_bytes.specs.Writing.{Room, Written};
ghost use Rattle.pages.specs.Page.{least_from, greatest_from, Printable, table_page, fits_page};

use print_bytes::put_one_number;
use print_counts::count_slots;
use print_slots::{put_ranges, put_slots};
use print_units::put_units;
use sheet::Sheet;

// The answer page, that of a plan, of a sheet that fits and of a ring, written into a slice from a place on.

// No answer is longer: the head, a line of 38 bytes for each unit, whose loader number has at most four digits, and one of 38 for each slot.
pub const MAX_PAGE: usize = 18 + 38 * Sheet::MAX_UNITS + 38 * Sheet::MAX_SLOTS;

// The page of a plan: its head, a line for each unit and a line for each slot.
pub fn put_plan(
    page: &mut [u8],
    at: usize,
    span: usize,
    loader: &[u16],
    plan: &[u16],
    earliest: &[u16],
    latest: &[u16],
    table: &[i16],
) -> usize
    requires printable { Printable span loader.now plan.now earliest.now latest.now table.now }
    requires room { Room page.old at (table_page span loader.now plan.now earliest.now latest.now table.now) }
    ensures { Written page.old at
        (table_page span loader.now plan.now earliest.now latest.now table.now)
        page.new result }
{
    let mut counts = [0u16; Sheet::MAX_BOUNDARIES];
    count_slots(plan, &mut counts);
    let next = put_one_number(page, at, b"(answer plan ", plan.len() as u16, b")");
    let next2 = put_units(page, next, span, loader, plan, earliest, latest);
    put_slots(page, next2, span, &counts, table)
}

// The page of a sheet that fits: its head and a line for each slot.
pub fn put_fits(page: &mut [u8], at: usize, span: usize, units: usize, table: &[i16]) -> usize
    requires span_le_max_slots { (span ≤ max_slots) × (units ≤ max_units) × (boundaries_of span * boundaries_of span ≤ length table.now) }
    requires room { Room page.old at
        (fits_page span units (least_from (boundaries_of span) table.now) (greatest_from (boundaries_of span) table.now)) }
    ensures { Written page.old at
        (fits_page span units (least_from (boundaries_of span) table.now) (greatest_from (boundaries_of span) table.now))
        page.new result }
{
    let next = put_one_number(page, at, b"(answer fits ", units as u16, b")");
    put_ranges(page, next, span, table)
}
