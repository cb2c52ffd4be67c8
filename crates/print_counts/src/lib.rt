#![tactic(auto)]

ghost use Rattle.std.specs.Prelude.{◌≡◌, ◌≤◌, length, replicate};
ghost use Rattle.integers.specs.Parts.{up, dn};
ghost use Rattle.network.specs.Table.{max_boundaries};
ghost use Rattle.sheet.specs.Sizes.{max_units, boundaries_of};
ghost use Rattle.pages.specs.Page.{slot_counts, least_from, greatest_from, TableFits};

use network::entry_at;
use slots::Slot;

// How many units have each slot.
pub fn count_slots(plan: &[u16], counts: &mut [u16])
    requires { (counts.old ≡ replicate max_boundaries 0) × (length plan.now ≤ max_units) }
    ensures { counts.new ≡ slot_counts plan.now }
{
    for slot in plan {
        let slot = *slot as usize;
        if slot < counts.len() {
            counts[slot] += 1;
        }
    }
}

// The size of a number that is not below 0, and of one that is not above; 0 for the others.
pub fn above(x: i16) -> u16
    ensures { result ≡ up x }
{
    x.max(0).unsigned_abs()
}

pub fn below(x: i16) -> u16
    ensures { result ≡ dn x }
{
    x.min(0).unsigned_abs()
}

// How many units a slot has over lawful plans: at least, and at most.
#[derive(Clone, Copy)]
pub struct Range {
    pub least: u16,
    pub greatest: u16,
}

// The range of a slot, from the finished table.
pub fn range_of(table: &[i16], span: usize, t: Slot) -> Range
    requires slot { (1 ≤ t.0) × (t.0 ≤ span) }
    requires table { TableFits span table.now }
    ensures least { result.least ≡ least_from (boundaries_of span) table.now t.0 }
    ensures greatest { result.greatest ≡ greatest_from (boundaries_of span) table.now t.0 }
{
    let w = sheet::boundaries(span);
    let start = t.start().0;
    let end = t.end().0;
    Range {
        least: below(entry_at(table, w, end, start)),
        greatest: above(entry_at(table, w, start, end)),
    }
}
