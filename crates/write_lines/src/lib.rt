#![tactic(auto)]

ghost use Rattle.std.specs.Prelude.{◌≡◌, length};
ghost use Rattle.sheet.specs.Questions.{windows_of, rules_of};
ghost use Rattle.sheet.specs.Lists.{units_of, written_by};
ghost use Rattle.plan_ask.specs.Asking.{Listed};
ghost use Rattle.print_bytes.specs.Writing.{Room, Written};
ghost use Rattle.sheet_texts.specs.SheetText.{unit_texts, rule_texts, sheet_text};
ghost use Rattle.write_entries.specs.Lines.{Stretches};

use forms::House;
use sheet::{Sheet, WrittenLists};
use write_entries::{put_rule, put_span, put_unit};

// A sheet as a text of a house, written into a slice from a place on.

// No text is longer: the partner's line of the span, a line of 33 bytes for each unit and one of 40 for each rule. Our own units and rules are shorter.
pub const MAX_TEXT: usize = 9 + 33 * Sheet::MAX_UNITS + 40 * Sheet::MAX_RULES;

fn put_units(
    house: House,
    page: &mut [u8],
    at: usize,
    loader: &[u16],
    first: &[u16],
    last: &[u16],
) -> usize
    requires loader_len { (length loader.now ≡ length first.now) × Stretches first.now last.now }
    requires room { Room page.old at (unit_texts house (units_of loader.now (windows_of first.now last.now))) }
    ensures { Written page.old at
        (unit_texts house (units_of loader.now (windows_of first.now last.now))) page.new result }
{
    let mut next = at;
    // stays: places of three lists; a `zip` of zips hands out nested pairs, which is no plainer.
    for j in 0..first.len() {
        next = put_unit(house, page, next, loader[j], first[j], last[j]);
    }
    next
}

fn put_rules(
    house: House,
    page: &mut [u8],
    at: usize,
    from: &[u16],
    to: &[u16],
    low: &[u16],
    high: &[u16],
) -> usize
    requires stretches { Stretches from.now to.now × (length low.now ≡ length from.now) × (length high.now ≡ length from.now) }
    requires room { Room page.old at (rule_texts house (rules_of from.now to.now low.now high.now)) }
    ensures { Written page.old at
        (rule_texts house (rules_of from.now to.now low.now high.now)) page.new result }
{
    let mut next = at;
    // stays: places of four lists; a `zip` of zips hands out nested pairs, which is no plainer.
    for j in 0..from.len() {
        next = put_rule(house, page, next, from[j], to[j], low[j], high[j]);
    }
    next
}

// The span, the units and the rules, each in the order of its list.
pub fn put_sheet(house: House, page: &mut [u8], at: usize, lists: &WrittenLists<'_>) -> usize
    requires listed { Listed lists.now }
    requires room { Room page.old at (sheet_text house (written_by lists.now)) }
    ensures { Written page.old at (sheet_text house (written_by lists.now)) page.new result }
{
    let c = &lists.constraints;
    let next = put_span(house, page, at, c.span as u16);
    let next2 = put_units(house, page, next, lists.loader, c.first, c.last);
    put_rules(house, page, next2, c.from, c.to, c.low, c.high)
}
