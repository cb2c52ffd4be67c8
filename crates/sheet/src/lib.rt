#![tactic(auto)]

ghost use Rattle.std.specs.Prelude.{◌≡◌, ◌≤◌};
ghost use Rattle.sheet.specs.Sizes.{max_slots, carried_place, boundaries_of};
ghost use Rattle.sheet.specs.Questions.{is_span, rising};
ghost use Rattle.sheet.specs.Lists.{Lists as Listed, WrittenLists as Written, listed};

use std::marker::Model;

// The place after the last slot of a span, where a unit is carried over into the next wave.
pub fn carried_place(span: usize) -> usize
    requires { span ≤ max_slots }
    ensures { result ≡ carried_place span }
{
    span + 1
}

// The number of boundaries of a span: 0 to the end of the carried place.
pub fn boundaries(span: usize) -> usize
    requires { span ≤ max_slots }
    ensures { result ≡ boundaries_of span }
{
    // stays: the compiler reads no contracts; the branch tells it how many there are at most, so that it makes short loops over them
    if span < Sheet::MAX_SLOTS {
        carried_place(span) + 1
    } else {
        Sheet::MAX_BOUNDARIES
    }
}

// Question 6.
pub fn is_span(span: usize) -> bool
    ensures { result ≡ is_span span }
{
    1 <= span && span <= Sheet::MAX_SLOTS
}

// Is the first from least to start, and the last from the first to most? The one test of a window and of a rule's stretch and counts, questions 7 and 8.
pub fn rises(least: usize, start: usize, most: usize, first: usize, last: usize) -> bool
    ensures { result ≡ rising least start most first last }
{
    least <= first && first <= start && first <= last && last <= most
}

// A sheet's span and its numbers of units and rules; the lists themselves are lent.
#[derive(Clone, Copy)]
pub struct Sheet {
    pub span: usize,
    pub units: usize,
    pub rules: usize,
}

impl Sheet {
    pub const MAX_SLOTS: usize = 48;

    pub const MAX_UNITS: usize = 300;

    pub const MAX_RULES: usize = 60;

    // The largest count a rule may name.
    pub const MAX_COUNT: usize = 300;

    // The largest loader number.
    pub const MAX_LOADER: u16 = 9999;

    // The longest text of a sheet, in bytes.
    pub const MAX_BYTES: usize = 16000;

    pub const MAX_BOUNDARIES: usize = Sheet::MAX_SLOTS + 2;

    // The entries of the largest table of limits.
    pub const MAX_CELLS: usize = Sheet::MAX_BOUNDARIES * Sheet::MAX_BOUNDARIES;

    // stays: the form that the request names (docs/DECISIONS.md): a constructor for the empty sheet
    pub fn empty() -> Sheet
        ensures { result ≡ record { span = 0; units = 0; rules = 0 } }
    {
        Sheet {
            span: 0,
            units: 0,
            rules: 0,
        }
    }
}

// The windows and the rules of a sheet in parallel lists, as a call is lent them.
#[derive(Drop)]
pub struct Lists<'a> {
    pub span: usize,
    pub first: &'a [u16],
    pub last: &'a [u16],
    pub from: &'a [u16],
    pub to: &'a [u16],
    pub low: &'a [u16],
    pub high: &'a [u16],
}

impl<'a> Model for Lists<'a> {
    ghost Value = { Listed };

    ghost view = { λ a. listed a.span a.first.now a.last.now a.from.now a.to.now a.low.now a.high.now };
}

// The whole sheet: the units' loader numbers too.
#[derive(Drop)]
pub struct WrittenLists<'a> {
    pub loader: &'a [u16],
    pub constraints: Lists<'a>,
}

impl<'a> Model for WrittenLists<'a> {
    ghost Value = { Written };

    ghost view = { λ a. record { loader = a.loader.now; constraints = a.constraints } };
}
