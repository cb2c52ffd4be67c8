#![tactic(auto)]

ghost use Rattle.std.specs.Prelude.{◌≡◌, ◌∷◌, []};
ghost use Rattle.forms.specs.Decimal.{form_line};
ghost use Rattle.forms.specs.Forms.{unit_form, job_form, rule_form, limit_form};
ghost use Rattle.print_bytes.specs.Writing.{Room, Written};
ghost use Rattle.sheet_texts.specs.SheetText.{hours_of, span_text, unit_text, rule_text};
ghost use Rattle.write_entries.specs.Lines.{Ends, unit_with, rule_with};

use forms::House;
use print_bytes::{put_no_number, put_one_number, put_pair};

// How many slots long a stretch is.
fn hours(first: u16, last: u16) -> u16
    requires { Ends first last }
    ensures { result ≡ hours_of first last }
{
    last + 1 - first
}

pub fn put_span(house: House, page: &mut [u8], at: usize, span: u16) -> usize
    requires { Room page.old at (span_text house span) }
    ensures { Written page.old at (span_text house span) page.new result }
{
    match house {
        House::Ours => put_one_number(page, at, b"(sheet ", span, b")"),
        House::Partner => put_one_number(page, at, b"(day ", span, b")"),
    }
}

// stays: each line its own calls of `put_pair`. One function over a list of words and numbers takes nearly twice the instructions
fn put_own_unit(page: &mut [u8], at: usize, loader: u16, first: u16, last: u16) -> usize
    requires { Room page.old at (form_line unit_form (loader ∷ first ∷ last ∷ [])) }
    ensures { Written page.old at (form_line unit_form (loader ∷ first ∷ last ∷ [])) page.new result }
{
    let next = put_pair(page, at, b"(unit ", loader);
    let next2 = put_pair(page, next, b" (window ", first);
    let next3 = put_pair(page, next2, b" ", last);
    put_no_number(page, next3, b"))")
}

fn put_job(page: &mut [u8], at: usize, loader: u16, start: u16, hours: u16) -> usize
    requires { Room page.old at (form_line job_form (loader ∷ start ∷ hours ∷ [])) }
    ensures { Written page.old at (form_line job_form (loader ∷ start ∷ hours ∷ [])) page.new result }
{
    let next = put_pair(page, at, b"(job ", loader);
    let next2 = put_pair(page, next, b" (start ", start);
    let next3 = put_pair(page, next2, b") (hours ", hours);
    put_no_number(page, next3, b"))")
}

fn put_own_rule(page: &mut [u8], at: usize, from: u16, to: u16, low: u16, high: u16) -> usize
    requires { Room page.old at (form_line rule_form (from ∷ to ∷ low ∷ high ∷ [])) }
    ensures { Written page.old at (form_line rule_form (from ∷ to ∷ low ∷ high ∷ [])) page.new result }
{
    let next = put_pair(page, at, b"(rule (slots ", from);
    let next2 = put_pair(page, next, b" ", to);
    let next3 = put_pair(page, next2, b") (count ", low);
    let next4 = put_pair(page, next3, b" ", high);
    put_no_number(page, next4, b"))")
}

fn put_limit(page: &mut [u8], at: usize, from: u16, hours: u16, most: u16) -> usize
    requires { Room page.old at (form_line limit_form (from ∷ hours ∷ most ∷ [])) }
    ensures { Written page.old at (form_line limit_form (from ∷ hours ∷ most ∷ [])) page.new result }
{
    let next = put_pair(page, at, b"(limit (from ", from);
    let next2 = put_pair(page, next, b") (hours ", hours);
    let next3 = put_pair(page, next2, b") (most ", most);
    put_no_number(page, next3, b"))")
}

pub fn put_unit(
    house: House,
    page: &mut [u8],
    at: usize,
    loader: u16,
    first: u16,
    last: u16,
) -> usize
    requires ends { Ends first last }
    requires room { Room page.old at (unit_text house (unit_with loader first last)) }
    ensures { Written page.old at (unit_text house (unit_with loader first last)) page.new result }
{
    match house {
        House::Ours => put_own_unit(page, at, loader, first, last),
        House::Partner => put_job(page, at, loader, first, hours(first, last)),
    }
}

pub fn put_rule(
    house: House,
    page: &mut [u8],
    at: usize,
    from: u16,
    to: u16,
    low: u16,
    high: u16,
) -> usize
    requires ends { Ends from to }
    requires room { Room page.old at (rule_text house (rule_with from to low high)) }
    ensures { Written page.old at (rule_text house (rule_with from to low high)) page.new result }
{
    match house {
        House::Ours => put_own_rule(page, at, from, to, low, high),
        House::Partner => put_limit(page, at, from, hours(from, to), high),
    }
}
