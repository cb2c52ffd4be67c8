#![tactic(auto)]

ghost use Rattle.std.specs.Prelude.{◌≡◌, ◌≤◌, length};
ghost use Rattle.sheet.specs.Sizes.{max_slots, max_rules};
ghost use Rattle.sheet.specs.Questions.{is_stretch, rising, is_count};
ghost use Rattle.read_steps.specs.Steps.{last_place, sheet_step, rule_step, put_by};

use forms::House;
use questions::Question;
use sheet::Sheet;

// The last place that a window may end in: ours may be carried over into the next wave, a partner's job may not.
fn last_place(house: House, span: usize) -> usize
    requires { span ≤ max_slots }
    ensures { result ≡ last_place house span }
{
    match house {
        House::Ours => sheet::carried_place(span),
        House::Partner => span,
    }
}

// Question 7 of a window.
pub fn is_window(house: House, span: usize, first: u16, last: u16) -> bool
    requires { span ≤ max_slots }
    ensures { result ≡ rising 1 span (last_place house span) first last }
{
    let most = last_place(house, span);
    sheet::rises(1, span, most, first as usize, last as usize)
}

// Question 7 of a rule's stretch.
fn is_stretch(span: usize, from: u16, to: u16) -> bool
    ensures { result ≡ is_stretch span from to }
{
    sheet::rises(1, span, span, from as usize, to as usize)
}

// Question 8.
fn is_count(low: u16, high: u16) -> bool
    ensures { result ≡ is_count low high }
{
    let most = Sheet::MAX_COUNT;
    sheet::rises(0, most, most, low as usize, high as usize)
}

// Questions 5 and 6: the sheet with its span, or the question that the line fails.
pub fn sheet_step(s: Sheet, span: u16) -> Result<Sheet, Question>
    ensures { result ≡ sheet_step s span }
{
    if s.span != 0 {
        return Err(Question::SheetLine);
    }
    let p = span as usize;
    if !sheet::is_span(p) {
        return Err(Question::Span);
    }
    Ok(Sheet { span: p, ..s })
}

// Questions 5, 7, 8 and 10; a rule that passes is kept.
// stays: the lists one by one; of a struct of `&mut` lists a clause can tell what is left only part by part, as `exit.1.0.now` (docs/DECISIONS.md)
pub fn rule_step(
    s: Sheet,
    from: u16,
    to: u16,
    low: u16,
    high: u16,
    froms: &mut [u16],
    tos: &mut [u16],
    lows: &mut [u16],
    highs: &mut [u16],
) -> Result<Sheet, Question>
    requires { (max_rules ≤ length froms.old) × (max_rules ≤ length tos.old) × (max_rules ≤ length lows.old) × (max_rules ≤ length highs.old) }
    ensures value { result ≡ rule_step s from to low high }
    ensures froms_after { froms.new ≡ put_by result froms.old s.rules from }
    ensures tos_after { tos.new ≡ put_by result tos.old s.rules to }
    ensures lows_after { lows.new ≡ put_by result lows.old s.rules low }
    ensures highs_after { highs.new ≡ put_by result highs.old s.rules high }
{
    let n = s.rules;
    if s.span == 0 {
        return Err(Question::SheetLine);
    }
    if !is_stretch(s.span, from, to) {
        return Err(Question::Stretch);
    }
    if !is_count(low, high) {
        return Err(Question::Counts);
    }
    if n < Sheet::MAX_RULES {
        froms[n] = from;
        tos[n] = to;
        lows[n] = low;
        highs[n] = high;
        return Ok(Sheet { rules: n + 1, ..s });
    }
    Err(Question::Rules)
}
