#![tactic(auto)]

ghost use Rattle.std.specs.Prelude.{◌≡◌, take};
ghost use Rattle.sheet.specs.Sizes.{max_units, max_rules};
ghost use Rattle.read_form.specs.Reader.{Serves};
ghost use Rattle.read_unit.specs.UnitStep.{Chained, ChainedBy};
ghost use Rattle.read_questions.specs.Reading.{rooms, reply_of};
ghost use Rattle.read_questions.specs.Steps.{step_of, kept_by, pass_reply, Holds, Kept};

use forms::House;
use questions::{Question, Refusal};
use read_form::FormReader;
use read_line::Line;
use sheet::Sheet;

// A line after those of a sheet: questions 5 to 10 and 16, and its numbers into the arrays.
// stays: the lists one by one; of a struct of `&mut` lists a clause can tell what is left only part by part, as `exit.1.0.now` (docs/DECISIONS.md)
#[tactic(auto, unfolding(read_questions::specs::Steps::step_of))]
fn line_step(
    house: House,
    s: Sheet,
    line: Result<Line, Question>,
    numbers: &mut [u16],
    firsts: &mut [u16],
    lasts: &mut [u16],
    froms: &mut [u16],
    tos: &mut [u16],
    lows: &mut [u16],
    highs: &mut [u16],
    heads: &mut [u16],
    nexts: &mut [u16],
) -> Result<Sheet, Question>
    requires { Chained s numbers.old heads.old nexts.old
        × Holds max_units max_rules (rooms numbers.old firsts.old lasts.old froms.old tos.old lows.old highs.old) }
    ensures value { result ≡ step_of house (take s.units numbers.old) s line }
    ensures chained_by { ChainedBy result numbers.new heads.new nexts.new }
    ensures highs_after { rooms numbers.new firsts.new lasts.new froms.new tos.new lows.new
        highs.new
        ≡ kept_by result (rooms numbers.old firsts.old lasts.old froms.old tos.old lows.old
        highs.old) s line }
{
    match line? {
        Line::Note => Ok(s),
        Line::Sheet(span) => read_steps::sheet_step(s, span),
        Line::Unit(loader, first, last) => {
            read_unit::unit_step(
                house, s, loader, first, last, numbers, firsts, lasts, heads, nexts,
            )
        }
        Line::Rule(from, to, low, high) => {
            read_steps::rule_step(s, from, to, low, high, froms, tos, lows, highs)
        }
    }
}

// The pass over the text with its house's tables. Only the lines up to the last line feed can be passed; bytes past it are a line that is refused.
fn pass(
    house: House,
    text: &[u8],
    reader: FormReader<'_>,
    numbers: &mut [u16],
    firsts: &mut [u16],
    lasts: &mut [u16],
    froms: &mut [u16],
    tos: &mut [u16],
    lows: &mut [u16],
    highs: &mut [u16],
) -> Result<Sheet, Refusal>
    requires { Serves house reader
        × Holds max_units max_rules (rooms numbers.old firsts.old lasts.old froms.old tos.old lows.old highs.old) }
    ensures result_value { reply_of result ≡ pass_reply house text.now }
    ensures kept { Kept house result text.now
        (rooms numbers.old firsts.old lasts.old froms.old tos.old lows.old
        highs.old)
        (rooms numbers.new firsts.new lasts.new froms.new tos.new lows.new
        highs.new) }
{
    let whole = read_line::lines_end(text);
    let mut heads = [0u16; loaders::CHAINS];
    let mut nexts = [0u16; Sheet::MAX_UNITS];
    let mut s = Sheet::empty();
    let mut at: usize = 0;
    let mut n: usize = 1;
    // stays: a while, for a line is as long as its bytes say.
    while at < whole {
        let found = read_line::line_at(house, text, at, reader);
        let line = found.line;
        let step = line_step(
            house, s, line, numbers, firsts, lasts, froms, tos, lows, highs, &mut heads, &mut nexts,
        );
        s = match step {
            Ok(more) => more,
            Err(q) => return Err(q.at(n)),
        };
        at = found.next;
        n += 1;
    }
    if at < text.len() {
        let q = read_line::last_line(house, text, at, reader);
        return Err(q.at(n));
    }
    if s.span == 0 {
        return Err(Question::SheetLine.refused());
    }
    Ok(s)
}

// The pass over the text: every question but 1 and 12. The numbers of units and rules go into the arrays.
// stays: a call for each house, so that the compiler keeps the table's place in a register.
pub fn ask_text(
    house: House,
    text: &[u8],
    numbers: &mut [u16],
    firsts: &mut [u16],
    lasts: &mut [u16],
    froms: &mut [u16],
    tos: &mut [u16],
    lows: &mut [u16],
    highs: &mut [u16],
) -> Result<Sheet, Refusal>
    requires { Holds max_units max_rules (rooms numbers.old firsts.old lasts.old froms.old tos.old lows.old highs.old) }
    ensures result_value { reply_of result ≡ pass_reply house text.now }
    ensures kept { Kept house result text.now
        (rooms numbers.old firsts.old lasts.old froms.old tos.old lows.old
        highs.old)
        (rooms numbers.new firsts.new lasts.new froms.new tos.new lows.new
        highs.new) }
{
    match house {
        House::Ours => {
            let reader = grid_ours::reader();
            pass(
                house, text, reader, numbers, firsts, lasts, froms, tos, lows, highs,
            )
        }
        House::Partner => {
            let reader = grid_partner::reader();
            pass(
                house, text, reader, numbers, firsts, lasts, froms, tos, lows, highs,
            )
        }
    }
}
