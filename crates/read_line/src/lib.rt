#![tactic(auto)]

ghost use Rattle.std.specs.Prelude.{◌≡◌, true, false, cond, ◌+◌, ◌≤◌, ◌<◌, length, drop, Ok, Err};
ghost use Rattle.forms.specs.Lines.{whole_lines};
ghost use Rattle.forms.specs.LinesLaws.{line_end};
ghost use Rattle.read_form.specs.Reader.{Serves};
ghost use Rattle.read_number.specs.Number.{max_number};
ghost use Rattle.read_scan.specs.Scan.{line_at, Small};
ghost use Rattle.read_line.specs.Content.{note_matched, last_of};
ghost use Rattle.read_line.specs.Line.{line_of};
ghost use Rattle.read_line.specs.Said.{unit_by, rule_by, NoteHasBytes, line_said, unended_fault};
ghost use Rattle.questions.specs.declared.Question.TheVariants.{PlainNumbers};

use forms::House;
use questions::Question;
use read_form::{FormReader, Kind};
use read_scan::{NUMBERS, run, scan};

// What one line says. A unit has its loader number and the first and last slot of its window.
#[derive(Clone, Copy)]
pub enum Line {
    Note,
    Sheet(u16),
    Unit(u16, u16, u16),
    Rule(u16, u16, u16, u16),
}

// What a line says, or the question that it fails, and the place where the next one starts.
#[derive(Clone, Copy)]
pub struct Found {
    pub line: Result<Line, Question>,
    pub next: usize,
}

// Just past the last line feed of a text. Up to there every line has its own, so that no byte of it is asked whether the text ends.
pub fn lines_end(text: &[u8]) -> usize
    ensures { result ≡ whole_lines text.now }
{
    for n in (0..text.len()).rev() {
        if text[n] == b'\n' {
            return n + 1;
        }
    }
    0
}

// The last slot of a stretch by its first and how many slots long it is. One of no slots ends before it starts, which question 7 then finds.
fn last_of(start: u16, hours: u16) -> u16
    requires { (start ≤ max_number) × (hours ≤ max_number) }
    ensures { result ≡ last_of start hours }
{
    (start + hours).saturating_sub(1)
}

// A unit by its three numbers.
fn unit_line(house: House, loader: u16, first: u16, third: u16) -> Line
    requires { (first ≤ max_number) × (third ≤ max_number) }
    ensures { result ≡ unit_by house loader first third }
{
    match house {
        House::Ours => Line::Unit(loader, first, third),
        House::Partner => Line::Unit(loader, first, last_of(first, third)),
    }
}

// A rule by its numbers, of which a partner's has three.
fn rule_line(house: House, from: u16, second: u16, third: u16, fourth: u16) -> Line
    requires { (from ≤ max_number) × (second ≤ max_number) }
    ensures { result ≡ rule_by house from second third fourth }
{
    match house {
        House::Ours => Line::Rule(from, second, third, fourth),
        House::Partner => Line::Rule(from, last_of(from, second), 0, third),
    }
}

// Question 4, of a line by its numbers.
// stays: the scan's flag, here and in `read_line`; what the line is decides whether it is asked.
fn checked(plain: bool, line: Line) -> Result<Line, Question>
    ensures { result ≡ cond plain (Ok line) (Err PlainNumbers) }
{
    if plain {
        Ok(line)
    } else {
        Err(Question::PlainNumbers)
    }
}

// Question 11.
fn note_matched(s: &[u8]) -> bool
    requires { 1 ≤ length s.now }
    ensures { result ≡ note_matched s.now }
{
    read_notes::list_end(s, 1, 1) == Some(s.len())
}

// Questions 2, 11, 3 and 4 of a line that has its line feed, and else what it says.
fn read_line(
    house: House,
    kind: Kind,
    plain: bool,
    values: &[u16; NUMBERS],
    s: &[u8],
) -> Result<Line, Question>
    requires { Small values.now × NoteHasBytes kind s.now }
    ensures { result ≡ line_said house kind plain values.now s.now }
{
    match kind {
        Kind::Unprintable => Err(Question::Printable),
        Kind::Note => {
            if note_matched(s) {
                Ok(Line::Note)
            } else {
                Err(Question::NoteBrackets)
            }
        }
        Kind::Sheet => checked(plain, Line::Sheet(values[0])),
        Kind::Unit => {
            let unit = unit_line(house, values[1], values[2], values[3]);
            checked(plain, unit)
        }
        Kind::Rule => {
            let rule = rule_line(house, values[4], values[5], values[6], values[7]);
            checked(plain, rule)
        }
        Kind::Other => Err(Question::LineForm),
    }
}

// The line that starts at a place of a text, before its last line feed.
pub fn line_at(house: House, text: &[u8], at: usize, reader: FormReader<'_>) -> Found
    requires { (at < whole_lines text.now) × Serves house reader }
    ensures line_value { result.line ≡ line_of house (line_at text.now at) true }
    ensures next_value { result.next ≡ line_end text.now at + 1 }
{
    let mut values = [0u16; NUMBERS];
    let found = scan(text, at, reader, &mut values);
    let bytes = &text[at..found.end];
    Found {
        line: read_line(house, found.kind, found.plain, &values, bytes),
        next: found.end + 1,
    }
}

// The question that a line without its line feed fails: 2, 11 or, for want of the line feed, 3.
fn unended(kind: Kind, s: &[u8]) -> Question
    requires { NoteHasBytes kind s.now }
    ensures { result ≡ unended_fault kind s.now }
{
    match kind {
        Kind::Unprintable => Question::Printable,
        Kind::Note if !note_matched(s) => Question::NoteBrackets,
        Kind::Note | Kind::Sheet | Kind::Unit | Kind::Rule | Kind::Other => Question::LineForm,
    }
}

// The question that the bytes past the last line feed fail.
pub fn last_line(house: House, text: &[u8], at: usize, reader: FormReader<'_>) -> Question
    requires { (whole_lines text.now ≤ at) × (at ≤ length text.now) × Serves house reader }
    ensures { Err result ≡ line_of house (drop at text.now) false }
{
    let state = run(text, at, reader);
    let kind = Kind::of_state(reader.next(state, b'\n'));
    unended(kind, &text[at..])
}
