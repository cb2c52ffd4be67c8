// The line of a unit of two sheets, where it stands.
#![tactic(auto)]

ghost use Rattle.std.specs.Prelude.{◌≡◌};
ghost use Rattle.merge_lines.specs.Lines.{loader_place, located_at, found_line, PartAsked};

use merge_join::JoinedLists;
use merge_questions::Blamed;
use questions::Question;
use read_form::Kind;

// Where a line starts and ends, less the line feed, in the first text or in the second.
#[derive(Clone, Copy)]
pub enum LinePlace {
    First(usize, usize),
    Second(usize, usize),
}

// The first place of a loader number, or how many numbers there are.
// stays: how many, and not none: the place past all units is where `locate` finds that no unit stands, and asks question 27
fn place_of(numbers: &[u16], loader: u16) -> usize
    ensures { result ≡ loader_place numbers.now loader }
{
    numbers
        .iter()
        .position(|number| *number == loader)
        .unwrap_or(numbers.len())
}

// The line of the i-th unit of both sheets, from 0: the first's, or past them the second's; question 27 where there are not so many.
fn locate(one: &[u8], two: &[u8], i: usize) -> Result<LinePlace, Blamed>
    ensures { result ≡ located_at one.now two.now i }
{
    let past = match read_places::seek(one, Kind::Unit, i) {
        Ok(spot) => return Ok(LinePlace::First(spot.start, spot.end)),
        Err(past) => past,
    };
    match read_places::seek(two, Kind::Unit, past) {
        Ok(spot) => Ok(LinePlace::Second(spot.start, spot.end)),
        Err(_) => Err(Blamed {
            refusal: Question::UnitOfLoader.refused(),
            sheet: 0,
        }),
    }
}

// All of the merge's questions but 12, then 27, and where the line of the unit with this loader number stands.
pub fn find_line(one: &[u8], two: &[u8], loader: u16) -> Result<LinePlace, Blamed>
    ensures { result ≡ found_line one.now two.now loader }
{
    let mut lists = JoinedLists::cleared();
    // stays: a `match`, and no `?`, so that a wrong program can hand on another refusal and change nothing else.
    let merged = match lists.join(one, two) {
        Ok(merged) => merged,
        Err(blamed) => return Err(blamed),
    };
    let i = place_of(&lists.numbers[..merged.units], loader);
    locate(one, two, i)
}

// The line itself, a part of the text that has it; an empty part of the first where it is refused.
pub fn line_of<'a>(one: &'a [u8], two: &'a [u8], loader: u16) -> &'a [u8]
    ensures { PartAsked one.entry two.entry result (found_line one.now two.now loader) }
{
    match find_line(one, two, loader) {
        Ok(LinePlace::First(start, end)) => &one[start..end],
        Ok(LinePlace::Second(start, end)) => &two[start..end],
        Err(_) => &one[..0],
    }
}
