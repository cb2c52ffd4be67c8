// Where in a text of our own format the lines of a kind stand: a scan of its own, so that reading keeps no places. It reads no number, and has of
// reading the tables, the end of the last line and the step over one byte, but not the line reader, which the compiler so still puts into reading's pass.
#![tactic(auto)]

ghost use Rattle.std.specs.Prelude.{◌≡◌, ◌<◌, get_or};
ghost use Rattle.forms.specs.Lines.{whole_lines};
ghost use Rattle.forms.specs.LinesLaws.{line_end};
ghost use Rattle.forms.specs.declared.House.TheVariants.{Ours};
ghost use Rattle.read_form.specs.Kinds.{kind_of};
ghost use Rattle.read_form.specs.Reader.{Serves};
ghost use Rattle.read_scan.specs.Scan.{line_at};
ghost use Rattle.read_places.specs.Places.{spots, no_spot, sought};

use read_form::{ENDS, FormReader, Kind, START};

// Where a line of a text stands: its number, from 1, its first byte and the byte past its last, less the line feed.
#[derive(Clone, Copy)]
pub struct Spot {
    pub number: usize,
    pub start: usize,
    pub end: usize,
}

// The place of a line's feed, and what the line is.
#[derive(Clone, Copy)]
struct Ended {
    place: usize,
    kind: Kind,
}

// The line that starts at a place of a text, before its last line feed.
fn to_end(text: &[u8], at: usize, reader: FormReader<'_>) -> Ended
    requires { (at < whole_lines text.now) × Serves Ours reader }
    ensures place_value { result.place ≡ line_end text.now at }
    ensures kind_value { result.kind ≡ kind_of Ours (line_at text.now at) }
{
    let mut state = START;
    let mut i = at;
    // stays: a while, for the state ends it and no byte is asked whether the text ends.
    while ENDS <= state {
        state = reader.next(state, text[i]);
        i += 1;
    }
    Ended {
        place: i - 1,
        kind: Kind::of_state(state),
    }
}

// The j-th line of a kind, from 0, with the tables of our own format; or, past the last line of its kind, by how many. Only the lines up to the last line
// feed are looked at.
// Not inlined, and the reader lent, so that LLVM holds the tables' addresses in registers: where it knows them, it forms both anew at each byte.
#[inline(never)]
fn search(text: &[u8], kind: Kind, j: usize, reader: &FormReader<'_>) -> Result<Spot, usize>
    requires { Serves Ours reader.now }
    ensures { result ≡ sought kind text.now j }
{
    let whole = read_line::lines_end(text);
    let mut at: usize = 0;
    let mut n: usize = 1;
    let mut left = j;
    // stays: a while, for a line is as long as its bytes say.
    while at < whole {
        let line = to_end(text, at, *reader);
        if line.kind == kind {
            if left == 0 {
                return Ok(Spot {
                    number: n,
                    start: at,
                    end: line.place,
                });
            }
            left -= 1;
        }
        at = line.place + 1;
        n += 1;
    }
    Err(left)
}

// Where the j-th line of a kind, from 0, stands in a text of our own format; or, past the last line of its kind, by how many.
pub fn seek(text: &[u8], kind: Kind, j: usize) -> Result<Spot, usize>
    ensures { result ≡ sought kind text.now j }
{
    search(text, kind, j, &grid_ours::reader())
}

// Its number, from 1; 0 where there is no such line.
// stays: 0 for none, as pages have it.
pub fn line_number(text: &[u8], kind: Kind, j: usize) -> usize
    ensures { result ≡ (get_or (spots kind text.now) j no_spot).number }
{
    match seek(text, kind, j) {
        Ok(spot) => spot.number,
        Err(_) => 0,
    }
}
