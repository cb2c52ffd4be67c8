#![tactic(auto)]

ghost use Rattle.std.specs.Prelude.{◌≡◌, true, ◌≤◌, ◌<◌, length, drop};
ghost use Rattle.forms.specs.Lines.{has_feed};
ghost use Rattle.forms.specs.declared.House.{House};
ghost use Rattle.read_form.specs.Grid.{start, state_count, run_of};
ghost use Rattle.read_form.specs.Reader.{Serves};
ghost use Rattle.read_scan.specs.Scan.{Resumes, StopsAt, ScannedAs, Small};

use read_form::{ENDS, FormReader, Kind, START, STOPS};

// Where reading a line stops: the place of its line feed or of a number's first digit, and the state past that byte.
#[derive(Clone, Copy)]
struct Stop {
    place: usize,
    state: usize,
}

// Where a line ends, what its bytes are, and whether its numbers pass question 4.
#[derive(Clone, Copy)]
pub struct Scanned {
    pub end: usize,
    pub kind: Kind,
    // stays: a flag, for what the line is decides whether question 4 is asked.
    pub plain: bool,
}

// How many values a line's numbers have room for: one for each state in which a number has begun.
pub const NUMBERS: usize = STOPS - ENDS;

// The form reader from a place on, up to the line feed or the next number.
fn to_stop(text: &[u8], at: usize, from: usize, reader: FormReader<'_>) -> Stop
    requires { Resumes text.now at from × ((h : House) × Serves h reader) }
    ensures { (h : House) → Serves h reader.entry → StopsAt h text.now at from result.place result.state }
{
    let mut state = reader.next(from, text[at]);
    let mut i = at + 1;
    // stays: a while, for the state ends it and no byte is asked whether the text ends.
    while STOPS <= state {
        state = reader.next(state, text[i]);
        i += 1;
    }
    Stop {
        place: i - 1,
        state,
    }
}

// The line that starts at a place. Its numbers are read where they are met, each into the place of its state; one that question 4 does not let pass
// has the value 0.
pub fn scan(text: &[u8], at: usize, reader: FormReader<'_>, values: &mut [u16; NUMBERS]) -> Scanned
    requires { (has_feed (drop at text.now) ≡ true) × ((h : House) × Serves h reader) × Small values.old }
    ensures scanned_as { (h : House) → Serves h reader.entry
        → ScannedAs h text.now at result.end result.kind result.plain values.old values.new }
    ensures small { Small values.new }
{
    let mut state = START;
    let mut i = at;
    let mut plain = true;
    // stays: a loop, for a line has as many numbers as its bytes say.
    loop {
        let stop = to_stop(text, i, state, reader);
        if stop.state < ENDS {
            return Scanned {
                end: stop.place,
                kind: Kind::of_state(stop.state),
                plain,
            };
        }
        let number = read_number::number_at(text, stop.place);
        plain &= number.value.is_some();
        values[stop.state - ENDS] = number.value.unwrap_or(0);
        state = stop.state;
        i = number.next;
    }
}

// The state past all bytes from a place on.
pub fn run(text: &[u8], at: usize, reader: FormReader<'_>) -> usize
    requires { (at ≤ length text.now) × ((h : House) × Serves h reader) }
    ensures { (result < state_count)
        × ((h : House) → Serves h reader.entry → result ≡ run_of h start (drop at text.now)) }
{
    let mut state = START;
    for b in &text[at..] {
        state = reader.next(state, *b);
    }
    state
}
