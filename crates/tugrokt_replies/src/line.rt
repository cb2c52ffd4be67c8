ghost use Rattle.std.specs.Prelude.{◌≡◌};
ghost use Rattle.tugrokt_replies.specs.Numbers.{line_of, Rises};

use merge_lines::LinePlace;
use merge_questions::Blamed;

// What asking for a unit's line replies: which text it stands in, 1 or 2, its first byte and how many there are, less the line feed.
#[repr(C)]
#[derive(Clone, Copy, Default)]
pub struct Line {
    pub number: usize,
    pub line: usize,
    pub sheet: usize,
    pub start: usize,
    pub length: usize,
}

// The reply as numbers.
// stays: a function; it asks that the line does not end before it starts, and a `From` can ask nothing.
pub fn numbers_of(found: Result<LinePlace, Blamed>) -> Line
    requires { Rises found }
    ensures { result ≡ line_of found }
{
    match found {
        Err(blamed) => Line {
            number: blamed.refusal.number,
            line: blamed.refusal.line,
            ..Line::default()
        },
        Ok(LinePlace::First(start, end)) => Line {
            sheet: 1,
            start,
            length: end - start,
            ..Line::default()
        },
        Ok(LinePlace::Second(start, end)) => Line {
            sheet: 2,
            start,
            length: end - start,
            ..Line::default()
        },
    }
}
