ghost use Rattle.std.specs.Prelude.{◌≡◌};
ghost use Rattle.print_answer.specs.Reply.{reply_of};
ghost use Rattle.tugrokt_replies.specs.Numbers.{printing_of};

use print_answer::Printed;
use questions::Refusal;

// What printing replies: the length of the ring, and the place just past the answer, or the place that was given where the call was refused.
#[repr(C)]
#[derive(Clone, Copy, Default)]
pub struct Printing {
    pub number: usize,
    pub line: usize,
    pub length: usize,
    pub place: usize,
}

// The reply as numbers, to a call that was given this place.
// stays: a function; a `From` takes one value, and the reply needs the place too.
pub fn numbers_of(at: usize, answer: Result<Printed, Refusal>) -> Printing
    ensures { result ≡ printing_of at (reply_of answer) }
{
    match answer {
        Err(refusal) => Printing {
            number: refusal.number,
            line: refusal.line,
            place: at,
            ..Printing::default()
        },
        Ok(printed) => Printing {
            length: match printed.fit {
                Ok(()) => 0,
                Err(ring) => ring.length,
            },
            place: printed.place,
            ..Printing::default()
        },
    }
}
