ghost use Rattle.std.specs.Prelude.{◌≡◌};
ghost use Rattle.write.specs.Writing.{reply_of};
ghost use Rattle.tugrokt_replies.specs.Numbers.{writing_of};

use questions::Refusal;

// What writing a sheet and answering a text reply: the place just past what was put onto the page, or the place that was given where the call was refused.
#[repr(C)]
#[derive(Clone, Copy, Default)]
pub struct Writing {
    pub number: usize,
    pub line: usize,
    pub place: usize,
}

// The reply as numbers, to a call that was given this place.
// stays: a function; a `From` takes one value, and the reply needs the place too.
pub fn numbers_of(at: usize, written: Result<usize, Refusal>) -> Writing
    ensures { result ≡ writing_of at (reply_of written) }
{
    match written {
        Err(refusal) => Writing {
            number: refusal.number,
            line: refusal.line,
            place: at,
        },
        Ok(next) => Writing {
            place: next,
            ..Writing::default()
        },
    }
}
