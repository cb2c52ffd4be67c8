ghost use Rattle.std.specs.Prelude.{◌≡◌};
ghost use Rattle.read_questions.specs.Reading.{reply_of};
ghost use Rattle.tugrokt_replies.specs.Numbers.{reading_of};

use questions::Refusal;
use sheet::Sheet;

// What reading replies: the span and the numbers of units and rules of the sheet that was read.
#[repr(C)]
#[derive(Clone, Copy, Default)]
pub struct Reading {
    pub number: usize,
    pub line: usize,
    pub span: usize,
    pub units: usize,
    pub rules: usize,
}

// The reply as numbers.
impl From<Result<Sheet, Refusal>> for Reading {
    ghost from_gives = { λ reply numbers. numbers ≡ reading_of (reply_of reply) };

    fn from(reply: Result<Sheet, Refusal>) -> Reading {
        match reply {
            Err(refusal) => Reading {
                number: refusal.number,
                line: refusal.line,
                ..Reading::default()
            },
            Ok(s) => Reading {
                span: s.span,
                units: s.units,
                rules: s.rules,
                ..Reading::default()
            },
        }
    }
}
