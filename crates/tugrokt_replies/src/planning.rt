ghost use Rattle.std.specs.Prelude.{◌≡◌};
ghost use Rattle.plan_answers.specs.Reply.{reply_of};
ghost use Rattle.tugrokt_replies.specs.Numbers.{planning_of};

use plan_answers::Fit;
use questions::Refusal;

// What planning and deciding reply: the length of the ring, which a plan does not have.
#[repr(C)]
#[derive(Clone, Copy, Default)]
pub struct Planning {
    pub number: usize,
    pub line: usize,
    pub length: usize,
}

// The reply as numbers.
impl From<Result<Fit, Refusal>> for Planning {
    ghost from_gives = { λ answer numbers. numbers ≡ planning_of (reply_of answer) };

    fn from(answer: Result<Fit, Refusal>) -> Planning {
        match answer {
            Err(refusal) => Planning {
                number: refusal.number,
                line: refusal.line,
                ..Planning::default()
            },
            Ok(Ok(())) => Planning::default(),
            Ok(Err(ring)) => Planning {
                length: ring.length,
                ..Planning::default()
            },
        }
    }
}
