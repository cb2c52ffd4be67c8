ghost use Rattle.std.specs.Prelude.{◌≡◌};
ghost use Rattle.plan_answers.specs.Reply.{seat_reply, looks_told};
ghost use Rattle.tugrokt_replies.specs.Numbers.{seating_of};

use questions::Refusal;

// What seating replies: 1 for a plan, and 0 for none; and how many units it looked at.
#[repr(C)]
#[derive(Clone, Copy, Default)]
pub struct Seating {
    pub number: usize,
    pub line: usize,
    pub planned: usize,
    pub looked: usize,
}

// The reply as numbers.
impl From<Result<Option<usize>, Refusal>> for Seating {
    ghost from_gives = { λ answer numbers. numbers ≡ seating_of (looks_told answer) (seat_reply answer) };

    fn from(answer: Result<Option<usize>, Refusal>) -> Seating {
        match answer {
            Err(refusal) => Seating {
                number: refusal.number,
                line: refusal.line,
                ..Seating::default()
            },
            Ok(Some(looked)) => Seating {
                planned: 1,
                looked,
                ..Seating::default()
            },
            Ok(None) => Seating::default(),
        }
    }
}
