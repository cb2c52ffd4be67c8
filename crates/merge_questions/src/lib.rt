// What merging two texts asks and answers is definitions and laws; the code is the answer's types.
#![tactic(auto)]

ghost use Rattle.std.specs.Prelude.{◌≡◌};

use questions::Refusal;

// The first no, with which of the two sheets it is of, 1 or 2; 0 where it is of neither.
#[derive(Clone, Copy)]
pub struct Blamed {
    pub refusal: Refusal,
    // stays: a number, as the definition of whose refusal it is has it (`blamed_sheet`)
    pub sheet: usize,
}

// The refusal alone.
impl From<Blamed> for Refusal {
    ghost from_gives = { λ blamed refusal. refusal ≡ blamed.refusal };

    fn from(blamed: Blamed) -> Refusal {
        blamed.refusal
    }
}
