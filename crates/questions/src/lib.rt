// What every list of questions can come to; the questions themselves are definitions and laws.
#![tactic(auto)]

ghost use Rattle.std.specs.Prelude.{◌≡◌};
ghost use Rattle.questions.specs.Numbers.{number_of};

// The number of the question that was answered no, and the line; 0 where no line is to blame.
// stays: numbers, since pages and C replies have them; `Question` has the names.
#[derive(Clone, Copy)]
pub struct Refusal {
    pub number: usize,
    pub line: usize,
}

// The questions by name, in the order of their numbers (docs/RULES.md, "Questions").
#[derive(Clone, Copy)]
pub enum Question {
    TextLength,
    Printable,
    LineForm,
    PlainNumbers,
    SheetLine,
    Span,
    Stretch,
    Counts,
    Units,
    Rules,
    NoteBrackets,
    Rooms,
    ListLengths,
    Page,
    Loader,
    CarriedUnit,
    RuleLow,
    Spans,
    SharedLoader,
    CrossedRules,
    UnitOfLoader,
}

impl Question {
    // The number that docs/RULES.md gives it.
    pub fn number(self) -> usize
        ensures { result ≡ number_of self }
    {
        match self {
            Question::TextLength => 1,
            Question::Printable => 2,
            Question::LineForm => 3,
            Question::PlainNumbers => 4,
            Question::SheetLine => 5,
            Question::Span => 6,
            Question::Stretch => 7,
            Question::Counts => 8,
            Question::Units => 9,
            Question::Rules => 10,
            Question::NoteBrackets => 11,
            Question::Rooms => 12,
            Question::ListLengths => 13,
            Question::Page => 15,
            Question::Loader => 16,
            Question::CarriedUnit => 17,
            Question::RuleLow => 18,
            Question::Spans => 19,
            Question::SharedLoader => 20,
            Question::CrossedRules => 21,
            Question::UnitOfLoader => 27,
        }
    }

    // Its no, at a line.
    pub fn at(self, line: usize) -> Refusal
        ensures { result ≡ record { number = number_of self; line = line } }
    {
        Refusal {
            number: self.number(),
            line,
        }
    }

    // Its no, where no line is to blame.
    pub fn refused(self) -> Refusal
        ensures { result ≡ record { number = number_of self; line = 0 } }
    {
        self.at(0)
    }
}
