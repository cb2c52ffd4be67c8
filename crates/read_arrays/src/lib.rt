#![tactic(auto)]

ghost use Rattle.std.specs.Prelude.{◌≡◌};
ghost use Rattle.read_questions.specs.Reading.{reply_of, reading};
ghost use Rattle.read_rooms.specs.Rooms.{sizes_of, rooms_after};
ghost use Rattle.read_whole.specs.Fronts.{fronts, Held};
ghost use Rattle.read_arrays.specs.Arrays.{lists_in, cleared};

use forms::House;
use questions::Refusal;
use sheet::{Lists, Sheet, WrittenLists};

// The arrays that a text is read into: they hold every sheet.
#[derive(Drop)]
pub struct SheetArrays {
    pub loader: [u16; Sheet::MAX_UNITS],
    pub first: [u16; Sheet::MAX_UNITS],
    pub last: [u16; Sheet::MAX_UNITS],
    pub from: [u16; Sheet::MAX_RULES],
    pub to: [u16; Sheet::MAX_RULES],
    pub low: [u16; Sheet::MAX_RULES],
    pub high: [u16; Sheet::MAX_RULES],
}

impl SheetArrays {
    pub fn cleared() -> Self
        ensures { lists_in result ≡ cleared }
    {
        SheetArrays {
            loader: [0; Sheet::MAX_UNITS],
            first: [0; Sheet::MAX_UNITS],
            last: [0; Sheet::MAX_UNITS],
            from: [0; Sheet::MAX_RULES],
            to: [0; Sheet::MAX_RULES],
            low: [0; Sheet::MAX_RULES],
            high: [0; Sheet::MAX_RULES],
        }
    }

    // What reading asks of a text of a house. Then its sheet stands at the fronts.
    pub fn read(&mut self, house: House, text: &[u8]) -> Result<Sheet, Refusal>
        ensures result_value { reply_of result ≡ reading house text.now (sizes_of (lists_in self.old)) }
        ensures high_after { lists_in self.new ≡ rooms_after house text.now (lists_in self.old) }
    {
        read::read(
            house,
            text,
            &mut self.loader,
            &mut self.first,
            &mut self.last,
            &mut self.from,
            &mut self.to,
            &mut self.low,
            &mut self.high,
        )
    }

    // The lists of the sheet at the fronts.
    pub fn lists(&self, s: Sheet) -> WrittenLists<'_>
        requires { Held s (lists_in self.now) }
        ensures { result ≡ fronts s (lists_in self.now) }
    {
        let n = s.units;
        let r = s.rules;
        WrittenLists {
            loader: &self.loader[..n],
            constraints: Lists {
                span: s.span,
                first: &self.first[..n],
                last: &self.last[..n],
                from: &self.from[..r],
                to: &self.to[..r],
                low: &self.low[..r],
                high: &self.high[..r],
            },
        }
    }
}
