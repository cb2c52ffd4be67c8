// The form reader: over which states a line is read byte by byte, and what it then is. The tables of the states are in grid_ours and grid_partner.
#![tactic(auto)]

ghost use Rattle.std.specs.Prelude.{◌≡◌, ◌<◌};
ghost use Rattle.read_form.specs.Grid.{classes, class_count, class_of, entry_of, kind_of_code, state_count};
ghost use Rattle.read_form.specs.Reader.{Serves};
ghost use Rattle.forms.specs.declared.House.{House};

pub mod tables;

// How many classes of bytes and how many reading states there are.
pub const CLASSES: usize = 32;

pub const STATES: usize = 82;

// stays: states are numbers, for they are the places of the tables' rows.
// The state in which the first byte of a line is read. A state below ENDS says that the line has ended, and what it is; one from there on and below STOPS
// that a number has begun, and which.
pub const START: usize = 16;

pub const ENDS: usize = 6;

pub const STOPS: usize = 14;

// The state that follows each state over each class of bytes.
pub type Grid = [[u8; CLASSES]; STATES];

// What a line is, as far as its bytes alone tell.
#[derive(Clone, Copy, PartialEq, Eq)]
pub enum Kind {
    Unprintable,
    Note,
    Sheet,
    Unit,
    Rule,
    Other,
}

impl Kind {
    // What the line is that has ended in a state.
    pub fn of_state(state: usize) -> Kind
        ensures { result ≡ kind_of_code state }
    {
        // stays: numbers for kinds, for a state that ends a line is its kind's code in the tables.
        match state {
            0 => Kind::Unprintable,
            1 => Kind::Note,
            2 => Kind::Sheet,
            3 => Kind::Unit,
            4 => Kind::Rule,
            _ => Kind::Other,
        }
    }
}

// The class of each byte.
static CLASSES_OF_BYTES: [u8; 256] = tables::CLASS_OF;

pub fn class_table() -> &'static [u8; 256]
    ensures { result.now ≡ classes }
{
    &CLASSES_OF_BYTES
}

// The form reader of a house: its tables, as they are lent to a call.
#[derive(Clone, Copy)]
pub struct FormReader<'a> {
    pub grid: &'a Grid,
    pub classes: &'a [u8; 256],
}

impl FormReader<'_> {
    fn class_of(self, b: u8) -> usize
        requires { self.classes.now ≡ classes }
        ensures { (result ≡ class_of b) × (result < class_count) }
    {
        self.classes[b as usize] as usize
    }

    // The state after one byte more.
    pub fn next(self, state: usize, b: u8) -> usize
        requires { ((h : House) × Serves h self) × (state < state_count) }
        ensures { result ≡ entry_of self.entry.grid.now state (class_of b) }
    {
        let c = self.class_of(b);
        self.grid[state][c] as usize
    }
}
