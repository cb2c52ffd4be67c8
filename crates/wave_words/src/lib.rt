// The words that the program takes, and what they may ask for.
#![tactic(auto)]

ghost use Rattle.std.specs.Prelude.{◌≡◌, ◌↔◌, T};
ghost use Rattle.wave_words.specs.Words.{AsksFor};

use forms::House;

// No word that is taken is longer.
pub const MAX_WORD: usize = 12;

// What is asked of a sheet: its plan, or only whether there is one and how many units each slot may have.
#[derive(Clone, Copy)]
pub enum Query {
    Plan,
    Fits,
}

// What the words ask for: an answer to a sheet of a house, a sheet of one house in the form of another, two sheets as one, or the line of a unit of two
// sheets.
#[derive(Clone, Copy)]
pub enum Asked {
    Answer(House, Query),
    Convert(House, House),
    Merge,
    Line,
}

// Whether the word is this one, with as many further words as it takes.
fn called(word: &[u8], more: usize, name: &[u8], takes: usize) -> bool
    ensures { T result ↔ ((word.now ≡ name.now) × (more ≡ takes)) }
{
    word == name && more == takes
}

// What a word asks for that is followed by so many more; nothing where the program does not take them.
// stays: an `if` for each word; a `match` on byte strings leaves more than sixty goals, one for each way past its arms.
pub fn asked_by(word: &[u8], more: usize) -> Option<Asked>
    ensures { AsksFor result word.now more }
{
    if called(word, more, b"plan", 0) {
        return Some(Asked::Answer(House::Ours, Query::Plan));
    }
    if called(word, more, b"fits", 0) {
        return Some(Asked::Answer(House::Ours, Query::Fits));
    }
    if called(word, more, b"partner", 0) {
        return Some(Asked::Answer(House::Partner, Query::Plan));
    }
    if called(word, more, b"from-partner", 0) {
        return Some(Asked::Convert(House::Partner, House::Ours));
    }
    if called(word, more, b"to-partner", 0) {
        return Some(Asked::Convert(House::Ours, House::Partner));
    }
    if called(word, more, b"merge", 2) {
        return Some(Asked::Merge);
    }
    if called(word, more, b"line", 3) {
        return Some(Asked::Line);
    }
    None
}
