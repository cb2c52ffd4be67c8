#![tactic(auto)]

ghost use Rattle.std.specs.Prelude.{◌≡◌};
ghost use Rattle.read_questions.specs.Reading.{reply_of, reading, rooms};
ghost use Rattle.read_rooms.specs.Rooms.{sizes_of, rooms_after};

use forms::House;
use questions::{Question, Refusal};
use sheet::Sheet;

// The open entry, for a text of either house. A refusal leaves every room as it was; else the units and rules stand at the front of theirs.
pub fn read(
    house: House,
    text: &[u8],
    loader: &mut [u16],
    first: &mut [u16],
    last: &mut [u16],
    from: &mut [u16],
    to: &mut [u16],
    low: &mut [u16],
    high: &mut [u16],
) -> Result<Sheet, Refusal>
    ensures result_value { reply_of result
        ≡ reading house text.now
        (sizes_of (rooms loader.old first.old last.old from.old to.old low.old
        high.old)) }
    ensures high_after { rooms loader.new first.new last.new from.new to.new low.new
        high.new
        ≡ rooms_after house text.now
        (rooms loader.old first.old last.old from.old to.old low.old
        high.old) }
{
    if Sheet::MAX_BYTES < text.len() {
        return Err(Question::TextLength.refused());
    }
    let mut numbers = [0u16; Sheet::MAX_UNITS];
    let mut firsts = [0u16; Sheet::MAX_UNITS];
    let mut lasts = [0u16; Sheet::MAX_UNITS];
    let mut froms = [0u16; Sheet::MAX_RULES];
    let mut tos = [0u16; Sheet::MAX_RULES];
    let mut lows = [0u16; Sheet::MAX_RULES];
    let mut highs = [0u16; Sheet::MAX_RULES];
    let s = read_ask::ask_text(
        house,
        text,
        &mut numbers,
        &mut firsts,
        &mut lasts,
        &mut froms,
        &mut tos,
        &mut lows,
        &mut highs,
    )?;
    if !read_rooms::lists_fit(
        s,
        loader.len(),
        first.len(),
        last.len(),
        from.len(),
        to.len(),
        low.len(),
        high.len(),
    ) {
        return Err(Question::Rooms.refused());
    }
    read_rooms::fill(
        s, &numbers, &firsts, &lasts, &froms, &tos, &lows, &highs, loader, first, last, from, to,
        low, high,
    );
    Ok(s)
}
