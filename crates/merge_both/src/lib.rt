// The questions of two sheets that were read, one behind the other.
#![tactic(auto)]

ghost use Rattle.std.specs.Prelude.{◌≡◌};
ghost use Rattle.sheet.specs.Sheet.{WrittenSheet};
ghost use Rattle.merge_rules.specs.Columns.{columns};
ghost use Rattle.merge_both.specs.Both.{BothRead, AsksBoth, blamed_by};

use merge_questions::Blamed;
use questions::{Question, Refusal};
use sheet::Sheet;

// A refusal with the sheet that it is of, once the first has passed its own questions: rules that cross where the second has none are the first's.
pub fn blamed(refusal: Refusal) -> Blamed
    ensures { result ≡ blamed_by refusal }
{
    let crossed = refusal.number == Question::CrossedRules.number();
    let sheet = if crossed && refusal.line == 0 { 1 } else { 2 };
    Blamed { refusal, sheet }
}

// The questions of both, by their numbers and rules in lists, the first sheet's in front; then the combined rules stand at the front of the arrays.
pub fn ask_both(
    two: &[u8],
    a: Sheet,
    b: Sheet,
    numbers: &[u16],
    from: &[u16],
    to: &[u16],
    low: &[u16],
    high: &[u16],
    froms: &mut [u16],
    tos: &mut [u16],
    lows: &mut [u16],
    highs: &mut [u16],
) -> Result<Sheet, Blamed>
    requires { (wa : WrittenSheet) × ((wb : WrittenSheet)
        × BothRead wa wb a b numbers.now (columns from.now to.now low.now high.now)
        (columns froms.old tos.old lows.old highs.old)) }
    ensures { (wa wb : WrittenSheet)
        → BothRead wa wb a b numbers.now (columns from.now to.now low.now high.now)
        (columns froms.old tos.old lows.old highs.old)
        → AsksBoth result wa wb two.now (columns froms.old tos.old lows.old highs.old)
        (columns froms.new tos.new lows.new highs.new) }
{
    let units = a.units;
    let rules = a.rules;
    let n = units + b.units;
    let r = rules + b.rules;
    merge_units::ask_units(two, a.span, b.span, &numbers[..units], &numbers[units..n]).map_err(
        blamed,
    )?;
    let count = merge_stretches::ask_rules(
        two,
        rules,
        &from[..r],
        &to[..r],
        &low[..r],
        &high[..r],
        froms,
        tos,
        lows,
        highs,
    )
    .map_err(blamed)?;
    Ok(Sheet {
        span: a.span,
        units: n,
        rules: count,
    })
}
