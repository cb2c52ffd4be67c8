#![tactic(auto)]

ghost use Rattle.std.specs.Prelude.{◌≡◌, cond, ◌≤◌, eqb, length, take};
ghost use Rattle.questions.specs.declared.Question.TheVariants.{SheetLine, Stretch};
ghost use Rattle.sheet.specs.Sizes.{max_units};
ghost use Rattle.read_steps.specs.Steps.{put_by};
ghost use Rattle.read_unit.specs.UnitStep.{unit_step, Chained, ChainedBy};

use forms::House;
use questions::Question;
use read_steps::is_window;
use sheet::Sheet;

// The question that a window of no place fails: 5 before the sheet form, where the span is still 0 and holds none, and else 7.
fn window_fault(span: usize) -> Question
    ensures { result ≡ cond (eqb span 0) SheetLine Stretch }
{
    if span == 0 {
        Question::SheetLine
    } else {
        Question::Stretch
    }
}

// Questions 5, 7, 16 and 9; a unit that passes is kept, and its loader number is found from then on.
// stays: the lists one by one; of a struct of `&mut` lists a clause can tell what is left only part by part, as `exit.1.0.now` (docs/DECISIONS.md)
pub fn unit_step(
    house: House,
    s: Sheet,
    loader: u16,
    first: u16,
    last: u16,
    numbers: &mut [u16],
    firsts: &mut [u16],
    lasts: &mut [u16],
    heads: &mut [u16],
    nexts: &mut [u16],
) -> Result<Sheet, Question>
    requires { Chained s numbers.old heads.old nexts.old × (max_units ≤ length firsts.old) × (max_units ≤ length lasts.old) }
    ensures value { result ≡ unit_step house (take s.units numbers.old) s loader first last }
    ensures chained_by { ChainedBy result numbers.new heads.new nexts.new }
    ensures numbers_after { numbers.new ≡ put_by result numbers.old s.units loader }
    ensures firsts_after { firsts.new ≡ put_by result firsts.old s.units first }
    ensures lasts_after { lasts.new ≡ put_by result lasts.old s.units last }
{
    let n = s.units;
    if !is_window(house, s.span, first, last) {
        return Err(window_fault(s.span));
    }
    if !loaders::is_new(numbers, n, heads, nexts, loader) {
        return Err(Question::Loader);
    }
    if n < Sheet::MAX_UNITS {
        numbers[n] = loader;
        firsts[n] = first;
        lasts[n] = last;
        loaders::link(loader, n, heads, nexts);
        return Ok(Sheet { units: n + 1, ..s });
    }
    Err(Question::Units)
}
