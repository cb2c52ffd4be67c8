#![tactic(auto)]

ghost use Rattle.std.specs.Prelude.{◌≡◌, ◌+◌};
ghost use Rattle.sheet.specs.Sizes.{max_units, max_rules};
ghost use Rattle.forms.specs.declared.House.TheVariants.{Ours};
ghost use Rattle.read_questions.specs.Reading.{rooms, reply_of};
ghost use Rattle.read_questions.specs.Steps.{Holds};
ghost use Rattle.merge_read.specs.Behind.{text_reply, KeptBehind};

use forms::House;
use questions::{Question, Refusal};
use sheet::Sheet;

// Reading's questions but 12, of a text of our own. Its units and rules go into the arrays behind those that stand there.
// stays: seven arrays, since `join` lends columns of its own for the rules beside its lists of the units
pub fn read_behind(
    text: &[u8],
    units: usize,
    rules: usize,
    numbers: &mut [u16],
    firsts: &mut [u16],
    lasts: &mut [u16],
    froms: &mut [u16],
    tos: &mut [u16],
    lows: &mut [u16],
    highs: &mut [u16],
) -> Result<Sheet, Refusal>
    requires { Holds (units + max_units) (rules + max_rules)
        (rooms numbers.old firsts.old lasts.old froms.old tos.old lows.old highs.old) }
    ensures result_value { reply_of result ≡ text_reply Ours text.now }
    ensures kept_behind { KeptBehind result text.now units rules
        (rooms numbers.old firsts.old lasts.old froms.old tos.old lows.old
        highs.old)
        (rooms numbers.new firsts.new lasts.new froms.new tos.new lows.new
        highs.new) }
{
    if Sheet::MAX_BYTES < text.len() {
        return Err(Question::TextLength.refused());
    }
    read_ask::ask_text(
        House::Ours,
        text,
        &mut numbers[units..],
        &mut firsts[units..],
        &mut lasts[units..],
        &mut froms[rules..],
        &mut tos[rules..],
        &mut lows[rules..],
        &mut highs[rules..],
    )
}
