// Questions 19, 20 and 9 of two sheets that are to be one.
#![tactic(auto)]

ghost use Rattle.std.specs.Prelude.{◌≡◌, ◌≤◌, length, position, replicate};
ghost use Rattle.lists.specs.Lists.{member};
ghost use Rattle.sheet.specs.Sizes.{max_units};
ghost use Rattle.loaders.specs.Chains.{chains, Linked};
ghost use Rattle.questions.specs.Questions.{verdict_of, first_no};
ghost use Rattle.merge_questions.specs.Merging.{unit_questions};

use questions::{Question, Refusal};
use read_form::Kind;
use sheet::Sheet;

// All numbers of a list into their chains, which are empty.
fn link_all(ks: &[u16], heads: &mut [u16], nexts: &mut [u16])
    requires { (length ks.now ≤ max_units) × (heads.old ≡ replicate chains 0) × (length nexts.old ≡ max_units) }
    ensures { Linked ks.now (length ks.now) heads.new nexts.new }
{
    for (j, k) in ks.iter().enumerate() {
        loaders::link(*k, j, heads, nexts);
    }
}

// The first place of the second list whose number stands in the first.
fn first_shared(ones: &[u16], twos: &[u16]) -> Option<usize>
    requires { length ones.now ≤ max_units }
    ensures { result ≡ position (λ k. member k ones.now) twos.now }
{
    let mut heads = [0u16; loaders::CHAINS];
    let mut nexts = [0u16; Sheet::MAX_UNITS];
    link_all(ones, &mut heads, &mut nexts);
    twos.iter().position(|k| loaders::is_among(ones, ones.len(), &heads, &nexts, *k))
}

// The questions, by the spans and the loader numbers of both sheets; lines are those of the second's text.
pub fn ask_units(two: &[u8], p: usize, q: usize, ones: &[u16], twos: &[u16]) -> Result<(), Refusal>
    requires { (length ones.now ≤ max_units) × (length twos.now ≤ max_units) }
    ensures { verdict_of result ≡ first_no (unit_questions two.now p q ones.now twos.now) }
{
    if p != q {
        return Err(Question::Spans.at(read_places::line_number(two, Kind::Sheet, 0)));
    }
    if let Some(j) = first_shared(ones, twos) {
        return Err(Question::SharedLoader.at(read_places::line_number(two, Kind::Unit, j)));
    }
    let left = Sheet::MAX_UNITS - ones.len();
    if left < twos.len() {
        return Err(Question::Units.at(read_places::line_number(two, Kind::Unit, left)));
    }
    Ok(())
}
