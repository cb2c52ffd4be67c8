// Two texts read one behind the other, and the questions of both.
#![tactic(auto)]

ghost use Rattle.std.specs.Prelude.{◌≡◌, ◌+◌};
ghost use Rattle.sheet.specs.Sizes.{max_units, max_rules};
ghost use Rattle.read_questions.specs.Reading.{rooms};
ghost use Rattle.read_questions.specs.Steps.{Holds};
ghost use Rattle.merge_questions.specs.Merging.{joined_reply, joined_blame, blamed_sheet};
ghost use Rattle.merge_join.specs.Join.{join_reply, LeavesMerged};
ghost use Rattle.merge_join.specs.JoinedArrays.{lists_in, cleared};

use merge_questions::Blamed;
use sheet::Sheet;

// As many units, and as many rules, as two sheets may have.
pub const BOTH_UNITS: usize = 2 * Sheet::MAX_UNITS;

pub const BOTH_RULES: usize = 2 * Sheet::MAX_RULES;

// All questions but 12. Then the merged sheet stands at the fronts of the arrays.
// stays: the arrays one by one, so that any that hold two sheets will do; those of `JoinedLists` are of one length
pub fn join(
    one: &[u8],
    two: &[u8],
    numbers: &mut [u16],
    firsts: &mut [u16],
    lasts: &mut [u16],
    froms: &mut [u16],
    tos: &mut [u16],
    lows: &mut [u16],
    highs: &mut [u16],
) -> Result<Sheet, Blamed>
    requires { Holds (max_units + max_units) (max_rules + max_rules)
        (rooms numbers.old firsts.old lasts.old froms.old tos.old lows.old highs.old) }
    ensures result_value { joined_reply result ≡ join_reply one.now two.now }
    ensures result_value_2 { joined_blame result ≡ blamed_sheet one.now two.now }
    ensures leaves_merged { LeavesMerged result one.now two.now
        (rooms numbers.new firsts.new lasts.new froms.new tos.new lows.new
        highs.new) }
{
    let mut from = [0u16; BOTH_RULES];
    let mut to = [0u16; BOTH_RULES];
    let mut low = [0u16; BOTH_RULES];
    let mut high = [0u16; BOTH_RULES];
    let a = merge_read::read_behind(
        one, 0, 0, numbers, firsts, lasts, &mut from, &mut to, &mut low, &mut high,
    )
    .map_err(|refusal| Blamed { refusal, sheet: 1 })?;
    let b = merge_read::read_behind(
        two, a.units, a.rules, numbers, firsts, lasts, &mut from, &mut to, &mut low, &mut high,
    )
    .map_err(merge_both::blamed)?;
    merge_both::ask_both(
        two, a, b, numbers, &from, &to, &low, &high, froms, tos, lows, highs,
    )
}

// The arrays that two texts are read into: the units of both, and one rule for each stretch of theirs.
#[derive(Drop)]
pub struct JoinedLists {
    pub numbers: [u16; BOTH_UNITS],
    pub firsts: [u16; BOTH_UNITS],
    pub lasts: [u16; BOTH_UNITS],
    pub froms: [u16; BOTH_RULES],
    pub tos: [u16; BOTH_RULES],
    pub lows: [u16; BOTH_RULES],
    pub highs: [u16; BOTH_RULES],
}

impl JoinedLists {
    pub fn cleared() -> Self
        ensures { lists_in result ≡ cleared }
    {
        JoinedLists {
            numbers: [0; BOTH_UNITS],
            firsts: [0; BOTH_UNITS],
            lasts: [0; BOTH_UNITS],
            froms: [0; BOTH_RULES],
            tos: [0; BOTH_RULES],
            lows: [0; BOTH_RULES],
            highs: [0; BOTH_RULES],
        }
    }

    // `join` on its arrays, which hold two sheets by their type.
    pub fn join(&mut self, one: &[u8], two: &[u8]) -> Result<Sheet, Blamed>
        ensures result_value { joined_reply result ≡ join_reply one.now two.now }
        ensures result_value_2 { joined_blame result ≡ blamed_sheet one.now two.now }
        ensures leaves_merged { LeavesMerged result one.now two.now (lists_in self.new) }
    {
        join(
            one,
            two,
            &mut self.numbers,
            &mut self.firsts,
            &mut self.lasts,
            &mut self.froms,
            &mut self.tos,
            &mut self.lows,
            &mut self.highs,
        )
    }
}
