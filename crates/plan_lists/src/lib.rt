#![tactic(auto)]

ghost use Rattle.std.specs.Prelude.{◌≡◌, length};
ghost use Rattle.sheet.specs.Lists.{agree, all_agree};
ghost use Rattle.plan_lists.specs.Rising.{all_rising};

use sheet::{Lists, WrittenLists};

// Question 13, of the windows and the rules.
#[tactic(auto, unfolding(sheet::specs::Questions::lists_agree))]
fn lists_agree(lists: &Lists<'_>) -> bool
    ensures { result ≡ agree lists.now }
{
    let n = lists.from.len();
    lists.last.len() == lists.first.len()
        && (lists.to.len() == n && (lists.low.len() == n && lists.high.len() == n))
}

// Question 13, of all lists.
pub fn all_agree(lists: &WrittenLists<'_>) -> bool
    ensures { result ≡ all_agree lists.now }
{
    lists.loader.len() == lists.constraints.first.len() && lists_agree(&lists.constraints)
}

// Questions 7 and 8 are one, asked at each place of two lists: is the first from least to start, and the last from the first to most?
pub fn all_rise(least: usize, start: usize, most: usize, first: &[u16], last: &[u16]) -> bool
    requires { length last.now ≡ length first.now }
    ensures { result ≡ all_rising least start most first.now last.now }
{
    first.iter().zip(last).all(|(f, l)| sheet::rises(least, start, most, *f as usize, *l as usize))
}
