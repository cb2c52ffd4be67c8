ghost use Rattle.std.specs.Prelude.{◌≡◌, ◌++◌, ◌+◌, ◌*◌, ◌<◌, ◌≤◌, length, drop, pos, neg_ℤ};
ghost use Rattle.network.specs.Table.{table_of, entry};
ghost use Rattle.slots.specs.Slots.{slot_end, slot_start};
ghost use Rattle.sheet.specs.Sizes.{max_units, max_count};
ghost use Rattle.sheet.specs.Lists.{given};
ghost use Rattle.limits.specs.LimitTable.{with_forward, tightened_at, limit_table, CanFill};

use limit_places::{back_place, forward_place};
use limit_value::{Limit, signed};
use limit_windows::windows_inside;
use sheet::Lists;

// n on every forward step.
pub fn fill_forward(n: usize, w: usize, t: &mut [i16])
    requires { (n ≤ max_units) × (w * w ≤ length t.old) }
    ensures { t.new ≡ table_of w (with_forward n (entry w t.old)) ++ drop (w * w) t.old }
{
    let most = signed(n as u16);
    // stays: boundaries are counted, from which the parts of the table come.
    for a in 0..w {
        let row = a * w;
        t[row + a + 1..row + w].fill(most);
    }
}

// A rule on exactly its stretch: its high on the step forward, its low on the step back.
pub fn apply_rule(from: u16, to: u16, low: u16, high: u16, w: usize, t: &mut [i16])
    requires { (1 ≤ from) × (from ≤ to) × (to < w) × (low ≤ max_count) × (high ≤ max_count) × (w * w ≤ length t.old) }
    ensures { t.new ≡ tightened_at (slot_end to * w + slot_start from) (neg_ℤ (pos low))
        (tightened_at (slot_start from * w + slot_end to) (pos high) t.old) }
{
    let ahead = forward_place(from, to, w);
    t[ahead] = Limit { value: t[ahead] }.with_high(high).value;
    let behind = back_place(from, to, w);
    t[behind] = Limit { value: t[behind] }.with_low(low).value;
}

// The limits of all steps: windows inside, n on every forward step, and every rule.
pub fn fill_limits(lists: &Lists<'_>, t: &mut [i16])
    requires { CanFill lists.now (length t.old) }
    ensures { t.new ≡ limit_table (given lists.now) t.old }
{
    let w = sheet::boundaries(lists.span);
    windows_inside(lists.first, lists.last, w, t);
    fill_forward(lists.first.len(), w, t);
    // From the last rule to the first, as the list of rules is built.
    // stays: places of four lists; a `zip` of zips hands out nested pairs, which is no plainer.
    for k in (0..lists.from.len()).rev() {
        apply_rule(
            lists.from[k],
            lists.to[k],
            lists.low[k],
            lists.high[k],
            w,
            t,
        );
    }
}
