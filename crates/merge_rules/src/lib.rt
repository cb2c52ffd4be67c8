#![tactic(auto)]

ghost use Rattle.std.specs.Prelude.{◌≡◌, List, map, ◌≤◌, ◌<◌, suc, ltb, length, get_or, take, MatchOption};
ghost use Rattle.lists.specs.Lists.{on_front};
ghost use Rattle.lists.specs.First.{first_place};
ghost use Rattle.sheet.specs.Sizes.{max_rules};
ghost use Rattle.sheet.specs.Sheet.{Rule};
ghost use Rattle.sheet.specs.Questions.{rules_of};
ghost use Rattle.lists.specs.Last.{last_passing};
ghost use Rattle.merge_sheets.specs.Merge.{merged_rules, with_rule};
ghost use Rattle.merge_rules.specs.Columns.{Columns, columns, rule_of, stretch_at, AtFront};

use sheet::Sheet;

// The place of a stretch among the first n.
fn place_of(froms: &[u16], tos: &[u16], n: usize, f: u16, t: u16) -> Option<usize>
    requires { (n ≤ length froms.now) × (n ≤ length tos.now) }
    ensures { MatchOption result (first_place n (stretch_at froms.now tos.now f t) ≡ n)
        (λ p. (p < n) × (p ≡ first_place n (stretch_at froms.now tos.now f t))) }
{
    froms[..n]
        .iter()
        .zip(&tos[..n])
        .position(|(&from, &to)| from == f && to == t)
}

// One rule more: it tightens the rule on its stretch, or stands behind the n that are there. Answers how many there are then.
fn add_rule(
    from: u16,
    to: u16,
    low: u16,
    high: u16,
    n: usize,
    froms: &mut [u16],
    tos: &mut [u16],
    lows: &mut [u16],
    highs: &mut [u16],
) -> usize
    requires { (n < length froms.old) × (n < length tos.old) × (n < length lows.old) × (n < length highs.old) }
    ensures { (qs : List Rule) (before : Columns)
        → AtFront qs n before (columns froms.old tos.old lows.old highs.old)
        → AtFront (with_rule qs (rule_of from to low high)) result before (columns froms.new tos.new lows.new highs.new) }
{
    if let Some(p) = place_of(froms, tos, n, from, to) {
        lows[p] = lows[p].max(low);
        highs[p] = highs[p].min(high);
        return n;
    }
    froms[n] = from;
    tos[n] = to;
    lows[n] = low;
    highs[n] = high;
    n + 1
}

// How many stretches there are, and the place of the rule that makes one more than a sheet may have; the number of rules where none does.
// stays: that number stands for none, as the definition of question 10 has it.
#[derive(Clone, Copy)]
pub struct Combined {
    pub count: usize,
    pub past: usize,
}

// One rule for each stretch of the rules, at the front of the arrays.
pub fn combine(
    from: &[u16],
    to: &[u16],
    low: &[u16],
    high: &[u16],
    froms: &mut [u16],
    tos: &mut [u16],
    lows: &mut [u16],
    highs: &mut [u16],
) -> Combined
    requires agree { (length to.now ≡ length from.now) × (length low.now ≡ length from.now) × (length high.now ≡ length from.now) }
    requires rooms { (length from.now ≤ length froms.old) × (length from.now ≤ length tos.old)
        × (length from.now ≤ length lows.old) × (length from.now ≤ length highs.old) }
    ensures count { let rs = rules_of from.now to.now low.now high.now in
        result.count ≡ length (merged_rules rs) }
    ensures past { let rs = rules_of from.now to.now low.now high.now in
        result.past ≡ first_place (length rs) (λ j. ltb max_rules (length (merged_rules (take (suc j) rs)))) }
    ensures froms { let rs = rules_of from.now to.now low.now high.now in
        froms.new ≡ on_front (map (λ q. q.from) (merged_rules rs)) froms.old }
    ensures tos { let rs = rules_of from.now to.now low.now high.now in
        tos.new ≡ on_front (map (λ q. q.to) (merged_rules rs)) tos.old }
    ensures lows { let rs = rules_of from.now to.now low.now high.now in
        lows.new ≡ on_front (map (λ q. q.low) (merged_rules rs)) lows.old }
    ensures highs { let rs = rules_of from.now to.now low.now high.now in
        highs.new ≡ on_front (map (λ q. q.high) (merged_rules rs)) highs.old }
{
    let mut count: usize = 0;
    let mut past: usize = 0;
    // stays: places of four lists; a `zip` of zips hands out nested pairs, which is no plainer.
    for i in 0..from.len() {
        count = add_rule(
            from[i], to[i], low[i], high[i], count, froms, tos, lows, highs,
        );
        if count <= Sheet::MAX_RULES {
            past = i + 1;
        }
    }
    Combined { count, past }
}

// The place of the first combined rule whose low is above its high, or their number (question 21).
pub fn first_crossed(low: &[u16], high: &[u16]) -> usize
    requires { length high.now ≡ length low.now }
    ensures { result ≡ first_place (length low.now) (λ j. ltb (get_or high.now j 0) (get_or low.now j 0)) }
{
    // stays: the number of rules stands for none, as the definition of question 21 has it.
    low.iter()
        .zip(high)
        .position(|(low, high)| high < low)
        .unwrap_or(low.len())
}

// The last place of a stretch, or how many places there are.
pub fn last_on(froms: &[u16], tos: &[u16], f: u16, t: u16) -> usize
    requires { length tos.now ≡ length froms.now }
    ensures { result ≡ last_passing (length froms.now) (stretch_at froms.now tos.now f t) }
{
    // stays: the number of places stands for none, as the definition of the line to blame has it; and a place from the back, since of a `zip` seen from its end
    // no law says where its pairs stand.
    for n in (0..froms.len()).rev() {
        if froms[n] == f && tos[n] == t {
            return n;
        }
    }
    froms.len()
}
