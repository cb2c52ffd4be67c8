// Questions 21 and 10 of two sheets that are to be one, and the combined rules.
#![tactic(auto)]

ghost use Rattle.std.specs.Prelude.{◌≡◌, map, ◌≤◌, length, take, drop, IfOk};
ghost use Rattle.lists.specs.Lists.{on_front};
ghost use Rattle.questions.specs.Questions.{verdict_of, first_no};
ghost use Rattle.sheet.specs.Sizes.{max_rules};
ghost use Rattle.sheet.specs.Questions.{rules_of};
ghost use Rattle.merge_sheets.specs.Merge.{merged_rules};
ghost use Rattle.merge_questions.specs.Merging.{stretch_questions, rule_questions};
ghost use Rattle.merge_stretches.specs.Stretches.{last_at};

use questions::{Question, Refusal};
use read_form::Kind;
use sheet::Sheet;

// The questions of the combined rules, by the stretches of the second sheet's rules and the place of the one that makes too many.
fn ask_combined(
    two: &[u8],
    from: &[u16],
    to: &[u16],
    past: usize,
    froms: &[u16],
    tos: &[u16],
    lows: &[u16],
    highs: &[u16],
) -> Result<(), Refusal>
    requires { (length to.now ≡ length from.now) × (length tos.now ≡ length froms.now) × (length lows.now ≡ length froms.now)
        × (length highs.now ≡ length froms.now) }
    ensures { verdict_of result
        ≡ first_no (stretch_questions two.now (last_at from.now to.now)
        (rules_of froms.now tos.now lows.now highs.now) past) }
{
    // stays: the number of rules where none crosses, as `first_crossed` tells it by its clause
    let p = merge_rules::first_crossed(lows, highs);
    if p < froms.len() {
        let last = merge_rules::last_on(from, to, froms[p], tos[p]);
        return Err(Question::CrossedRules.at(read_places::line_number(two, Kind::Rule, last)));
    }
    if Sheet::MAX_RULES < froms.len() {
        return Err(Question::Rules.at(read_places::line_number(two, Kind::Rule, past)));
    }
    Ok(())
}

// The questions of the rules of both sheets, of which the first has n, and the combined rules at the front of the arrays: how many they are.
pub fn ask_rules(
    two: &[u8],
    n: usize,
    from: &[u16],
    to: &[u16],
    low: &[u16],
    high: &[u16],
    froms: &mut [u16],
    tos: &mut [u16],
    lows: &mut [u16],
    highs: &mut [u16],
) -> Result<usize, Refusal>
    requires agree { (length to.now ≡ length from.now) × (length low.now ≡ length from.now) × (length high.now ≡ length from.now) }
    requires rooms { (length from.now ≤ length froms.old) × (length from.now ≤ length tos.old)
        × (length from.now ≤ length lows.old) × (length from.now ≤ length highs.old) }
    requires first { (n ≤ length from.now) × (n ≤ max_rules) }
    ensures verdict { let rs = rules_of from.now to.now low.now high.now in
        verdict_of result ≡ first_no (rule_questions two.now (take n rs) (drop n rs)) }
    ensures count { let rs = rules_of from.now to.now low.now high.now in
        IfOk result (λ k. k ≡ length (merged_rules rs)) }
    ensures froms { let rs = rules_of from.now to.now low.now high.now in
        froms.new ≡ on_front (map (λ q. q.from) (merged_rules rs)) froms.old }
    ensures tos { let rs = rules_of from.now to.now low.now high.now in
        tos.new ≡ on_front (map (λ q. q.to) (merged_rules rs)) tos.old }
    ensures lows { let rs = rules_of from.now to.now low.now high.now in
        lows.new ≡ on_front (map (λ q. q.low) (merged_rules rs)) lows.old }
    ensures highs { let rs = rules_of from.now to.now low.now high.now in
        highs.new ≡ on_front (map (λ q. q.high) (merged_rules rs)) highs.old }
{
    let all = merge_rules::combine(from, to, low, high, froms, tos, lows, highs);
    let k = all.count;
    ask_combined(
        two,
        &from[n..],
        &to[n..],
        all.past - n,
        &froms[..k],
        &tos[..k],
        &lows[..k],
        &highs[..k],
    )?;
    Ok(k)
}
