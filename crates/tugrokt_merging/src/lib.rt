// Merging for other languages: two texts as one sheet in the lent lists, and the line of a unit, with each reply as its numbers.
#![tactic(auto)]

ghost use Rattle.read_questions.specs.Reading.{rooms};
ghost use Rattle.tugrokt_merging.specs.Told.{MergeTold, LineTold};

use tugrokt_replies::line::Line;
use tugrokt_replies::reading::Reading;

// Merges two sheets of our own from their texts into the lent lists.
// stays: a slice for each list, as the entries have them and as merge lends them on.
pub fn merge(
    one: &[u8],
    two: &[u8],
    loader: &mut [u16],
    first: &mut [u16],
    last: &mut [u16],
    from: &mut [u16],
    to: &mut [u16],
    low: &mut [u16],
    high: &mut [u16],
) -> Reading
    ensures { let before = rooms loader.old first.old last.old
        from.old to.old low.old high.old in
        let after = rooms loader.new first.new last.new
        from.new to.new low.new high.new in
        MergeTold one.now two.now before result after }
{
    let reply = merge::merge(one, two, loader, first, last, from, to, low, high);
    Reading::from(reply)
}

// Where the line of the unit with a loader number stands, in whichever of two texts has it.
pub fn line_of(one: &[u8], two: &[u8], loader: u16) -> Line
    ensures { LineTold one.now two.now loader result }
{
    let found = merge_lines::find_line(one, two, loader);
    tugrokt_replies::line::numbers_of(found)
}
