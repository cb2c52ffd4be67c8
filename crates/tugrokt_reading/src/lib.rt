// Reading for other languages: a sheet of a house into the lent lists, with the reply as its numbers.
#![tactic(auto)]

ghost use Rattle.read_questions.specs.Reading.{rooms};
ghost use Rattle.tugrokt_reading.specs.Told.{ReadTold};

use forms::House;
use tugrokt_replies::reading::Reading;

// Reads a sheet of a house.
// stays: a slice for each list, as the entries have them and as read lends them on.
pub fn read_house(
    house: House,
    text: &[u8],
    loader: &mut [u16],
    first: &mut [u16],
    last: &mut [u16],
    from: &mut [u16],
    to: &mut [u16],
    low: &mut [u16],
    high: &mut [u16],
) -> Reading
    ensures { let before = rooms loader.old first.old last.old
        from.old to.old low.old high.old in
        let after = rooms loader.new first.new last.new
        from.new to.new low.new high.new in
        ReadTold house text.now before result after }
{
    let reply = read::read(house, text, loader, first, last, from, to, low, high);
    Reading::from(reply)
}
