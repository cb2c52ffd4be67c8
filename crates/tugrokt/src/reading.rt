ghost use Rattle.read_questions.specs.Reading.{rooms};
ghost use Rattle.tugrokt_reading.specs.Told.{ReadTold};

use forms::House;
use tugrokt_replies::reading::Reading;

// Reads a sheet of our own from its text into the lent lists.
#[unsafe(no_mangle)]
pub extern "C" fn tugrokt_read(
    text: &[u8],
    loader: &mut [u16],
    first: &mut [u16],
    last: &mut [u16],
    from: &mut [u16],
    to: &mut [u16],
    low: &mut [u16],
    high: &mut [u16],
) -> Reading
    ensures { let before = rooms loader.old first.old last.old
        from.old to.old low.old high.old in
        let after = rooms loader.new first.new last.new
        from.new to.new low.new high.new in
        ReadTold House.Ours text.now before result after }
{
    tugrokt_reading::read_house(House::Ours, text, loader, first, last, from, to, low, high)
}

// Reads a sheet of the partner house into the same lists.
#[unsafe(no_mangle)]
pub extern "C" fn tugrokt_read_partner(
    text: &[u8],
    loader: &mut [u16],
    first: &mut [u16],
    last: &mut [u16],
    from: &mut [u16],
    to: &mut [u16],
    low: &mut [u16],
    high: &mut [u16],
) -> Reading
    ensures { let before = rooms loader.old first.old last.old
        from.old to.old low.old high.old in
        let after = rooms loader.new first.new last.new
        from.new to.new low.new high.new in
        ReadTold House.Partner text.now before result after }
{
    tugrokt_reading::read_house(
        House::Partner,
        text,
        loader,
        first,
        last,
        from,
        to,
        low,
        high,
    )
}
