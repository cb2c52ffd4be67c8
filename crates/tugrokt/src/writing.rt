ghost use Rattle.sheet.specs.Lists.{written_lists};
ghost use Rattle.tugrokt_writing.specs.Told.{WriteTold};

use forms::House;
use sheet::{Lists, WrittenLists};
use tugrokt_replies::writing::Writing;

// Writes a sheet in our own format.
#[unsafe(no_mangle)]
pub extern "C" fn tugrokt_write_sheet(
    span: usize,
    loader: &[u16],
    first: &[u16],
    last: &[u16],
    from: &[u16],
    to: &[u16],
    low: &[u16],
    high: &[u16],
    page: &mut [u8],
    place: usize,
) -> Writing
    ensures { WriteTold House.Ours (written_lists span loader.now first.now last.now
        from.now to.now low.now high.now) page.old place result page.new }
{
    let lists = WrittenLists {
        loader,
        constraints: Lists {
            span,
            first,
            last,
            from,
            to,
            low,
            high,
        },
    };
    tugrokt_writing::write_house(House::Ours, &lists, page, place)
}

// Writes a sheet in the format of the partner house, which has no unit that may be carried over and no low.
#[unsafe(no_mangle)]
pub extern "C" fn tugrokt_write_partner(
    span: usize,
    loader: &[u16],
    first: &[u16],
    last: &[u16],
    from: &[u16],
    to: &[u16],
    low: &[u16],
    high: &[u16],
    page: &mut [u8],
    place: usize,
) -> Writing
    ensures { WriteTold House.Partner (written_lists span loader.now first.now last.now
        from.now to.now low.now high.now) page.old place result page.new }
{
    let lists = WrittenLists {
        loader,
        constraints: Lists {
            span,
            first,
            last,
            from,
            to,
            low,
            high,
        },
    };
    tugrokt_writing::write_house(House::Partner, &lists, page, place)
}
