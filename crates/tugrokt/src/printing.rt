ghost use Rattle.sheet.specs.Lists.{written_lists};
ghost use Rattle.plan_rooms.specs.Rooms.{lent};
ghost use Rattle.tugrokt.specs.Told.{PrintTold};

use sheet::{Lists, WrittenLists};
use tugrokt_replies::printing::Printing;

// Plans from lists, and prints the answer on the page from the place on.
#[unsafe(no_mangle)]
pub extern "C" fn tugrokt_print(
    span: usize,
    loader: &[u16],
    first: &[u16],
    last: &[u16],
    from: &[u16],
    to: &[u16],
    low: &[u16],
    high: &[u16],
    table: &mut [i16],
    plan: &mut [u16],
    earliest: &mut [u16],
    latest: &mut [u16],
    ring: &mut [u16],
    page: &mut [u8],
    place: usize,
) -> Printing
    ensures { PrintTold (written_lists span loader.now first.now last.now
        from.now to.now low.now high.now)
        (lent table.old plan.old earliest.old latest.old ring.old) page.old place result
        (lent table.new plan.new earliest.new latest.new ring.new) page.new }
{
    let lists = WrittenLists {
        loader,
        constraints: Lists {
            span,
            first,
            last,
            from,
            to,
            low,
            high,
        },
    };
    let printed = print::print(&lists, table, plan, earliest, latest, ring, page, place);
    tugrokt_replies::printing::numbers_of(place, printed)
}
