ghost use Rattle.sheet.specs.Lists.{written_lists, given_by};
ghost use Rattle.plan_rooms.specs.Rooms.{seat_rooms, seat_lent};
ghost use Rattle.plan_answers.specs.Planning.{conclusion_in};
ghost use Rattle.tugrokt.specs.Told.{SeatTold};

use sheet::{Lists, WrittenLists};
use tugrokt_replies::seating::Seating;

// Seats the units of a sheet in lists, and narrows their windows.
#[unsafe(no_mangle)]
pub extern "C" fn tugrokt_seat(
    span: usize,
    loader: &[u16],
    first: &[u16],
    last: &[u16],
    from: &[u16],
    to: &[u16],
    low: &[u16],
    high: &[u16],
    table: &mut [i16],
    plan: &mut [u16],
    earliest: &mut [u16],
    latest: &mut [u16],
) -> Seating
    ensures { let l = written_lists span loader.now first.now last.now
        from.now to.now low.now high.now in
        let before = seat_rooms table.old plan.old earliest.old latest.old in
        SeatTold (conclusion_in l (seat_lent before)) (given_by l) before result
        (seat_rooms table.new plan.new earliest.new latest.new) }
{
    let lists = WrittenLists {
        loader,
        constraints: Lists {
            span,
            first,
            last,
            from,
            to,
            low,
            high,
        },
    };
    Seating::from(plan::seat(&lists, table, plan, earliest, latest))
}
