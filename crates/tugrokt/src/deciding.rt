ghost use Rattle.sheet.specs.Lists.{written_lists, given_by};
ghost use Rattle.plan_rooms.specs.Rooms.{decide_rooms, decide_lent};
ghost use Rattle.plan_answers.specs.Planning.{conclusion_in};
ghost use Rattle.tugrokt.specs.Told.{DecideTold};

use sheet::{Lists, WrittenLists};
use tugrokt_replies::planning::Planning;

// Decides from lists whether the sheet fits.
#[unsafe(no_mangle)]
pub extern "C" fn tugrokt_decide(
    span: usize,
    loader: &[u16],
    first: &[u16],
    last: &[u16],
    from: &[u16],
    to: &[u16],
    low: &[u16],
    high: &[u16],
    table: &mut [i16],
    ring: &mut [u16],
) -> Planning
    ensures { let l = written_lists span loader.now first.now last.now
        from.now to.now low.now high.now in
        let before = decide_rooms table.old ring.old in
        DecideTold (conclusion_in l (decide_lent before)) (given_by l) before result (decide_rooms table.new ring.new) }
{
    let lists = WrittenLists {
        loader,
        constraints: Lists {
            span,
            first,
            last,
            from,
            to,
            low,
            high,
        },
    };
    Planning::from(plan::decide(&lists, table, ring))
}
