ghost use Rattle.sheet.specs.Lists.{written_lists, given_by};
ghost use Rattle.plan_rooms.specs.Rooms.{lent};
ghost use Rattle.plan_answers.specs.Planning.{conclusion};
ghost use Rattle.tugrokt.specs.Told.{PlanTold};

use sheet::{Lists, WrittenLists};
use tugrokt_replies::planning::Planning;

// Plans from lists.
#[unsafe(no_mangle)]
pub extern "C" fn tugrokt_plan(
    span: usize,
    loader: &[u16],
    first: &[u16],
    last: &[u16],
    from: &[u16],
    to: &[u16],
    low: &[u16],
    high: &[u16],
    table: &mut [i16],
    plan: &mut [u16],
    earliest: &mut [u16],
    latest: &mut [u16],
    ring: &mut [u16],
) -> Planning
    ensures { let l = written_lists span loader.now first.now last.now
        from.now to.now low.now high.now in
        let before = lent table.old plan.old earliest.old latest.old ring.old in
        PlanTold (conclusion l before) (given_by l) before result
        (lent table.new plan.new earliest.new latest.new ring.new) }
{
    let lists = WrittenLists {
        loader,
        constraints: Lists {
            span,
            first,
            last,
            from,
            to,
            low,
            high,
        },
    };
    Planning::from(plan::plan(&lists, table, plan, earliest, latest, ring))
}
