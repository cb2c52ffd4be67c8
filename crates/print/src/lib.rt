#![tactic(auto)]

ghost use Rattle.plan_rooms.specs.Rooms.{lent};
ghost use Rattle.print_answer.specs.Printing.{Printing};
ghost use Rattle.print_answer.specs.Reply as says;

use print_answer::Printed;
use questions::Refusal;
use sheet::WrittenLists;

// Prints the answer to a sheet in lists onto the page, from the place on: what planning asks and answers, and then question 15. An answer
// that is printed leaves the rooms as planning does, and the place just past it is in the reply; a refusal leaves page and place.
pub fn print(
    lists: &WrittenLists<'_>,
    table: &mut [i16],
    plan: &mut [u16],
    earliest: &mut [u16],
    latest: &mut [u16],
    ring: &mut [u16],
    page: &mut [u8],
    at: usize,
) -> Result<Printed, Refusal>
    ensures { Printing lists.now
        (lent table.old plan.old earliest.old latest.old ring.old)
        page.old at (says.reply_of result)
        (lent table.new plan.new earliest.new latest.new ring.new) page.new }
{
    let rooms = plan_rooms::for_plan(table, plan, earliest, latest, ring);
    plan_ask::ask(lists, rooms)?;
    print_solved::print_solved(lists, table, plan, earliest, latest, ring, page, at)
}
