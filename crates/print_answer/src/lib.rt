#![tactic(auto)]

ghost use Rattle.std.specs.Prelude.{[], ◌*◌, ◌≤◌, length};
ghost use Rattle.lists.specs.Lists.{on_front};
ghost use Rattle.network.specs.Table.{entry, cleared};
ghost use Rattle.plan_rooms.specs.Rooms.{lent};
ghost use Rattle.pages.specs.Page.{RingFits, none_page, max_ring_page};
ghost use Rattle.print_answer.specs.Printing.{holds as holdsAnswer, Asked};
ghost use Rattle.print_answer.specs.Reply as says;

use plan_answers::{Fit, Ring};
use print_none::MAX_RING_PAGE;
use questions::{Question, Refusal};

// What was printed: a plan, or none, with the length of the ring; and the place just past the answer.
#[derive(Clone, Copy)]
pub struct Printed {
    pub fit: Fit,
    pub place: usize,
}

// The page of a ring is written into an array of the call's own. Where the lent page holds it, it is put there, the ring stands in its room and the
// table's places are 0.
pub fn print_ring(
    limits: &[i16],
    w: usize,
    found: &[u16],
    table: &mut [i16],
    ring: &mut [u16],
    page: &mut [u8],
    at: usize,
) -> Result<Printed, Refusal>
    requires ring_fits { RingFits w limits.now found.now }
    requires w_in_bounds { (w * w ≤ length table.old) × (length found.now ≤ length ring.old) }
    requires found_len_bound { length (none_page (entry w limits.now) found.now) ≤ max_ring_page }
    ensures { let bytes = none_page (entry w limits.now) found.now in
        Asked (holdsAnswer page.old at bytes) (says.none (length found.now)) bytes
        (lent table.old [] [] [] ring.old)
        (lent (cleared (w * w) table.old) [] [] [] (on_front found.now ring.old))
        page.old at (says.reply_of result)
        (lent table.new [] [] [] ring.new) page.new }
{
    let mut answer = [0u8; MAX_RING_PAGE];
    let length = print_none::put_none(&mut answer, 0, limits, w, found);
    if !print_writer::holds(page.len(), at, length) {
        return Err(Question::Page.refused());
    }
    network::clear(w * w, table);
    lists::copy_list(found, ring);
    let next = print_writer::write(page, at, &answer[..length]);
    Ok(Printed {
        fit: Err(Ring {
            length: found.len(),
        }),
        place: next,
    })
}
