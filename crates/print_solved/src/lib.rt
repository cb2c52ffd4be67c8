#![tactic(auto)]

ghost use Rattle.std.specs.Prelude.{◌≡◌, [], ◌≤◌, T, length};
ghost use Rattle.sheet.specs.Questions.{loaders_fit};
ghost use Rattle.sheet.specs.Lists.{given_by};
ghost use Rattle.plan_rooms.specs.Rooms.{lent, plan_lent, rooms_fit};
ghost use Rattle.plan_ask.specs.Asking.{Solvable};
ghost use Rattle.plan_steps.specs.Closing.{passed};
ghost use Rattle.plan_answers.specs.Planning.{by_pass};
ghost use Rattle.pages.specs.Page.{Printable, table_page, max_page};
ghost use Rattle.print_answer.specs.Printing.{holds as holdsAnswer, Asked, PrintingOf};
ghost use Rattle.print_answer.specs.Reply as says;
ghost use Rattle.lists.specs.Lists.{on_front};

use print_answer::Printed;
use print_page::MAX_PAGE;
use questions::{Question, Refusal};
use sheet::{Sheet, WrittenLists};

// What was solved, in arrays of the call's own: the sheet's span and loader numbers, its plan, the narrowed windows and the finished table.
#[derive(Drop)]
struct Solved<'a> {
    span: usize,
    loader: &'a [u16],
    seats: &'a [u16],
    firsts: &'a [u16],
    lasts: &'a [u16],
    closed: &'a [i16],
}

// The finished table, the plan and the narrowed windows, at the front of their rooms.
fn keep_plan(
    solved: &Solved<'_>,
    table: &mut [i16],
    plan: &mut [u16],
    earliest: &mut [u16],
    latest: &mut [u16],
)
    requires { let s = solved.now in
        (length s.closed.now ≤ length table.old) × (length s.seats.now ≤ length plan.old)
        × (length s.firsts.now ≤ length earliest.old) × (length s.lasts.now ≤ length latest.old) }
    ensures { let s = solved.now in
        (table.new ≡ on_front s.closed.now table.old)
        × (plan.new ≡ on_front s.seats.now plan.old)
        × (earliest.new ≡ on_front s.firsts.now earliest.old)
        × (latest.new ≡ on_front s.lasts.now latest.old) }
{
    lists::copy_list(solved.closed, table);
    lists::copy_list(solved.seats, plan);
    lists::copy_list(solved.firsts, earliest);
    lists::copy_list(solved.lasts, latest);
}

// The page of a plan is written into an array of the call's own. Where the lent page holds it, it is put there, and the rooms hold the plan too.
fn print_plan(
    solved: &Solved<'_>,
    table: &mut [i16],
    plan: &mut [u16],
    earliest: &mut [u16],
    latest: &mut [u16],
    page: &mut [u8],
    at: usize,
) -> Result<Printed, Refusal>
    requires printable { let s = solved.now in
        Printable s.span s.loader.now s.seats.now s.firsts.now s.lasts.now s.closed.now }
    requires closed_in_bounds { let s = solved.now in
        (length s.closed.now ≤ length table.old) × (length s.seats.now ≤ length plan.old)
        × (length s.firsts.now ≤ length earliest.old) × (length s.lasts.now ≤ length latest.old) }
    requires closed_len_bound { let s = solved.now in
        length (table_page s.span s.loader.now s.seats.now s.firsts.now s.lasts.now s.closed.now) ≤ max_page }
    ensures { let s = solved.now in
        let bytes = table_page s.span s.loader.now s.seats.now s.firsts.now s.lasts.now s.closed.now in
        Asked (holdsAnswer page.old at bytes) says.plan bytes
        (lent table.old plan.old earliest.old latest.old [])
        (lent (on_front s.closed.now table.old) (on_front s.seats.now plan.old)
        (on_front s.firsts.now earliest.old) (on_front s.lasts.now latest.old) [])
        page.old at (says.reply_of result)
        (lent table.new plan.new earliest.new latest.new []) page.new }
{
    let mut answer = [0u8; MAX_PAGE];
    let length = print_page::put_plan(
        &mut answer,
        0,
        solved.span,
        solved.loader,
        solved.seats,
        solved.firsts,
        solved.lasts,
        solved.closed,
    );
    if !print_writer::holds(page.len(), at, length) {
        return Err(Question::Page.refused());
    }
    keep_plan(solved, table, plan, earliest, latest);
    let next = print_writer::write(page, at, &answer[..length]);
    Ok(Printed {
        fit: Ok(()),
        place: next,
    })
}

// A sheet of which every question of planning is answered yes. It is planned in arrays of this call's own: a refusal by 15 changes nothing.
pub fn print_solved(
    lists: &WrittenLists<'_>,
    table: &mut [i16],
    plan: &mut [u16],
    earliest: &mut [u16],
    latest: &mut [u16],
    ring: &mut [u16],
    page: &mut [u8],
    at: usize,
) -> Result<Printed, Refusal>
    requires fact { Solvable lists.now.constraints
        (rooms_fit (given_by lists.now) (plan_lent (lent table.old plan.old earliest.old latest.old ring.old))) }
    requires t { T (loaders_fit lists.now.loader) × (length lists.now.loader ≡ length lists.now.constraints.first) }
    ensures { let s = given_by lists.now in
        PrintingOf (by_pass (passed s)) lists.now.loader s
        (lent table.old plan.old earliest.old latest.old ring.old)
        page.old at (says.reply_of result)
        (lent table.new plan.new earliest.new latest.new ring.new) page.new }
{
    let mut closed = [0i16; Sheet::MAX_CELLS];
    let mut seats = [0u16; Sheet::MAX_UNITS];
    let mut firsts = [0u16; Sheet::MAX_UNITS];
    let mut lasts = [0u16; Sheet::MAX_UNITS];
    let mut found = [0u16; Sheet::MAX_BOUNDARIES];
    let given = &lists.constraints;
    let fit = plan_solve::solve(
        given,
        &mut closed,
        &mut seats,
        &mut firsts,
        &mut lasts,
        &mut found,
    );
    let w = sheet::boundaries(given.span);
    match fit {
        Ok(()) => {
            let n = given.first.len();
            let solved = Solved {
                span: given.span,
                loader: lists.loader,
                seats: &seats[..n],
                firsts: &firsts[..n],
                lasts: &lasts[..n],
                closed: &closed[..w * w],
            };
            print_plan(&solved, table, plan, earliest, latest, page, at)
        }
        Err(none) => {
            limits::fill::fill_limits(given, &mut closed);
            print_answer::print_ring(&closed, w, &found[..none.length], table, ring, page, at)
        }
    }
}
