#![tactic(auto)]

ghost use Rattle.std.specs.Prelude.{true, List, ℕ, T, length};
ghost use Rattle.sheet.specs.Sheet.{is_ring};
ghost use Rattle.sheet.specs.Lists.{given, given_by};
ghost use Rattle.limits.specs.LimitTable.{CanFill};
ghost use Rattle.plan_ask.specs.Asking.{Listed, Solvable};
ghost use Rattle.print_bytes.specs.Writing.{Written};
ghost use Rattle.pages.specs.SheetPages.{ring_bytes};
ghost use Rattle.answer_conditions.specs.Answer.{AnswerToSheet, Answered};

use print_page::MAX_PAGE;
use sheet::{Lists, Sheet, WrittenLists};
use wave_words::Query;

// The page of a ring. Its limits are the sheet's own, which are worked out again.
fn put_ring(lists: &Lists<'_>, table: &mut [i16], ring: &[u16], page: &mut [u8; MAX_PAGE]) -> usize
    requires { CanFill lists.now (length table.old) × T (is_ring (given lists.now) ring.now) }
    ensures { Written page.old 0 (ring_bytes (given lists.now) ring.now) page.new result }
{
    limits::fill::fill_limits(lists, table);
    print_none::put_none(page, 0, table, sheet::boundaries(lists.span), ring)
}

// The plan of a sheet, or a ring.
pub fn plan_sheet(lists: &WrittenLists<'_>, page: &mut [u8; MAX_PAGE]) -> usize
    requires { Listed lists.now }
    ensures { Answered (AnswerToSheet Query.Plan lists.now.loader (given_by lists.now)) page.old page.new result }
{
    let mut table = [0i16; Sheet::MAX_CELLS];
    let mut plan = [0u16; Sheet::MAX_UNITS];
    let mut earliest = [0u16; Sheet::MAX_UNITS];
    let mut latest = [0u16; Sheet::MAX_UNITS];
    let mut ring = [0u16; Sheet::MAX_BOUNDARIES];
    let given = &lists.constraints;
    let fit = plan_solve::solve(
        given,
        &mut table,
        &mut plan,
        &mut earliest,
        &mut latest,
        &mut ring,
    );
    let w = sheet::boundaries(given.span);
    match fit {
        Ok(()) => {
            let n = given.first.len();
            print_page::put_plan(
                page,
                0,
                given.span,
                lists.loader,
                &plan[..n],
                &earliest[..n],
                &latest[..n],
                &table[..w * w],
            )
        }
        Err(none) => put_ring(given, &mut table, &ring[..none.length], page),
    }
}

// Whether a sheet fits, and each slot's range, or a ring. No unit is seated for it, and its loader numbers are not looked at.
pub fn fits_sheet(lists: &Lists<'_>, page: &mut [u8; MAX_PAGE]) -> usize
    requires { Solvable lists.now true }
    ensures { (ks : List ℕ) → Answered (AnswerToSheet Query.Fits ks (given lists.now)) page.old page.new result }
{
    let mut table = [0i16; Sheet::MAX_CELLS];
    let mut ring = [0u16; Sheet::MAX_BOUNDARIES];
    let fit = plan_solve::decide(lists, &mut table, &mut ring);
    let w = sheet::boundaries(lists.span);
    match fit {
        Ok(()) => print_page::put_fits(page, 0, lists.span, lists.first.len(), &table[..w * w]),
        Err(none) => put_ring(lists, &mut table, &ring[..none.length], page),
    }
}
