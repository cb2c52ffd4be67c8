#![tactic(auto)]

ghost use Rattle.std.specs.Prelude.{◌≤◌, ◌<◌};
ghost use Rattle.sheet.specs.Sizes.{max_bytes};
ghost use Rattle.sheet.specs.Lists.{written_by};
ghost use Rattle.read_questions.specs.Reading.{rooms};
ghost use Rattle.read_whole.specs.Fronts.{fronts, Held};
ghost use Rattle.sheet_texts.specs.SheetText.{sheet_text};
ghost use Rattle.print_bytes.specs.Writing.{Written, refused_line};

use forms::House;
use sheet::{Lists, Sheet, WrittenLists};
use write_lines::MAX_TEXT;

// What stands on a page that is long enough for every text, from its first place on; each answers the place just past it.

// The line of a refusal.
pub fn put_refused(page: &mut [u8; MAX_TEXT], number: usize, line: usize) -> usize
    requires { (number < 100) × (line ≤ max_bytes) }
    ensures { Written page.old 0 (refused_line number line) page.new result }
{
    print_lines::put_refusal(page, 0, number as u16, line as u16)
}

// The text of the sheet at the front of the lists, which planning accepts.
pub fn put_fronts(
    house: House,
    s: Sheet,
    loader: &[u16],
    first: &[u16],
    last: &[u16],
    from: &[u16],
    to: &[u16],
    low: &[u16],
    high: &[u16],
    page: &mut [u8; MAX_TEXT],
) -> usize
    requires { Held s (rooms loader.now first.now last.now from.now to.now low.now high.now) }
    ensures { let l = fronts s (rooms loader.now first.now last.now
        from.now to.now low.now high.now) in
        Written page.old 0 (sheet_text house (written_by l)) page.new result }
{
    let n = s.units;
    let r = s.rules;
    let lists = WrittenLists {
        loader: &loader[..n],
        constraints: Lists {
            span: s.span,
            first: &first[..n],
            last: &last[..n],
            from: &from[..r],
            to: &to[..r],
            low: &low[..r],
            high: &high[..r],
        },
    };
    write_lines::put_sheet(house, page, 0, &lists)
}
