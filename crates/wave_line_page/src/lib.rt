// What the program's word `line` writes: the line of a unit of two sheets as it stands, or the line of a refusal.
#![tactic(auto)]

ghost use Rattle.std.specs.Prelude.{◌≡◌, suc, ◌≤◌, length};
ghost use Rattle.sheet.specs.Sizes.{max_bytes};
ghost use Rattle.print_bytes.specs.Writing.{with_bytes, Written};
ghost use Rattle.wave_line_page.specs.LinePage.{line_as_is, line_page, showing};

use merge_lines::LinePlace;
use sheet::Sheet;

// As long as the longest text that the program reads, and a line feed.
pub const MAX_LINE: usize = Sheet::MAX_BYTES + 2;

// The place just past what was written; and where that is a refusal, which sheet it is of, 0 where it is of neither.
#[derive(Clone, Copy)]
pub struct Shown {
    pub place: usize,
    // stays: a number, as `Blamed` has it.
    pub blamed: Option<usize>,
}

// The bytes of a text from start to end, and a line feed.
fn put_line(page: &mut [u8; MAX_LINE], text: &[u8], start: usize, end: usize) -> usize
    requires { (start ≤ end) × (end ≤ length text.now) × (length text.now ≤ suc max_bytes) }
    ensures { Written page.old 0 (line_as_is text.now start end) page.new result }
{
    print_bytes::put_no_number(page, 0, &text[start..end])
}

// From the first place of the page on. The page is long enough for every line, so that nothing is refused by 15.
pub fn line_page(one: &[u8], two: &[u8], loader: u16, page: &mut [u8; MAX_LINE]) -> Shown
    requires { (length one.now ≤ suc max_bytes) × (length two.now ≤ suc max_bytes) }
    ensures value { result ≡ showing one.now two.now loader }
    ensures page_after { page.new ≡ with_bytes page.old 0 (line_page one.now two.now loader) }
{
    match merge_lines::find_line(one, two, loader) {
        Err(blamed) => {
            let refusal = blamed.refusal;
            let place = print_lines::put_refusal(
                page,
                0,
                refusal.number as u16,
                refusal.line as u16,
            );
            Shown {
                place,
                blamed: Some(blamed.sheet),
            }
        }
        Ok(LinePlace::First(start, end)) => Shown {
            place: put_line(page, one, start, end),
            blamed: None,
        },
        Ok(LinePlace::Second(start, end)) => Shown {
            place: put_line(page, two, start, end),
            blamed: None,
        },
    }
}
