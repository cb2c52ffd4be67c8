// What is promised of the program's inputs, of which only the front is read: the result is that for the whole.
#![tactic(auto)]

ghost use Rattle.std.specs.Prelude.{◌≡◌, ◌≤◌, length, take};
ghost use Rattle.sheet.specs.Sizes.{max_bytes};
ghost use Rattle.wave_inputs.specs.Input.{InputAnswered, InputConverted, line_of, InputsMerged, InputsShown};

use convert_lists::Converted;
use forms::House;
use merge_text::Merged;
use print_page::MAX_PAGE;
use sheet::Sheet;
use wave_line_page::{MAX_LINE, Shown};
use wave_words::Query;
use write_lines::MAX_TEXT;

// One byte more than the longest text that is read, so that a longer text is known for one without its rest.
pub const TEXT_BYTES: usize = Sheet::MAX_BYTES + 1;

// The answer to what is asked of the whole input, by the n bytes that the buffer took of it.
// stays: the buffer with how many bytes of it count, here and below. Its length is asked: of a shorter one, what was read would pass for the whole input.
pub fn answer_input(
    house: House,
    query: Query,
    buffer: &[u8],
    n: usize,
    page: &mut [u8; MAX_PAGE],
) -> usize
    requires { (length buffer.now ≡ TEXT_BYTES) × (n ≤ length buffer.now) }
    ensures fact { let text = buffer.now in
        InputAnswered house query (length text) (take n text) page.old page.new result }
    ensures upper_bound { result ≤ length page.new }
{
    answer::answer(house, query, &buffer[..n], page)
}

// The whole input in the form of the other house, by the n bytes that the buffer took of it.
pub fn convert_input(
    from: House,
    to: House,
    buffer: &[u8],
    n: usize,
    page: &mut [u8; MAX_TEXT],
) -> Converted
    requires { (length buffer.now ≡ TEXT_BYTES) × (n ≤ length buffer.now) }
    ensures fact { let text = buffer.now in
        InputConverted from to (length text) (take n text) page.old page.new result }
    ensures result_in_bounds { (result.place ≤ length page.new) × (line_of result ≤ max_bytes) }
{
    convert::convert(from, to, &buffer[..n], page)
}

// Two whole inputs as one sheet, by the n bytes and the m bytes that the buffers took of them.
pub fn merge_inputs(one: &[u8], n: usize, two: &[u8], m: usize, page: &mut [u8; MAX_TEXT]) -> Merged
    requires { (length one.now ≡ TEXT_BYTES) × (length two.now ≡ TEXT_BYTES) × (n ≤ length one.now) × (m ≤ length two.now) }
    ensures fact { let first = one.now in let second = two.now in
        InputsMerged (length first) (take n first) (take m second) page.old page.new result }
    ensures result_in_bounds { result.place ≤ length page.new }
{
    merge_text::merge_text(&one[..n], &two[..m], page)
}

// The line of a unit of two whole inputs, likewise.
pub fn line_inputs(
    one: &[u8],
    n: usize,
    two: &[u8],
    m: usize,
    loader: u16,
    page: &mut [u8; MAX_LINE],
) -> Shown
    requires { (length one.now ≡ TEXT_BYTES) × (length two.now ≡ TEXT_BYTES) × (n ≤ length one.now) × (m ≤ length two.now) }
    ensures fact { let first = one.now in let second = two.now in
        InputsShown (length first) (take n first) (take m second) loader page.old page.new result }
    ensures result_in_bounds { result.place ≤ length page.new }
{
    wave_line_page::line_page(&one[..n], &two[..m], loader, page)
}
