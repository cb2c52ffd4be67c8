#![tactic(auto)]

ghost use Rattle.std.specs.Prelude.{◌≡◌, ◌++◌, ◌∷◌, [], length};
ghost use Rattle.forms.specs.Decimal.{digits, form_line};
ghost use Rattle.print_bytes.specs.Writing.{Room, Written, no_number, one_number};

// Words, numbers and lines, written into a slice from a place on. Each function gives the place just past what it wrote; that the slice holds it is
// asked of the caller, so that no byte is asked whether it fits.
// stays: a page and a place, and no writer with methods. A lent page inside a struct gets its proof by hand today, as print_writer has it

#[inline(always)]
pub fn put_word(page: &mut [u8], at: usize, word: &[u8]) -> usize
    requires { Room page.old at word.now }
    ensures { Written page.old at word.now page.new result }
{
    // stays: a loop over the bytes. `copy_from_slice` takes 7 in 100 more instructions for a line of a unit
    for (i, byte) in word.iter().enumerate() {
        page[at + i] = *byte;
    }
    at + word.len()
}

// The digits of a number that has N of them, the last one first.
fn put_digits<const N: usize>(page: &mut [u8], at: usize, n: u16) -> usize
    requires long { length (digits n) ≡ N }
    requires room { Room page.old at (digits n) }
    ensures { Written page.old at (digits n) page.new result }
{
    let mut rest = n;
    // stays: places from the back, for the last digit comes first.
    for i in (0..N).rev() {
        page[at + i] = b'0' + (rest % 10) as u8;
        rest /= 10;
    }
    at + N
}

// stays: a loop with no branch for each count, which the compiler writes out; one loop for all counts, or a recursion, takes half as long again.
pub fn put_number(page: &mut [u8], at: usize, n: u16) -> usize
    requires { Room page.old at (digits n) }
    ensures { Written page.old at (digits n) page.new result }
{
    match n {
        0..=9 => put_digits::<1>(page, at, n),
        10..=99 => put_digits::<2>(page, at, n),
        100..=999 => put_digits::<3>(page, at, n),
        1000..=9999 => put_digits::<4>(page, at, n),
        _ => put_digits::<5>(page, at, n),
    }
}

// A word, and a number behind it. A line is such pairs one after another, each with a call of its own: so the compiler writes its words as they are.
// stays: it and the word are put into each line in place of a call; called, they take writing a sheet half as long again.
#[inline(always)]
pub fn put_pair(page: &mut [u8], at: usize, word: &[u8], n: u16) -> usize
    requires { Room page.old at (word.now ++ digits n) }
    ensures { Written page.old at (word.now ++ digits n) page.new result }
{
    let next = put_word(page, at, word);
    put_number(page, next, n)
}

// The end of a line: its last word, and a line feed. This is a line of no number, too.
pub fn put_no_number(page: &mut [u8], at: usize, end: &[u8]) -> usize
    requires { Room page.old at (form_line (no_number end.now) []) }
    ensures { Written page.old at (form_line (no_number end.now) []) page.new result }
{
    let next = put_word(page, at, end);
    put_word(page, next, b"\n")
}

// A line of one number.
pub fn put_one_number(page: &mut [u8], at: usize, first: &[u8], a: u16, end: &[u8]) -> usize
    requires { Room page.old at (form_line (one_number first.now end.now) (a ∷ [])) }
    ensures { Written page.old at (form_line (one_number first.now end.now) (a ∷ [])) page.new result }
{
    let next = put_pair(page, at, first, a);
    put_no_number(page, next, end)
}
