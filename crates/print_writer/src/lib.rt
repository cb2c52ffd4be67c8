#![tactic(auto)]

ghost use Rattle.std.specs.Prelude.{◌≡◌, ◌+◌, leb};
ghost use Rattle.print_bytes.specs.Writing.{Room, Written};
ghost use Rattle.print_writer.specs.Advanced.{advanced};

// A writer holds the page that is lent to it and the place of the next byte; nothing else of `print` touches a lent page. Its functions are thin: `put` takes
// it apart, has the bytes copied onto the slice from the place on, and hands it back at the place just past them. `write` serves every caller: its
// parameters are plain.
// stays: functions, and a walk of `write` by hand: the request names the writer (docs/DECISIONS.md), and today's check does not follow a lent page through a
// struct that one call returns and the next takes.
#[derive(Drop)]
pub struct Writer<'a> {
    pub page: &'a mut [u8],
    pub place: usize,
}

pub fn new<'a>(page: &'a mut [u8], place: usize) -> Writer<'a>
    ensures { (result.page ≡ page.entry) × (result.place ≡ place) }
{
    Writer { page, place }
}

// The bytes, onto the page from the place on; the place moves past them.
pub fn put<'a>(w: Writer<'a>, bytes: &[u8]) -> Writer<'a>
    requires { Room w.page.now w.place bytes.now }
    ensures { result ≡ advanced w.entry bytes.now }
{
    let Writer { page, place } = w;
    let next = print_bytes::put_word(page, place, bytes);
    Writer { page, place: next }
}

// The place just past what is written. The page stays as it is.
pub fn place<'a>(w: Writer<'a>) -> usize
    ensures { (result ≡ w.entry.place) × (w.exit.0.now ≡ w.entry.page.now) }
{
    w.place
}

// Question 15: does a page of this length, from the place on, hold so many bytes?
pub fn holds(page: usize, at: usize, bytes: usize) -> bool
    ensures { result ≡ leb (at + bytes) page }
{
    at <= page && bytes <= page - at
}

// The bytes, onto a page from a place on, and the place just past them.
pub fn write(page: &mut [u8], at: usize, bytes: &[u8]) -> usize
    requires { Room page.old at bytes.now }
    ensures { Written page.old at bytes.now page.new result }
{
    place(put(new(page, at), bytes))
}
