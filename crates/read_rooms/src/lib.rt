#![tactic(auto)]

ghost use Rattle.std.specs.Prelude.{◌≡◌, ◌≤◌, length, take};
ghost use Rattle.lists.specs.Lists.{on_front};
ghost use Rattle.read_questions.specs.Reading.{rooms, lists_fit};
ghost use Rattle.read_questions.specs.Steps.{Holds};
ghost use Rattle.read_rooms.specs.Rooms.{filled};

use sheet::Sheet;

// The first n numbers of an array, at the front of a room.
fn copy_front(array: &[u16], n: usize, room: &mut [u16])
    requires { (n ≤ length array.now) × (n ≤ length room.old) }
    ensures { room.new ≡ on_front (take n array.now) room.old }
{
    room[..n].copy_from_slice(&array[..n]);
}

// Question 12.
pub fn lists_fit(
    s: Sheet,
    loader: usize,
    first: usize,
    last: usize,
    from: usize,
    to: usize,
    low: usize,
    high: usize,
) -> bool
    ensures { result ≡ lists_fit s.units s.rules (rooms loader first last from to low high) }
{
    s.units <= loader
        && (s.units <= first && s.units <= last)
        && ((s.rules <= from && s.rules <= to) && (s.rules <= low && s.rules <= high))
}

// The fronts of the arrays into the rooms, which are long enough.
// stays: the lists one by one; of a struct of `&mut` lists a clause can tell what is left only part by part, as `exit.1.0.now` (docs/DECISIONS.md)
pub fn fill(
    s: Sheet,
    numbers: &[u16],
    firsts: &[u16],
    lasts: &[u16],
    froms: &[u16],
    tos: &[u16],
    lows: &[u16],
    highs: &[u16],
    loader: &mut [u16],
    first: &mut [u16],
    last: &mut [u16],
    from: &mut [u16],
    to: &mut [u16],
    low: &mut [u16],
    high: &mut [u16],
)
    requires { Holds s.units s.rules (rooms numbers.now firsts.now lasts.now froms.now tos.now lows.now highs.now)
        × Holds s.units s.rules (rooms loader.old first.old last.old from.old to.old low.old high.old) }
    ensures { rooms loader.new first.new last.new from.new to.new low.new
        high.new
        ≡ filled s (rooms numbers.now firsts.now lasts.now froms.now tos.now lows.now
        highs.now)
        (rooms loader.old first.old last.old from.old to.old low.old
        high.old) }
{
    let n = s.units;
    let r = s.rules;
    copy_front(numbers, n, loader);
    copy_front(firsts, n, first);
    copy_front(lasts, n, last);
    copy_front(froms, r, from);
    copy_front(tos, r, to);
    copy_front(lows, r, low);
    copy_front(highs, r, high);
}
