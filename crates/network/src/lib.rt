#![tactic(auto)]

ghost use Rattle.std.specs.Prelude.{◌≡◌, ◌++◌, ◌+◌, ◌*◌, ◌≤◌, ◌<◌, min, length, take, drop};
ghost use Rattle.network.specs.Table.{max_boundaries, entry, cleared};
ghost use Rattle.network.specs.RowStep.{stretch, relaxed, falls_in, SumsFit};

// The largest number of boundaries, as sheets have them (sheet/specs/Sizes.antt ties the two).
pub const MAX_BOUNDARIES: usize = 50;

// The row step takes this many columns at a time, whole vectors of the machine; the last stretch of a row is shorter.
pub const STRETCH: usize = 32;

// Row m as it is before the table changes.
pub fn load_row(t: &[i16], m: usize, w: usize, out: &mut [i16])
    requires { (m < w) × (w * w ≤ length t.now) × (w ≤ length out.old) }
    ensures { out.new ≡ take w (drop (m * w) t.now) ++ drop w out.old }
{
    let first = m * w;
    lists::copy_list(&t[first..first + w], out);
}

// How many stretches a row has: two are enough.
pub fn stretches(w: usize) -> usize
    requires { (0 < w) × (w ≤ max_boundaries) }
    ensures { (w ≤ result * stretch) × (result * stretch < w + stretch) }
{
    // stays: by a test, and no `div_ceil`, the compiler sees that a second stretch is not empty.
    if STRETCH < w { 2 } else { 1 }
}

// Where the stretch that starts at b ends.
pub fn stretch_end(b: usize, w: usize) -> usize
    requires { b < w }
    ensures { result ≡ min (b + stretch) w }
{
    b + STRETCH.min(w - b)
}

// The row step: each entry becomes the smaller of itself and the sum over the middle boundary. Every entry is stored, so that no branch is left.
pub fn relax_row(row: &mut [i16], mid: &[i16], am: i16)
    requires { (length row.old ≤ length mid.now) × SumsFit am mid.now }
    ensures { row.new ≡ relaxed am mid.now row.old }
{
    // stays: of what is written through a zip's `iter_mut` a proof knows the length alone.
    for b in 0..row.len() {
        row[b] = row[b].min(am + mid[b]);
    }
}

// Whether the diagonal entry of row a lies in the stretch from b to e, and is below 0.
pub fn falls(row: &[i16], a: usize, b: usize, e: usize) -> bool
    requires { a < length row.now }
    ensures { result ≡ falls_in b e a row.now }
{
    (b..e).contains(&a) && row[a] < 0
}

// Entry (a, b) of a table with w numbers a row.
pub fn entry_at(t: &[i16], w: usize, a: usize, b: usize) -> i16
    requires { a * w + b < length t.now }
    ensures { result ≡ entry w t.now a b }
{
    t[a * w + b]
}

// The first n places become 0.
pub fn clear(n: usize, t: &mut [i16])
    requires { n ≤ length t.old }
    ensures { t.new ≡ cleared n t.old }
{
    t[..n].fill(0);
}
