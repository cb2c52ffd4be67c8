#![tactic(auto)]

ghost use Rattle.std.specs.Prelude.{◌≡◌, ◌++◌, ◌+◌, ◌-◌, ◌*◌, ◌≤◌, ◌<◌, ◌≢◌, MatchOption, EachIndex, length, get_or, take, drop, pos, ◌+ℤ◌, ◌≤ℤ◌, ◌<ℤ◌};
ghost use Rattle.network.specs.Table.{entry};
ghost use Rattle.network_levels.specs.Levels.{level};
ghost use Rattle.network_levels.specs.Finder.{Infeasible, Weighed, Leveled, Fallen, Source, Lowest, Found, CycleAt};

use std::ops::Range;

// The levels of all boundaries, one more than there are boundaries, row by row.
const LEVEL_CELLS: usize = (network::MAX_BOUNDARIES + 1) * network::MAX_BOUNDARIES;

// A walk over all levels.
const WALK: usize = network::MAX_BOUNDARIES + 1;

// A place where low is below high.
fn first_below(low: &[i16], high: &[i16]) -> Option<usize>
    requires { length low.now ≡ length high.now }
    ensures { MatchOption result (EachIndex low.now (λ v. get_or high.now v (pos 0) ≤ℤ get_or low.now v (pos 0)))
        (λ v. (v < length low.now) × (get_or low.now v (pos 0) <ℤ get_or high.now v (pos 0))) }
{
    low.iter().zip(high).position(|(x, y)| x < y)
}

// A place where x stands.
fn place_of(c: &[u16], x: u16) -> Option<usize>
    ensures { MatchOption result (EachIndex c.now (λ j. get_or c.now j 0 ≢ x)) (λ j. (j < length c.now) × (get_or c.now j 0 ≡ x)) }
{
    c.iter().position(|y| *y == x)
}

// A place of the least boundary.
fn lowest_place(c: &[u16]) -> usize
    requires { 0 < length c.now }
    ensures { Lowest c.now result }
{
    (0..c.len()).min_by_key(|j| c[*j]).unwrap()
}

// The cycle c at the front of out, from its place low on.
fn put_turned(c: &[u16], low: usize, out: &mut [u16])
    requires { (low ≤ length c.now) × (length c.now ≤ length out.old) }
    ensures { out.new ≡ (drop low c.now ++ take low c.now) ++ drop (length c.now) out.old }
{
    // stays: two copies; std's `rotate_left` would take a room on the stack.
    let rest = c.len() - low;
    lists::copy_list(&c[low..], out);
    lists::copy_list(&c[..low], &mut out[rest..c.len()]);
}

// The weights of a network, with the levels of its boundaries row by row.
#[derive(Clone, Copy)]
struct Levels<'a> {
    w: usize,
    d: &'a [i16],
    levels: &'a [i16],
    ghost made: { Leveled w d.now levels.now },
}

impl Levels<'_> {
    // What the step from u leaves v at level k + 1.
    fn left_by(&self, k: usize, u: usize, v: usize) -> i16
        requires { (k < self.now.w) × (u < self.now.w) × (v < self.now.w) }
        ensures { result ≡ level self.now.w (entry self.now.w self.now.d.now) k u +ℤ entry self.now.w self.now.d.now u v }
    {
        network::entry_at(self.levels, self.w, k, u) + network::entry_at(self.d, self.w, u, v)
    }

    // A boundary from which v has its level k.
    fn source_of(&self, k: usize, v: usize) -> usize
        requires { (0 < k) × (k ≤ self.now.w) × (v < self.now.w) }
        ensures { Source self.now.w self.now.d.now (k - 1) v result }
    {
        let target = network::entry_at(self.levels, self.w, k, v);
        for u in 0..self.w {
            if self.left_by(k - 1, u, v) <= target {
                return u;
            }
        }
        unreachable!()
    }

    // A boundary that fell at the last level: without a feasible potential there is one.
    fn last_fallen(&self) -> usize
        requires { Infeasible self.now.w self.now.d.now }
        ensures { Fallen self.now.w self.now.d.now result }
    {
        let last = self.w * self.w;
        let low = &self.levels[last..last + self.w];
        let high = &self.levels[last - self.w..last];
        first_below(low, high).unwrap()
    }

    // The walk back from a boundary that fell at the last level, into its room from the end on, until it would meet a boundary again.
    fn walk_back(&self, last: usize, walk: &mut [u16]) -> Range<usize>
        requires { Fallen self.now.w self.now.d.now last × (length walk.old ≡ self.now.w + 1) }
        ensures { Found self.now.w self.now.d.now result.start result.end walk.new }
    {
        walk[self.w] = last as u16;
        let mut k = self.w;
        let mut v = last;
        // stays: a `for` down from w is no plainer, since it is to be shown that it does not run out.
        loop {
            let u = self.source_of(k, v);
            if let Some(steps) = place_of(&walk[k..], u as u16) {
                return k..k + steps + 1;
            }
            k -= 1;
            walk[k] = u as u16;
            v = u;
        }
    }

    // The cycle that the walk back finds, turned to its lowest boundary, at the front of out.
    fn find_cycle(&self, walk: &mut [u16], out: &mut [u16]) -> usize
        requires { Infeasible self.now.w self.now.d.now × (length walk.old ≡ self.now.w + 1) × (self.now.w ≤ length out.old) }
        ensures { CycleAt self.now.w self.now.d.now out.old result out.new }
    {
        let found = self.walk_back(self.last_fallen(), walk);
        let cycle = &walk[found];
        let low = lowest_place(cycle);
        put_turned(cycle, low, out);
        cycle.len()
    }
}

// A negative cycle, from its lowest boundary on, at the front of out; the answer is its length.
pub fn negative_cycle(d: &[i16], w: usize, out: &mut [u16]) -> usize
    requires { Weighed w d.now × Infeasible w d.now × (w ≤ length out.old) }
    ensures { CycleAt w d.now out.old result out.new }
{
    let mut levels = [0i16; LEVEL_CELLS];
    network_levels::fill_levels(d, w, &mut levels);
    let mut walk = [0u16; WALK];
    let made = Levels {
        w,
        d,
        levels: &levels,
    };
    made.find_cycle(&mut walk[..w + 1], out)
}
