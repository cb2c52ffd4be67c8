#![tactic(auto)]

ghost use Rattle.std.specs.Prelude.{◌≡◌, ◌+◌, ◌%◌, ◌≤◌, ◌<◌, length, get_or, set, take};
ghost use Rattle.lists.specs.Lists.{member};
ghost use Rattle.sheet.specs.Sizes.{max_units};
ghost use Rattle.sheet.specs.Questions.{is_new, loaders_fit};
ghost use Rattle.loaders.specs.Chains.{chains, Linked};

use sheet::Sheet;

// Question 16. The numbers seen so far are chained by their remainder, so that a number is compared with those of its own chain alone.

// How many chains there are: of 9,999 numbers no more than 40 share a remainder.
pub const CHAINS: usize = 256;

// stays: the list, how many of it count, and the two arrays of its chains are parameters of their own here and in `is_new` and `link`, since their callers
// write the list while the chains grow.
// Whether a number is among the first n of a list, by the chain that it belongs to.
pub fn is_among(ks: &[u16], n: usize, heads: &[u16], nexts: &[u16], k: u16) -> bool
    requires { (n ≤ length ks.now) × (n ≤ length nexts.now) × Linked ks.now n heads.now nexts.now }
    ensures { result ≡ member k (take n ks.now) }
{
    let mut p = heads[k as usize % CHAINS] as usize;
    // stays: it follows links, and goes over no run of places.
    while 0 < p {
        if ks[p - 1] == k {
            return true;
        }
        p = nexts[p - 1] as usize;
    }
    false
}

// Question 16 of a number that stands after the first n of a list. The chain is asked first: so the compiler has the remainder at hand for `link`.
#[tactic(auto, using(std::proofs::lemmas::Bool::Decides::nat_tests), unfolding(sheet::specs::Questions::is_new))]
pub fn is_new(ks: &[u16], n: usize, heads: &[u16], nexts: &[u16], k: u16) -> bool
    requires { (n ≤ length ks.now) × (n ≤ length nexts.now) × Linked ks.now n heads.now nexts.now }
    ensures { result ≡ is_new (take n ks.now) k }
{
    !is_among(ks, n, heads, nexts, k) && 1 <= k && k <= Sheet::MAX_LOADER
}

// The number at place n of a list is put in front of its chain.
pub fn link(k: u16, n: usize, heads: &mut [u16], nexts: &mut [u16])
    requires { (length heads.old ≡ chains) × (n < max_units) × (n < length nexts.old) }
    ensures heads_after { heads.new ≡ set heads.old (k % chains) (n + 1) }
    ensures nexts_after { nexts.new ≡ set nexts.old n (get_or heads.old (k % chains) 0) }
{
    let chain = k as usize % CHAINS;
    nexts[n] = heads[chain];
    heads[chain] = (n + 1) as u16;
}

// Question 16 of a list, whose length is asked before.
pub fn all_new(ks: &[u16]) -> bool
    requires { length ks.now ≤ max_units }
    ensures { result ≡ loaders_fit ks.now }
{
    let mut heads = [0u16; CHAINS];
    let mut nexts = [0u16; Sheet::MAX_UNITS];
    for (j, &k) in ks.iter().enumerate() {
        if !is_new(ks, j, &heads, &nexts, k) {
            return false;
        }
        link(k, j, &mut heads, &mut nexts);
    }
    true
}
