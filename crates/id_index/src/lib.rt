// An index of a list of ids by their remainders, as a hash table has: where an id stands, without going over the list
// but where many ids have one remainder.
#![tactic(auto)]

ghost use Rattle.std.specs.Prelude.{◌≡◌, ◌≤◌, ◌<◌, length};
ghost use Rattle.bounds.specs.Bounds.{OWNED, RESIDUES};
ghost use Rattle.fgo_spec.specs.Lists.{has};
ghost use Rattle.id_index.specs.Index.{residue, Chained, StandsBelow, IsLastPlace};

use bounds::{OWNED, RESIDUES};

// Places of a chain that are looked at, before the rest of the list is gone over place by place: that takes less than a
// long chain, each of whose places tells the next one.
const LOOKED_AT: usize = 16;

// A list of ids with, for each residue, the places where an id has it: chained, from the last to the first.
// A place is told as one more than it is; 0 ends a chain.
#[derive(Drop)]
pub struct IdIndex<'a> {
    pub ids: &'a [u64],
    // The last place with a residue.
    last: [u16; RESIDUES],
    // The last place before this one with the same residue.
    before: [u16; OWNED],
    ghost few: { length ids.now ≤ OWNED },
    ghost chained: { Chained ids.now (length ids.now) last before },
}

// The residue of an id: its remainder by RESIDUES.
fn residue(x: u64) -> usize
    ensures { (result ≡ residue x) × (result < RESIDUES) }
{
    (x % RESIDUES as u64) as usize
}

// The last place of an id, if it stands in the list, where it can only stand below p: place by place.
fn place_below(ids: &[u64], x: u64, p: usize) -> Option<usize>
    requires inside { p ≤ length ids.now }
    requires none_past { StandsBelow ids.now x p }
    ensures { IsLastPlace ids.now x result }
{
    let mut k = p;
    while 0 < k {
        k -= 1;
        if ids[k] == x {
            return Some(k);
        }
    }
    None
}

impl<'a> IdIndex<'a> {
    // Of a list of OWNED ids at most.
    pub fn of(ids: &'a [u64]) -> IdIndex<'a>
        requires { length ids.now ≤ OWNED }
        ensures { result.ids.now ≡ ids.now }
    {
        let mut last = [0u16; RESIDUES];
        let mut before = [0u16; OWNED];
        for (k, x) in ids.iter().enumerate() {
            let r = residue(*x);
            before[k] = last[r];
            last[r] = (k + 1) as u16;
        }
        IdIndex { ids, last, before }
    }

    // The last place of an id, if it stands in the list.
    pub fn place_of(&self, x: u64) -> Option<usize>
        ensures { IsLastPlace self.now.ids.now x result }
    {
        let mut p = usize::from(self.last[residue(x)]);
        let mut left = LOOKED_AT;
        while 0 < p {
            if left == 0 {
                return place_below(self.ids, x, p);
            }
            if self.ids[p - 1] == x {
                return Some(p - 1);
            }
            left -= 1;
            p = usize::from(self.before[p - 1]);
        }
        None
    }

    // Whether an id stands in the list.
    pub fn has(&self, x: u64) -> bool
        ensures { result ≡ has x self.now.ids.now }
    {
        self.place_of(x).is_some()
    }
}
