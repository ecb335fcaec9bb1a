// What the merges of a pair of rows cost.
#![tactic(auto)]

ghost use Rattle.std.specs.Prelude.{◌≡◌, true, false};
ghost use Rattle.cost.specs.Cost.{view_in};
ghost use Rattle.cost_row.specs.Price.{row_cost};
ghost use Rattle.search_merge.specs.Merge.{kept_slot, merged_row, both_have, only_has, overlap_of, merge_of, better_merge};

use bounds::SCANS;
use cost::logs::Logs;
use cost::prices::Prices;
use cost_row::ended::EndedRow;
use cost_row::window::Window;
use fgo_spec::moves::PairMove;
use search_rows::moves::better;
use std::array::from_fn;

// The detection in a scan that the merged track keeps: the keeper's x or the other's y, of which 0 is none. Where both
// have one, it is the keeper's if `own` says so, else the other's.
fn kept_slot(own: bool, x: usize, y: usize) -> usize
    ensures { result ≡ kept_slot own x y }
{
    if x == 0 || (y != 0 && !own) { y } else { x }
}

// The row of a merged track.
fn merged_row(own: bool, a: &[usize; SCANS], b: &[usize; SCANS]) -> [usize; SCANS]
    ensures { result ≡ merged_row own a.now b.now }
{
    from_fn(|k| kept_slot(own, a[k], b[k]))
}

// 1 if both rows have a detection in a scan, of which a merge loses one; else 0.
fn both_have(x: usize, y: usize) -> u64
    ensures { result ≡ both_have x y }
{
    u64::from(x != 0 && y != 0)
}

// 1 if the first row has a detection in a scan and the second has none; else 0.
fn only_has(x: usize, y: usize) -> u64
    ensures { result ≡ only_has x y }
{
    u64::from(x != 0 && y == 0)
}

// How two rows lie to each other: in how many scans both have a detection, in how many only the first, and in how many
// only the second.
// As it is: `mine` and `theirs` are counts, though only whether they are 0 is asked. As flags they would be no plainer:
// the three are counted alike, by one definition over both rows, beside which flags would want a second one.
#[derive(Clone, Copy)]
pub struct Overlap {
    pub shared: u64,
    pub mine: u64,
    pub theirs: u64,
}

impl Overlap {
    // The same, seen from the second row.
    pub fn turned(self) -> Overlap
        ensures { result ≡ (record { shared = self.shared; mine = self.theirs; theirs = self.mine }) }
    {
        Overlap {
            shared: self.shared,
            mine: self.theirs,
            theirs: self.mine,
        }
    }
}

// How two rows lie to each other.
pub fn overlap_of(a: &[usize; SCANS], b: &[usize; SCANS]) -> Overlap
    ensures { result ≡ overlap_of a.now b.now }
{
    let mut shared: u64 = 0;
    let mut mine: u64 = 0;
    let mut theirs: u64 = 0;
    for (x, y) in a.iter().zip(b) {
        shared += both_have(*x, *y);
        mine += only_has(*x, *y);
        theirs += only_has(*y, *x);
    }
    Overlap {
        shared,
        mine,
        theirs,
    }
}

// A window, the keeper's, that may take the detections of another row: how the two rows lie to each other, and what the
// keeper would cost with the other's, which is right at least where there is no scan in which only the keeper has a
// detection.
#[derive(Drop)]
pub struct Merging<'a> {
    pub prices: &'a Prices<'a>,
    pub keeper: &'a Window<'a>,
    pub other: &'a EndedRow<'a>,
    pub overlap: Overlap,
    pub exchanged: f64,
    pub ghost lie: { overlap ≡ overlap_of keeper.now.row.slots.now other.now.slots.now },
    pub ghost paid: { keeper.now.cost ≡ row_cost prices.now.config (view_in prices.now) keeper.now.from keeper.now.row.slots.now },
    pub ghost priced: { overlap.mine ≡ 0 → exchanged ≡ row_cost prices.now.config (view_in prices.now) keeper.now.from other.now.slots.now },
}

impl Merging<'_> {
    ghost use Rattle.search_merge.specs.Lent.{merged_cost};

    // What the row of the merged track costs.
    fn merged_cost(&self, own: bool, logs: &mut Logs) -> f64
        ensures { result ≡ merged_cost self.now own }
    {
        let mine = &self.keeper.row;
        let theirs = self.other;
        let slots = merged_row(own, mine.slots, theirs.slots);
        let row = EndedRow {
            slots: &slots,
            end: mine.end.max(theirs.end),
        };
        cost_row::row_cost(self.prices, &self.keeper.from, &row, logs)
    }

    // The cost of the merged row that keeps the keeper's own detections: what the keeper costs now, if there is no scan
    // in which only the other has one.
    fn own_cost(&self, logs: &mut Logs) -> f64
        ensures { result ≡ merged_cost self.now true }
    {
        if self.overlap.theirs == 0 {
            return self.keeper.cost;
        }
        self.merged_cost(true, logs)
    }

    // The cost of the merged row that keeps the other's detections: that of the rows exchanged, if there is no scan in
    // which only the keeper has one.
    fn other_cost(&self, logs: &mut Logs) -> f64
        ensures { result ≡ merged_cost self.now false }
    {
        if self.overlap.mine == 0 {
            return self.exchanged;
        }
        self.merged_cost(false, logs)
    }

    // A merge by what its row costs.
    fn merge_of(&self, own: bool, cost: f64, base: f64) -> PairMove
        ensures { result ≡ merge_of self.now.prices.now.config self.now.keeper.now.id own cost self.now.overlap.shared base }
    {
        let lost = std::num::nearest_u64_to_f64(self.overlap.shared);
        let gain = cost + lost * self.prices.config.clutter_cost - base;
        PairMove::Merge {
            keeper: self.keeper.id,
            own,
            gain,
        }
    }

    // The best so far or one of the two merges into the keeper; base is what both windows cost now. Where no scan is
    // shared both are the same row, and its cost is worked out once.
    pub fn better_merge(
        &self,
        best: Option<PairMove>,
        base: f64,
        logs: &mut Logs,
    ) -> Option<PairMove>
        ensures { let p = self.now.prices.now in let k = self.now.keeper.now in
            result ≡ better_merge p.config (view_in p) k.id k.from k.row.slots.now self.now.other.now.slots.now base best }
    {
        let own_row_cost = self.own_cost(logs);
        let first = better(best, self.merge_of(true, own_row_cost, base));
        if self.overlap.shared == 0 {
            return better(first, self.merge_of(false, own_row_cost, base));
        }
        let other_row_cost = self.other_cost(logs);
        better(first, self.merge_of(false, other_row_cost, base))
    }
}
