// The tables of a pass: what goes on changing in it, and what it takes over from the last.
ghost use Rattle.std.specs.Prelude.{◌≡◌, ◌≢◌, true, ◌≤◌, ◌<◌, get_or};
ghost use Rattle.bounds.specs.Bounds.{DETECTIONS};
ghost use Rattle.search_rows.specs.Rows.{present_in, Begins, Tabled};
ghost use Rattle.search.specs.Pass.{cost_on, Due, Swept, Left, From};
ghost use Rattle.search.specs.declared.marks.Mark.TheVariants.{ByTrack};
ghost use Rattle.search.specs.Lent.{scene_in};
ghost use Rattle.search.specs.Stands.{progress_in, KnownIn, LeftIn};

use crate::listed::Listing;
use crate::marks::Mark;
use crate::scene::SceneRef;
use bounds::DETECTIONS;
use cost::logs::Logs;
use engine::types::RefinedId;
use search_rows::moves::Tally;
use search_rows::rows;

// What goes on changing: the gathered ids; what each id listed costs, and its mark; the logarithms worked out; and what
// is counted, in it the next id.
// As it is: costs and marks stand beside each other, as in `Listing`. As structs they are no plainer: what the clauses
// say is of the costs alone or of the marks alone (`Costed`, `Grows`), which would first be taken out of the structs,
// and a pass begins by clearing all marks and no cost.
#[derive(Drop)]
pub struct PassState {
    pub ids: [u64; DETECTIONS],
    pub costs: [f64; DETECTIONS],
    pub moved: [Mark; DETECTIONS],
    pub logs: Logs,
    pub tally: Tally,
}

// What the last pass left, lent: how many ids it listed, these ids, what they cost, and their marks.
// As it is: the three are lent each by itself, since they are copies of what lies apart in `Listing` and `PassState`; a
// struct that held them would be made first and then moved, each of which copies all of it once more.
#[derive(Drop)]
struct LastRef<'a> {
    count: usize,
    table: &'a [u64; DETECTIONS],
    costs: &'a [f64; DETECTIONS],
    moved: &'a [Mark; DETECTIONS],
}

// What a track costs, and what is due of it.
#[derive(Clone, Copy)]
struct Entry {
    cost: f64,
    due: Mark,
}

impl LastRef<'_> {
    // The id x stood at place k.
    fn has(&self, x: RefinedId, k: usize) -> bool
        requires { self.now.count ≤ DETECTIONS }
        ensures { result ≡ true → (k < self.now.count) × (get_or self.now.table.now k 0 ≡ x.0) }
    {
        k < self.count && self.table[k] == x.0
    }
}

// What the id x costs and what is due of it: as the last pass left both, if x stood at place k there; else its cost is
// worked out, and its track is due.
fn carry(
    scene: &SceneRef<'_>,
    last: &LastRef<'_>,
    x: RefinedId,
    k: usize,
    ids: &[u64; DETECTIONS],
    logs: &mut Logs,
) -> Entry
    requires { Left (scene_in scene.now) last.now.count last.now.table.now ids.now last.now.costs.now last.now.moved.now }
    ensures cost { result.cost ≡ cost_on (scene_in scene.now) ids.now x.0 }
    ensures due { result.due ≢ ByTrack → From last.now.count last.now.table.now last.now.moved.now x.0 result.due }
{
    if last.has(x, k) {
        return Entry {
            cost: last.costs[k],
            due: last.moved[k],
        };
    }
    Entry {
        cost: scene.track_cost(x, ids, logs),
        due: Mark::ByTrack,
    }
}

// A pass begins: its tables are written, from those of the last.
pub fn begin_pass(scene: &SceneRef<'_>, list: &mut Listing, state: &mut PassState)
    requires { LeftIn scene.now list.old state.old × KnownIn scene.now state.old }
    ensures listed { Begins (present_in scene.now.detections state.old.ids) list.new.count list.new.table }
    ensures rows { Tabled scene.now.starts.now.places.now state.old.ids list.new.table list.new.count list.new.rows }
    ensures swept { let s = state.new in
        Swept (scene_in scene.now) list.new.count list.new.table list.new.rows s.tally.next_id.0 s.ids s.costs s.moved }
    ensures due { Due (scene_in scene.now) list.new.count list.new.table list.new.rows list.new.due }
    ensures stays { progress_in state.new ≡ progress_in state.old }
{
    let table = list.table;
    let costs = state.costs;
    let moved = state.moved;
    let last = LastRef {
        count: list.count,
        table: &table,
        costs: &costs,
        moved: &moved,
    };
    list.count = rows::present(scene.detections, &state.ids, &mut list.table);
    rows::fill_rows(
        list.count,
        &list.table,
        scene.starts,
        &state.ids,
        &mut list.rows,
    );
    let mut k: usize = 0;
    for i in 0..list.count {
        let x = RefinedId(list.table[i]);
        k = rows::place_from(x, k, &table[..last.count]);
        let c = carry(scene, &last, x, k, &state.ids, &mut state.logs);
        state.costs[i] = c.cost;
        list.due[i] = c.due;
    }
    state.moved = [Mark::Resting; DETECTIONS];
}
