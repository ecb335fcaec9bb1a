// The passes of the search: every pair of tracks that come close, then every track.
ghost use Rattle.std.specs.Prelude.{◌≡◌, true, List, ℕ, length};
ghost use Rattle.bounds.specs.Bounds.{DETECTIONS};
ghost use Rattle.fgo_spec.specs.Windows.{Scan, Prefix};
ghost use Rattle.search.specs.Pass.{pass_over};
ghost use Rattle.search.specs.Lent.{scene_in};
ghost use Rattle.search.specs.Stands.{progress_in, KnownIn, LeftIn};
ghost use Rattle.search.specs.Represents.{Represents, Searchable, Finds};

use crate::listed::{Listing, Pass};
use crate::marks::Mark;
use crate::scene::SceneRef;
use crate::tables::PassState;
use crate::{extents, pairs, tables, tracks};
use bounds::{DETECTIONS, SCANS};
use cost::logs::Logs;
use engine::types::RefinedId;
use fgo_spec::moves::FgoCounters;
use search_neighbours::extent::Span;
use search_rows::moves::Tally;
use search_rows::rows::Row;

// The span of 0.0 alone. It fills a table of spans until a pass writes them, since that is cleared as zeros are.
const AT_ZERO: Span = Span {
    low: 0.0,
    high: 0.0,
};

// One pass. What it leaves in the list and the state goes to the next; the spans, along x and along y, it writes anew.
fn run_pass(
    scene: &SceneRef<'_>,
    list: &mut Listing,
    xs: &mut [Span; DETECTIONS],
    ys: &mut [Span; DETECTIONS],
    state: &mut PassState,
)
    requires { LeftIn scene.now list.old state.old × KnownIn scene.now state.old }
    ensures passed { progress_in state.new ≡ pass_over (scene_in scene.now) (progress_in state.old) }
    ensures left { LeftIn scene.now list.new state.new }
{
    tables::begin_pass(scene, list, state);
    extents::fill_extents(list, scene.prices.dots, xs, ys);
    state.tally = state.tally.begin();
    let radius = scene.prices.config.radius_m;
    let pass = Pass {
        scene,
        list,
        xs,
        ys,
        radius2: radius * radius,
    };
    pairs::sweep_pairs(&pass, state);
    tracks::visit_tracks(&pass, state);
}

// Passes, until the most have run or one made no move.
fn run_passes(scene: &SceneRef<'_>, state: &mut PassState)
    requires searchable { let o = state.old in Searchable (scene_in scene.now) o.tally.next_id.0 o.tally.counters o.ids }
    requires begins { (state.old.tally.passes ≡ 0) × (state.old.tally.moved ≡ true) }
    ensures found { let e = scene_in scene.now in let o = state.old in
        (ps : List (ℕ × Prefix)) (ss : List Scan) → Represents e o.tally.next_id.0 o.tally.counters o.ids ps ss →
        Finds e o.tally.next_id.0 o.tally.counters ps ss state.new.ids state.new.tally }
    ensures long { length state.new.ids ≡ DETECTIONS }
{
    let mut list = Listing {
        count: 0,
        table: [0; DETECTIONS],
        rows: [Row {
            slots: [0; SCANS],
            first: 0,
            end: 0,
        }; DETECTIONS],
        due: [Mark::Resting; DETECTIONS],
    };
    let mut xs = [AT_ZERO; DETECTIONS];
    let mut ys = [AT_ZERO; DETECTIONS];
    for _ in 0..scene.prices.config.max_passes {
        if !state.tally.moved {
            return;
        }
        run_pass(scene, &mut list, &mut xs, &mut ys, state);
    }
}

// The search at one push: it gives the gathered detections to tracks anew wherever that is cheaper. It asks that they
// are those of held scans, whose ids are below the next one.
pub fn improve(
    scene: &SceneRef<'_>,
    next: RefinedId,
    counters: FgoCounters,
    ids: &mut [u64; DETECTIONS],
) -> Tally
    requires { Searchable (scene_in scene.now) next.0 counters ids.old }
    ensures found { let e = scene_in scene.now in
        (ps : List (ℕ × Prefix)) (ss : List Scan) → Represents e next.0 counters ids.old ps ss →
        Finds e next.0 counters ps ss ids.new result }
    ensures long { length ids.new ≡ DETECTIONS }
{
    let mut state = PassState {
        ids: *ids,
        costs: [0.0; DETECTIONS],
        moved: [Mark::Resting; DETECTIONS],
        logs: Logs::new(),
        tally: Tally {
            next_id: next,
            counters,
            passes: 0,
            moved: true,
        },
    };
    run_passes(scene, &mut state);
    *ids = state.ids;
    state.tally
}
