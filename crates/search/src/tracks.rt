// A pass over the tracks.
ghost use Rattle.std.specs.Prelude.{◌≡◌, ◌≢◌, true, ◌+◌, ◌<◌, get_or};
ghost use Rattle.std.specs.Float.{nan};
ghost use Rattle.bounds.specs.Bounds.{DETECTIONS};
ghost use Rattle.search.specs.Pass.{row_on, cost_on, track_step_on, visit, Grows, TrackStepped};
ghost use Rattle.search.specs.declared.marks.Mark.TheVariants.{Resting, ByTrack};
ghost use Rattle.search.specs.Lent.{scene_in};
ghost use Rattle.search.specs.Stands.{progress_in, scene_under, listed_in, listed_at, SweptIn, VisitsIn};

use crate::listed::{Listing, Pass};
use crate::marks::Mark;
use crate::scene::SceneRef;
use crate::tables::PassState;
use bounds::{DETECTIONS, SCANS};
use cost_row::window::Window;
use engine::types::RefinedId;
use search_rows::moves;

// A track's turn in a pass: its place in the table, and the id there.
#[derive(Clone, Copy)]
struct Turn {
    i: usize,
    id: RefinedId,
    ghost within: { i < DETECTIONS },
}

impl Turn {
    // The row has not changed since its track was last visited.
    fn rests(self, list: &Listing, state: &PassState) -> bool
        ensures { result ≡ true → (get_or list.now.due self.i Resting ≢ ByTrack) × (get_or state.now.moved self.i Resting ≡ Resting) }
    {
        list.due[self.i] != Mark::ByTrack && state.moved[self.i] == Mark::Resting
    }
}

// Makes the best move, if there is one, of a track with the row that it has; its cost is worked out anew.
fn track_step(scene: &SceneRef<'_>, turn: Turn, row: &[usize; SCANS], state: &mut PassState)
    requires { (row.now ≡ row_on (scene_in scene.now) state.old.ids turn.id.0)
        × (get_or state.old.costs turn.i nan ≡ cost_on (scene_in scene.now) state.old.ids turn.id.0) }
    ensures step { progress_in state.new ≡ track_step_on (scene_in scene.now) turn.id.0 (progress_in state.old) }
    ensures stepped { let o = state.old in let n = state.new in
        TrackStepped (scene_in scene.now) turn.i turn.id.0 o.ids o.costs o.moved n.ids n.costs n.moved }
{
    let a = turn.id;
    let w = Window::new(a, scene.fold_of(a), row, state.costs[turn.i]);
    if let Some(m) = search_track::best_of_track(scene.prices, &w, &mut state.logs) {
        let tail = state.tally.next_id;
        moves::apply(
            &m,
            scene.prices.first,
            a,
            tail,
            scene.starts,
            &mut state.ids,
        );
        state.costs[turn.i] = scene.track_cost(a, &state.ids, &mut state.logs);
        state.moved[turn.i] = Mark::ByTrack;
        state.tally = state.tally.count(m);
    }
}

// Makes the best move of the track at place i of the table, if its row has changed since it was last visited.
fn track_turn(pass: &Pass<'_>, i: usize, state: &mut PassState)
    requires { (i < pass.now.list.now.count) × VisitsIn pass.now i state.old }
    ensures step { progress_in state.new
        ≡ track_step_on (scene_under pass.now) (listed_at pass.now i) (progress_in state.old) }
    ensures visits { VisitsIn pass.now (i + 1) state.new }
    ensures grows { Grows pass.now.list.now.count state.old.moved state.new.moved }
{
    let turn = Turn {
        i,
        id: RefinedId(pass.list.table[i]),
    };
    if turn.rests(pass.list, state) {
        return;
    }
    let row = pass.row_now(i, state.moved[i] == Mark::Resting, &state.ids);
    track_step(pass.scene, turn, &row, state);
}

// Every track of the table.
pub fn visit_tracks(pass: &Pass<'_>, state: &mut PassState)
    requires { SweptIn pass.now state.old }
    ensures visited { progress_in state.new
        ≡ visit (scene_under pass.now) (listed_in pass.now) (progress_in state.old) }
    ensures visits { VisitsIn pass.now pass.now.list.now.count state.new }
    ensures grows { Grows pass.now.list.now.count state.old.moved state.new.moved }
{
    for i in 0..pass.list.count {
        track_turn(pass, i, state);
    }
}
