// A pass over the pairs of tracks that come close.
ghost use Rattle.std.specs.Prelude.{◌≡◌, true, List, ℕ, ◌+◌, ◌-◌, ◌<◌, max, min, get_or, drop, is_none};
ghost use Rattle.bounds.specs.Bounds.{DETECTIONS, SCANS};
ghost use Rattle.search_neighbours.specs.Near.{close_rows, Entered};
ghost use Rattle.search_rows.specs.Rows.{no_row};
ghost use Rattle.search.specs.Pass.{row_on, close_on, pair_best, pair_step_on, pair_if, sweep_one, sweep, Grows};
ghost use Rattle.search.specs.Stands.{progress_in, scene_under, listed_in, listed_at, TabledIn, RestsIn, SweptIn};
ghost use Rattle.search.specs.declared.marks.Mark.TheVariants.{Resting};

use crate::listed::{Listing, Pass};
use crate::marks::Mark;
use crate::tables::PassState;
use bounds::SCANS;
use cost_row::window::Window;
use engine::types::RefinedId;
use search_neighbours::extent::is_far;
use search_rows::moves;
use search_rows::moves::PairWithRows;

// Makes the best move, if there is one, of the pair at two places of the table; only the costs of these two change.
// As it is: here and in what sweeps and visits it is asked how the state stands to the pass (`SweptIn`, `VisitsIn`),
// and told how to the one before (`Grows`). A struct that held both would hold the state as `&mut`, and of such a
// struct no fact says what it holds afterwards.
fn pair_step(pass: &Pass<'_>, i: usize, j: usize, close: &[bool; SCANS], state: &mut PassState)
    requires { (i < j) × (j < pass.now.list.now.count) × SweptIn pass.now state.old }
    ensures step { let p = pass.now in
        progress_in state.new
        ≡ pair_step_on (scene_under p) close.now (listed_at p i) (listed_at p j) (progress_in state.old) }
    ensures swept { SweptIn pass.now state.new }
    ensures grows { Grows pass.now.list.now.count state.old.moved state.new.moved }
    ensures rests { let p = pass.now in get_or state.new.moved i Resting ≡ Resting
        → is_none (pair_best (scene_under p) close.now (listed_at p i) (listed_at p j) state.old.ids) ≡ true }
{
    let scene = pass.scene;
    let x = RefinedId(pass.list.table[i]);
    let y = RefinedId(pass.list.table[j]);
    let ra = pass.row_now(i, state.moved[i] == Mark::Resting, &state.ids);
    let rb = pass.row_now(j, state.moved[j] == Mark::Resting, &state.ids);
    let a = Window::new(x, scene.fold_of(x), &ra, state.costs[i]);
    let b = Window::new(y, scene.fold_of(y), &rb, state.costs[j]);
    if let Some(m) = search_pair::best_of_pair(scene.prices, close, &a, &b, &mut state.logs) {
        let pair = PairWithRows {
            m,
            ra: &ra,
            rb: &rb,
        };
        moves::apply(
            &pair,
            scene.prices.first,
            x,
            y,
            scene.starts,
            &mut state.ids,
        );
        state.costs[i] = scene.track_cost(x, &state.ids, &mut state.logs);
        state.costs[j] = scene.track_cost(y, &state.ids, &mut state.logs);
        state.moved[i] = Mark::ByPair;
        state.moved[j] = Mark::ByPair;
        state.tally = state.tally.count(m);
    }
}

// The first scan in which rows that begin at a and b can be close: the one before the later beginning.
fn close_from(a: u8, b: u8) -> usize
    ensures { result ≡ max a b - 1 }
{
    usize::from(a.max(b)).saturating_sub(1)
}

// From which scan on rows that end at a and b cannot be close: the earlier end.
fn close_to(a: u8, b: u8) -> usize
    ensures { result ≡ min a b }
{
    usize::from(a.min(b))
}

// For each scan whether the rows at two places of the table are close in it, if they are close in any. Most pairs have
// no scan in common or beside each other, or lie far apart on the floor; the others are looked at only where both may
// have a detection. It asks that the rows say where they begin and end.
fn close_rows(pass: &Pass<'_>, i: usize, j: usize) -> Option<[bool; SCANS]>
    requires { let l = pass.now.list.now in
        (i < l.count) × (j < l.count) × Entered (get_or l.rows i no_row) × Entered (get_or l.rows j no_row) }
    ensures { let p = pass.now in let rows = p.list.now.rows in
        result ≡ close_rows p.radius2 (scene_under p).dots (get_or rows i no_row) (get_or rows j no_row) }
{
    let a = &pass.list.rows[i];
    let b = &pass.list.rows[j];
    if !search_neighbours::meet(a, b)
        || is_far(pass.radius2, &pass.extent_at(i), &pass.extent_at(j))
    {
        return None;
    }
    search_neighbours::close_scans(
        pass.radius2,
        &a.slots,
        &b.slots,
        close_from(a.first, b.first),
        close_to(a.end, b.end),
        pass.scene.prices.dots,
    )
}

// Nothing is due of the row at place i: it has not changed since its pairs were last looked at.
// As it is: that a place is below DETECTIONS is asked here, in `pair_rests` and in `row_now`. Of the two places of a
// pair `pair_turn` and `pair_step` ask that `i < j` and `j < count`, from which the bound follows; with a struct for
// each place, like `Turn` of a track, they would ask that still.
fn row_rests(list: &Listing, state: &PassState, i: usize) -> bool
    requires { i < DETECTIONS }
    ensures { result ≡ true → (get_or list.now.due i Resting ≡ Resting) × (get_or state.now.moved i Resting ≡ Resting) }
{
    list.due[i] == Mark::Resting && state.moved[i] == Mark::Resting
}

// Neither of the two rows has changed since the pair was last looked at.
fn pair_rests(list: &Listing, state: &PassState, i: usize, j: usize) -> bool
    requires { (i < DETECTIONS) × (j < DETECTIONS) }
    ensures { result ≡ true → (get_or list.now.due i Resting ≡ Resting) × (get_or state.now.moved i Resting ≡ Resting)
        × (get_or list.now.due j Resting ≡ Resting) × (get_or state.now.moved j Resting ≡ Resting) }
{
    row_rests(list, state, i) && row_rests(list, state, j)
}

// Makes the best move of the pair at two places of the table, if one of the rows has changed and they are close
// somewhere.
// As it is: that the rows listed are those of the ids `is` is a premise of what the turns and the sweeps tell
// (`TabledIn`), and no fact of the pass: the ids as they were when it began are kept nowhere, and a pass that lent them
// would first copy them.
fn pair_turn(pass: &Pass<'_>, i: usize, j: usize, state: &mut PassState)
    requires { (i < j) × (j < pass.now.list.now.count) × SweptIn pass.now state.old }
    ensures turned { let p = pass.now in let e = scene_under p in let a = listed_at p i in let b = listed_at p j in
        (is : List ℕ) → TabledIn p is →
        (progress_in state.new ≡ pair_if e (close_on e (row_on e is a) (row_on e is b)) a b (progress_in state.old))
        × RestsIn p state.new.moved i j }
    ensures swept { SweptIn pass.now state.new }
    ensures grows { Grows pass.now.list.now.count state.old.moved state.new.moved }
{
    if pair_rests(pass.list, state, i, j) {
        return;
    }
    if let Some(close) = close_rows(pass, i, j) {
        pair_step(pass, i, j, &close, state);
    }
}

// Every pair of the track at place i of the table and one after it.
fn sweep_one(pass: &Pass<'_>, i: usize, state: &mut PassState)
    requires { (i < pass.now.list.now.count) × SweptIn pass.now state.old }
    ensures swept_one { let p = pass.now in
        (is : List ℕ) → TabledIn p is →
        (progress_in state.new
        ≡ sweep_one (scene_under p) is (listed_at p i) (drop (i + 1) (listed_in p)) (progress_in state.old))
        × ((j : ℕ) → i < j → j < p.list.now.count → RestsIn p state.new.moved i j) }
    ensures swept { SweptIn pass.now state.new }
    ensures grows { Grows pass.now.list.now.count state.old.moved state.new.moved }
{
    for j in i + 1..pass.list.count {
        pair_turn(pass, i, j, state);
    }
}

// Every pair of the table.
pub fn sweep_pairs(pass: &Pass<'_>, state: &mut PassState)
    requires { SweptIn pass.now state.old }
    ensures swept_all { let p = pass.now in
        (is : List ℕ) → TabledIn p is →
        (progress_in state.new ≡ sweep (scene_under p) is (listed_in p) (progress_in state.old))
        × ((i j : ℕ) → i < j → j < p.list.now.count → RestsIn p state.new.moved i j) }
    ensures swept { SweptIn pass.now state.new }
{
    for i in 0..pass.list.count {
        sweep_one(pass, i, state);
    }
}
