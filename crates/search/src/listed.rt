// What a pass lists, and the rows of it as they are now.
ghost use Rattle.std.specs.Prelude.{◌≡◌};
ghost use Rattle.search.specs.Pass.{radius2_on, IdTable, Due};
ghost use Rattle.search.specs.Extents.{ExtentOfEach};
ghost use Rattle.search.specs.Lent.{scene_in};

use crate::marks::Mark;
use crate::scene::SceneRef;
use bounds::{DETECTIONS, SCANS};
use engine::types::RefinedId;
use search_neighbours::extent::{Extent, Span};
use search_rows::rows::Row;
use std::array::from_fn;

// What a pass lists and does not change: how many ids have a window, these, ascending, their rows, and what is due of
// each.
// As it is: the ids, their rows and what is due stand beside each other. As structs they are no plainer: `present`
// sorts ids alone, `place_from` seeks among them, the next pass keeps them alone, and the definitions compare them as a
// list; each of these would first take the ids out of the structs.
#[derive(Drop)]
pub struct Listing {
    pub count: usize,
    pub table: [u64; DETECTIONS],
    pub rows: [Row; DETECTIONS],
    pub due: [Mark; DETECTIONS],
}

// A pass over a scene, with what it lists, the extents of the rows along x and along y, and the square of the radius
// within which detections of a pair are close. The ids ascend, what is due is so by their rows, and each extent is
// that of its row.
#[derive(Drop)]
pub struct Pass<'a> {
    pub scene: &'a SceneRef<'a>,
    pub list: &'a Listing,
    pub xs: &'a [Span; DETECTIONS],
    pub ys: &'a [Span; DETECTIONS],
    pub radius2: f64,
    pub ghost squared: { radius2 ≡ radius2_on (scene_in scene.now) },
    pub ghost ids: { IdTable list.now.count list.now.table },
    pub ghost due: { Due (scene_in scene.now) list.now.count list.now.table list.now.rows list.now.due },
    pub ghost extents: { ExtentOfEach (scene_in scene.now).dots list.now.count list.now.rows xs.now ys.now },
}

// The entries of a row, as places.
fn slots_of(row: &Row) -> [usize; SCANS]
    ensures { result ≡ row.now.slots }
{
    from_fn(|k| usize::from(row.slots[k]))
}

impl Pass<'_> {
    ghost use Rattle.std.specs.Prelude.{◌≡◌, true, ◌<◌};
    ghost use Rattle.bounds.specs.Bounds.{DETECTIONS};
    ghost use Rattle.search_neighbours.specs.Near.{row_at};
    ghost use Rattle.search_neighbours.specs.Extents.{extent_in};
    ghost use Rattle.search.specs.Pass.{row_on};
    ghost use Rattle.search.specs.Stands.{scene_under, listed_at};

    // The row of the id at place i as it is now: that of the table of rows, if it is known to be the same.
    pub fn row_now(&self, i: usize, same: bool, ids: &[u64; DETECTIONS]) -> [usize; SCANS]
        requires { (i < DETECTIONS) × (same ≡ true → row_on (scene_under self.now) ids.now (listed_at self.now i) ≡ row_at self.now.list.now.rows i) }
        ensures { result ≡ row_on (scene_under self.now) ids.now (listed_at self.now i) }
    {
        if same {
            return slots_of(&self.list.rows[i]);
        }
        self.scene.row_of(RefinedId(self.list.table[i]), ids)
    }

    // The extent of the row at place i of the table of rows.
    pub fn extent_at(&self, i: usize) -> Extent
        requires { i < self.now.list.now.count }
        ensures { result ≡ extent_in (scene_under self.now).dots (row_at self.now.list.now.rows i) }
    {
        Extent {
            x: self.xs[i],
            y: self.ys[i],
        }
    }
}
