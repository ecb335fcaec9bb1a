// The extents of the rows that a pass lists: within which bounds the detections of each lie.
ghost use Rattle.std.specs.Prelude.{◌≤◌};
ghost use Rattle.bounds.specs.Bounds.{DETECTIONS};
ghost use Rattle.search.specs.Extents.{ExtentOfEach};

use crate::listed::Listing;
use bounds::DETECTIONS;
use kf::filter::Dot;
use search_neighbours::extent::{Span, extent_of};

// The extent of each row listed, written at its place: along x and along y.
// As it is: two tables, each lent by itself, and not one of extents: what is longer than 2,048 bytes is cleared byte by
// byte when it is made, and each push makes them.
pub fn fill_extents(
    list: &Listing,
    dots: &[Dot; DETECTIONS],
    xs: &mut [Span; DETECTIONS],
    ys: &mut [Span; DETECTIONS],
)
    requires { list.now.count ≤ DETECTIONS }
    ensures { ExtentOfEach dots.now list.now.count list.now.rows xs.new ys.new }
{
    for i in 0..list.count {
        let e = extent_of(&list.rows[i], dots);
        xs[i] = e.x;
        ys[i] = e.y;
    }
}
