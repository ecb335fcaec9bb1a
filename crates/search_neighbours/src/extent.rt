// Within which bounds the detections of a row lie: rows whose bounds lie far apart are close in no scan.
ghost use Rattle.std.specs.Prelude.{◌≡◌};
ghost use Rattle.search_neighbours.specs.Extents.{widened, with_dot, extent_in, is_wide, are_apart, is_far};

use bounds::DETECTIONS;
use kf::filter::Dot;
use search_rows::rows::Row;

// The least and the greatest of some coordinates.
#[derive(Clone, Copy)]
pub struct Span {
    pub low: f64,
    pub high: f64,
}

// The bounds of some detections, along x and along y.
#[derive(Clone, Copy)]
pub struct Extent {
    pub x: Span,
    pub y: Span,
}

// The span of no coordinate.
const NO_SPAN: Span = Span {
    low: f64::INFINITY,
    high: f64::NEG_INFINITY,
};

// The extent of no detection: it lies far from any other.
const NOWHERE: Extent = Extent {
    x: NO_SPAN,
    y: NO_SPAN,
};

// A span with one coordinate more. A NaN moves neither end: what lies there is near nothing.
// As it is: by comparisons. `min` and `max` may give either of two zeros, so what they make could not be said in an
// equation.
fn widened(s: Span, v: f64) -> Span
    ensures { result ≡ widened s v }
{
    let low = if v < s.low { v } else { s.low };
    let high = if s.high < v { v } else { s.high };
    Span { low, high }
}

// An extent with one detection more.
fn with(e: Extent, d: Dot) -> Extent
    ensures { result ≡ with_dot e d }
{
    Extent {
        x: widened(e.x, d.x),
        y: widened(e.y, d.y),
    }
}

// The extent of a row's detections.
pub fn extent_of(row: &Row, dots: &[Dot; DETECTIONS]) -> Extent
    ensures { result ≡ extent_in dots.now row.now.slots }
{
    let mut extent = NOWHERE;
    for i in &row.slots {
        if 0 < *i {
            extent = with(extent, cost::dot_at(dots, usize::from(*i) - 1));
        }
    }
    extent
}

// A gap is as wide as the radius, or wider.
fn is_wide(radius2: f64, gap: f64) -> bool
    ensures { result ≡ is_wide radius2 gap }
{
    0.0 <= gap && radius2 <= gap * gap
}

// One span begins so far after the other ends.
fn are_apart(radius2: f64, s: Span, t: Span) -> bool
    ensures { result ≡ are_apart radius2 s t }
{
    is_wide(radius2, s.low - t.high) || is_wide(radius2, t.low - s.high)
}

// Between two extents there is a gap, along x or along y, as wide as the radius: no detection in the one is near any in
// the other.
pub fn is_far(radius2: f64, a: &Extent, b: &Extent) -> bool
    ensures { result ≡ is_far radius2 a.now b.now }
{
    are_apart(radius2, a.x, b.x) || are_apart(radius2, a.y, b.y)
}
