// Which rows come close to each other, and in which scans.
#![tactic(auto)]

ghost use Rattle.std.specs.Prelude.{◌≡◌};
ghost use Rattle.std.specs.Bool.{then_some};
ghost use Rattle.search_neighbours.specs.Near.{point_at, near_points, close_points, close_scans, any_close, meets, CloseWithin};

pub mod extent;

use bounds::{DETECTIONS, SCANS};
use engine::little::byte_at;
use kf::filter::Dot;
use search_rows::rows::Row;

// Where a detection lies. One that is not there lies at NaN, which is near nothing.
// As it is: with an Option each comparison would first ask for both points; one with NaN is false by itself.
#[derive(Clone, Copy)]
struct Point {
    x: f64,
    y: f64,
}

// Where the detection of an entry of a row lies.
fn point_at(i: usize, dots: &[Dot; DETECTIONS]) -> Point
    ensures { result ≡ point_at dots.now i }
{
    if i == 0 {
        return Point {
            x: f64::NAN,
            y: f64::NAN,
        };
    }
    let d = cost::dot_at(dots, i - 1);
    Point { x: d.x, y: d.y }
}

// Two detections lie at a squared distance below radius².
fn near_points(radius2: f64, d: Point, e: Point) -> bool
    ensures { result ≡ near_points radius2 d e }
{
    let dx = d.x - e.x;
    let dy = d.y - e.y;
    dx * dx + dy * dy < radius2
}

// Two rows have a detection each that are near, in one scan or in it and the next: at x and y in the scan, at nx and ny
// in the next.
fn close_points(radius2: f64, x: Point, y: Point, nx: Point, ny: Point) -> bool
    ensures { result ≡ close_points radius2 x y nx ny }
{
    near_points(radius2, x, y) || near_points(radius2, x, ny) || near_points(radius2, nx, y)
}

// For each scan whether the rows are close in it, if they are close in any. It asks for scans outside of which they are
// not.
pub fn close_scans(
    radius2: f64,
    a: &[u8],
    b: &[u8],
    from: usize,
    to: usize,
    dots: &[Dot; DETECTIONS],
) -> Option<[bool; SCANS]>
    requires { CloseWithin radius2 dots.now a.now b.now from to }
    ensures { let close = close_scans radius2 dots.now a.now b.now in result ≡ then_some (any_close close) close }
{
    let mut close = [false; SCANS];
    let mut found = false;
    let mut x = point_at(byte_at(a, from), dots);
    let mut y = point_at(byte_at(b, from), dots);
    for k in from..to {
        let nx = point_at(byte_at(a, k + 1), dots);
        let ny = point_at(byte_at(b, k + 1), dots);
        if close_points(radius2, x, y, nx, ny) {
            close[k] = true;
            found = true;
        }
        x = nx;
        y = ny;
    }
    found.then_some(close)
}

// The ranges of scans of two rows, each from its first detection to its last, overlap or touch. In no scan, and in no
// two consecutive ones, need both have a detection: rows with detections in the scans 0 and 10, and in the scan 5,
// meet.
pub fn meet(a: &Row, b: &Row) -> bool
    ensures { result ≡ meets a.now b.now }
{
    a.first <= b.end && b.first <= a.end
}
