// Rows: for each scan one more than the place of a track's detection among those gathered, 0 where it has none.
ghost use Rattle.std.specs.Prelude.{◌≡◌, ℕ, ◌+◌, ◌≤◌, ◌<◌, get_or, take, drop, length};
ghost use Rattle.bounds.specs.Bounds.{DETECTIONS, SCANS};
ghost use Rattle.fgo_spec.specs.Lists.{insert as inserted, segment, place_in};
ghost use Rattle.search_rows.specs.Rows.{row_entry, row_of, present_in, Ascends, end_from, row_with, entry_of, no_row, Tabled, Begins};

use crate::starts::StartsRef;
use bounds::{DETECTIONS, SCANS};
use engine::types::RefinedId;
use std::array::from_fn;

// The first place, from one on, whose id is not below x; the table's length where there is none.
// As it is: `position` and no `partition_point` or `binary_search`: what is sought lies mostly a few steps on from the
// place found before. And what it promises is of any table, where these would ask for an ascending one.
pub fn place_from(x: RefinedId, from: usize, table: &[u64]) -> usize
    requires { from ≤ length table.now }
    ensures { result ≡ from + place_in x.0 (drop from table.now) }
{
    table[from..]
        .iter()
        .position(|y| x.0 <= *y)
        .map_or(table.len(), |k| from + k)
}

// The ids from p on move up by one place.
fn move_up(p: usize, n: usize, l: &mut [u64; DETECTIONS])
    requires { (p ≤ n) × (n < DETECTIONS) }
    ensures before_stays { take p l.new ≡ take p l.old }
    ensures moved_up { segment (p + 1) (n + 1) l.new ≡ segment p n l.old }
{
    l.copy_within(p..n, p + 1);
}

// The first place in an ascending table whose id is not below x, sought from a place near it on.
fn place_near(x: RefinedId, near: usize, table: &[u64]) -> usize
    requires { Ascends 0 table.now }
    ensures { result ≡ place_in x.0 table.now }
{
    if near < table.len() && table[near] <= x.0 {
        return place_from(x, near, table);
    }
    place_from(x, 0, table)
}

// An id put in its place p among the first n of an ascending table, once.
fn insert(x: RefinedId, p: usize, n: usize, l: &mut [u64; DETECTIONS]) -> usize
    requires { (n < DETECTIONS) × (p ≡ place_in x.0 (take n l.old)) }
    ensures { Begins (inserted x.0 (take n l.old)) result l.new }
{
    if p < n && l[p] == x.0 {
        return n;
    }
    move_up(p, n, l);
    l[p] = x.0;
    n + 1
}

// The ids that have a window, ascending, at the start of the table: of the first n, DETECTIONS at most.
// As it is: here and in `fill_rows` a count stands beside a list of ids. The scene has that of the ids gathered and a
// pass that of its table, so a struct of ids with their count would be made at each call of what these keep; and of a
// slice the room for its ids or rows would be asked in the same words.
pub fn present(n: usize, ids: &[u64; DETECTIONS], table: &mut [u64; DETECTIONS]) -> usize
    requires { n ≤ DETECTIONS }
    ensures { Begins (present_in n ids.now) result table.new }
{
    let mut m: usize = 0;
    let mut p: usize = 0;
    for x in &ids[..n] {
        if 0 < *x {
            p = place_near(RefinedId(*x), p, &table[..m]);
            m = insert(RefinedId(*x), p, m, table);
        }
    }
    m
}

// One more than the first place of x in scan k, 0 where it has none.
fn slot_in(x: RefinedId, starts: &StartsRef<'_>, k: usize, ids: &[u64; DETECTIONS]) -> usize
    requires { k < SCANS }
    ensures { result ≡ row_entry starts.now.places.now ids.now x.0 k }
{
    let a = starts.places[k];
    ids[a..starts.places[k + 1]]
        .iter()
        .position(|y| x.0 == *y)
        .map_or(0, |i| a + i + 1)
}

// The row of x.
pub fn row_of(x: RefinedId, starts: &StartsRef<'_>, ids: &[u64; DETECTIONS]) -> [usize; SCANS]
    ensures { result ≡ row_of starts.now.places.now ids.now x.0 }
{
    from_fn(|k| slot_in(x, starts, k, ids))
}

// One more than the last scan in which the row has a detection, 0 where there is none.
pub fn end_of(row: &[usize; SCANS]) -> usize
    ensures { result ≡ end_from 0 0 row.now }
{
    row.iter().rposition(|x| 0 < *x).map_or(0, |k| k + 1)
}

// A row with its first scan and its end, all as bytes.
// As it is: an entry is DETECTIONS at most and a scan SCANS, so each fits a byte; as words the table of all rows, whose
// rows are compared pair by pair, would be eight times as large.
#[derive(Clone, Copy)]
pub struct Row {
    pub slots: [u8; SCANS],
    pub first: u8,
    pub end: u8,
}

impl Row {
    // A row without detections.
    const EMPTY: Row = Row {
        slots: [0; SCANS],
        first: SCANS as u8,
        end: 0,
    };

    // The detection at place i joins in scan k, unless the row has one there.
    fn join(&mut self, k: usize, i: usize)
        requires { (k < SCANS) × (i < DETECTIONS) × (self.old ≡ entry_of self.old.slots) }
        ensures { self.new ≡ entry_of (row_with self.old.slots k i) }
    {
        if 0 < self.slots[k] {
            return;
        }
        self.slots[k] = (i + 1) as u8;
        self.first = self.first.min(k as u8);
        self.end = self.end.max((k + 1) as u8);
    }
}

// The detections of scan k join the rows of their ids, where those of the scans before it have. The first n of the
// table are the ids that have a window.
fn fill_scan(
    k: usize,
    starts: &StartsRef<'_>,
    ids: &[u64; DETECTIONS],
    n: usize,
    table: &[u64; DETECTIONS],
    rows: &mut [Row; DETECTIONS],
)
    requires { let ends = starts.now.places.now in
        (k < SCANS) × Begins (present_in (get_or ends SCANS 0) ids.now) n table.now × Tabled ends (take (get_or ends k 0) ids.now) table.now n rows.old }
    ensures { let ends = starts.now.places.now in Tabled ends (take (get_or ends (k + 1) 0) ids.now) table.now n rows.new }
{
    let mut p: usize = 0;
    for i in starts.places[k]..starts.places[k + 1] {
        if 0 < ids[i] {
            p = place_near(RefinedId(ids[i]), p, &table[..n]);
            rows[p].join(k, i);
        }
    }
}

// Rows without detections.
fn clear(rows: &mut [Row])
    ensures { (i : ℕ) → i < length rows.new → get_or rows.new i no_row ≡ Row.EMPTY }
{
    for row in rows.iter_mut() {
        *row = Row::EMPTY;
    }
}

// The rows of the first n ids of a table. It asks that they are those that have a window.
pub fn fill_rows(
    n: usize,
    table: &[u64; DETECTIONS],
    starts: &StartsRef<'_>,
    ids: &[u64; DETECTIONS],
    rows: &mut [Row; DETECTIONS],
)
    requires { Begins (present_in (get_or starts.now.places.now SCANS 0) ids.now) n table.now }
    ensures { Tabled starts.now.places.now ids.now table.now n rows.new }
{
    clear(&mut rows[..n]);
    for k in 0..SCANS {
        fill_scan(k, starts, ids, n, table, rows);
    }
}
