// A row that says where it ends.
ghost use Rattle.std.specs.Prelude.{◌≡◌};
ghost use Rattle.search_rows.specs.Rows.{end_from};
ghost use Rattle.cost_row.specs.Price.{EndsBy};

use bounds::SCANS;
use search_rows::rows;

// A row, and a scan from which on it has no detection.
#[derive(Clone, Copy)]
pub struct EndedRow<'a> {
    pub slots: &'a [usize; SCANS],
    pub end: usize,
    pub ghost ends: { EndsBy end slots.now },
}

impl<'a> EndedRow<'a> {
    // A row with its end: one more than the last scan in which it has a detection, 0 where there is none.
    pub fn new(slots: &'a [usize; SCANS]) -> EndedRow<'a>
        ensures slots { result.slots.now ≡ slots.now }
        ensures end { result.end ≡ end_from 0 0 slots.now }
    {
        EndedRow {
            slots,
            end: rows::end_of(slots),
        }
    }
}
