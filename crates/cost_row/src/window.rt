// The window of a track as a row.
ghost use Rattle.std.specs.Prelude.{◌≡◌};
ghost use Rattle.cost.specs.Cost.{misses_of};
ghost use Rattle.cost_row.specs.Price.{Fit};

use crate::ended::EndedRow;
use bounds::SCANS;
use cost::Fold;
use engine::types::RefinedId;

// A track's id, what its window goes on from, its row, and what it costs.
#[derive(Drop)]
pub struct Window<'a> {
    pub id: RefinedId,
    pub from: Fold,
    pub row: EndedRow<'a>,
    pub cost: f64,
    pub ghost fit: { Fit from row.slots.now },
}

impl<'a> Window<'a> {
    // A window by its row and its cost; it goes on from a frozen part or from nothing.
    pub fn new(id: RefinedId, from: Fold, row: &'a [usize; SCANS], cost: f64) -> Window<'a>
        requires { misses_of from ≡ 0 }
        ensures id { result.id ≡ id }
        ensures from { result.from ≡ from }
        ensures row { result.row.slots.now ≡ row.now }
        ensures cost { result.cost ≡ cost }
    {
        Window {
            id,
            from,
            row: EndedRow::new(row),
            cost,
        }
    }
}
