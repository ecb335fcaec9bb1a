// What a search does not change, and what it tells of a track.
ghost use Rattle.std.specs.Prelude.{◌≡◌, get_or};
ghost use Rattle.bounds.specs.Bounds.{SCANS};

use bounds::{DETECTIONS, FILTERS, SCANS};
use cost::Fold;
use cost::logs::Logs;
use cost::prices::Prices;
use cost_row::ended::EndedRow;
use engine::types::RefinedId;
use fgo_part::FrozenTracks;
use search_rows::rows;
use search_rows::starts::StartsRef;

// What prices windows; how many detections are gathered, and where those of each scan begin; and the frozen tracks, in
// the words and numbers that are lent.
#[derive(Clone, Copy)]
pub struct SceneRef<'a> {
    pub prices: &'a Prices<'a>,
    pub detections: usize,
    pub starts: &'a StartsRef<'a>,
    pub frozen: &'a FrozenTracks<'a>,
    pub filters: &'a [f64; FILTERS],
    pub ghost ends: { detections ≡ get_or starts.now.places.now SCANS 0 },
}

impl SceneRef<'_> {
    ghost use Rattle.std.specs.Prelude.{◌≡◌};
    ghost use Rattle.search.specs.Pass.{fold_on, row_on, cost_on};
    ghost use Rattle.search.specs.Lent.{scene_in};

    // What the window of x goes on from.
    pub(crate) fn fold_of(&self, x: RefinedId) -> Fold
        ensures { result ≡ fold_on (scene_in self.now) x.0 }
    {
        cost_row::fold_from(x, self.frozen, self.filters)
    }

    // The row of x.
    pub(crate) fn row_of(&self, x: RefinedId, ids: &[u64; DETECTIONS]) -> [usize; SCANS]
        ensures { result ≡ row_on (scene_in self.now) ids.now x.0 }
    {
        rows::row_of(x, self.starts, ids)
    }

    // What the window of x costs.
    pub(crate) fn track_cost(&self, x: RefinedId, ids: &[u64; DETECTIONS], logs: &mut Logs) -> f64
        ensures { result ≡ cost_on (scene_in self.now) ids.now x.0 }
    {
        let row = self.row_of(x, ids);
        let from = self.fold_of(x);
        cost_row::row_cost(self.prices, &from, &EndedRow::new(&row), logs)
    }
}
