// The owner table with its engine ids indexed: which track owns one.
ghost use Rattle.std.specs.Prelude.{◌≡◌, true};
ghost use Rattle.fgo_state.specs.Memory.{owner_of};
ghost use Rattle.fgo_state.specs.Owners.{engines_in, id_from};
ghost use Rattle.fgo_rule.specs.Tests.{distinct_in};

use engine::types::{EngineId, RefinedId};
use fgo_state::owners::{OwnersRef, owner_at};
use id_index::IdIndex;

// The owners, and the index of the engine ids of their entries, which are distinct.
#[derive(Clone, Copy)]
pub struct IndexedOwners<'a> {
    pub owners: OwnersRef<'a>,
    pub index: &'a IdIndex<'a>,
    pub ghost indexed: { index.now.ids.now ≡ engines_in owners.entries.now owners.owned },
    pub ghost distinct: { distinct_in index.now.ids.now ≡ true },
}

impl IndexedOwners<'_> {
    // The owner of an engine id, if it has one: an entry of the id 0, which no track has, says that it has none.
    pub fn owner_of(&self, e: EngineId) -> Option<RefinedId>
        ensures { result ≡ id_from (owner_of self.now.owners.entries.now self.now.owners.owned e.0) }
    {
        self.index
            .place_of(e.0)
            .map(|k| owner_at(self.owners.entries, k))
            .filter(|x| 0 < x.0)
    }
}
