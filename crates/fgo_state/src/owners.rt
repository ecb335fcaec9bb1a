// The owners of engine ids in lent memory: which refined id an engine id belongs to.
// As it is, here and below: an array of words, of which an entry is OWNER: the published format of the lent memory.
ghost use Rattle.std.specs.Prelude.{◌≡◌, ◌*◌, ◌<◌, ◌≤◌};
ghost use Rattle.bounds.specs.Bounds.{OWNED, OWNER};
ghost use Rattle.buffers.specs.Buffers.{over};
ghost use Rattle.fgo_state.specs.Memory.{engine_at, owner_at, owner_of, owner_words};
ghost use Rattle.fgo_state.specs.Owners.{IsPlaceOf, engines_in, id_from};

use bounds::{OWNED, OWNER, OWNERS};
use engine::types::{EngineId, RefinedId};

// The engine id of entry k, which is below OWNED.
pub fn engine_at(owners: &[u64; OWNERS], k: usize) -> EngineId
    requires { k < OWNED }
    ensures { result.0 ≡ engine_at owners.now k }
{
    EngineId(owners[OWNER * k])
}

// The refined id that owns it.
pub fn owner_at(owners: &[u64; OWNERS], k: usize) -> RefinedId
    requires { k < OWNED }
    ensures { result.0 ≡ owner_at owners.now k }
{
    RefinedId(owners[OWNER * k + 1])
}

// Entry k, which is below OWNED, written.
// As it is: both words by one `put`, as the clause says it: a store of each would be no plainer.
pub fn put_owner(owners: &mut [u64; OWNERS], k: usize, e: EngineId, x: RefinedId)
    requires { k < OWNED }
    ensures { owners.new ≡ over (OWNER * k) (owner_words (e.0, x.0)) owners.old }
{
    buffers::put(owners, OWNER * k, &[e.0, x.0]);
}

// The owners, by their entries: the first `owned` are in use.
#[derive(Clone, Copy)]
pub struct OwnersRef<'a> {
    pub entries: &'a [u64; OWNERS],
    pub owned: usize,
    pub ghost few: { owned ≤ OWNED },
}

impl OwnersRef<'_> {
    // The place of the first entry of an engine id, if it has one.
    pub fn place_of(&self, e: EngineId) -> Option<usize>
        ensures { IsPlaceOf self.now.entries.now self.now.owned e.0 result }
    {
        (0..self.owned).find(|k| e == engine_at(self.entries, *k))
    }

    // The owner of an engine id, if it has one: an entry of the id 0, which no track has, says that it has none.
    pub fn owner_of(&self, e: EngineId) -> Option<RefinedId>
        ensures { result ≡ id_from (owner_of self.now.entries.now self.now.owned e.0) }
    {
        self.place_of(e)
            .map(|k| owner_at(self.entries, k))
            .filter(|x| 0 < x.0)
    }

    // The engine ids of the entries, written to the places from 0 on.
    pub fn keys(&self, all: &mut [u64; OWNED])
        ensures { all.new ≡ over 0 (engines_in self.now.entries.now self.now.owned) all.old }
    {
        for (k, id) in all[..self.owned].iter_mut().enumerate() {
            *id = engine_at(self.entries, k).0;
        }
    }
}
