// Where placing stands.
ghost use Rattle.std.specs.Prelude.{◌≤◌};
ghost use Rattle.bounds.specs.Bounds.{OWNED};

use engine::types::RefinedId;

// How many engine ids have an owner, and the next id.
#[derive(Clone, Copy)]
pub struct Placing {
    pub owned: usize,
    pub next_id: RefinedId,
    pub ghost few: { owned ≤ OWNED },
}
