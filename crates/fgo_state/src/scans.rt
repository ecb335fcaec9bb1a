// The held scans in lent memory: the bodies, and beside each body a column of its length and the refined ids of its
// associations.
ghost use Rattle.std.specs.Prelude.{◌≡◌, ◌+◌, ◌-◌, ◌*◌, ◌<◌, ◌≤◌, length};
ghost use Rattle.bounds.specs.Bounds.{SCANS, ASSOCIATIONS, BODY, COLUMN};
ghost use Rattle.engine.specs.Body.{associations_in, body_of, body_refusal, rows};
ghost use Rattle.buffers.specs.Buffers.{over};
ghost use Rattle.fgo_spec.specs.Lists.{has};
ghost use Rattle.fgo_spec.specs.Rule.{Bytes};
ghost use Rattle.fgo_state.specs.Memory.{no_scans, Typed, slot_at, head_at, head_for, length_in};
ghost use Rattle.fgo_state.specs.Memory.{body_at, id_at, scan_in, column_words};
ghost use Rattle.fgo_state.specs.Gathering.{count_in};
ghost use Rattle.fgo_state.specs.Contents.{slot_cleared};

use bounds::{ASSOCIATIONS, BODIES, BODY, COLUMN, COLUMNS, SCANS};
use buffers::put;
use engine::body::Body;
use engine::types::{BodyKind, RefinedId, ScanIndex};

// The memory of the held scans: SCANS slots of a body, and as many columns.
// As it is: arrays of bytes and words, which are the published format of the lent memory.
#[derive(Drop)]
pub struct Scans {
    pub bodies: [u8; BODIES],
    pub columns: [u64; COLUMNS],
}

// The slot of scan n: slots are used in turn.
pub fn slot_of(n: ScanIndex) -> usize
    ensures { (result ≡ slot_at n.0) × (result < SCANS) }
{
    (n.0 % SCANS as u64) as usize
}

// The head of a column for a body of a kind and a length: the length alone, since there is one kind.
fn head_for(kind: BodyKind, length: usize) -> u64
    ensures { result ≡ head_for kind length }
{
    match kind {
        BodyKind::Narrow => length as u64,
    }
}

// The length that a head says; 0 where it says more than a body can have.
fn length_in(head: u64) -> usize
    ensures { (result ≡ length_in head) × (result ≤ BODY) }
{
    if head <= BODY as u64 {
        head as usize
    } else {
        0
    }
}

// How long a slice of bytes is. It is called for its first clause: where bytes are part of what is lent, the check does
// not see that each is below 256.
pub fn are_bytes(l: &[u8]) -> usize
    ensures bytes { Bytes l.now }
    ensures length { result ≡ length l.now }
{
    l.len()
}

// ---- a held scan, in bodies and columns that need not lie side by side

// The head of its column, which says the length of its body.
fn head_at(columns: &[u64; COLUMNS], n: ScanIndex) -> u64
    ensures { result ≡ head_at columns.now n.0 }
{
    columns[COLUMN * slot_of(n)]
}

// Its body.
pub fn body_in<'a>(bodies: &'a [u8; BODIES], columns: &[u64; COLUMNS], n: ScanIndex) -> Body<'a>
    ensures { body_of result ≡ body_at bodies.now columns.now n.0 }
{
    let a = BODY * slot_of(n);
    let e = a + length_in(head_at(columns, n));
    Body {
        kind: BodyKind::Narrow,
        bytes: &bodies[a..e],
    }
}

// The refined id of its association j; 0 past the last that there is room for.
// As it is, here and in `HeldScan::id`: an id of which 0 is clutter. An Option is no plainer: the definitions read a
// column as numbers, the rule compares 0 with the next id, `stands_in` may be asked of 0, and a frame has 0 written
// out, so each of these would make the number again.
pub fn id_at(columns: &[u64; COLUMNS], n: ScanIndex, j: usize) -> RefinedId
    ensures { result.0 ≡ id_at columns.now n.0 j }
{
    if j < ASSOCIATIONS {
        return RefinedId(columns[COLUMN * slot_of(n) + (1 + j)]);
    }
    RefinedId(0)
}

// How many associations it has.
pub fn count_of(bodies: &[u8; BODIES], columns: &[u64; COLUMNS], n: ScanIndex) -> usize
    ensures { result ≡ associations_in (body_at bodies.now columns.now n.0) }
{
    body_in(bodies, columns, n).association_count()
}

// Whether a refined id stands in its column, from association i to before association e.
pub fn stands_in(columns: &[u64; COLUMNS], n: ScanIndex, i: usize, e: usize, id: RefinedId) -> bool
    ensures { result ≡ has id.0 (rows (id_at columns.now n.0) i (e - i)) }
{
    (i..e).any(|j| id == id_at(columns, n, j))
}

impl Scans {
    // Memory that was never used.
    pub fn new() -> Scans
        ensures { result ≡ no_scans }
    {
        Scans {
            bodies: [0; BODIES],
            columns: [0; COLUMNS],
        }
    }

    // What the types of the arrays say of them: a call of it tells the check so, where the scans are part of what is
    // lent.
    pub fn typed(&self)
        ensures { Typed self.now }
    {
        are_bytes(&self.bodies);
        let _columns = &self.columns[..];
    }

    // ---- a held scan

    // Its body.
    pub fn body(&self, n: ScanIndex) -> Body<'_>
        ensures { body_of result ≡ body_at self.now.bodies self.now.columns n.0 }
    {
        body_in(&self.bodies, &self.columns, n)
    }

    // The refined id of its association j; 0 past the last that there is room for.
    pub fn id_at(&self, n: ScanIndex, j: usize) -> RefinedId
        ensures { result.0 ≡ id_at self.now.columns n.0 j }
    {
        id_at(&self.columns, n, j)
    }

    // How many associations it has.
    pub fn count_of(&self, n: ScanIndex) -> usize
        ensures { result ≡ associations_in (body_at self.now.bodies self.now.columns n.0) }
    {
        count_of(&self.bodies, &self.columns, n)
    }

    // Whether a refined id stands in its column, from association i to before association e.
    pub fn stands_in(&self, n: ScanIndex, i: usize, e: usize, id: RefinedId) -> bool
        ensures { result ≡ has id.0 (rows (id_at self.now.columns n.0) i (e - i)) }
    {
        stands_in(&self.columns, n, i, e, id)
    }

    // Whether a refined id stands in its column.
    pub(crate) fn holds(&self, n: ScanIndex, id: RefinedId) -> bool
        ensures { result ≡ has id.0 (scan_in self.now.bodies self.now.columns n.0).ids }
    {
        self.stands_in(n, 0, self.count_of(n), id)
    }

    // How many of its first m associations lie in windows.
    pub(crate) fn count_in(&self, n: ScanIndex, m: usize) -> usize
        ensures { (result ≡ count_in self.now.columns n.0 m) × (result ≤ m) }
    {
        (0..m).filter(|j| 0 < self.id_at(n, *j).0).count()
    }

    // A scan held in its slot: its body, and the ids of its associations.
    pub fn put(&mut self, n: ScanIndex, b: &Body<'_>, ids: &[u64])
        requires { (length b.now.bytes.now ≤ BODY) × (length ids.now ≤ ASSOCIATIONS) }
        ensures bodies { self.new.bodies ≡ over (BODY * slot_at n.0) b.now.bytes.now self.old.bodies }
        ensures columns { self.new.columns ≡ over (COLUMN * slot_at n.0) (column_words b.now.kind (length b.now.bytes.now) ids.now) self.old.columns }
    {
        put(&mut self.bodies, BODY * slot_of(n), b.bytes);
        let o = COLUMN * slot_of(n);
        put(&mut self.columns, o, &[head_for(b.kind, b.bytes.len())]);
        put(&mut self.columns, o + 1, ids);
    }

    // The slot of a held scan, whose body must pass, cleared: as much of it as the scan took.
    pub fn clear(&mut self, n: ScanIndex)
        requires { body_refusal (body_at self.old.bodies self.old.columns n.0) ≡ 0 }
        ensures { self.new ≡ slot_cleared n.0 self.old }
    {
        let size = self.body(n).bytes.len();
        let count = self.count_of(n);
        let slot = slot_of(n);
        buffers::clear(&mut self.bodies, BODY * slot, size, 0);
        buffers::clear(&mut self.columns, COLUMN * slot, 1 + count, 0);
    }
}
