// A frame arrives, and is held: placing, the search over all that is held, and owning.
#![tactic(auto)]

ghost use Rattle.std.specs.Prelude.{◌≡◌, replicate};
ghost use Rattle.bounds.specs.Bounds.{DETECTIONS};
ghost use Rattle.engine.specs.Body.{body_of};
ghost use Rattle.fgo_state.specs.Gathered.{GatheredOf};
ghost use Rattle.fgo_arrive.specs.Arriving.{SearchesHeld, SearchedHeld, Holds, HeldBy, Arrives, Arrived};

use bounds::{ASSOCIATIONS, DETECTIONS, OWNERS};
use cost::prices::Prices;
use engine::body::Body;
use engine::checked::CheckedBody;
use fgo_part::FrozenTracks;
use fgo_place::placing::Placing;
use fgo_place::{own, place};
use fgo_state::gather::Gathered;
use fgo_state::scans::Scans;
use fgo_state::state::{FixedLagRefiner, Memory};
use fgo_state::{gather, scans};
use id_index::IdIndex;
use kf::filter::Dot;
use search::pass;
use search::scene::SceneRef;
use search_rows::moves::Tally;
use search_rows::starts::StartsRef;

// A dot that is not there yet.
const NO_DOT: Dot = Dot {
    x: 0.0,
    y: 0.0,
    r: 0.0,
    t: 0.0,
};

// The search over the scans held, by what they have in windows: their columns and the owners are told anew.
fn search_held(
    r: &FixedLagRefiner,
    m: &mut Memory,
    gathered: &mut Gathered,
    engines: &[u64; DETECTIONS],
) -> Tally
    requires searches { SearchesHeld r.now m.old }
    requires gathered { GatheredOf m.old.scans r.now.first.0 r.now.held (replicate DETECTIONS 0) gathered.old engines.now }
    ensures found { SearchedHeld r.now m.old m.new.scans.columns m.new.owners result }
    ensures bodies { m.new.scans.bodies ≡ m.old.scans.bodies }
    ensures parts { m.new.parts ≡ m.old.parts }
{
    let mut dots = [NO_DOT; DETECTIONS];
    r.held_in(&m.scans).gather_dots(r.config, &mut dots);
    let prices = Prices {
        config: r.config,
        first: r.first,
        dots: &dots,
    };
    let starts = StartsRef {
        places: &gathered.starts,
    };
    let frozen = FrozenTracks {
        tracks: &m.parts.tracks,
        count: r.frozen,
    };
    let scene = SceneRef {
        prices: &prices,
        detections: gathered.count,
        starts: &starts,
        frozen: &frozen,
        filters: &m.parts.filters,
    };
    let t = pass::improve(&scene, r.next_id, r.counters, &mut gathered.ids);
    gather::scatter(
        &m.scans.bodies,
        &mut m.scans.columns,
        r.first,
        gathered.held,
        &gathered.ids,
    );
    let index = IdIndex::of(&engines[..gathered.count]);
    own::hold_latest(&mut m.owners, r.owned, gathered, &index);
    t
}

// A frame is placed, and held.
fn hold(r: &mut FixedLagRefiner, b: &CheckedBody<'_>, scans: &mut Scans, owners: &mut [u64; OWNERS])
    requires { Holds r.old (body_of b.now.body) }
    ensures { HeldBy r.old (body_of b.now.body) scans.old.bodies scans.old.columns owners.old r.new scans.new.bodies scans.new.columns owners.new }
{
    scans.typed();
    let mut ids = [0u64; ASSOCIATIONS];
    let begun = Placing {
        owned: r.owned,
        next_id: r.next_id,
    };
    let p = place::place_all(b, begun, owners, &mut ids);
    scans.put(
        r.first.later(r.held),
        &b.body,
        &ids[..b.body.association_count()],
    );
    r.held += 1;
    r.owned = p.owned;
    r.next_id = p.next_id;
}

// A frame arrives: it is placed and held, the search goes over all that is held, and owners are told anew. The refiner
// must meet the state rule, and no number refuse the frame. It is lent what the scans held so far have in windows,
// gathered into lists of zeros, and adds what the frame has.
pub fn arrive(
    r: &mut FixedLagRefiner,
    b: &Body<'_>,
    m: &mut Memory,
    gathered: &mut Gathered,
    engines: &mut [u64; DETECTIONS],
)
    requires arrives { Arrives r.old m.old (body_of b.now) }
    requires gathered { GatheredOf m.old.scans r.old.first.0 r.old.held (replicate DETECTIONS 0) gathered.old engines.old }
    ensures arrived { Arrived r.old m.old (body_of b.now) r.new m.new }
    ensures parts { m.new.parts ≡ m.old.parts }
{
    m.scans.typed();
    let _bytes = scans::are_bytes(b.bytes);
    let checked = CheckedBody { body: *b };
    let n = r.first.later(r.held);
    hold(r, &checked, &mut m.scans, &mut m.owners);
    gathered.add(&m.scans.held(n), engines);
    let t = search_held(r, m, gathered, engines);
    r.next_id = t.next_id;
    r.counters = t.counters;
    let live = r.live_in(&m.scans, &m.parts.tracks);
    r.owned = own::keep_owners(&live, r.owned, &mut m.owners);
}
