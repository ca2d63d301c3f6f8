// Where an Interest may go: whether its HopLimit is used up, whether it loops, the faces on which it may leave, and the hop that a further
// Interest of an entry takes.
#![tactic(auto)]

ghost use Rattle.std.specs.Prelude.{◌≡◌, Bool, false, ◌&&◌, ◌||◌, not, ℕ, ◌+◌, min, eqb};
ghost use Rattle.sizes.specs.Sizes.{most_faces, most_time, most_lifetime};
ghost use Rattle.records.specs.Slots.{given, holds};
ghost use Rattle.records.specs.Face.{is_open, is_peer, is_ad_hoc_face};
ghost use Rattle.records.specs.Route.{longest};
ghost use Rattle.records.specs.Entry.{own_nonce};
ghost use Rattle.faces.specs.Set.{faces_where};
ghost use Rattle.faces.specs.Places.View.{view};
ghost use Rattle.faces.specs.Found.{face_in};
ghost use Rattle.dead.specs.Places.View as dead;
ghost use Rattle.routes.specs.Places.View as routes;
ghost use Rattle.routes.specs.Places.Parts.{known_routes};
ghost use Rattle.pending_table.specs.Places.Parts.{seen};
ghost use Rattle.pending_table.specs.Places.View.{entry_at};
ghost use Rattle.coming.specs.Places.Found.{limit_of};
ghost use Rattle.rules.specs.Node.{Node};
ghost use Rattle.rules.specs.Interest as rules;
ghost use Rattle.rules.specs.Interest.{Arrival, hop_is_zero, spent, entry_loops, from_local_face};
ghost use Rattle.ways.specs.Ways.{loops_by, resends_by};
ghost use Rattle.ways.specs.Places.Stays.{stays_local};
ghost use Rattle.ways.specs.Places.Next.{next_of};

use dead::Dead;
use faces::{Faces, common, remove};
use packets::HopLimit;
use pending_table::{Handle, Shown};
use routes::Known;
use sizes::{MOST_LIFETIME, MOST_TIME};

// "Interest with HopLimit 0"
pub fn is_zero(hop: Option<HopLimit>) -> bool
    ensures { result ≡ hop_is_zero (limit_of hop) }
{
    hop.is_some_and(|h| h.limit == 0)
}

// "local if HopLimit is present and is 0 after lowering"
fn is_spent(hop: Option<HopLimit>) -> bool
    ensures { result ≡ spent (limit_of hop) }
{
    hop.is_some_and(|h| h.limit <= 1)
}

// Whether it may leave on local faces alone, where some request is from a local face or not.
fn stays_local(hop: Option<HopLimit>, name: &[u8], local: bool) -> bool
    ensures { result ≡ stays_local (limit_of hop) name.now local }
{
    is_spent(hop) || names::under_localhost(name) || !local && names::under_localhop(name)
}

// "not the arrival face, unless ad hoc": the open faces that are left.
fn others(faces: Faces, face: usize) -> u64
    ensures { result ≡ faces_where most_faces (λ h. is_open (view faces) h && (not (eqb h face) || is_ad_hoc_face (view faces) face)) }
{
    let open = faces.all_open();
    if faces.is_ad_hoc(face) {
        open
    } else {
        remove(open, face)
    }
}

// "Eligible": the faces on which it may leave, where some request is from a local face or not.
pub fn eligible(faces: Faces, face: usize, hop: Option<HopLimit>, name: &[u8], local: bool) -> u64
    ensures { (n : Node) (a : Arrival) → n.faces ≡ view faces → a.face ≡ face → a.ask.hop ≡ limit_of hop
        → a.ask.name ≡ name.now → result ≡ faces_where most_faces (rules.eligible n a local) }
{
    let set = others(faces, face);
    if stays_local(hop, name, local) {
        common(set, faces.all_local())
    } else {
        set
    }
}

// The expiry of the request that it makes: a time past the last counts as that, and so does a lifetime.
pub fn expiry_of(time: u64, lifetime: u64) -> u64
    ensures { result ≡ min time most_time + min lifetime most_lifetime }
{
    time.min(MOST_TIME) + lifetime.min(MOST_LIFETIME)
}

// "the face is point-to-point and its own in-record has this nonce"
fn is_own(p: Shown, h: Handle, faces: Faces, face: usize, nonce: u64) -> bool
    ensures { result ≡ given false (λ e. is_peer (view faces) face && own_nonce face nonce e) (entry_at (seen p.entry) h) }
{
    faces.is_peer(face) && pending_handle::own_nonce(p, h, face, nonce)
}

// "the entry has the nonce ..": "The entry does not count if the face is point-to-point and its own in-record has this nonce."
fn entry_loops(p: Shown, h: Handle, faces: Faces, face: usize, nonce: u64) -> bool
    ensures { (n : Node) (a : Arrival) → n.faces ≡ view faces → a.face ≡ face → a.ask.nonce ≡ nonce
        → result ≡ holds (entry_loops n a) (entry_at (seen p.entry) h) }
{
    !is_own(p, h, faces, face, nonce) && pending_handle::has_nonce(p, h, nonce)
}

// "LOOP: a live fingerprint equals this one; or the entry has the nonce": of the entry that a handle stands for, if it does.
pub fn loops(
    time: u64,
    faces: Faces,
    p: Shown,
    nonces: &Dead,
    start: u64,
    h: Handle,
    face: usize,
    name: &[u8],
    nonce: u64,
) -> bool
    ensures { (n : Node) (a : Arrival) → n.faces ≡ view faces → n.dead ≡ dead.view nonces.now → a.face ≡ face
        → a.ask.name ≡ name.now → a.ask.nonce ≡ nonce → result ≡ loops_by start time n a (entry_at (seen p.entry) h) }
{
    let print = names::fingerprint_from(start, name, nonce);
    nonces.is_dead(time, print) || entry_loops(p, h, faces, face, nonce)
}

// Whether some request of an entry is from a local face; a handle of no entry has none.
fn is_from_local(p: Shown, h: Handle, faces: Faces) -> bool
    ensures { (n : Node) → n.faces ≡ view faces → result ≡ holds (from_local_face n) (entry_at (seen p.entry) h) }
{
    common(pending_handle::asking_faces(p, h), faces.all_local()) != 0
}

// "in the longest matching route, use the cheapest eligible hop without an out-record; failing that, the eligible hop with the earliest
// one".
fn choose(known: Known, p: Shown, h: Handle, name: &[u8], may: u64) -> Option<usize>
    ensures { (q : ℕ → Bool) → may ≡ faces_where most_faces q
        → face_in result ≡ next_of q (longest name.now (routes.view (known_routes known.entry))) (entry_at (seen p.entry) h) }
{
    let route = known.longest(name)?;
    let unsent = pending_handle::unsent(p, h, may);
    match known.cheapest(route, unsent) {
        Some(first) => Some(first),
        None => {
            let hops = known.hops_of(route);
            pending_handle::earliest(p, h, common(hops, may))
        }
    }
}

// The hop that a further Interest of an entry takes, if any: "If the newest out-record was sent under 100 ms ago, send nothing."
pub fn next_hop(
    time: u64,
    faces: Faces,
    known: Known,
    p: Shown,
    h: Handle,
    face: usize,
    name: &[u8],
    hop: Option<HopLimit>,
) -> Option<usize>
    ensures { (n : Node) (a : Arrival) → n.faces ≡ view faces → n.routes ≡ routes.view (known_routes known.entry)
        → a.face ≡ face → a.ask.name ≡ name.now → a.ask.hop ≡ limit_of hop
        → face_in result ≡ resends_by time n a (entry_at (seen p.entry) h) }
{
    if pending_handle::is_suppressed(p, h, time) {
        return None;
    }
    let local = is_from_local(p, h, faces);
    let may = eligible(faces, face, hop, name, local);
    choose(known, p, h, name, may)
}
