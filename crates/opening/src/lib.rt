// An Interest without an entry and without a hit: the longest route and its cheapest eligible hop, the room, and the entry that opens.
#![tactic(auto)]

ghost use Rattle.std.specs.Prelude.{◌<◌, ◌≡◌, Bool, ℕ, length};
ghost use Rattle.sizes.specs.Sizes.{most_entries, most_faces};
ghost use Rattle.records.specs.Class.{class_of};
ghost use Rattle.records.specs.Route.{longest};
ghost use Rattle.faces.specs.Set.{faces_where};
ghost use Rattle.faces.specs.Places.View.{view};
ghost use Rattle.faces.specs.declared.Faces.{Faces};
ghost use Rattle.dead.specs.declared.Dead.{Dead};
ghost use Rattle.routes.specs.Places.View as routes;
ghost use Rattle.routes.specs.Places.Parts.{known_routes};
ghost use Rattle.routes.specs.declared.Routes.{Routes};
ghost use Rattle.store.specs.declared.Store.{Store};
ghost use Rattle.pending_table.specs.Places.View as pending;
ghost use Rattle.rules.specs.Interest.{opens_entry, routed};
ghost use Rattle.writing.specs.Written.{nack_bytes};
ghost use Rattle.rows.specs.Lent.{lent};
ghost use Rattle.sending.specs.Rows.{if_room};
ghost use Rattle.sending.specs.Places.Sheet.{PacksIn, nack_sends};
ghost use Rattle.event.specs.Memory.{output};
ghost use Rattle.coming.specs.Goes.{After, guarded};
ghost use Rattle.coming.specs.Places.Found.{arrival_named};
ghost use Rattle.opening.specs.Places.Beside.{beside};
ghost use Rattle.opening.specs.Places.Sized.{Sized};
ghost use Rattle.opening.specs.Places.Way.{Way};

use answers::Answer;
use coming::guard;
use event::{Came, quiet};
use faces::Faces;
use happenings::{Fate, Rows, note_fate};
use packets::Interest;
use pending_table::{Pending, has_room};
use routes::Known;
use sending::{Sends, refuse, send_interest};
use ways::{eligible, expiry_of};
use writing::Request;

// The reason of a Nack where there is no room for an entry.
const CONGESTION: u8 = 50;

// The reason of a Nack where no next hop is eligible.
const NO_ROUTE: u8 = 150;

// A refusal with its Nack.
pub fn refused(
    faces: Faces,
    known: Known,
    sends: &mut Sends,
    out: &mut [u8],
    made: usize,
    face: usize,
    answer: Answer,
    reason: u8,
    name: &[u8],
    i: Interest,
) -> Came
    ensures answers { result ≡ record { answer = answer; sent = result.sent; made = made } }
    ensures packs { PacksIn (lent sends) (lent out) result.sent
        (if_room (nack_bytes reason name.now i.can_be_prefix i.must_be_fresh i.nonce) out.old
        (nack_sends (view faces) (routes.view (known_routes known.entry)) face reason name.now i.can_be_prefix i.must_be_fresh i.nonce)) }
{
    let request = Request {
        name,
        prefix: i.can_be_prefix,
        fresh: i.must_be_fresh,
        nonce: i.nonce,
    };
    Came {
        answer,
        sent: refuse(known, faces, sends, out, face, reason, request),
        made,
    }
}

// "Else open, and send to the cheapest eligible hop": the request with its expiry.
fn open(
    time: u64,
    p: &mut Pending,
    sends: &mut Sends,
    out: &mut [u8],
    rows: &mut Rows,
    made: usize,
    face: usize,
    name: &[u8],
    bare: &[u8],
    i: Interest,
    class: u64,
    to: usize,
) -> Came
    requires sized { Sized time (length out.old) (length bare.now) (length name.now) }
    requires has_room { length (pending.view p.old) < most_entries }
    ensures { (f : Faces) (r : Routes) (s : Store) (d : Dead)
        → After (λ n. opens_entry n.time n (arrival_named face name.now bare.now i) (class_of class) to) made result
        (beside time f r (lent p) s d) (output (lent sends) (lent out) (lent rows)) }
{
    let expiry = expiry_of(time, i.lifetime);
    let h = pending_table::open(
        &mut p.names,
        &mut p.heads,
        &mut p.numbers,
        &mut p.used,
        name,
        i.can_be_prefix,
        i.must_be_fresh,
        class,
    );
    pending_handle::renew(&mut p.heads, &mut p.recs, p.used, h, face, i.nonce, expiry);
    pending_handle::send(&mut p.heads, &mut p.recs, p.used, h, to, i.nonce, time);
    let noted = note_fate(rows, made, face, class, Fate::Opened, i.nonce, expiry);
    Came {
        answer: Answer::Done,
        sent: send_interest(sends, out, to, class, bare, i.hop),
        made: noted,
    }
}

// The class word of the longest matching route, and the cheapest next hop of it that is in a set of faces, if there is one.
fn way(known: Known, name: &[u8], may: u64) -> Option<(u64, usize)>
    ensures { (q : ℕ → Bool) → may ≡ faces_where most_faces q
        → Way q (longest name.now (routes.view (known_routes known.entry))) result }
{
    let best = known.longest(name)?;
    let to = known.cheapest(best, may)?;
    Some((known.class_of(best), to))
}

// "Otherwise take the longest matching route. NO_ROUTE exactly when there is none or no next hop of it is eligible. Then NO_ROOM."
pub fn route(
    time: u64,
    faces: Faces,
    known: Known,
    p: &mut Pending,
    sends: &mut Sends,
    out: &mut [u8],
    rows: &mut Rows,
    made: usize,
    face: usize,
    name: &[u8],
    bare: &[u8],
    i: Interest,
) -> Came
    ensures { (s : Store) (d : Dead) → After (λ n. guarded (length out.old) (length bare.now) (length name.now) n
        (routed n.time n (arrival_named face name.now bare.now i) (longest name.now n.routes))) made result
        (beside time faces (known_routes known.entry) (lent p) s d) (output (lent sends) (lent out) (lent rows)) }
{
    if let Err(answer) = guard(time, out.len(), bare.len(), name.len()) {
        return quiet(answer, made);
    }
    let local = faces.is_local(face);
    let may = eligible(faces, face, i.hop, name, local);
    let Some((class, to)) = way(known, name, may) else {
        let answer = Answer::NoRoute;
        return refused(
            faces, known, sends, out, made, face, answer, NO_ROUTE, name, i,
        );
    };
    if has_room(&p.heads, p.used, class) {
        open(
            time, p, sends, out, rows, made, face, name, bare, i, class, to,
        )
    } else {
        let answer = Answer::NoRoom;
        refused(
            faces, known, sends, out, made, face, answer, CONGESTION, name, i,
        )
    }
}
