// An Interest that came in, past ageing: "7 to 13 .. as listed", its entry, and the store. What has neither goes on in `opening`.
#![tactic(auto)]

ghost use Rattle.std.specs.Prelude.{ℕ, ◌≤◌, ◌≡◌, [], ◌∷◌, List, map, length};
ghost use Rattle.std.proofs.Math.Option.{none, some};
ghost use Rattle.sizes.specs.Sizes.{least_buffer};
ghost use Rattle.laws.specs.Pick.{pick};
ghost use Rattle.packethead.specs.Name.{name_of};
ghost use Rattle.records.specs.Class.{class_number};
ghost use Rattle.records.specs.Slots.{slot, is_some};
ghost use Rattle.records.specs.Entry.{Entry};
ghost use Rattle.records.specs.Happening.{opened, happens};
ghost use Rattle.records.specs.Rows.{row_of};
ghost use Rattle.records.specs.Stored.{Hit};
ghost use Rattle.happenings.specs.Noted.{Noted};
ghost use Rattle.faces.specs.Places.View.{view};
ghost use Rattle.faces.specs.declared.Faces.{Faces};
ghost use Rattle.dead.specs.Places.View as dead;
ghost use Rattle.dead.specs.declared.Dead.{Dead};
ghost use Rattle.pending_table.specs.Places.View as pending;
ghost use Rattle.pending_table.specs.Places.Parts.{seen};
ghost use Rattle.pending_table.specs.declared.Pending.{Pending};
ghost use Rattle.store.specs.Places.View as store;
ghost use Rattle.store.specs.declared.Store.{Store};
ghost use Rattle.rules.specs.Node.{Node};
ghost use Rattle.rules.specs.Interest.{Arrival, hop_is_zero, out_of_scope, served, asks_again, asks_entry, interest_step};
ghost use Rattle.rows.specs.Lent.{lent, shown};
ghost use Rattle.event.specs.Memory.{memory, still, output};
ghost use Rattle.event.specs.Places.Begins.{allowed};
ghost use Rattle.coming.specs.Goes.{After, guard_says, guarded};
ghost use Rattle.coming.specs.Places.Found.{limit_of, arrival_found};
ghost use Rattle.coming.specs.Places.Guarded.{Guarded};
ghost use Rattle.on_interest.specs.Places.Sought.{checked, Sees};
ghost use Rattle.routes.specs.Places.Parts.{known_routes};

use answers::Answer;
use coming::{guard, is_out_of_scope};
use dead::Dead;
use event::{Came, quiet};
use faces::Faces;
use happenings::{Fate, Rows, note_fate};
use names::FNV_START;
use opening::{refused, route};
use packethead::find_name;
use packets::{HopLimit, Interest};
use pending_table::{Handle, Pending, Shown, facts_of, find, is_there};
use routes::Known;
use sending::{Sends, class_for, send_data, send_interest};
use store::{Store, bytes_of};
use ways::{expiry_of, is_zero, loops, next_hop};

// The reason of a loop's Nack.
const DUPLICATE: u8 = 100;

// What an Interest meets: the handle of its entry, if there is one, and whether it loops.
#[derive(Clone, Copy, Debug, PartialEq, Eq)]
struct Seen {
    entry: Option<Handle>,
    loops: bool,
}

// "a hit sends that Data back and opens nothing"
fn serve(
    known: Known,
    stored: &mut Store,
    sends: &mut Sends,
    out: &mut [u8],
    made: usize,
    face: usize,
    hit: store::Handle,
) -> Came
    requires { least_buffer ≤ length out.old }
    ensures { (t : ℕ) (f : Faces) (p : Pending) (d : Dead) (rows : List (List ℕ)) (a : Arrival) (h : Hit) → a.face ≡ face
        → h.place ≡ store.placed stored.old hit → store.found stored.old hit ≡ some h.what
        → After (λ n. served n a h) made result
        (memory (still t) (still f) (still (known_routes known.entry)) (still p) (lent stored) (still d))
        (output (lent sends) (lent out) (still rows)) }
{
    let bytes = bytes_of(&stored.packets, &stored.rows, stored.count, hit);
    let class = class_for(known, find_name(bytes));
    let sent = send_data(sends, out, face, class, bytes);
    stored.touch(hit);
    Came {
        answer: Answer::Done,
        sent,
        made,
    }
}

// A request that opens is noted; a renewal is the same request.
fn note_opening(
    p: Shown,
    rows: &mut Rows,
    made: usize,
    h: Handle,
    face: usize,
    class: u64,
    nonce: u64,
    expiry: u64,
) -> usize
    ensures { (t : ℕ) (e : Entry) → pending.entry_at (seen p.entry) h ≡ some e → class ≡ class_number e.cls
        → Noted (lent rows) result made (map row_of (pick (is_some (slot face e.requests)) []
        (happens opened t e (record { face = face; what = record { nonce = nonce; expiry = expiry } }) ∷ []))) }
{
    if faces::has(pending_handle::asking_faces(p, h), face) {
        made
    } else {
        note_fate(rows, made, face, class, Fate::Opened, nonce, expiry)
    }
}

// "Entry present: open this face's request, or renew it with the new nonce and expiry", and send it on if there is a hop for it.
fn ask_again(
    time: u64,
    faces: Faces,
    known: Known,
    p: &mut Pending,
    sends: &mut Sends,
    out: &mut [u8],
    rows: &mut Rows,
    made: usize,
    h: Handle,
    face: usize,
    name: &[u8],
    bare: &[u8],
    i: Interest,
) -> Came
    requires { Guarded time (length out.old) bare.now name.now }
    ensures { (s : Store) (d : Dead) (e : Entry) → pending.entry_at p.old h ≡ some e
        → After (λ n. asks_again n.time n (arrival_found face bare.now i) (pending.place_of p.old h) e) made result
        (memory (still time) (still faces) (still (known_routes known.entry)) (lent p) (still s) (still d))
        (output (lent sends) (lent out) (lent rows)) }
{
    let expiry = expiry_of(time, i.lifetime);
    let class = facts_of(&p.heads, p.used, h).class;
    let shown = Shown {
        names: &p.names,
        heads: &p.heads,
        recs: &p.recs,
        numbers: &p.numbers,
        used: p.used,
    };
    let noted = note_opening(shown, rows, made, h, face, class, i.nonce, expiry);
    pending_handle::renew(&mut p.heads, &mut p.recs, p.used, h, face, i.nonce, expiry);
    let shown = Shown {
        names: &p.names,
        heads: &p.heads,
        recs: &p.recs,
        numbers: &p.numbers,
        used: p.used,
    };
    let Some(to) = next_hop(time, faces, known, shown, h, face, name, i.hop) else {
        return quiet(Answer::Done, noted);
    };
    pending_handle::send(&mut p.heads, &mut p.recs, p.used, h, to, i.nonce, time);
    Came {
        answer: Answer::Done,
        sent: send_interest(sends, out, to, class, bare, i.hop),
        made: noted,
    }
}

// "No entry: look in the store .. Otherwise take the longest matching route."
fn ask_anew(
    time: u64,
    faces: Faces,
    known: Known,
    p: &mut Pending,
    stored: &mut Store,
    sends: &mut Sends,
    out: &mut [u8],
    rows: &mut Rows,
    made: usize,
    face: usize,
    name: &[u8],
    bare: &[u8],
    i: Interest,
) -> Came
    requires { Guarded time (length out.old) bare.now name.now }
    ensures { (d : Dead) → After (λ n. asks_entry n.time n (arrival_found face bare.now i) none) made result
        (memory (still time) (still faces) (still (known_routes known.entry)) (lent p) (lent stored) (still d))
        (output (lent sends) (lent out) (lent rows)) }
{
    match stored.look(name, i.can_be_prefix, i.must_be_fresh, time) {
        Some(hit) => serve(known, stored, sends, out, made, face, hit),
        None => route(
            time, faces, known, p, sends, out, rows, made, face, name, bare, i,
        ),
    }
}

// What an Interest meets in the pending table and among the dead nonces.
fn see(
    time: u64,
    faces: Faces,
    p: Shown,
    nonces: &Dead,
    face: usize,
    name: &[u8],
    i: Interest,
) -> Seen
    ensures { Sees result time (view faces) (pending.view (seen p.entry)) (dead.view nonces.now) face name.now i
        (pending.place_of (seen p.entry)) }
{
    let handle = find(
        p.names,
        p.heads,
        p.numbers,
        p.used,
        name,
        i.can_be_prefix,
        i.must_be_fresh,
    );
    let looped = loops(
        time, faces, p, nonces, FNV_START, handle, face, name, i.nonce,
    );
    Seen {
        entry: is_there(p.used, handle).then_some(handle),
        loops: looped,
    }
}

// What is asked again, and then "Interest with HopLimit 0" and scope.
fn check(
    time: u64,
    known: Faces,
    room: usize,
    face: usize,
    name: &[u8],
    bare: &[u8],
    hop: Option<HopLimit>,
) -> Result<(), Answer>
    ensures { (n : Node) → n.faces ≡ view known
        → result ≡ allowed (checked (guard_says time room (length bare.now) (length name.now)) (hop_is_zero (limit_of hop))
        (out_of_scope n face name.now)) }
{
    guard(time, room, bare.len(), name.len())?;
    if is_zero(hop) {
        return Err(Answer::HopLimit);
    }
    if is_out_of_scope(known, face, name) {
        return Err(Answer::Scope);
    }
    Ok(())
}

// An Interest that came in on a face, past ageing.
pub fn interest(
    time: u64,
    faces: Faces,
    known: Known,
    p: &mut Pending,
    stored: &mut Store,
    nonces: &Dead,
    sends: &mut Sends,
    out: &mut [u8],
    rows: &mut Rows,
    made: usize,
    face: usize,
    bare: &[u8],
    i: Interest,
) -> Came
    ensures { After (λ n. guarded (length out.old) (length bare.now) (length (name_of bare.now)) n
        (interest_step n.time n (arrival_found face bare.now i))) made result
        (memory (still time) (still faces) (still (known_routes known.entry)) (lent p) (lent stored) (shown nonces))
        (output (lent sends) (lent out) (lent rows)) }
{
    let name = find_name(bare);
    if let Err(answer) = check(time, faces, out.len(), face, name, bare, i.hop) {
        return quiet(answer, made);
    }
    let shown = Shown {
        names: &p.names,
        heads: &p.heads,
        recs: &p.recs,
        numbers: &p.numbers,
        used: p.used,
    };
    let seen = see(time, faces, shown, nonces, face, name, i);
    if seen.loops {
        let answer = Answer::Loop;
        return refused(
            faces, known, sends, out, made, face, answer, DUPLICATE, name, i,
        );
    }
    match seen.entry {
        Some(h) => ask_again(
            time, faces, known, p, sends, out, rows, made, h, face, name, bare, i,
        ),
        None => ask_anew(
            time, faces, known, p, stored, sends, out, rows, made, face, name, bare, i,
        ),
    }
}
