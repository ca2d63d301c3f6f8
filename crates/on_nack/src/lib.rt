// A Nack that came in, past ageing.
#![tactic(auto)]

ghost use Rattle.std.specs.Prelude.{◌≡◌, true, ◌≤◌, length};
ghost use Rattle.std.proofs.Math.Option.{some};
ghost use Rattle.sizes.specs.Sizes.{most_name, least_buffer};
ghost use Rattle.records.specs.Slots.{held};
ghost use Rattle.records.specs.Entry.{Entry, is_known, smallest_reason, with_nack};
ghost use Rattle.packethead.specs.Name.{name_of};
ghost use Rattle.packets.specs.Meaning.{Ask};
ghost use Rattle.rules.specs.Nack.{ends_by_nack, nacked_entry, nack_step};
ghost use Rattle.routes.specs.declared.Routes.{Routes};
ghost use Rattle.store.specs.declared.Store.{Store};
ghost use Rattle.rows.specs.Lent.{lent};
ghost use Rattle.pending_table.specs.Places.View.{place_of, entry_at};
ghost use Rattle.pending_table.specs.Places.Parts.{seen};
ghost use Rattle.pending_pass.specs.Lent.{marking_lent};
ghost use Rattle.sending.specs.Places.Sheet.{PacksIn};
ghost use Rattle.event.specs.Memory.{memory, still, output};
ghost use Rattle.coming.specs.Goes.{After, guarded};
ghost use Rattle.coming.specs.Places.Found.{ask_found};
ghost use Rattle.on_nack.specs.Places.Nacks.{nonce_at, nacks_on};

use answers::Answer;
use coming::{guard, is_out_of_scope};
use dead::Dead;
use event::{Came, quiet};
use faces::{Faces, Walk, common};
use happenings::{Fate, Rows};
use names::FNV_START;
use packethead::find_name;
use packets::Interest;
use pending_handle::{
    all_nacked, asking_faces, end_requests, mark_nacked, note_requests, request_of, sent_nonce,
};
use pending_pass::{Leaving, Marking, leave_if_idle};
use pending_table::{Handle, Shown, facts_of, find};
use sending::{Sends, Sent, put_nack};
use writing::Request;

// The nonce of a face's request in an entry; 0 where there is none, as `nonce_at` says.
fn nonce_of(t: Shown, h: Handle, face: usize) -> u64
    ensures { result ≡ nonce_at (entry_at (seen t.entry) h) face }
{
    match request_of(t, h, face) {
        None => 0,
        Some(asked) => asked.nonce,
    }
}

// "a Nack with its own nonce" for each request of the faces of a set, by ascending face.
fn send_nacks(
    t: Shown,
    sends: &mut Sends,
    out: &mut [u8],
    h: Handle,
    set: u64,
    class: u64,
    reason: u8,
    name: &[u8],
    prefix: bool,
    fresh: bool,
) -> usize
    requires name_fits { length name.now ≤ most_name }
    requires buffer_fits { least_buffer ≤ length out.old }
    ensures { PacksIn (lent sends) (lent out) result (nacks_on (entry_at (seen t.entry) h) set reason name.now prefix fresh class) }
{
    let mut sent = Sent { count: 0, at: 0 };
    for face in Walk::of(set) {
        let request = Request {
            name,
            prefix,
            fresh,
            nonce: nonce_of(t, h, face),
        };
        sent = put_nack(sends, out, sent, face, class, reason, request);
    }
    sent.count
}

// "each point-to-point request ends by a Nack with its own nonce and the smallest nonzero reason, or 0. Others stay open."
fn end_by_nack(
    time: u64,
    faces: Faces,
    p: Marking,
    nonces: &mut Dead,
    sends: &mut Sends,
    out: &mut [u8],
    rows: &mut Rows,
    made: usize,
    h: Handle,
    reason: u8,
    name: &[u8],
    prefix: bool,
    fresh: bool,
) -> Came
    requires name_fits { length name.now ≤ most_name }
    requires buffer_fits { least_buffer ≤ length out.old }
    ensures { (r : Routes) (s : Store) (e : Entry) → entry_at (marking_lent p).entry h ≡ some e
        → is_known name.now prefix fresh e ≡ true
        → reason ≡ smallest_reason (held e.sent)
        → After (λ n. ends_by_nack n.time n (place_of (marking_lent p).entry h) e) made result
        (memory (still time) (still faces) (still r) (marking_lent p) (still s) (lent nonces))
        (output (lent sends) (lent out) (lent rows)) }
{
    let Marking {
        names,
        heads,
        recs,
        numbers,
        used,
    } = p;
    let t = Shown {
        names,
        heads,
        recs,
        numbers,
        used: *used,
    };
    let asking = asking_faces(t, h);
    let all = faces.all_peer();
    let peers = common(asking, all);
    let class = facts_of(t.heads, t.used, h).class;
    let sent = send_nacks(t, sends, out, h, peers, class, reason, name, prefix, fresh);
    let noted = note_requests(t, h, rows, made, peers, Fate::Nacked);
    end_requests(heads, recs, *used, h, peers);
    let left = Leaving {
        names,
        heads,
        recs,
        numbers,
        used,
    };
    leave_if_idle(left, h, nonces, FNV_START, time);
    Came {
        answer: Answer::Done,
        sent,
        made: noted,
    }
}

// A Nack for an out-record of the entry of a handle.
fn mark(
    time: u64,
    faces: Faces,
    p: Marking,
    nonces: &mut Dead,
    sends: &mut Sends,
    out: &mut [u8],
    rows: &mut Rows,
    made: usize,
    h: Handle,
    face: usize,
    reason: u64,
    name: &[u8],
    prefix: bool,
    fresh: bool,
) -> Came
    requires name_fits { length name.now ≤ most_name }
    requires buffer_fits { least_buffer ≤ length out.old }
    ensures { (r : Routes) (s : Store) (e : Entry) → entry_at (marking_lent p).entry h ≡ some e
        → is_known name.now prefix fresh e ≡ true
        → After (λ n. nacked_entry n.time n (place_of (marking_lent p).entry h) (with_nack face reason e)) made result
        (memory (still time) (still faces) (still r) (marking_lent p) (still s) (lent nonces))
        (output (lent sends) (lent out) (lent rows)) }
{
    let Marking {
        names,
        heads,
        recs,
        numbers,
        used,
    } = p;
    mark_nacked(heads, recs, *used, h, face, reason);
    let t = Shown {
        names,
        heads,
        recs,
        numbers,
        used: *used,
    };
    match all_nacked(t, h) {
        None => quiet(Answer::Done, made),
        Some(least) => {
            let least = (least % 256) as u8;
            let marked = Marking {
                names,
                heads,
                recs,
                numbers,
                used,
            };
            end_by_nack(
                time, faces, marked, nonces, sends, out, rows, made, h, least, name, prefix, fresh,
            )
        }
    }
}

// A Nack that came in on a face: "STALE_NACK exactly when the face is not point-to-point, or has no out-record with this nonce in that
// entry."
fn take(
    time: u64,
    faces: Faces,
    p: Marking,
    nonces: &mut Dead,
    sends: &mut Sends,
    out: &mut [u8],
    rows: &mut Rows,
    made: usize,
    face: usize,
    reason: u64,
    name: &[u8],
    i: Interest,
) -> Came
    requires name_fits { length name.now ≤ most_name }
    requires buffer_fits { least_buffer ≤ length out.old }
    ensures { (r : Routes) (s : Store) (a : Ask) → a.name ≡ name.now
        → a.can_be_prefix ≡ i.can_be_prefix → a.must_be_fresh ≡ i.must_be_fresh
        → a.nonce ≡ i.nonce
        → After (λ n. nack_step n.time n face reason a) made result
        (memory (still time) (still faces) (still r) (marking_lent p) (still s) (lent nonces))
        (output (lent sends) (lent out) (lent rows)) }
{
    if is_out_of_scope(faces, face, name) {
        return quiet(Answer::Scope, made);
    }
    if !faces.is_peer(face) {
        return quiet(Answer::StaleNack, made);
    }
    let prefix = i.can_be_prefix;
    let fresh = i.must_be_fresh;
    let Marking {
        names,
        heads,
        recs,
        numbers,
        used,
    } = p;
    let t = Shown {
        names,
        heads,
        recs,
        numbers,
        used: *used,
    };
    let h = find(names, t.heads, numbers, t.used, name, prefix, fresh);
    if sent_nonce(t, h, face, i.nonce) {
        let found = Marking {
            names,
            heads,
            recs,
            numbers,
            used,
        };
        mark(
            time, faces, found, nonces, sends, out, rows, made, h, face, reason, name, prefix,
            fresh,
        )
    } else {
        quiet(Answer::StaleNack, made)
    }
}

// A Nack that came in on a face, past ageing.
pub fn nack(
    time: u64,
    faces: Faces,
    p: Marking,
    nonces: &mut Dead,
    sends: &mut Sends,
    out: &mut [u8],
    rows: &mut Rows,
    made: usize,
    face: usize,
    reason: u64,
    bare: &[u8],
    i: Interest,
) -> Came
    ensures { (r : Routes) (s : Store) → After (λ n. guarded (length out.old) (length bare.now) (length (name_of bare.now)) n
        (nack_step n.time n face reason (ask_found bare.now i))) made result
        (memory (still time) (still faces) (still r) (marking_lent p) (still s) (lent nonces))
        (output (lent sends) (lent out) (lent rows)) }
{
    let name = find_name(bare);
    if let Err(answer) = guard(time, out.len(), bare.len(), name.len()) {
        return quiet(answer, made);
    }
    take(
        time, faces, p, nonces, sends, out, rows, made, face, reason, name, i,
    )
}
