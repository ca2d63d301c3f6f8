// What the entry of a handle keeps for each face: the functions of one entry at a handle. A handle of no entry changes nothing and has
// nothing.
#![tactic(auto, using(crate::specs::Laws::Held::held, crate::specs::Laws::Parts::parts))]

ghost use Rattle.std.specs.Prelude.{◌≡◌, true, false, List, [], map, ℕ};
ghost use Rattle.std.proofs.Math.Option.{none};
ghost use Rattle.laws.specs.Lists.{on_at};
ghost use Rattle.names.specs.Fingerprint.{fingerprint};
ghost use Rattle.sizes.specs.Sizes.{most_faces};
ghost use Rattle.faces.specs.Set.{has_face};
ghost use Rattle.faces.specs.Found.{face_in};
ghost use Rattle.records.specs.Slots.{slot, given};
ghost use Rattle.records.specs.Entry.{asking, ending, sending, not_sent, with_nack, is_idle, aged_entry, has_nonce, own_nonce, sent_nonce};
ghost use Rattle.records.specs.Entry.{is_suppressed, earliest_of};
ghost use Rattle.records.specs.Ageing.{buried_by};
ghost use Rattle.happenings.specs.Noted.{fate_in, Noted};
ghost use Rattle.pending_entry.specs.Operations.{request_in, asking_faces, sent_faces, unsent_of};
ghost use Rattle.pending_entry.specs.Places.View as entry;
ghost use Rattle.pending_records.specs.Operations.{overdue_faces, nacks_in, nacks_of, noted, noted_by, fate_by, noted_one, Joins};
ghost use Rattle.records.specs.Closing.{own_line_by};
ghost use Rattle.rows.specs.Lent.{lent};
ghost use Rattle.pending_table.specs.Places.View.{view, place_of, marks_of, entry_at};
ghost use Rattle.pending_table.specs.Places.Parts.{table, seen};
ghost use Rattle.pending_handle.specs.Operations.{is_due};

use dead::Dead;
use happenings::{Fate, Rows};
use pending_entry::{Asked, Head};
use pending_order::{RowWalk, kept};
use pending_table::{Chosen, Handle, Heads, Records, Shown, row_of};

// "open this face's request, or renew it with the new nonce and expiry"
pub fn renew(
    heads: &mut Heads,
    recs: &mut Records,
    used: u64,
    h: Handle,
    face: usize,
    nonce: u64,
    expiry: u64,
)
    ensures { (n : List (List ℕ)) (k : List ℕ) → view (table n heads.new recs.new k used)
        ≡ on_at (place_of (table n heads.old recs.old k used) h) (asking face (record { nonce = nonce; expiry = expiry }))
        (view (table n heads.old recs.old k used)) }
{
    if let Some(row) = row_of(used, h) {
        pending_entry::renew(&mut heads[row], &mut recs[row], face, nonce, expiry);
    }
}

// Ends the requests of the faces of a set, all at once.
pub fn end_requests(heads: &mut Heads, recs: &Records, used: u64, h: Handle, set: u64)
    ensures { (n : List (List ℕ)) (k : List ℕ) → view (table n heads.new recs.now k used)
        ≡ on_at (place_of (table n heads.old recs.now k used) h) (ending (has_face most_faces set))
        (view (table n heads.old recs.now k used)) }
{
    if let Some(row) = row_of(used, h) {
        pending_entry::end_requests(&mut heads[row], &recs[row], set);
    }
}

// "A send sets the out-record anew, its Nack reason cleared."
pub fn send(
    heads: &mut Heads,
    recs: &mut Records,
    used: u64,
    h: Handle,
    face: usize,
    nonce: u64,
    time: u64,
)
    ensures { (n : List (List ℕ)) (k : List ℕ) → view (table n heads.new recs.new k used)
        ≡ on_at (place_of (table n heads.old recs.old k used) h)
        (sending face (record { nonce = nonce; time = time; nacked = none })) (view (table n heads.old recs.old k used)) }
{
    if let Some(row) = row_of(used, h) {
        pending_entry::send(&mut heads[row], &mut recs[row], face, nonce, time);
    }
}

// Takes a face's out-record out.
pub fn end_sent(heads: &mut Heads, recs: &Records, used: u64, h: Handle, face: usize)
    ensures { (n : List (List ℕ)) (k : List ℕ) → view (table n heads.new recs.now k used)
        ≡ on_at (place_of (table n heads.old recs.now k used) h) (not_sent face) (view (table n heads.old recs.now k used)) }
{
    if let Some(row) = row_of(used, h) {
        pending_entry::end_sent(&mut heads[row], &recs[row], face);
    }
}

// "Reasons other than 50, 100, 150 become 0, still Nacked.": marks a face's out-record.
pub fn mark_nacked(
    heads: &Heads,
    recs: &mut Records,
    used: u64,
    h: Handle,
    face: usize,
    reason: u64,
)
    ensures { (n : List (List ℕ)) (k : List ℕ) → view (table n heads.now recs.new k used)
        ≡ on_at (place_of (table n heads.now recs.old k used) h) (with_nack face reason) (view (table n heads.now recs.old k used)) }
{
    if let Some(row) = row_of(used, h) {
        pending_entry::mark_nacked(&heads[row], &mut recs[row], face, reason);
    }
}

// Ends the requests that are over; the set of their faces.
pub fn age(heads: &mut Heads, recs: &Records, used: u64, h: Handle, time: u64) -> u64
    ensures aged { (n : List (List ℕ)) (k : List ℕ) → view (table n heads.new recs.now k used)
        ≡ on_at (place_of (table n heads.old recs.now k used) h) (aged_entry time) (view (table n heads.old recs.now k used)) }
    ensures overdue { (n : List (List ℕ)) (k : List ℕ)
        → result ≡ given 0 (overdue_faces most_faces time) (entry_at (table n heads.old recs.now k used) h) }
{
    match row_of(used, h) {
        Some(row) => pending_records::age(&mut heads[row], &recs[row], time),
        None => 0,
    }
}

// The faces with a request.
pub fn asking_faces(t: Shown, h: Handle) -> u64
    ensures { result ≡ given 0 (asking_faces most_faces) (entry_at (seen t.entry) h) }
{
    match row_of(t.used, h) {
        Some(row) => pending_entry::asking_faces(&t.heads[row], &t.recs[row]),
        None => 0,
    }
}

// The faces with an out-record.
pub fn sent_faces(t: Shown, h: Handle) -> u64
    ensures { result ≡ given 0 (sent_faces most_faces) (entry_at (seen t.entry) h) }
{
    match row_of(t.used, h) {
        Some(row) => pending_entry::sent_faces(&t.heads[row], &t.recs[row]),
        None => 0,
    }
}

// "without an out-record": those faces of a set.
pub fn unsent(t: Shown, h: Handle, set: u64) -> u64
    ensures { result ≡ given 0 (unsent_of most_faces set) (entry_at (seen t.entry) h) }
{
    match row_of(t.used, h) {
        Some(row) => pending_entry::unsent(&t.heads[row], &t.recs[row], set),
        None => 0,
    }
}

// Whether the entry has no requests; a handle of no entry has none.
pub fn is_idle(t: Shown, h: Handle) -> bool
    ensures { result ≡ given true is_idle (entry_at (seen t.entry) h) }
{
    match row_of(t.used, h) {
        Some(row) => pending_entry::is_idle(&t.heads[row], &t.recs[row]),
        None => true,
    }
}

// "its own in-record has this nonce"
pub fn own_nonce(t: Shown, h: Handle, face: usize, nonce: u64) -> bool
    ensures { result ≡ given false (own_nonce face nonce) (entry_at (seen t.entry) h) }
{
    match row_of(t.used, h) {
        Some(row) => pending_entry::own_nonce(&t.heads[row], &t.recs[row], face, nonce),
        None => false,
    }
}

// Whether a face has an "out-record with this nonce".
pub fn sent_nonce(t: Shown, h: Handle, face: usize, nonce: u64) -> bool
    ensures { result ≡ given false (sent_nonce face nonce) (entry_at (seen t.entry) h) }
{
    match row_of(t.used, h) {
        Some(row) => pending_entry::sent_nonce(&t.heads[row], &t.recs[row], face, nonce),
        None => false,
    }
}

// A face's request, if it has one.
pub fn request_of(t: Shown, h: Handle, face: usize) -> Option<Asked>
    ensures { request_in result ≡ given none (λ e. slot face e.requests) (entry_at (seen t.entry) h) }
{
    match row_of(t.used, h) {
        Some(row) => pending_entry::request_of(&t.heads[row], &t.recs[row], face),
        None => None,
    }
}

// The faces whose requests are over.
pub fn overdue(t: Shown, h: Handle, time: u64) -> u64
    ensures { result ≡ given 0 (overdue_faces most_faces time) (entry_at (seen t.entry) h) }
{
    match row_of(t.used, h) {
        Some(row) => pending_records::overdue(&t.heads[row], &t.recs[row], time),
        None => 0,
    }
}

// Whether a nonce stands in some in-record or out-record.
pub fn has_nonce(t: Shown, h: Handle, nonce: u64) -> bool
    ensures { result ≡ given false (has_nonce nonce) (entry_at (seen t.entry) h) }
{
    match row_of(t.used, h) {
        Some(row) => pending_records::has_nonce(&t.heads[row], &t.recs[row], nonce),
        None => false,
    }
}

// "If the newest out-record was sent under 100 ms ago, send nothing."
pub fn is_suppressed(t: Shown, h: Handle, time: u64) -> bool
    ensures { result ≡ given false (is_suppressed time) (entry_at (seen t.entry) h) }
{
    match row_of(t.used, h) {
        Some(row) => pending_records::is_suppressed(&t.heads[row], &t.recs[row], time),
        None => false,
    }
}

// Of the faces of a set that "with the earliest one, ties to the lower face", if there is one.
pub fn earliest(t: Shown, h: Handle, set: u64) -> Option<usize>
    ensures { face_in result ≡ given none (earliest_of (has_face most_faces set)) (entry_at (seen t.entry) h) }
{
    match row_of(t.used, h) {
        Some(row) => pending_records::earliest(&t.heads[row], &t.recs[row], set),
        None => None,
    }
}

// Whether all out-records are Nacked, and then "the smallest nonzero reason, or 0".
pub fn all_nacked(t: Shown, h: Handle) -> Option<u64>
    ensures { nacks_in result ≡ given none nacks_of (entry_at (seen t.entry) h) }
{
    match row_of(t.used, h) {
        Some(row) => pending_records::all_nacked(&t.heads[row], &t.recs[row]),
        None => None,
    }
}

// "the fingerprint of its name with each out-record's nonce, by face, joins the dead nonce list with the time now"
pub fn bury(t: Shown, h: Handle, nonces: &mut Dead, start: u64, time: u64)
    ensures { Joins nonces.old nonces.new (given [] (buried_by (fingerprint start) time) (entry_at (seen t.entry) h)) }
{
    if let Some(row) = row_of(t.used, h) {
        pending_records::bury(
            &t.names[row],
            &t.heads[row],
            &t.recs[row],
            nonces,
            start,
            time,
        );
    }
}

// "the face's out-record goes, its fingerprint joining the dead list": the line of that one.
pub fn bury_face(t: Shown, h: Handle, nonces: &mut Dead, start: u64, time: u64, face: usize)
    ensures { Joins nonces.old nonces.new (given [] (own_line_by (fingerprint start) time face) (entry_at (seen t.entry) h)) }
{
    if let Some(row) = row_of(t.used, h) {
        pending_records::bury_face(
            &t.names[row],
            &t.heads[row],
            &t.recs[row],
            nonces,
            start,
            time,
            face,
        );
    }
}

// Notes a row for each request on the faces of a set, by face, with one fate.
pub fn note_requests(t: Shown, h: Handle, rows: &mut Rows, at: usize, set: u64, fate: Fate) -> usize
    ensures { (now : ℕ)
        → Noted (lent rows) result at (given [] (noted (fate_in fate) now (has_face most_faces set)) (entry_at (seen t.entry) h)) }
{
    match row_of(t.used, h) {
        Some(row) => pending_records::note_requests(
            &t.heads[row],
            &t.recs[row],
            rows,
            at,
            set,
            fate,
        ),
        None => at,
    }
}

// The same with one fate for the faces of `special`, and another for the others.
pub fn note_by_face(
    t: Shown,
    h: Handle,
    rows: &mut Rows,
    at: usize,
    set: u64,
    special: u64,
    own: Fate,
    fate: Fate,
) -> usize
    ensures { (now : ℕ)
        → Noted (lent rows) result at (given [] (noted_by (fate_by most_faces special own fate) now (has_face most_faces set))
        (entry_at (seen t.entry) h)) }
{
    match row_of(t.used, h) {
        Some(row) => pending_records::note_by_face(
            &t.heads[row],
            &t.recs[row],
            rows,
            at,
            set,
            special,
            own,
            fate,
        ),
        None => at,
    }
}

// Notes a row for a face's request, if it has one.
pub fn note_face(t: Shown, h: Handle, rows: &mut Rows, at: usize, face: usize, fate: Fate) -> usize
    ensures { (now : ℕ) → Noted (lent rows) result at (given [] (noted_one (fate_in fate) now face) (entry_at (seen t.entry) h)) }
{
    match row_of(t.used, h) {
        Some(row) => pending_records::note_face(&t.heads[row], &t.recs[row], rows, at, face, fate),
        None => at,
    }
}

// Whether ageing concerns an entry: it has no requests, or one that is over.
fn is_due(head: &Head, recs: &pending_entry::Records, time: u64) -> bool
    ensures { (nm : List ℕ) → result ≡ is_due time (entry.view nm head.now recs.now) }
{
    pending_entry::is_idle(head, recs) || pending_records::overdue(head, recs, time) != 0
}

// The choice of the entries that ageing concerns.
pub fn overdue_entries(t: Shown, time: u64) -> Chosen
    ensures { marks_of (seen t.entry) result ≡ map (is_due time) (view (seen t.entry)) }
{
    let mut rows = t.used;
    for row in RowWalk::of(t.used) {
        rows = kept(rows, row, is_due(&t.heads[row], &t.recs[row], time));
    }
    Chosen { rows }
}
