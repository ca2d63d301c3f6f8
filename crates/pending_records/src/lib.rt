// Questions and walks over what a pending entry keeps for each face, from the lowest face up: each walk goes by the trailing zeros of a set
// that gets smaller.
#![tactic(auto)]

ghost use Rattle.std.specs.Prelude.{◌≡◌, ◌&&◌, List, ℕ, ◌<◌, ◌≤◌, eqb};
ghost use Rattle.laws.specs.Lists.{any_of};
ghost use Rattle.laws.specs.Pick.{pick};
ghost use Rattle.names.specs.Fingerprint.{fingerprint};
ghost use Rattle.sizes.specs.Sizes.{most_faces};
ghost use Rattle.faces.specs.Set.{has_face, with_face, faces_where};
ghost use Rattle.faces.specs.Slots.{slots_of};
ghost use Rattle.faces.specs.Found.{face_in};
ghost use Rattle.records.specs.Slots.{given, held};
ghost use Rattle.records.specs.Entry.{aged_entry, has_nonce, is_suppressed, newest_of, earliest_of, lesser_reason};
ghost use Rattle.records.specs.Ageing.{buried_by};
ghost use Rattle.happenings.specs.Noted.{fate_in, Noted};
ghost use Rattle.pending_entry.specs.Places.View.{before, after};
ghost use Rattle.pending_records.specs.Operations.{overdue_faces, nacks_in, nacks_of, noted, noted_split, noted_one, Joins};
ghost use Rattle.records.specs.Closing.{own_line_by};
ghost use Rattle.rows.specs.Lent.{lent, shown};
ghost use Rattle.pending_records.specs.Places.Walk.{is_over, column_at, newest_in, sent_in};

use dead::Dead;
use faces::{Walk, add, common, has, less};
use happenings::{Fate, Rows, note_fate};
use names::fingerprint_from;
use pending_entry::{
    ASKING, CLASS, EXPIRY, Head, LENGTH, NACK, NONCE, Records, SENT, SENT_NONCE, SENT_TIME,
    reason_of,
};
use rows::part;
use sizes::NAME;

// "sent under 100 ms ago"
const RESEND: u64 = 100;

// The set with a face more, if the face's request is over: "A request lives while time < arrival + lifetime".
#[tactic(auto, unfolding(crate::specs::Places::Walk::is_over, laws::specs::Pick::pick))]
fn with_over(over: u64, recs: &Records, f: usize, time: u64) -> u64
    requires is_face { 1 ≤ f }
    requires face_within { f ≤ most_faces }
    ensures { result ≡ pick (is_over time recs.now f) (with_face most_faces over f) over }
{
    if time < recs[f - 1][EXPIRY] {
        over
    } else {
        add(over, f)
    }
}

// The faces of a set whose requests are over.
fn over_in(set: u64, recs: &Records, time: u64) -> u64
    ensures { result ≡ faces_where most_faces (λ f. has_face most_faces set f && is_over time recs.now f) }
{
    let mut over = 0;
    for f in Walk::of(set) {
        over = with_over(over, recs, f, time);
    }
    over
}

// The faces whose requests are over.
#[tactic(auto, using(crate::specs::Laws::Over::view_overdue))]
pub fn overdue(head: &Head, recs: &Records, time: u64) -> u64
    ensures { (nm : List ℕ) → result ≡ overdue_faces most_faces time (before nm (shown head) (shown recs)) }
{
    over_in(head[ASKING], recs, time)
}

// Ends the requests that are over; the set of their faces.
pub fn age(head: &mut Head, recs: &Records, time: u64) -> u64
    ensures aged { (nm : List ℕ) → after nm (lent head) (shown recs) ≡ aged_entry time (before nm (lent head) (shown recs)) }
    ensures overdue { (nm : List ℕ) → result ≡ overdue_faces most_faces time (before nm (lent head) (shown recs)) }
{
    let over = over_in(head[ASKING], recs, time);
    head[ASKING] = less(head[ASKING], over);
    over
}

// Whether a nonce stands in a column of the records of a set's faces.
fn column_has(set: u64, recs: &Records, column: usize, nonce: u64) -> bool
    requires { column < 5 }
    ensures { result ≡ any_of (λ h. eqb h.what nonce) (held (slots_of most_faces set (column_at recs.now column))) }
{
    Walk::of(set).any(|f| recs[f - 1][column] == nonce)
}

// Whether a nonce stands in some in-record or out-record.
#[tactic(auto, using(crate::specs::Laws::Nonce::view_nonce))]
pub fn has_nonce(head: &Head, recs: &Records, nonce: u64) -> bool
    ensures { (nm : List ℕ) → result ≡ has_nonce nonce (before nm (shown head) (shown recs)) }
{
    column_has(head[ASKING], recs, NONCE, nonce) || column_has(head[SENT], recs, SENT_NONCE, nonce)
}

// When the newest out-record of the faces of a set was sent.
fn newest_time(set: u64, recs: &Records) -> Option<u64>
    ensures { newest_in result ≡ newest_of (sent_in most_faces set recs.now) }
{
    Walk::of(set).map(|f| recs[f - 1][SENT_TIME]).max()
}

// "If the newest out-record was sent under 100 ms ago, send nothing."
pub fn is_suppressed(head: &Head, recs: &Records, time: u64) -> bool
    ensures { (nm : List ℕ) → result ≡ is_suppressed time (before nm (shown head) (shown recs)) }
{
    // A time still to come counts as now.
    newest_time(head[SENT], recs).is_some_and(|sent| time.saturating_sub(sent) < RESEND)
}

// The face of a set with the earliest out-record, "ties to the lower face", if one has one.
pub fn earliest(head: &Head, recs: &Records, set: u64) -> Option<usize>
    ensures { (nm : List ℕ) → face_in result ≡ earliest_of (has_face most_faces set) (before nm (shown head) (shown recs)) }
{
    Walk::of(common(head[SENT], set)).min_by_key(|f| recs[*f - 1][SENT_TIME])
}

// The smaller of two reasons that is not 0, or 0.
#[tactic(auto, unfolding(records::specs::Entry::lesser_reason, laws::specs::Pick::pick))]
fn lesser(a: u64, b: u64) -> u64
    ensures { result ≡ lesser_reason a b }
{
    match (a, b) {
        (0, _) => b,
        (_, 0) => a,
        _ => a.min(b),
    }
}

// Where all out-records are Nacked, "the smallest nonzero reason, or 0".
pub fn all_nacked(head: &Head, recs: &Records) -> Option<u64>
    ensures { (nm : List ℕ) → nacks_in result ≡ nacks_of (before nm (shown head) (shown recs)) }
{
    let mut reason = 0;
    for f in Walk::of(head[SENT]) {
        // A word that is 0 is no Nack's, any other the reason and 1.
        let nacked = recs[f - 1][NACK].checked_sub(1)?;
        reason = lesser(reason, reason_of(nacked));
    }
    Some(reason)
}

// The entry leaves: "the fingerprint of its name with each out-record's nonce, by face, joins the dead nonce list with the time now". The
// fingerprint begins at `start`.
pub fn bury(
    name: &[u8; NAME],
    head: &Head,
    recs: &Records,
    nonces: &mut Dead,
    start: u64,
    time: u64,
)
    ensures { Joins nonces.old nonces.new (buried_by (fingerprint start) time (before name.now (shown head) (shown recs))) }
{
    let own = part(name, head[LENGTH]);
    for f in Walk::of(head[SENT]) {
        let print = fingerprint_from(start, own, recs[f - 1][SENT_NONCE]);
        nonces.join(print, time);
    }
}

// A face closes: "the face's out-record goes, its fingerprint joining the dead list".
#[tactic(auto, using(faces::specs::Laws::Set::has_face_lem))]
pub fn bury_face(
    name: &[u8; NAME],
    head: &Head,
    recs: &Records,
    nonces: &mut Dead,
    start: u64,
    time: u64,
    face: usize,
)
    ensures { Joins nonces.old nonces.new (own_line_by (fingerprint start) time face (before name.now (shown head) (shown recs))) }
{
    if has(head[SENT], face) {
        let own = part(name, head[LENGTH]);
        let print = fingerprint_from(start, own, recs[face - 1][SENT_NONCE]);
        nonces.join(print, time);
    }
}

// Notes what became of the requests of the entry on the faces of a set, the lowest face first: `own` for the faces of a set `special`,
// `fate` for the others.
pub fn note_by_face(
    head: &Head,
    recs: &Records,
    rows: &mut Rows,
    at: usize,
    set: u64,
    special: u64,
    own: Fate,
    fate: Fate,
) -> usize
    ensures { (nm : List ℕ) (t : ℕ) → Noted (lent rows) result at
        (noted_split most_faces set special own fate t (before nm (shown head) (shown recs))) }
{
    let mut next = at;
    for f in Walk::of(common(head[ASKING], set)) {
        let told = if has(special, f) { own } else { fate };
        let row = &recs[f - 1];
        next = note_fate(rows, next, f, head[CLASS], told, row[NONCE], row[EXPIRY]);
    }
    next
}

// Notes what became of the requests of the entry on the faces of a set, the lowest face first, all with one fate.
pub fn note_requests(
    head: &Head,
    recs: &Records,
    rows: &mut Rows,
    at: usize,
    set: u64,
    fate: Fate,
) -> usize
    ensures { (nm : List ℕ) (t : ℕ) → Noted (lent rows) result at
        (noted (fate_in fate) t (has_face most_faces set) (before nm (shown head) (shown recs))) }
{
    note_by_face(head, recs, rows, at, set, 0, fate, fate)
}

// Notes what became of a face's request, if it has one.
#[tactic(auto, using(faces::specs::Laws::Set::has_face_lem))]
pub fn note_face(
    head: &Head,
    recs: &Records,
    rows: &mut Rows,
    at: usize,
    face: usize,
    fate: Fate,
) -> usize
    ensures { (nm : List ℕ) (t : ℕ) → Noted (lent rows) result at
        (noted_one (fate_in fate) t face (before nm (shown head) (shown recs))) }
{
    if has(head[ASKING], face) {
        let row = &recs[face - 1];
        note_fate(rows, at, face, head[CLASS], fate, row[NONCE], row[EXPIRY])
    } else {
        at
    }
}
