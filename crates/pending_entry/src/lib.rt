// One pending entry: its head, and for each face an in-record and an out-record. Which faces have one is a set each: no other mark of
// presence exists.
#![tactic(auto)]

ghost use Rattle.std.specs.Prelude.{◌≡◌, List, ℕ, ◌+◌, take};
ghost use Rattle.sizes.specs.Sizes.{most_faces};
ghost use Rattle.records.specs.Class.{class_of};
ghost use Rattle.records.specs.Face.{is_face};
ghost use Rattle.records.specs.Slots.{slot};
ghost use Rattle.records.specs.Entry.{asking, ending, sending, not_sent, with_nack, is_idle, reason_of, own_nonce, sent_nonce};
ghost use Rattle.rows.specs.Lent.{lent, shown};
ghost use Rattle.faces.specs.Set.{has_face};
ghost use Rattle.pending_entry.specs.Places.View.{view, before, after};
ghost use Rattle.pending_entry.specs.Operations.{bare_entry, request_with, sent_with, request_in, asking_faces, sent_faces, unsent_of};

use faces::{add, has, less, members, remove, size};
use sizes::FACES;

// The columns of the head: the name's length, CanBePrefix, MustBeFresh, the class word, the faces with an in-record and the faces with an
// out-record.
pub const LENGTH: usize = 0;

pub const PREFIX: usize = 1;

pub const FRESH: usize = 2;

pub const CLASS: usize = 3;

pub const ASKING: usize = 4;

pub const SENT: usize = 5;

// The columns of a face's records: nonce and expiry of its in-record, and nonce, time and Nack word of its out-record. The Nack word is 0,
// or the reason and 1.
pub const NONCE: usize = 0;

pub const EXPIRY: usize = 1;

pub const SENT_NONCE: usize = 2;

pub const SENT_TIME: usize = 3;

pub const NACK: usize = 4;

// The head of an entry.
pub type Head = [u64; 6];

// For each face its records.
pub type Records = [[u64; 5]; FACES];

// A face's request: its nonce and expiry.
#[derive(Clone, Copy, Debug, PartialEq, Eq)]
pub struct Asked {
    pub nonce: u64,
    pub expiry: u64,
}

// The head of an entry without records.
#[tactic(auto, using(crate::specs::Laws::Change::view_bare))]
pub fn bare(len: u64, prefix: bool, fresh: bool, class: u64) -> Head
    ensures { (nm : List ℕ) (t : List (List ℕ)) → view nm result t
        ≡ bare_entry most_faces (take len nm) prefix fresh (class_of class) }
{
    [len, u64::from(prefix), u64::from(fresh), class, 0, 0]
}

// Whether a number is a face's.
#[tactic(auto, unfolding(records::specs::Face::is_face))]
fn is_face(face: usize) -> bool
    ensures { result ≡ is_face most_faces face }
{
    (1..=FACES).contains(&face)
}

// "open this face's request, or renew it with the new nonce and expiry"
#[tactic(auto, using(crate::specs::Laws::Write::face_within, crate::specs::Laws::Change::view_asking_none))]
pub fn renew(head: &mut Head, recs: &mut Records, face: usize, nonce: u64, expiry: u64)
    ensures { (nm : List ℕ) → after nm (lent head) (lent recs) ≡ asking face (request_with nonce expiry) (before nm (lent head)
        (lent recs)) }
{
    if is_face(face) {
        head[ASKING] = add(head[ASKING], face);
        let own = &mut recs[face - 1];
        own[NONCE] = nonce;
        own[EXPIRY] = expiry;
    }
}

// Ends the requests of the faces of a set, all at once.
pub fn end_requests(head: &mut Head, recs: &Records, set: u64)
    ensures { (nm : List ℕ) → after nm (lent head) (shown recs)
        ≡ ending (has_face most_faces set) (before nm (lent head) (shown recs)) }
{
    head[ASKING] = less(head[ASKING], set);
}

// "A send sets the out-record anew, its Nack reason cleared."
#[tactic(auto, using(crate::specs::Laws::Write::face_within, crate::specs::Laws::Change::view_sending_none))]
pub fn send(head: &mut Head, recs: &mut Records, face: usize, nonce: u64, time: u64)
    ensures { (nm : List ℕ) → after nm (lent head) (lent recs)
        ≡ sending face (sent_with nonce time) (before nm (lent head) (lent recs)) }
{
    if is_face(face) {
        head[SENT] = add(head[SENT], face);
        let own = &mut recs[face - 1];
        own[SENT_NONCE] = nonce;
        own[SENT_TIME] = time;
        own[NACK] = 0;
    }
}

// Takes a face's out-record out.
pub fn end_sent(head: &mut Head, recs: &Records, face: usize)
    ensures { (nm : List ℕ) → after nm (lent head) (shown recs) ≡ not_sent face (before nm (lent head) (shown recs)) }
{
    head[SENT] = remove(head[SENT], face);
}

// "Reasons other than 50, 100, 150 become 0"
#[tactic(auto, unfolding(records::specs::Entry::reason_of, laws::specs::Pick::pick))]
pub fn reason_of(reason: u64) -> u64
    ensures { result ≡ reason_of reason }
{
    if matches!(reason, 50 | 100 | 150) {
        reason
    } else {
        0
    }
}

// The word of a Nack: the reason and 1.
#[tactic(auto, using(crate::specs::Laws::Change::reason_most))]
fn nack_word(reason: u64) -> u64
    ensures { result ≡ reason_of reason + 1 }
{
    reason_of(reason) + 1
}

// Marks a face's out-record as Nacked: "Reasons other than 50, 100, 150 become 0, still Nacked."
#[tactic(auto, using(faces::specs::Laws::Set::has_face_lem, crate::specs::Laws::Change::view_nacking_none))]
pub fn mark_nacked(head: &Head, recs: &mut Records, face: usize, reason: u64)
    ensures { (nm : List ℕ) → after nm (shown head) (lent recs) ≡ with_nack face reason (before nm (shown head) (lent recs)) }
{
    if has(head[SENT], face) {
        let own = &mut recs[face - 1];
        own[NACK] = nack_word(reason);
    }
}

// The faces with a request.
#[tactic(auto, using(crate::specs::Laws::Change::view_asking_faces))]
pub fn asking_faces(head: &Head, recs: &Records) -> u64
    ensures { (nm : List ℕ) → result ≡ asking_faces most_faces (before nm (shown head) (shown recs)) }
{
    members(head[ASKING])
}

// The faces with an out-record.
#[tactic(auto, using(crate::specs::Laws::Change::view_sent_faces))]
pub fn sent_faces(head: &Head, recs: &Records) -> u64
    ensures { (nm : List ℕ) → result ≡ sent_faces most_faces (before nm (shown head) (shown recs)) }
{
    members(head[SENT])
}

// The faces of a set without an out-record.
#[tactic(auto, using(crate::specs::Laws::Change::view_unsent))]
pub fn unsent(head: &Head, recs: &Records, set: u64) -> u64
    ensures { (nm : List ℕ) → result ≡ unsent_of most_faces set (before nm (shown head) (shown recs)) }
{
    less(set, head[SENT])
}

// Whether there are no requests: the size of their set is 0.
#[tactic(auto, using(crate::specs::Laws::Change::view_idle))]
pub fn is_idle(head: &Head, recs: &Records) -> bool
    ensures { (nm : List ℕ) → result ≡ is_idle (before nm (shown head) (shown recs)) }
{
    size(head[ASKING]) == 0
}

// Whether a face's own request has a nonce.
#[tactic(auto, using(faces::specs::Laws::Set::has_face_lem, crate::specs::Laws::Change::view_own_nonce))]
pub fn own_nonce(head: &Head, recs: &Records, face: usize, nonce: u64) -> bool
    ensures { (nm : List ℕ) → result ≡ own_nonce face nonce (before nm (shown head) (shown recs)) }
{
    has(head[ASKING], face) && recs[face - 1][NONCE] == nonce
}

// Whether a face has an out-record with a nonce.
#[tactic(auto, using(faces::specs::Laws::Set::has_face_lem, crate::specs::Laws::Change::view_sent_nonce))]
pub fn sent_nonce(head: &Head, recs: &Records, face: usize, nonce: u64) -> bool
    ensures { (nm : List ℕ) → result ≡ sent_nonce face nonce (before nm (shown head) (shown recs)) }
{
    has(head[SENT], face) && recs[face - 1][SENT_NONCE] == nonce
}

// A face's request, if there is one.
#[tactic(auto, using(faces::specs::Laws::Set::has_face_lem))]
pub fn request_of(head: &Head, recs: &Records, face: usize) -> Option<Asked>
    ensures { (nm : List ℕ) → request_in result ≡ slot face (before nm (shown head) (shown recs)).requests }
{
    if has(head[ASKING], face) {
        let own = &recs[face - 1];
        Some(Asked {
            nonce: own[NONCE],
            expiry: own[EXPIRY],
        })
    } else {
        None
    }
}
