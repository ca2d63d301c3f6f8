// An event's sends: rows of face, kind, class, place and length, and the packets in the output buffer.
// A function `put_..` takes one send more; a function `send_..` takes all that an event sends.
#![tactic(auto)]

ghost use Rattle.std.specs.Prelude.{◌≡◌, ◌<◌, set};
ghost use Rattle.sizes.specs.Sizes.{most_faces};
ghost use Rattle.records.specs.Class.{class_of, class_number};
ghost use Rattle.records.specs.Route.{longest};
ghost use Rattle.faces.specs.Set.{has_face};
ghost use Rattle.faces.specs.Places.View.{view};
ghost use Rattle.routes.specs.Places.View as known;
ghost use Rattle.routes.specs.Places.Parts.{known_routes};
ghost use Rattle.rules.specs.Outcome.{interest, dat, nack, kind_number, route_class};
ghost use Rattle.packets.specs.Places.View.{lowered};
ghost use Rattle.writing.specs.Written.{nack_bytes};
ghost use Rattle.rows.specs.Lent.{lent};
ghost use Rattle.sending.specs.Rows.{if_room, put, copies_from};
ghost use Rattle.sending.specs.Places.Sheet.{kind_of, note_of, sheet, PacksIn, only_send, nack_sends};
ghost use Rattle.sending.specs.Places.Copies.{NotesCopies};

use faces::{Faces, Walk, lowest};
use packets::HopLimit;
use routes::Known;
use sizes::FACES;
use writing::{Request, write_data, write_interest, write_nack};

// Face, kind, class word, place and length of each send, lent by the caller: rows of numbers, as `send_row` has them.
pub type Sends = [[u64; 5]; FACES];

// "kind (1 Interest, 2 Data, 3 Nack)"
#[derive(Clone, Copy)]
enum Kind {
    Interest = 1,
    Data = 2,
    Nack = 3,
}

// "1 alarm, 2 monitoring, 3 bulk"
const BULK: u64 = 3;

// How many sends there are, and where the next packet is written.
#[derive(Clone, Copy)]
pub struct Sent {
    pub count: usize,
    pub at: usize,
}

// The row of a send.
fn note(sends: &mut Sends, row: usize, face: usize, kind: Kind, class: u64, at: usize, len: usize)
    requires { row < most_faces }
    ensures { sends.new ≡ set sends.old row (note_of face (kind_number (kind_of kind)) class at len) }
{
    sends[row] = [face as u64, kind as u64, class, at as u64, len as u64];
}

// A Nack more, where there is a row and room for it; else nothing changes.
pub fn put_nack(
    sends: &mut Sends,
    out: &mut [u8],
    sent: Sent,
    face: usize,
    class: u64,
    reason: u8,
    request: Request,
) -> Sent
    ensures { sheet result sends.exit out.exit
        ≡ put (record {
          face = face;
          kind = nack;
          cls = class_of class;
          bytes = nack_bytes reason request.entry.name.now request.entry.prefix request.entry.fresh request.entry.nonce;
        })
        (sheet sent sends.entry out.entry) }
{
    let Sent { count, at } = sent;
    if FACES <= count {
        return sent;
    }
    let Some(end) = write_nack(out, at, reason, request) else {
        return sent;
    };
    note(sends, count, face, Kind::Nack, class, at, end - at);
    Sent {
        count: count + 1,
        at: end,
    }
}

// The one Nack of an event, where there is room.
pub fn send_nack(
    sends: &mut Sends,
    out: &mut [u8],
    face: usize,
    class: u64,
    reason: u8,
    request: Request,
) -> usize
    ensures { PacksIn (lent sends) (lent out) result (only_send (lent out)
        (record {
          face = face;
          kind = nack;
          cls = class_of class;
          bytes = nack_bytes reason request.entry.name.now request.entry.prefix request.entry.fresh request.entry.nonce;
        })) }
{
    let none = Sent { count: 0, at: 0 };
    put_nack(sends, out, none, face, class, reason, request).count
}

// The one Interest of an event, where there is room: it leaves as it came, HopLimit one lower.
pub fn send_interest(
    sends: &mut Sends,
    out: &mut [u8],
    face: usize,
    class: u64,
    bare: &[u8],
    hop: Option<HopLimit>,
) -> usize
    ensures { PacksIn (lent sends) (lent out) result
        (only_send (lent out) (record { face = face; kind = interest; cls = class_of class; bytes = lowered bare.now hop })) }
{
    let Some(len) = write_interest(out, 0, bare, hop) else {
        return 0;
    };
    note(sends, 0, face, Kind::Interest, class, 0, len);
    1
}

// The one Data of an event, for one face, where there is room.
pub fn send_data(sends: &mut Sends, out: &mut [u8], face: usize, class: u64, bare: &[u8]) -> usize
    ensures { PacksIn (lent sends) (lent out) result
        (only_send (lent out) (record { face = face; kind = dat; cls = class_of class; bytes = bare.now })) }
{
    let Some(len) = write_data(out, 0, bare) else {
        return 0;
    };
    note(sends, 0, face, Kind::Data, class, 0, len);
    1
}

// The rows of a Data's copies, by ascending face; the Data stands at the buffer's start.
fn note_copies(sends: &mut Sends, set: u64, classes: &[u64; FACES], len: usize) -> usize
    ensures { NotesCopies most_faces set len classes.now sends.old sends.new result }
{
    let mut count: usize = 0;
    for face in Walk::of(set) {
        note(sends, count, face, Kind::Data, classes[face - 1], 0, len);
        count += 1;
    }
    count
}

// "a Data is written once for all its faces": a copy for each face of a set, by ascending face, each with the class word for its face,
// where there is room.
pub fn send_copies(
    sends: &mut Sends,
    out: &mut [u8],
    set: u64,
    classes: &[u64; FACES],
    bare: &[u8],
) -> usize
    ensures { PacksIn (lent sends) (lent out) result (if_room bare.now out.old
        (copies_from (has_face most_faces set) classes.now bare.now 1 most_faces)) }
{
    if FACES < lowest(set) {
        return 0;
    }
    match write_data(out, 0, bare) {
        None => 0,
        Some(len) => note_copies(sends, set, classes, len),
    }
}

// The class word of the longest route for a name, "or 3 if there is none".
pub fn class_for(routes: Known, name: &[u8]) -> u64
    ensures { result ≡ class_number (route_class (longest name.now (known.view (known_routes routes.entry)))) }
{
    match routes.longest(name) {
        Some(route) => routes.class_of(route),
        None => BULK,
    }
}

// The Nack of a refused Interest: "Nacks go only to point-to-point faces."
pub fn refuse(
    routes: Known,
    faces: Faces,
    sends: &mut Sends,
    out: &mut [u8],
    face: usize,
    reason: u8,
    request: Request,
) -> usize
    ensures { PacksIn (lent sends) (lent out) result
        (if_room (nack_bytes reason request.entry.name.now request.entry.prefix request.entry.fresh request.entry.nonce) out.old
        (nack_sends (view faces) (known.view (known_routes routes.entry)) face reason request.entry.name.now
        request.entry.prefix request.entry.fresh request.entry.nonce)) }
{
    if faces.is_peer(face) {
        let class = class_for(routes, request.name);
        send_nack(sends, out, face, class, reason, request)
    } else {
        0
    }
}
