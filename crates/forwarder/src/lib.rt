// A packet that comes in on a face: how the event begins, its header, and what stands in it.
#![tactic(auto)]

ghost use Rattle.std.specs.Prelude.{length};
ghost use Rattle.rules.specs.Node as rules;
ghost use Rattle.rows.specs.Lent.{lent, shown};
ghost use Rattle.event.specs.Memory.{memory, still, output};
ghost use Rattle.event.specs.Comes.{Stepped};
ghost use Rattle.coming.specs.Goes.{After};
ghost use Rattle.forwarder.specs.Places.Read.{read_in};
ghost use Rattle.routes.specs.Places.Parts.{known_routes};

use arriving::arrive;
use dead::Dead;
use event::{Came, begins, is_not_open, quiet};
use faces::Faces;
use happenings::Rows;
use packethead::read_header;
use pending_pass::Ageing;
use pending_table::Pending;
use routes::Known;
use sending::Sends;
use store::Store;

// A packet on a face, past ageing: its header is refused, or what stands in it comes in.
fn read(
    time: u64,
    faces: Faces,
    known: Known,
    p: &mut Pending,
    stored: &mut Store,
    nonces: &mut Dead,
    sends: &mut Sends,
    out: &mut [u8],
    rows: &mut Rows,
    made: usize,
    face: usize,
    bytes: &[u8],
) -> Came
    ensures { After (read_in (length out.old) face bytes.now) made result
        (memory (still time) (still faces) (still (known_routes known.entry)) (lent p) (lent stored) (lent nonces))
        (output (lent sends) (lent out) (lent rows)) }
{
    match read_header(bytes) {
        Err(answer) => quiet(answer, made),
        Ok(h) => {
            let bare = &bytes[h.from..h.from + h.len];
            arrive(
                time, faces, known, p, stored, nonces, sends, out, rows, made, face, h.nack,
                h.marked, bare,
            )
        }
    }
}

// A packet comes in on a face.
pub fn packet(
    last: &mut u64,
    faces: Faces,
    known: Known,
    p: &mut Pending,
    stored: &mut Store,
    nonces: &mut Dead,
    sends: &mut Sends,
    out: &mut [u8],
    rows: &mut Rows,
    time: u64,
    face: usize,
    bytes: &[u8],
) -> Came
    ensures { Stepped time (rules.packet face bytes.now) result
        (memory (lent last) (still faces) (still (known_routes known.entry)) (lent p) (lent stored) (lent nonces))
        (output (lent sends) (lent out) (lent rows)) }
{
    let bad = is_not_open(faces, face);
    let aged = Ageing {
        names: &p.names,
        heads: &mut p.heads,
        recs: &p.recs,
        numbers: &p.numbers,
        used: &mut p.used,
    };
    match begins(last, aged, nonces, sends, out, rows, time, bad) {
        Err(answer) => quiet(answer, 0),
        Ok(made) => read(
            *last, faces, known, p, stored, nonces, sends, out, rows, made, face, bytes,
        ),
    }
}
