// What came in on a face, past ageing: the guard, the reader of the bare packet, and the kind that it found.
#![tactic(auto)]

ghost use Rattle.std.specs.Prelude.{length};
ghost use Rattle.rows.specs.Lent.{lent, shown};
ghost use Rattle.event.specs.Memory.{memory, still, output};
ghost use Rattle.coming.specs.Goes.{After};
ghost use Rattle.arriving.specs.Coming.{comes_in};
ghost use Rattle.routes.specs.Places.Parts.{known_routes};

use coming::guard;
use dead::Dead;
use event::{Came, quiet};
use faces::Faces;
use happenings::Rows;
use packets::{Packet, read_bare};
use pending_pass::{Leaving, Marking};
use pending_table::Pending;
use routes::Known;
use sending::Sends;
use store::Store;

// What came in on a face, past ageing: the Nack's reason or none, the header's mark, and the bare packet.
pub fn arrive(
    time: u64,
    faces: Faces,
    known: Known,
    p: &mut Pending,
    stored: &mut Store,
    nonces: &mut Dead,
    sends: &mut Sends,
    out: &mut [u8],
    rows: &mut Rows,
    made: usize,
    face: usize,
    nacked: Option<u64>,
    marked: bool,
    bare: &[u8],
) -> Came
    ensures { After (comes_in (length out.old) nacked marked bare.now face) made result
        (memory (still time) (still faces) (still (known_routes known.entry)) (lent p) (lent stored) (lent nonces))
        (output (lent sends) (lent out) (lent rows)) }
{
    // A name over its size is the reader's to refuse.
    if let Err(answer) = guard(time, out.len(), bare.len(), 0) {
        return quiet(answer, made);
    }
    match read_bare(bare, nacked, marked) {
        Err(answer) => quiet(answer, made),
        Ok(Packet::Interest(i)) => on_interest::interest(
            time, faces, known, p, stored, nonces, sends, out, rows, made, face, bare, i,
        ),
        Ok(Packet::Data(d)) => {
            let left = Leaving {
                names: &p.names,
                heads: &p.heads,
                recs: &p.recs,
                numbers: &p.numbers,
                used: &mut p.used,
            };
            on_data::data(
                time, faces, left, stored, nonces, sends, out, rows, made, face, bare, d,
            )
        }
        Ok(Packet::Nack(reason, i)) => {
            let marked = Marking {
                names: &p.names,
                heads: &mut p.heads,
                recs: &mut p.recs,
                numbers: &p.numbers,
                used: &mut p.used,
            };
            on_nack::nack(
                time, faces, marked, nonces, sends, out, rows, made, face, reason, bare, i,
            )
        }
    }
}
