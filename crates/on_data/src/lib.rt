// A Data that came in, past ageing: "Store it, then end every request of the matched entries".
#![tactic(auto)]

ghost use Rattle.std.specs.Prelude.{◌≡◌, min, length};
ghost use Rattle.sizes.specs.Sizes.{most_freshness};
ghost use Rattle.packethead.specs.Name.{name_of};
ghost use Rattle.rules.specs.Data.{data_step};
ghost use Rattle.routes.specs.declared.Routes.{Routes};
ghost use Rattle.pending_pass.specs.Lent.{leaving_lent};
ghost use Rattle.rows.specs.Lent.{lent};
ghost use Rattle.event.specs.Memory.{memory, still, output};
ghost use Rattle.coming.specs.Goes.{After, guarded};
ghost use Rattle.coming.specs.Places.Found.{offer_found};
ghost use Rattle.on_data.specs.Places.Brings.{brings, Fits};

use answers::Answer;
use coming::{guard, is_out_of_scope};
use dead::Dead;
use event::{Came, quiet};
use faces::Faces;
use happenings::Rows;
use names::FNV_START;
use packethead::find_name;
use packets::Data;
use pending_pass::{Classes, Leaving, satisfy};
use pending_table::size;
use sending::{Sends, send_copies};
use sizes::{FACES, MOST_FRESHNESS};
use store::Store;

// Its freshness as it counts.
fn freshness_of(d: Data) -> u64
    ensures { result ≡ min d.freshness most_freshness }
{
    d.freshness.min(MOST_FRESHNESS)
}

// A Data of a name, past the checks of size and scope.
fn bring(
    time: u64,
    faces: Faces,
    p: Leaving,
    stored: &mut Store,
    nonces: &mut Dead,
    sends: &mut Sends,
    out: &mut [u8],
    rows: &mut Rows,
    made: usize,
    face: usize,
    name: &[u8],
    bare: &[u8],
    d: Data,
) -> Came
    requires { Fits name.now bare.now out.old }
    ensures { (r : Routes) → After (brings face (offer_found bare.now d) bare.now) made result
        (memory (still time) (still faces) (still r) (leaving_lent p) (lent stored) (lent nonces))
        (output (lent sends) (lent out) (lent rows)) }
{
    let Leaving {
        names,
        heads,
        recs,
        numbers,
        used,
    } = p;
    let stood = size(*used);
    let adhoc = faces.is_ad_hoc(face);
    let mut classes: Classes = [0; FACES];
    let t = Leaving {
        names,
        heads,
        recs,
        numbers,
        used: &mut *used,
    };
    let met = satisfy(
        t,
        nonces,
        rows,
        made,
        FNV_START,
        time,
        name,
        face,
        adhoc,
        &mut classes,
    );
    // Where as many entries stand as before, none matched.
    if size(*used) == stood {
        return quiet(Answer::Unsolicited, met.made);
    }
    stored.put(bare, time, freshness_of(d));
    Came {
        answer: Answer::Done,
        sent: send_copies(sends, out, met.copies, &classes, bare),
        made: met.made,
    }
}

// A Data that came in on a face, past ageing.
pub fn data(
    time: u64,
    faces: Faces,
    p: Leaving,
    stored: &mut Store,
    nonces: &mut Dead,
    sends: &mut Sends,
    out: &mut [u8],
    rows: &mut Rows,
    made: usize,
    face: usize,
    bare: &[u8],
    d: Data,
) -> Came
    ensures { (r : Routes) → After (λ n. guarded (length out.old) (length bare.now) (length (name_of bare.now)) n
        (data_step n.time n face (offer_found bare.now d) bare.now)) made result
        (memory (still time) (still faces) (still r) (leaving_lent p) (lent stored) (lent nonces))
        (output (lent sends) (lent out) (lent rows)) }
{
    let name = find_name(bare);
    if let Err(answer) = guard(time, out.len(), bare.len(), name.len()) {
        return quiet(answer, made);
    }
    if is_out_of_scope(faces, face, name) {
        return quiet(Answer::Scope, made);
    }
    bring(
        time, faces, p, stored, nonces, sends, out, rows, made, face, name, bare, d,
    )
}
