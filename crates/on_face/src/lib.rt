// The commands about faces, each a whole event: a face is opened or closed.
#![tactic(auto)]

ghost use Rattle.std.specs.Prelude.{◌≡◌, not};
ghost use Rattle.sizes.specs.Sizes.{most_faces};
ghost use Rattle.records.specs.Face.{is_face};
ghost use Rattle.faces.specs.Places.View.{view};
ghost use Rattle.rules.specs.Node as rules;
ghost use Rattle.routes.specs.declared.Routes.{Routes};
ghost use Rattle.store.specs.declared.Store.{Store};
ghost use Rattle.rows.specs.Lent.{lent, shown};
ghost use Rattle.event.specs.Memory.{memory, still, output};
ghost use Rattle.event.specs.Comes.{Stepped};
ghost use Rattle.pending_pass.specs.Lent.{ageing_lent};
ghost use Rattle.routes.specs.Lent.{dropping_lent};
ghost use Rattle.on_face.specs.Turns.{FacesBy, LinkFor};
ghost use Rattle.event.specs.Places.Begins.{answer_of};

use answers::Answer;
use dead::Dead;
use event::{Came, begins, is_not_open, quiet};
use faces::{Faces, Link};
use happenings::Rows;
use names::FNV_START;
use pending_pass::Ageing;
use routes::{Dropping, drop_face};
use sending::Sends;
use sizes::FACES;

// Whether a number is no face's.
#[tactic(auto, unfolding(records::specs::Face::is_face))]
fn is_no_face(face: usize) -> bool
    ensures { result ≡ not (is_face most_faces face) }
{
    !(1..=FACES).contains(&face)
}

// "link(0, 1, 2 as above)"; no other number is a link type.
#[tactic(auto, unfolding(faces::specs::Link::link_type, rules::specs::Command::link_of, laws::specs::Pick::pick))]
fn link_of(link: u64) -> Option<Link>
    ensures { LinkFor link result }
{
    match link {
        0 => Some(Link::PointToPoint),
        1 => Some(Link::MultiAccess),
        2 => Some(Link::AdHoc),
        _ => None,
    }
}

// A face is opened: 14, then 15.
fn opening(faces: &mut Faces, face: usize, scope: u64, link: u64) -> Result<(), Answer>
    ensures { FacesBy (rules.open_face face scope link) (view faces.old) (answer_of result) (view faces.new) }
{
    if faces.is_open(face) {
        return Err(Answer::FaceOpen);
    }
    if 1 < scope {
        return Err(Answer::BadSetting);
    }
    let kind = link_of(link).ok_or(Answer::BadSetting)?;
    *faces = faces.with_open(face, scope == 0, kind);
    Ok(())
}

// A face is opened.
pub fn open_face(
    last: &mut u64,
    faces: &mut Faces,
    p: Ageing,
    nonces: &mut Dead,
    sends: &Sends,
    out: &[u8],
    rows: &mut Rows,
    time: u64,
    face: usize,
    scope: u64,
    link: u64,
) -> Came
    ensures { (r : Routes) (s : Store) → Stepped time (rules.open_face face scope link) result
        (memory (lent last) (lent faces) (still r) (ageing_lent p) (still s) (lent nonces)) (output (shown sends) (shown out) (lent rows)) }
{
    let bad = is_no_face(face);
    match begins(last, p, nonces, sends, out, rows, time, bad) {
        Err(answer) => quiet(answer, 0),
        Ok(made) => {
            let then = opening(faces, face, scope, link);
            quiet(then.err().unwrap_or(Answer::Done), made)
        }
    }
}

// A face is closed: "Closing goes by entry, oldest opening first .. Its next hops go too".
pub fn close_face(
    last: &mut u64,
    faces: &mut Faces,
    known: Dropping,
    p: Ageing,
    nonces: &mut Dead,
    sends: &Sends,
    out: &[u8],
    rows: &mut Rows,
    time: u64,
    face: usize,
) -> Came
    ensures { (s : Store) → Stepped time (rules.close_face face) result
        (memory (lent last) (lent faces) (dropping_lent known) (ageing_lent p) (still s) (lent nonces))
        (output (shown sends) (shown out) (lent rows)) }
{
    let bad = is_not_open(*faces, face);
    let Dropping {
        prefixes: _,
        rows: routes,
        costs: _,
        count: _,
    } = known;
    let Ageing {
        names,
        heads,
        recs,
        numbers,
        used,
    } = p;
    let aged = Ageing {
        names,
        heads: &mut *heads,
        recs,
        numbers,
        used: &mut *used,
    };
    match begins(last, aged, nonces, sends, out, rows, time, bad) {
        Err(answer) => quiet(answer, 0),
        Ok(made) => {
            let closed = Ageing {
                names,
                heads,
                recs,
                numbers,
                used,
            };
            let noted = pending_pass::close_face(closed, nonces, rows, made, FNV_START, time, face);
            drop_face(routes, face);
            *faces = faces.with_closed(face);
            quiet(Answer::Done, noted)
        }
    }
}
