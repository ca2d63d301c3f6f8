// One event's memory, the contract of any event, and how every event begins: checks 1, 2, 3 and ageing.
#![tactic(auto)]

ghost use Rattle.std.specs.Prelude.{◌≡◌, ◌≢◌, not, IfErr};
ghost use Rattle.sizes.specs.Sizes.{most_faces, least_buffer};
ghost use Rattle.answers.specs.Number.{number_of};
ghost use Rattle.records.specs.Face.{is_open};
ghost use Rattle.faces.specs.Places.View.{view};
ghost use Rattle.faces.specs.declared.Faces.{Faces};
ghost use Rattle.routes.specs.declared.Routes.{Routes};
ghost use Rattle.store.specs.declared.Store.{Store};
ghost use Rattle.pending_pass.specs.Lent.{ageing_lent};
ghost use Rattle.rules.specs.Node as rules;
ghost use Rattle.rows.specs.Lent.{lent, shown};
ghost use Rattle.event.specs.Memory.{node_of, small_of, memory, still, output};
ghost use Rattle.event.specs.declared.Memory.{Memory};
ghost use Rattle.event.specs.Comes.{Stepped, Begun};
ghost use Rattle.event.specs.Stays.{RowsStay};
ghost use Rattle.event.specs.Places.Begins.{allowed, refusal, began};

use answers::Answer;
use dead::Dead;
use faces::Faces;
use happenings::Rows;
use names::FNV_START;
use pending_pass::{Ageing, age};
use pending_table::Pending;
use routes::{Count, Routes};
use sending::Sends;
use sizes::{LEAST_BUFFER, MOST_TIME};
use store::Store;

// A node's memory: the last accepted time, the faces, and the tables.
#[derive(Clone, Copy)]
pub struct Memory {
    pub time: u64,
    pub faces: Faces,
    pub routes: Routes,
    pub pending: Pending,
    pub store: Store,
    pub dead: Dead,
}

// What of a memory is no row: the last accepted time, the faces, how many routes there are, the rows of the pending table that are used,
// and how many Data and dead nonces there are.
#[derive(Clone, Copy)]
pub struct Small {
    pub time: u64,
    pub faces: Faces,
    pub routes: Count,
    pub pending: u64,
    pub store: usize,
    pub dead: usize,
}

// What an event comes to: the answer, how many sends there are, and how many happenings.
#[derive(Clone, Copy, Debug, PartialEq, Eq)]
pub struct Came {
    pub answer: Answer,
    pub sent: usize,
    pub made: usize,
}

impl Small {
    // That of an empty node, whatever the rows of its memory hold.
    pub fn none() -> Small
        ensures { (m : Memory) → small_of m ≡ result → node_of m ≡ rules.empty_node most_faces }
    {
        let time = 0;
        Small {
            time,
            faces: Faces::none(),
            routes: Count::none(),
            pending: pending_table::none(),
            store: store::none(),
            dead: dead::none(),
        }
    }
}

impl Memory {
    // The memory of an empty node.
    pub fn new() -> Memory
        ensures { node_of result ≡ rules.empty_node most_faces }
    {
        Memory {
            time: 0,
            faces: Faces::none(),
            routes: Routes::new(),
            pending: Pending::new(),
            store: Store::new(),
            dead: Dead::new(),
        }
    }
}

// An empty node, whatever the memory holds.
pub fn clear(m: &mut Memory)
    ensures cleared { node_of m.new ≡ rules.empty_node most_faces }
    ensures rows { RowsStay (lent m) }
{
    m.time = 0;
    m.faces = Faces::none();
    m.routes.clear();
    m.pending.clear();
    m.store.clear();
    m.dead.clear();
}

// An answer with nothing sent.
pub fn quiet(answer: Answer, made: usize) -> Came
    ensures { result ≡ record { answer = answer; sent = 0; made = made } }
{
    Came {
        answer,
        sent: 0,
        made,
    }
}

// "number not 1..16; or not open": whether a number is not that of an open face.
pub fn is_not_open(faces: Faces, face: usize) -> bool
    ensures { result ≡ not (is_open (view faces) face) }
{
    !faces.is_open(face)
}

// Checks 1, 2 and 3, in this order, where `bad` says that the face is refused: the answer of the first that refuses.
fn check(last: u64, time: u64, room: usize, bad: bool) -> Result<(), Answer>
    ensures { result ≡ allowed (refusal least_buffer time room bad last) }
{
    if time < last || MOST_TIME < time {
        return Err(Answer::Clock);
    }
    if room < LEAST_BUFFER {
        return Err(Answer::SmallBuffer);
    }
    if bad {
        return Err(Answer::BadFace);
    }
    Ok(())
}

// How every event begins: checks 1, 2 and 3, where `bad` says that the face is refused, and then "Every other answer first moves the last
// time and ages the tables". The answer of a refusal, or how many happenings are noted. Whatever the faces, the routes and the store are.
pub fn begins(
    last: &mut u64,
    p: Ageing,
    nonces: &mut Dead,
    sends: &Sends,
    out: &[u8],
    rows: &mut Rows,
    time: u64,
    bad: bool,
) -> Result<usize, Answer>
    ensures begun { (f : Faces) (r : Routes) (s : Store) → Begun time bad (began result)
        (memory (lent last) (still f) (still r) (ageing_lent p) (still s) (lent nonces)) (output (shown sends) (shown out) (lent rows)) }
    ensures refused { IfErr result (λ a. number_of a ≢ 0) }
    ensures kept { IfErr result (λ _. (last.new ≡ last.old) × ((ageing_lent p).exit ≡ (ageing_lent p).entry)
        × (nonces.new ≡ nonces.old)) }
{
    check(*last, time, out.len(), bad)?;
    *last = time;
    Ok(age(p, nonces, rows, FNV_START, time))
}

// The clock is read.
pub fn clock(
    last: &mut u64,
    p: Ageing,
    nonces: &mut Dead,
    sends: &Sends,
    out: &[u8],
    rows: &mut Rows,
    time: u64,
) -> Came
    ensures { (f : Faces) (r : Routes) (s : Store) → Stepped time rules.clock result
        (memory (lent last) (still f) (still r) (ageing_lent p) (still s) (lent nonces)) (output (shown sends) (shown out) (lent rows)) }
{
    match begins(last, p, nonces, sends, out, rows, time, false) {
        Ok(made) => quiet(Answer::Done, made),
        Err(answer) => quiet(answer, 0),
    }
}
