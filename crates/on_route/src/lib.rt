// The commands about routes, each a whole event: a route is set or dropped, a hop added or dropped.
#![tactic(auto)]

ghost use Rattle.std.specs.Prelude.{◌≡◌};
ghost use Rattle.records.specs.Class.{class_of, is_class};
ghost use Rattle.faces.specs.declared.Faces.{Faces};
ghost use Rattle.store.specs.declared.Store.{Store};
ghost use Rattle.routes.specs.Places.View.{view};
ghost use Rattle.routes.specs.Lent.{setting_lent, hopping_lent, dropping_lent};
ghost use Rattle.rules.specs.Node as rules;
ghost use Rattle.rows.specs.Lent.{lent, shown};
ghost use Rattle.event.specs.Memory.{memory, still, output};
ghost use Rattle.event.specs.Comes.{Stepped};
ghost use Rattle.pending_pass.specs.Lent.{ageing_lent};
ghost use Rattle.event.specs.Places.Begins.{allowed, answer_of};
ghost use Rattle.on_route.specs.Turns.{RoutesBy, prefix_says};

use answers::Answer;
use dead::Dead;
use event::{Came, begins, is_not_open, quiet};
use faces::Faces;
use happenings::Rows;
use pending_pass::Ageing;
use routes::{Dropping, Hopping, Routes, Setting, find, has_hop};
use sending::Sends;
use sizes::{COMPONENTS, MOST_COST, NAME};

// "5, 6, name size (4)": what is against the bytes of a prefix, which may be empty.
fn check(prefix: &[u8]) -> Result<(), Answer>
    ensures { result ≡ allowed (prefix_says prefix.now) }
{
    let c = names::count_components(prefix);
    if c.said.is_malformed() {
        return Err(Answer::Malformed);
    }
    if c.said.is_unsupported() {
        return Err(Answer::Unsupported);
    }
    if NAME < prefix.len() || COMPONENTS < c.count {
        return Err(Answer::TooLong);
    }
    Ok(())
}

// A route is dropped.
fn dropping(known: &mut Routes, prefix: &[u8]) -> Result<(), Answer>
    ensures { RoutesBy (rules.drop_route prefix.now) (view known.old) (answer_of result) (view known.new) }
{
    check(prefix)?;
    let route = find(&known.prefixes, &known.rows, known.count, prefix).ok_or(Answer::NoRoute)?;
    known.remove(route);
    Ok(())
}

// A route is dropped.
pub fn drop_route(
    last: &mut u64,
    known: &mut Routes,
    p: Ageing,
    nonces: &mut Dead,
    sends: &Sends,
    out: &[u8],
    rows: &mut Rows,
    time: u64,
    prefix: &[u8],
) -> Came
    ensures { (f : Faces) (s : Store) → Stepped time (rules.drop_route prefix.now) result
        (memory (lent last) (still f) (lent known) (ageing_lent p) (still s) (lent nonces)) (output (shown sends) (shown out) (lent rows)) }
{
    match begins(last, p, nonces, sends, out, rows, time, false) {
        Err(answer) => quiet(answer, 0),
        Ok(made) => {
            let then = dropping(known, prefix);
            quiet(then.err().unwrap_or(Answer::Done), made)
        }
    }
}

// Whether a word is a class: "1 alarm, 2 monitoring, 3 bulk".
#[tactic(auto, unfolding(records::specs::Class::class_of, records::specs::Class::is_class, laws::specs::Pick::pick))]
fn is_class(class: u64) -> bool
    ensures { result ≡ is_class (class_of class) }
{
    matches!(class, 1..=3)
}

// A route is set: 15, then a known prefix, then 16.
fn setting(known: Setting, class: u64, prefix: &[u8]) -> Result<(), Answer>
    ensures { RoutesBy (rules.set_route class prefix.now)
        (view (setting_lent known).entry) (answer_of result) (view (setting_lent known).exit) }
{
    check(prefix)?;
    if !is_class(class) {
        return Err(Answer::BadSetting);
    }
    let Setting {
        prefixes,
        rows,
        costs: _,
        count,
    } = known;
    if routes::set(prefixes, rows, count, prefix, class) {
        Ok(())
    } else {
        Err(Answer::TableFull)
    }
}

// A route is set.
pub fn set_route(
    last: &mut u64,
    known: Setting,
    p: Ageing,
    nonces: &mut Dead,
    sends: &Sends,
    out: &[u8],
    rows: &mut Rows,
    time: u64,
    class: u64,
    prefix: &[u8],
) -> Came
    ensures { (f : Faces) (s : Store) → Stepped time (rules.set_route class prefix.now) result
        (memory (lent last) (still f) (setting_lent known) (ageing_lent p) (still s) (lent nonces))
        (output (shown sends) (shown out) (lent rows)) }
{
    match begins(last, p, nonces, sends, out, rows, time, false) {
        Err(answer) => quiet(answer, 0),
        Ok(made) => {
            let then = setting(known, class, prefix);
            quiet(then.err().unwrap_or(Answer::Done), made)
        }
    }
}

// A hop is added: "Adding a known hop changes its cost."
fn adding_hop(known: Hopping, face: usize, cost: u64, prefix: &[u8]) -> Result<(), Answer>
    ensures { RoutesBy (rules.add_hop face cost prefix.now)
        (view (hopping_lent known).entry) (answer_of result) (view (hopping_lent known).exit) }
{
    check(prefix)?;
    if MOST_COST < cost {
        return Err(Answer::BadSetting);
    }
    let count = known.count;
    let route = find(known.prefixes, known.rows, count, prefix).ok_or(Answer::NoRoute)?;
    let Hopping {
        prefixes: _,
        rows,
        costs,
        count: _,
    } = known;
    routes::add_hop(rows, costs, count, route, face, cost);
    Ok(())
}

// A hop is added.
pub fn add_hop(
    last: &mut u64,
    faces: Faces,
    known: Hopping,
    p: Ageing,
    nonces: &mut Dead,
    sends: &Sends,
    out: &[u8],
    rows: &mut Rows,
    time: u64,
    face: usize,
    cost: u64,
    prefix: &[u8],
) -> Came
    ensures { (s : Store) → Stepped time (rules.add_hop face cost prefix.now) result
        (memory (lent last) (still faces) (hopping_lent known) (ageing_lent p) (still s) (lent nonces))
        (output (shown sends) (shown out) (lent rows)) }
{
    let bad = is_not_open(faces, face);
    match begins(last, p, nonces, sends, out, rows, time, bad) {
        Err(answer) => quiet(answer, 0),
        Ok(made) => {
            let then = adding_hop(known, face, cost, prefix);
            quiet(then.err().unwrap_or(Answer::Done), made)
        }
    }
}

// A hop is dropped: "A hop or drop on something absent is 10."
fn dropping_hop(known: Dropping, face: usize, prefix: &[u8]) -> Result<(), Answer>
    ensures { RoutesBy (rules.drop_hop face prefix.now)
        (view (dropping_lent known).entry) (answer_of result) (view (dropping_lent known).exit) }
{
    check(prefix)?;
    let count = known.count;
    let route = find(known.prefixes, known.rows, count, prefix).ok_or(Answer::NoRoute)?;
    if !has_hop(known.rows, count, route, face) {
        return Err(Answer::NoRoute);
    }
    let Dropping {
        prefixes: _,
        rows,
        costs: _,
        count: _,
    } = known;
    routes::drop_hop(rows, count, route, face);
    Ok(())
}

// A hop is dropped.
pub fn drop_hop(
    last: &mut u64,
    faces: Faces,
    known: Dropping,
    p: Ageing,
    nonces: &mut Dead,
    sends: &Sends,
    out: &[u8],
    rows: &mut Rows,
    time: u64,
    face: usize,
    prefix: &[u8],
) -> Came
    ensures { (s : Store) → Stepped time (rules.drop_hop face prefix.now) result
        (memory (lent last) (still faces) (dropping_lent known) (ageing_lent p) (still s) (lent nonces))
        (output (shown sends) (shown out) (lent rows)) }
{
    let bad = is_not_open(faces, face);
    match begins(last, p, nonces, sends, out, rows, time, bad) {
        Err(answer) => quiet(answer, 0),
        Ok(made) => {
            let then = dropping_hop(known, face, prefix);
            quiet(then.err().unwrap_or(Answer::Done), made)
        }
    }
}
