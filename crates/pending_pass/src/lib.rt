// Passes over chosen pending entries, in the order of opening: ageing, Data, and closing a face. Each is one pass of turns: an entry is
// changed, and stays or leaves.
#![tactic(auto)]

ghost use Rattle.std.specs.Prelude.{◌≡◌, true, ℕ, ◌-◌, ◌≤◌, get_or, set, List};
ghost use Rattle.std.proofs.Math.Option.{none, some};
ghost use Rattle.sizes.specs.Sizes.{most_faces};
ghost use Rattle.faces.specs.Set.{has_face, with_face};
ghost use Rattle.records.specs.Face.{is_face};
ghost use Rattle.names.specs.Fingerprint.{fingerprint};
ghost use Rattle.records.specs.Entry.{Entry};
ghost use Rattle.dead.specs.Places.View as dead;
ghost use Rattle.pending_table.specs.Places.View.{view, place_of, entry_at, marks_of};
ghost use Rattle.pending_table.specs.Places.Parts.{table, seen};
ghost use Rattle.pending_pass.specs.Ages.{Ages};
ghost use Rattle.pending_pass.specs.Lowest.{meets_own};
ghost use Rattle.pending_pass.specs.Satisfies.{data_fate, Satisfies};
ghost use Rattle.pending_pass.specs.Closes.{Closes};
ghost use Rattle.pending_pass.specs.Places.Pass.{Work, marked, Turned, Leaves, Passes};
ghost use Rattle.pending_pass.specs.Places.Turns.{Turns};
ghost use Rattle.pending_pass.specs.Lent.{using, ageing_in, ageing_out, leaving_in, leaving_out};
ghost use Rattle.pending_pass.specs.Places.Works.{ageing_work, satisfying_work, closing_work};
ghost use Rattle.pending_pass.specs.Places.Lowering.{lower_word, Lowers, Lowest};

use dead::Dead;
use faces::{Walk, add, has, less};
use happenings::{Fate, Rows};
use pending_handle::{
    age as age_entry, asking_faces, bury, bury_face, end_requests, end_sent, is_idle, note_by_face,
    note_face, note_requests, overdue, overdue_entries,
};
use pending_order::Numbers;
use pending_table::{
    Chosen, Handle, Heads, Names, Records, Shown, all, facts_of, is_there, matching, next, rest,
    take_out,
};
use sizes::FACES;

// A table that is lent to a pass which changes the heads of its entries, and which rows are used.
#[derive(Drop)]
pub struct Ageing<'a> {
    pub names: &'a Names,
    pub heads: &'a mut Heads,
    pub recs: &'a Records,
    pub numbers: &'a Numbers,
    pub used: &'a mut u64,
}

// One that is lent to a pass which changes no more than which rows are used.
#[derive(Drop)]
pub struct Leaving<'a> {
    pub names: &'a Names,
    pub heads: &'a Heads,
    pub recs: &'a Records,
    pub numbers: &'a Numbers,
    pub used: &'a mut u64,
}

// One that is lent to a call which marks out-records too: what it changes are heads, records and which rows are used.
#[derive(Drop)]
pub struct Marking<'a> {
    pub names: &'a Names,
    pub heads: &'a mut Heads,
    pub recs: &'a mut Records,
    pub numbers: &'a Numbers,
    pub used: &'a mut u64,
}

// What Data comes to: how many happenings are noted, and the faces that a copy goes to.
#[derive(Clone, Copy, Debug, PartialEq, Eq)]
pub struct Satisfied {
    pub made: usize,
    pub copies: u64,
}

// A class word for each face, lent by the caller.
pub type Classes = [u64; FACES];

// One turn after another, at each of the chosen entries, the oldest opening first: how many happenings are noted. `s` is what a turn
// changes beside the used rows.
fn pass<S, F: Fn(&mut S, &mut u64, Handle, &mut Dead, &mut Rows, usize) -> usize>(
    s: &mut S,
    numbers: &Numbers,
    used: &mut u64,
    chosen: Chosen,
    nonces: &mut Dead,
    rows: &mut Rows,
    made: usize,
    turn: F,
) -> usize
    requires callable { F.IsAlwaysCallable turn }
    requires turns { (w : Work) × (n : List (List ℕ)) × (hs : S → List (List ℕ)) × (r : List (List (List ℕ)))
        × Turns (F.post turn) (λ x u. table n (hs x) r numbers.now u) w }
    ensures { (w : Work) (n : List (List ℕ)) (hs : S → List (List ℕ)) (r : List (List (List ℕ)))
        → Turns (F.post turn) (λ x u. table n (hs x) r numbers.now u) w
        → Passes w (marks_of (table n (hs s.old) r numbers.now used.old) chosen)
        (view (table n (hs s.old) r numbers.now used.old)) (dead.view nonces.old) rows.old made
        (view (table n (hs s.new) r numbers.now used.new)) (dead.view nonces.new) rows.new result }
{
    let mut left = chosen;
    let mut noted = made;
    let mut h = next(numbers, *used, left);
    while is_there(*used, h) {
        left = rest(left, h);
        noted = turn(s, used, h, nonces, rows, noted);
        h = next(numbers, *used, left);
    }
    noted
}

// An entry without requests is buried and leaves: the rows that are used then.
fn used_after(t: Shown, h: Handle, nonces: &mut Dead, start: u64, time: u64) -> u64
    ensures leaves { (e : Entry) → entry_at (seen t.entry) h ≡ some e
        → Leaves (fingerprint start) time (place_of (seen t.entry) h) e
        (view (seen t.entry)) (marks_of (seen t.entry)) (dead.view nonces.old)
        (view (using t.entry result)) (marks_of (using t.entry result)) (dead.view nonces.new) }
    ensures absent { entry_at (seen t.entry) h ≡ none → (result ≡ t.entry.used) × (nonces.new ≡ nonces.old) }
{
    let mut used = t.used;
    if !is_there(used, h) {
        return used;
    }
    if !is_idle(t, h) {
        return used;
    }
    bury(t, h, nonces, start, time);
    take_out(&mut used, h);
    used
}

// An entry without requests is buried and leaves. A handle of no entry changes nothing.
pub fn leave_if_idle(t: Leaving, h: Handle, nonces: &mut Dead, start: u64, time: u64)
    ensures leaves { (e : Entry) → entry_at (leaving_in t) h ≡ some e
        → Leaves (fingerprint start) time (place_of (leaving_in t) h) e
        (view (leaving_in t)) (marks_of (leaving_in t)) (dead.view nonces.old)
        (view (leaving_out t)) (marks_of (leaving_out t)) (dead.view nonces.new) }
    ensures absent { entry_at (leaving_in t) h ≡ none → (leaving_out t ≡ leaving_in t) × (nonces.new ≡ nonces.old) }
{
    let Leaving {
        names,
        heads,
        recs,
        numbers,
        used,
    } = t;
    let shown = Shown {
        names,
        heads,
        recs,
        numbers,
        used: *used,
    };
    *used = used_after(shown, h, nonces, start, time);
}

// One entry in its turn: its requests that are over are noted and end; an entry without requests is buried and leaves.
fn age_turn(
    t: Ageing,
    h: Handle,
    nonces: &mut Dead,
    rows: &mut Rows,
    made: usize,
    start: u64,
    time: u64,
) -> usize
    ensures { (e : Entry) → entry_at (ageing_in t) h ≡ some e
        → Turned (ageing_work (fingerprint start) time) (place_of (ageing_in t) h) e
        (view (ageing_in t)) (marks_of (ageing_in t)) (dead.view nonces.old) rows.old made
        (view (ageing_out t)) (marks_of (ageing_out t)) (dead.view nonces.new) rows.new result }
{
    let Ageing {
        names,
        heads,
        recs,
        numbers,
        used,
    } = t;
    let shown = Shown {
        names,
        heads,
        recs,
        numbers,
        used: *used,
    };
    let over = overdue(shown, h, time);
    let noted = note_requests(shown, h, rows, made, over, Fate::Expired);
    age_entry(heads, recs, *used, h, time);
    let leaving = Leaving {
        names,
        heads,
        recs,
        numbers,
        used,
    };
    leave_if_idle(leaving, h, nonces, start, time);
    noted
}

// "A request lives while time < arrival + lifetime; the rest end as expired .. An entry without requests leaves. Entries leave oldest
// opening first."
pub fn age(t: Ageing, nonces: &mut Dead, rows: &mut Rows, start: u64, time: u64) -> usize
    ensures { Ages (fingerprint start) time (view (ageing_in t)) (dead.view nonces.old) rows.old
        (view (ageing_out t)) (dead.view nonces.new) rows.new result }
{
    let Ageing {
        names,
        heads,
        recs,
        numbers,
        used,
    } = t;
    let shown = Shown {
        names,
        heads,
        recs,
        numbers,
        used: *used,
    };
    let chosen = overdue_entries(shown, time);
    pass(
        heads,
        numbers,
        used,
        chosen,
        nonces,
        rows,
        0,
        |heads, used, h, nonces, rows, made| {
            let t = Ageing {
                names,
                heads,
                recs,
                numbers,
                used,
            };
            age_turn(t, h, nonces, rows, made, start, time)
        },
    )
}

// One entry in its turn: the face's out-record goes, its line joining the dead nonce list, and its request is noted and ends; an entry
// without requests is buried and leaves.
fn close_turn(
    t: Ageing,
    h: Handle,
    nonces: &mut Dead,
    rows: &mut Rows,
    made: usize,
    start: u64,
    time: u64,
    face: usize,
) -> usize
    ensures { (e : Entry) → entry_at (ageing_in t) h ≡ some e
        → Turned (closing_work (fingerprint start) time face) (place_of (ageing_in t) h) e
        (view (ageing_in t)) (marks_of (ageing_in t)) (dead.view nonces.old) rows.old made
        (view (ageing_out t)) (marks_of (ageing_out t)) (dead.view nonces.new) rows.new result }
{
    let Ageing {
        names,
        heads,
        recs,
        numbers,
        used,
    } = t;
    let shown = Shown {
        names,
        heads,
        recs,
        numbers,
        used: *used,
    };
    bury_face(shown, h, nonces, start, time, face);
    let noted = note_face(shown, h, rows, made, face, Fate::Closed);
    end_sent(heads, recs, *used, h, face);
    end_requests(heads, recs, *used, h, add(0, face));
    let leaving = Leaving {
        names,
        heads,
        recs,
        numbers,
        used,
    };
    leave_if_idle(leaving, h, nonces, start, time);
    noted
}

// "Closing goes by entry, oldest opening first: the face's out-record goes, its fingerprint joining the dead list; its request ends; an
// entry without requests leaves."
pub fn close_face(
    t: Ageing,
    nonces: &mut Dead,
    rows: &mut Rows,
    made: usize,
    start: u64,
    time: u64,
    face: usize,
) -> usize
    ensures { Closes (fingerprint start) time face (view (ageing_in t)) (dead.view nonces.old) rows.old made
        (view (ageing_out t)) (dead.view nonces.new) rows.new result }
{
    let Ageing {
        names,
        heads,
        recs,
        numbers,
        used,
    } = t;
    let chosen = all(*used);
    pass(
        heads,
        numbers,
        used,
        chosen,
        nonces,
        rows,
        made,
        |heads, used, h, nonces, rows, made| {
            let t = Ageing {
                names,
                heads,
                recs,
                numbers,
                used,
            };
            close_turn(t, h, nonces, rows, made, start, time, face)
        },
    )
}

// The faces where a request is self-met by Data from a face: "those on the arrival face as self-met, unless that face is ad hoc".
fn self_met(face: usize, adhoc: bool) -> u64
    ensures { (g : ℕ) → is_face most_faces g ≡ true → has_face most_faces result g ≡ meets_own face adhoc g }
{
    if adhoc { 0 } else { add(0, face) }
}

// One entry in its turn, "end every request of the matched entries .. The entries leave.": its requests are noted, it is buried and leaves.
fn meet_turn(
    t: Leaving,
    h: Handle,
    nonces: &mut Dead,
    rows: &mut Rows,
    made: usize,
    start: u64,
    time: u64,
    face: usize,
    adhoc: bool,
) -> usize
    ensures { (e : Entry) → entry_at (leaving_in t) h ≡ some e
        → Turned (satisfying_work (fingerprint start) time (data_fate face adhoc)) (place_of (leaving_in t) h) e
        (view (leaving_in t)) (marks_of (leaving_in t)) (dead.view nonces.old) rows.old made
        (view (leaving_out t)) (marks_of (leaving_out t)) (dead.view nonces.new) rows.new result }
{
    let Leaving {
        names,
        heads,
        recs,
        numbers,
        used,
    } = t;
    let shown = Shown {
        names,
        heads,
        recs,
        numbers,
        used: *used,
    };
    let asked = asking_faces(shown, h);
    let met = self_met(face, adhoc);
    let noted = note_by_face(
        shown,
        h,
        rows,
        made,
        asked,
        met,
        Fate::SelfMet,
        Fate::Answered,
    );
    bury(shown, h, nonces, start, time);
    take_out(used, h);
    noted
}

// A word with a class: the lower of the two, where it has one.
fn lower_of(had: bool, word: u64, class: u64) -> u64
    ensures { result ≡ lower_word had word class }
{
    if had { word.min(class) } else { class }
}

// A class joins for a face. `had` is the set of the faces that have a class.
fn lower_word(classes: &mut Classes, had: u64, face: usize, class: u64) -> u64
    requires is_face { 1 ≤ face }
    requires face_within { face ≤ most_faces }
    ensures lowered { classes.new ≡ set classes.old (face - 1)
        (lower_word (has_face most_faces had face) (get_or classes.old (face - 1) 0) class) }
    ensures told { result ≡ with_face most_faces had face }
{
    let i = face - 1;
    let word = classes[i];
    classes[i] = lower_of(has(had, face), word, class);
    add(had, face)
}

// A class joins for the faces of a set.
fn lower_words(classes: &mut Classes, had: u64, set: u64, class: u64) -> u64
    ensures { Lowers most_faces set class had classes.old result classes.new }
{
    let mut have = had;
    for face in Walk::of(set) {
        have = lower_word(classes, have, face, class);
    }
    have
}

// The lowest class word of the chosen entries for each face, 0 where none has a request there, and the set of the faces where one has. It
// goes through the entries as `pass` does.
fn lowest_classes(t: Shown, chosen: Chosen, classes: &mut Classes) -> u64
    ensures { Lowest most_faces (marked (marks_of (seen t.entry) chosen) (view (seen t.entry))) result classes.new }
{
    *classes = [0; FACES];
    let mut had = 0;
    let mut left = chosen;
    let mut h = next(t.numbers, t.used, left);
    while is_there(t.used, h) {
        let class = facts_of(t.heads, t.used, h).class;
        had = lower_words(classes, had, asking_faces(t, h), class);
        left = rest(left, h);
        h = next(t.numbers, t.used, left);
    }
    had
}

// "end every request of the matched entries: those on the arrival face as self-met, unless that face is ad hoc; the others as answered,
// one copy per face however many requests it ends. The entries leave." Told with it: the faces that a copy goes to, and for each face the
// word of the lowest class that asked there.
pub fn satisfy(
    t: Leaving,
    nonces: &mut Dead,
    rows: &mut Rows,
    made: usize,
    start: u64,
    time: u64,
    name: &[u8],
    face: usize,
    adhoc: bool,
    classes: &mut Classes,
) -> Satisfied
    ensures { Satisfies (fingerprint start) time face adhoc name.now
        (view (leaving_in t)) (dead.view nonces.old) rows.old made
        (view (leaving_out t)) (dead.view nonces.new) rows.new result.made
        classes.new result.copies }
{
    let Leaving {
        names,
        heads,
        recs,
        numbers,
        used,
    } = t;
    let chosen = matching(names, heads, *used, name);
    let shown = Shown {
        names,
        heads,
        recs,
        numbers,
        used: *used,
    };
    let asked = lowest_classes(shown, chosen, classes);
    let made = pass(
        &mut (),
        numbers,
        used,
        chosen,
        nonces,
        rows,
        made,
        |_, used, h, nonces, rows, made| {
            let t = Leaving {
                names,
                heads,
                recs,
                numbers,
                used,
            };
            meet_turn(t, h, nonces, rows, made, start, time, face, adhoc)
        },
    );
    Satisfied {
        made,
        copies: less(asked, self_met(face, adhoc)),
    }
}
