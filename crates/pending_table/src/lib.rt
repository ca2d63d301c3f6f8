// The pending table: entries in the order of opening, in rows that stay in place. An entry is told by a handle.
//
// Each function is lent the parts of the table that it uses, by `&mut` only what it changes; its contract holds whatever the others are.
// Nobody above `pending_pass` reads a row, a `Handle` or a `Chosen`: the parts are only handed on, and contracts speak of the entries, of a
// handle's place among them and of marks.
#![tactic(auto)]

ghost use Rattle.std.specs.Prelude.{◌≡◌, true, false, List, [], ◌∷◌, ◌++◌, map, ℕ, ◌+◌, ◌<◌, ◌≤◌};
ghost use Rattle.std.specs.Prelude.{length, leb, ltb, eqb, IfSome};
ghost use Rattle.std.specs.Bool.{beq};
ghost use Rattle.laws.specs.Lists.{on_at, index_of};
ghost use Rattle.sizes.specs.Sizes.{most_faces, most_entries};
ghost use Rattle.records.specs.Class.{class_of};
ghost use Rattle.records.specs.Slots.{given};
ghost use Rattle.records.specs.Entry.{is_known, matches, room_taken};
ghost use Rattle.pending_entry.specs.Places.View as entry;
ghost use Rattle.pending_entry.specs.Operations.{bare_entry};
ghost use Rattle.pending_table.specs.Places.View.{view, state, row_held, place_of, entry_at, handle_of, marks_of};
ghost use Rattle.pending_table.specs.Places.Room.{counting, all_of, room_of};
ghost use Rattle.pending_table.specs.Places.Stays.{RowsStay};
ghost use Rattle.pending_table.specs.Places.Parts.{table};
ghost use Rattle.pending_table.specs.declared.Pending.{Pending};
ghost use Rattle.pending_table.specs.Operations.{Finds, Opens, TakesOut, nothing, facts_of, uses_of};

use names::{is_prefix, same};
use pending_entry::{CLASS, FRESH, Head, LENGTH, PREFIX, bare};
use pending_order::{Numbers, RowWalk, better_row, free, has, kept, least, open_row, remove};
use rows::part;
use sizes::{ENTRIES, FACES, NAME};
use wire::put_bytes;

// "Name at most .. 255 bytes": the names.
pub type Names = [[u8; NAME]; ENTRIES];

// A row of the names: the name is as many of its bytes as the entry's head says.
type Row = [u8; NAME];

// The head of each entry, as `pending_entry` has it.
pub type Heads = [Head; ENTRIES];

// The records of each entry, as `pending_entry` has them.
pub type Records = [pending_entry::Records; ENTRIES];

// "Their reserves are 24, 16 and 8."
const ALARM_RESERVE: u64 = 24;

const MONITORING_RESERVE: u64 = 16;

const BULK_RESERVE: u64 = 8;

// The table: for each row a name, a head, records and the number of its opening; and the rows that are used, a bit each.
#[derive(Clone, Copy)]
pub struct Pending {
    pub names: Names,
    pub heads: Heads,
    pub recs: Records,
    pub numbers: Numbers,
    pub used: u64,
}

// A table that is lent to be read, in parts.
#[derive(Clone, Copy)]
pub struct Shown<'a> {
    pub names: &'a Names,
    pub heads: &'a Heads,
    pub recs: &'a Records,
    pub numbers: &'a Numbers,
    pub used: u64,
}

// An entry of the table, or none: its row. A row past the last stands for none, since `Finds`, `Opens` and `TakesOut` give each handle a
// place.
#[derive(Clone, Copy, Debug, PartialEq, Eq)]
pub struct Handle {
    pub row: usize,
}

// A choice of entries: their rows, a bit each.
#[derive(Clone, Copy, Debug, PartialEq, Eq)]
pub struct Chosen {
    pub rows: u64,
}

// What an entry is known by beside its name, and its class word: a number, since one that is no class is kept and counted as well.
#[derive(Clone, Copy, Debug, Default, PartialEq, Eq)]
pub struct Facts {
    pub prefix: bool,
    pub fresh: bool,
    pub class: u64,
}

// How many entries each class has; `other` counts those whose class word is no class.
#[derive(Clone, Copy, Debug, Default, PartialEq, Eq)]
pub struct Uses {
    pub alarm: u64,
    pub monitoring: u64,
    pub bulk: u64,
    pub other: u64,
}

// Whether a head's word is that of a flag: 1 is true, any other word is false.
fn same_flag(word: u64, flag: bool) -> bool
    ensures { result ≡ beq flag (eqb word 1) }
{
    flag == (word == 1)
}

// Whether the entry of a name's row and a head is that of a name and both flags.
fn is_known(row: &Row, head: &Head, name: &[u8], prefix: bool, fresh: bool) -> bool
    ensures { (recs : List (List ℕ))
        → result ≡ is_known name.now prefix fresh (entry.view row.now head.now recs) }
{
    same_flag(head[PREFIX], prefix)
        && same_flag(head[FRESH], fresh)
        && same(name, part(row, head[LENGTH]))
}

// "Data matches an entry of equal name, or with CanBePrefix and a name that is its prefix."
fn is_match(row: &Row, head: &Head, name: &[u8]) -> bool
    ensures { (recs : List (List ℕ)) → result ≡ matches name.now (entry.view row.now head.now recs) }
{
    let own = part(row, head[LENGTH]);
    same(own, name) || head[PREFIX] == 1 && is_prefix(own, name)
}

impl Uses {
    // The uses with an entry more: a class word that is no class counts as such, and as no other.
    #[tactic(auto, unfolding(crate::specs::Places::Room::counting, records::specs::Class::class_of, laws::specs::Pick::pick))]
    fn counted(self, class: u64) -> Uses
        requires { all_of self ≤ most_entries }
        ensures { result ≡ counting (class_of class) self }
    {
        let mut uses = self;
        match class {
            1 => uses.alarm += 1,
            2 => uses.monitoring += 1,
            3 => uses.bulk += 1,
            _ => uses.other += 1,
        }
        uses
    }

    // "the sum over the classes of the larger of reserve and use"; what is no class counts in full.
    #[tactic(auto, unfolding(crate::specs::Places::Room::room_of, records::specs::Class::reserve))]
    fn room_taken(self) -> u64
        requires { all_of self ≤ most_entries + 1 }
        ensures { result ≡ room_of self }
    {
        ALARM_RESERVE.max(self.alarm)
            + MONITORING_RESERVE.max(self.monitoring)
            + BULK_RESERVE.max(self.bulk)
            + self.other
    }
}

impl Pending {
    // A table with no entries.
    pub fn new() -> Pending
        ensures { view result ≡ [] }
    {
        Pending {
            names: [[0; NAME]; ENTRIES],
            heads: [[0; 6]; ENTRIES],
            recs: [[[0; 5]; FACES]; ENTRIES],
            numbers: [0; ENTRIES],
            used: 0,
        }
    }

    // No entries, whatever the memory holds; all but which rows are used stays.
    pub fn clear(&mut self)
        ensures empty { view self.new ≡ [] }
        ensures rows { RowsStay self.old self.new }
    {
        self.used = 0;
    }
}

// The used rows of a table with no entries, whatever its rows hold.
pub fn none() -> u64
    ensures { (n hs : List (List ℕ)) (r : List (List (List ℕ))) (k : List ℕ) → view (table n hs r k result) ≡ [] }
{
    // No bit is set.
    0
}

// How many entries each class has.
pub fn use_by_class(heads: &Heads, used: u64) -> Uses
    ensures { (n : List (List ℕ)) (r : List (List (List ℕ))) (k : List ℕ) → result ≡ uses_of (view (table n heads.now r k used)) }
{
    let mut uses = Uses::default();
    for row in RowWalk::of(used) {
        uses = uses.counted(heads[row][CLASS]);
    }
    uses
}

// Whether there is room for one more entry of a class: the sum of the larger of reserve and use, counting it, does not exceed 64.
pub fn has_room(heads: &Heads, used: u64, class: u64) -> bool
    ensures { (n : List (List ℕ)) (r : List (List (List ℕ))) (k : List ℕ) → result
        ≡ leb (room_taken (view (table n heads.now r k used) ++ (bare_entry most_faces [] false false (class_of class) ∷ [])))
        most_entries }
{
    use_by_class(heads, used).counted(class).room_taken() <= ENTRIES as u64
}

// How many entries there are, in any table of these used rows.
pub fn size(used: u64) -> usize
    ensures { (n hs : List (List ℕ)) (r : List (List (List ℕ))) (k : List ℕ) → result ≡ length (view (table n hs r k used)) }
{
    used.count_ones() as usize
}

// "An entry is known by name and both flags": its handle, or that of no entry. ENTRIES is the best of no rows, as `better_row` has it.
pub fn find(
    names: &Names,
    heads: &Heads,
    numbers: &Numbers,
    used: u64,
    name: &[u8],
    prefix: bool,
    fresh: bool,
) -> Handle
    ensures { (r : List (List (List ℕ))) → Finds (place_of (table names.now heads.now r numbers.now used))
        (handle_of (table names.now heads.now r numbers.now used))
        (index_of (is_known name.now prefix fresh) (view (table names.now heads.now r numbers.now used))) result }
{
    let mut best = ENTRIES;
    for row in RowWalk::of(used) {
        if is_known(&names[row], &heads[row], name, prefix, fresh) {
            best = better_row(numbers, best, row);
        }
    }
    Handle { row: best }
}

// A new entry, without records, after the others: its handle, whatever the records are. A 65th entry, or a name over 255 bytes, changes
// nothing, and the handle is that of no entry.
pub fn open(
    names: &mut Names,
    heads: &mut Heads,
    numbers: &mut Numbers,
    used: &mut u64,
    name: &[u8],
    prefix: bool,
    fresh: bool,
    class: u64,
) -> Handle
    ensures { (r : List (List (List ℕ))) → Opens result (bare_entry most_faces name.now prefix fresh (class_of class))
        (view (table names.old heads.old r numbers.old used.old)) (view (table names.new heads.new r numbers.new used.new))
        (place_of (table names.old heads.old r numbers.old used.old)) (place_of (table names.new heads.new r numbers.new used.new))
        (marks_of (table names.old heads.old r numbers.old used.old)) (marks_of (table names.new heads.new r numbers.new used.new)) }
{
    let row = free(*used);
    if row < ENTRIES && put_bytes(&mut names[row], 0, name).is_some() {
        heads[row] = bare(name.len() as u64, prefix, fresh, class);
        *used = open_row(numbers, *used).used;
        Handle { row }
    } else {
        Handle { row: ENTRIES }
    }
}

// The row of a handle's entry, for what stands in that row; none where there is no entry.
pub fn row_of(used: u64, h: Handle) -> Option<usize>
    ensures row { result ≡ row_held (record { used = used }) h }
    ensures within { IfSome result (λ i. i < most_entries) }
{
    has(used, h.row).then_some(h.row)
}

// Whether a handle has an entry, in any table of these used rows.
pub fn is_there(used: u64, h: Handle) -> bool
    ensures { (n hs : List (List ℕ)) (r : List (List (List ℕ))) (k : List ℕ)
        → result ≡ ltb (place_of (table n hs r k used) h) (length (view (table n hs r k used))) }
{
    has(used, h.row)
}

// Takes the entry of a handle out, of any table of these used rows; a handle of no entry changes nothing.
pub fn take_out(used: &mut u64, h: Handle)
    ensures { (n hs : List (List ℕ)) (r : List (List (List ℕ))) (k : List ℕ)
        → TakesOut h (view (table n hs r k used.old)) (view (table n hs r k used.new))
        (place_of (table n hs r k used.old)) (place_of (table n hs r k used.new))
        (marks_of (table n hs r k used.old)) (marks_of (table n hs r k used.new)) }
{
    *used = remove(*used, h.row);
}

// The name of a handle's entry, where it stands; no bytes where there is none.
pub fn name_of<'a>(names: &'a Names, heads: &Heads, used: u64, h: Handle) -> &'a [u8]
    ensures { (r : List (List (List ℕ))) (k : List ℕ)
        → result.now ≡ given [] (λ e. e.name) (entry_at (table names.now heads.now r k used) h) }
{
    match row_of(used, h) {
        Some(row) => part(&names[row], heads[row][LENGTH]),
        None => &[],
    }
}

// The flags and the class word of a handle's entry; false, false and 0, which is no class, where there is none.
pub fn facts_of(heads: &Heads, used: u64, h: Handle) -> Facts
    ensures { (n : List (List ℕ)) (r : List (List (List ℕ))) (k : List ℕ)
        → result ≡ given nothing facts_of (entry_at (table n heads.now r k used) h) }
{
    match row_of(used, h) {
        Some(row) => Facts {
            prefix: heads[row][PREFIX] == 1,
            fresh: heads[row][FRESH] == 1,
            class: heads[row][CLASS],
        },
        None => Facts::default(),
    }
}

// The choice of the entries that a Data's name matches.
pub fn matching(names: &Names, heads: &Heads, used: u64, name: &[u8]) -> Chosen
    ensures { (r : List (List (List ℕ))) (k : List ℕ)
        → marks_of (table names.now heads.now r k used) result
        ≡ map (matches name.now) (view (table names.now heads.now r k used)) }
{
    let mut rows = used;
    for row in RowWalk::of(used) {
        rows = kept(rows, row, is_match(&names[row], &heads[row], name));
    }
    Chosen { rows }
}

// The choice of all entries, in any table of these used rows.
pub fn all(used: u64) -> Chosen
    ensures { (n hs : List (List ℕ)) (r : List (List (List ℕ))) (k : List ℕ)
        → marks_of (table n hs r k used) result ≡ map (λ _. true) (view (table n hs r k used)) }
{
    Chosen { rows: used }
}

// Of the chosen entries the one that was opened first, or the handle of no entry, in any table of these numbers and used rows.
pub fn next(numbers: &Numbers, used: u64, c: Chosen) -> Handle
    ensures { (n hs : List (List ℕ)) (r : List (List (List ℕ)))
        → Finds (place_of (table n hs r numbers.now used)) (handle_of (table n hs r numbers.now used))
        (index_of (λ b. b) (marks_of (table n hs r numbers.now used) c)) result }
{
    Handle {
        row: least(numbers, used & c.rows),
    }
}

// The choice without a handle's entry, in any table.
pub fn rest(c: Chosen, h: Handle) -> Chosen
    ensures { (p : Pending) → marks_of p result ≡ on_at (place_of p h) (λ _. false) (marks_of p c) }
{
    Chosen {
        rows: remove(c.rows, h.row),
    }
}
