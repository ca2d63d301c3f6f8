// The fixed table of known elements, and one walk over the elements of a parent that it drives.
//
// "Which types are known, in which parent, with which length, is one fixed table."
#![tactic(auto)]

pub mod order;
pub mod types;

ghost use Rattle.std.specs.Prelude.{◌≡◌, length, drop};
ghost use Rattle.std.specs.List.{find};
ghost use Rattle.grammar.specs.Table.{table, hit, row_of, fits, other};
ghost use Rattle.grammar.specs.Places.Table.{start, known_row};
ghost use Rattle.grammar.specs.Walk.{said_with, judged, walked};
ghost use Rattle.grammar.specs.Places.Walk.{found_in};

use wire::{Cursor, Verdict};

// The rules of length: any; 0; 1; 4; 1, 2, 4 or 8.
#[derive(Clone, Copy, Debug, PartialEq, Eq)]
pub enum Rule {
    Any,
    Empty,
    One,
    Four,
    Whole,
}

// A known element: its type, the parent that it stands in, its place in the order there, the rule of its length, and what it says:
// that a packet which holds it is fine, or unsupported.
#[derive(Clone, Copy)]
pub struct Row {
    pub typ: u16,
    pub parent: u16,
    pub order: usize,
    pub rule: Rule,
    pub says: Verdict,
}

// The parent of a packet as it came. The other parents are elements, by their types.
pub const OUTER: u16 = 0;

// The table, in which the rows of a parent stand together. Each row is written out: a constant's value can call no function.
static TABLE: [Row; 26] = [
    Row {
        typ: types::INTEREST,
        parent: OUTER,
        order: order::INTEREST,
        rule: Rule::Any,
        says: Verdict::Fine,
    },
    Row {
        typ: types::DATA,
        parent: OUTER,
        order: order::DATA,
        rule: Rule::Any,
        says: Verdict::Fine,
    },
    Row {
        typ: types::LP_PACKET,
        parent: OUTER,
        order: order::LP_PACKET,
        rule: Rule::Any,
        says: Verdict::Fine,
    },
    Row {
        typ: types::NAME,
        parent: types::INTEREST,
        order: order::NAME,
        rule: Rule::Any,
        says: Verdict::Fine,
    },
    Row {
        typ: types::CAN_BE_PREFIX,
        parent: types::INTEREST,
        order: order::CAN_BE_PREFIX,
        rule: Rule::Empty,
        says: Verdict::Fine,
    },
    Row {
        typ: types::MUST_BE_FRESH,
        parent: types::INTEREST,
        order: order::MUST_BE_FRESH,
        rule: Rule::Empty,
        says: Verdict::Fine,
    },
    Row {
        typ: types::FORWARDING_HINT,
        parent: types::INTEREST,
        order: order::FORWARDING_HINT,
        rule: Rule::Any,
        says: Verdict::Unsupported,
    },
    Row {
        typ: types::NONCE,
        parent: types::INTEREST,
        order: order::NONCE,
        rule: Rule::Four,
        says: Verdict::Fine,
    },
    Row {
        typ: types::LIFETIME,
        parent: types::INTEREST,
        order: order::LIFETIME,
        rule: Rule::Whole,
        says: Verdict::Fine,
    },
    Row {
        typ: types::HOP_LIMIT,
        parent: types::INTEREST,
        order: order::HOP_LIMIT,
        rule: Rule::One,
        says: Verdict::Fine,
    },
    Row {
        typ: types::PARAMETERS,
        parent: types::INTEREST,
        order: order::PARAMETERS,
        rule: Rule::Any,
        says: Verdict::Unsupported,
    },
    Row {
        typ: types::INTEREST_SIGNATURE_INFO,
        parent: types::INTEREST,
        order: order::INTEREST_SIGNATURE_INFO,
        rule: Rule::Any,
        says: Verdict::Unsupported,
    },
    Row {
        typ: types::INTEREST_SIGNATURE_VALUE,
        parent: types::INTEREST,
        order: order::INTEREST_SIGNATURE_VALUE,
        rule: Rule::Any,
        says: Verdict::Unsupported,
    },
    Row {
        typ: types::NAME,
        parent: types::DATA,
        order: order::NAME,
        rule: Rule::Any,
        says: Verdict::Fine,
    },
    Row {
        typ: types::META_INFO,
        parent: types::DATA,
        order: order::META_INFO,
        rule: Rule::Any,
        says: Verdict::Fine,
    },
    Row {
        typ: types::CONTENT,
        parent: types::DATA,
        order: order::CONTENT,
        rule: Rule::Any,
        says: Verdict::Fine,
    },
    Row {
        typ: types::SIGNATURE_INFO,
        parent: types::DATA,
        order: order::SIGNATURE_INFO,
        rule: Rule::Any,
        says: Verdict::Fine,
    },
    Row {
        typ: types::SIGNATURE_VALUE,
        parent: types::DATA,
        order: order::SIGNATURE_VALUE,
        rule: Rule::Any,
        says: Verdict::Fine,
    },
    Row {
        typ: types::CONTENT_TYPE,
        parent: types::META_INFO,
        order: order::CONTENT_TYPE,
        rule: Rule::Any,
        says: Verdict::Fine,
    },
    Row {
        typ: types::FRESHNESS,
        parent: types::META_INFO,
        order: order::FRESHNESS,
        rule: Rule::Whole,
        says: Verdict::Fine,
    },
    Row {
        typ: types::FINAL_BLOCK_ID,
        parent: types::META_INFO,
        order: order::FINAL_BLOCK_ID,
        rule: Rule::Any,
        says: Verdict::Fine,
    },
    Row {
        typ: types::INTEREST,
        parent: types::FRAGMENT,
        order: order::INTEREST,
        rule: Rule::Any,
        says: Verdict::Fine,
    },
    Row {
        typ: types::DATA,
        parent: types::FRAGMENT,
        order: order::DATA,
        rule: Rule::Any,
        says: Verdict::Fine,
    },
    Row {
        typ: types::NACK,
        parent: types::LP_PACKET,
        order: order::NACK,
        rule: Rule::Any,
        says: Verdict::Fine,
    },
    Row {
        typ: types::FRAGMENT,
        parent: types::LP_PACKET,
        order: order::FRAGMENT,
        rule: Rule::Any,
        says: Verdict::Fine,
    },
    Row {
        typ: types::NACK_REASON,
        parent: types::NACK,
        order: order::NACK_REASON,
        rule: Rule::Whole,
        says: Verdict::Fine,
    },
];

// Where the value of an element stands in its parent.
#[derive(Clone, Copy)]
pub struct Place {
    pub at: usize,
    pub len: usize,
}

// The orders that an element of any parent can have: 0, for those that are skipped, and up to 10 for those that are known.
const KINDS: usize = 11;

// What the elements of a parent said; the order of the last known one; and the place of each that is there, by its order. The
// place of order 0 is that of an element that was skipped, and is not read. Where no known one came, `last` is 0, below all their orders.
#[derive(Clone, Copy)]
pub struct Found {
    pub said: Verdict,
    pub last: usize,
    pub places: [Option<Place>; KINDS],
}

// What one more element makes of what was said and of the last order, and the order of its place, 0 where it has none.
// A number also then: the definition `met` keeps a skipped element at order 0, so that the walk stores each without a test.
#[derive(Clone, Copy)]
pub struct Next {
    pub said: Verdict,
    pub last: usize,
    pub order: usize,
}

// A row from which on all rows of a parent stand. The numbers are those of `start`; the law `look_up` says that nothing is missed.
#[tactic(auto, unfolding(crate::specs::Places::Table::start, laws::specs::Pick::pick))]
fn first_row(parent: u16) -> usize
    ensures { result ≡ start parent }
{
    match parent {
        types::INTEREST => 3,
        types::DATA => 13,
        types::META_INFO => 18,
        types::FRAGMENT => 21,
        types::LP_PACKET => 23,
        types::NACK => 25,
        _ => 0,
    }
}

// The rows of the table from the first of a parent on.
fn rows_from(parent: u16) -> &'static [Row]
    ensures { result.now ≡ drop (start parent) table }
{
    &TABLE[first_row(parent)..]
}

// The first of some rows that is that of a type in a parent.
fn find_row(rows: &[Row], parent: u16, typ: u64) -> Option<Row>
    ensures { result ≡ find (hit parent typ) rows.now }
{
    rows.iter()
        .copied()
        .find(|row| row.parent == parent && u64::from(row.typ) == typ)
}

// The row of a type in a parent, or none where the type is not known there.
pub fn row_of(parent: u16, typ: u64) -> Option<Row>
    ensures { result ≡ known_row (row_of parent typ table) }
{
    find_row(rows_from(parent), parent, typ)
}

// Whether a value's length fits a rule.
#[tactic(auto, unfolding(crate::specs::Table::fits, wire::specs::Number::is_whole, laws::specs::Pick::pick))]
fn length_fits(rule: Rule, len: usize) -> bool
    ensures { result ≡ fits rule len }
{
    match rule {
        Rule::Any => true,
        Rule::Empty => len == 0,
        Rule::One => len == 1,
        Rule::Four => len == 4,
        Rule::Whole => matches!(len, 1 | 2 | 4 | 8),
    }
}

// What an element of a type that is not known in its parent says: fine, it is skipped; or malformed or unsupported.
#[tactic(auto, unfolding(crate::specs::Table::other, crate::specs::Table::skipped_lp, crate::specs::Table::critical, laws::specs::Pick::pick))]
fn other_says(parent: u16, typ: u64, last: usize) -> Verdict
    ensures { result ≡ other parent typ last }
{
    if parent == types::NACK {
        return Verdict::Malformed;
    }
    if parent == types::LP_PACKET {
        if last == order::FRAGMENT {
            return Verdict::Malformed;
        }
        if types::FIRST_SKIPPED <= typ && typ <= types::LAST_SKIPPED && typ % 4 == 0 {
            return Verdict::Fine;
        }
        return Verdict::Unsupported;
    }
    if typ <= types::LAST_CRITICAL || typ % 2 == 1 {
        return Verdict::Malformed;
    }
    Verdict::Fine
}

// What was said, with what one more element says.
#[tactic(auto, unfolding(crate::specs::Walk::said_with))]
fn said_with(said: Verdict, more: Verdict) -> Verdict
    ensures { result ≡ said_with said more }
{
    match more {
        Verdict::Fine => said,
        Verdict::Malformed => Verdict::Malformed,
        Verdict::Unsupported => Verdict::Unsupported,
    }
}

// What is said with one more element of a parent, of a type and a value's length. The five arguments are those of `judged`.
pub fn judge(parent: u16, said: Verdict, last: usize, typ: u64, len: usize) -> Next
    ensures { result ≡ judged parent said last typ len }
{
    let malformed = Next {
        said: Verdict::Malformed,
        last,
        order: 0,
    };
    if said.is_malformed() {
        return malformed;
    }
    match row_of(parent, typ) {
        None => Next {
            said: said_with(said, other_says(parent, typ, last)),
            last,
            order: 0,
        },
        Some(row) => {
            if row.order <= last || !length_fits(row.rule, len) {
                return malformed;
            }
            Next {
                said: said_with(said, row.says),
                last: row.order,
                order: row.order,
            }
        }
    }
}

// The walk over all elements of a parent, whose value is s.
pub fn walk(s: &[u8], parent: u16) -> Found
    ensures { result ≡ found_in (length s.now) (walked parent s.now) }
{
    let mut cursor = Cursor { at: 0 };
    let mut said = Verdict::Fine;
    let mut last = 0;
    let mut places = [None; KINDS];
    // A `while`, since an element says where the next one begins: the cursor goes in and comes back by value.
    while cursor.at < s.len() {
        let Some((e, next)) = cursor.element(s) else {
            return Found {
                said: Verdict::Malformed,
                last: 0,
                places: [None; KINDS],
            };
        };
        let v = judge(parent, said, last, e.typ, e.len);
        said = v.said;
        last = v.last;
        let order = v.order;
        places[order] = Some(Place {
            at: e.at,
            len: e.len,
        });
        cursor = next;
    }
    Found { said, last, places }
}
