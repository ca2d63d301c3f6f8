// What happened to requests in one event, as rows of face, class, fate, nonce and expiry, in an array that the caller lends.
#![tactic(auto)]

ghost use Rattle.std.specs.Prelude.{◌≡◌, [], ◌∷◌};
ghost use Rattle.records.specs.Rows.{fate_number};
ghost use Rattle.rows.specs.Lent.{lent};
ghost use Rattle.happenings.specs.Noted.{fate_in, note_of, Noted};

use sizes::{ENTRIES, FACES};

// What becomes of a request: "opened, answered, Nacked, expired, closed, self-met".
#[derive(Clone, Copy, Debug, PartialEq, Eq)]
pub enum Fate {
    Opened,
    Answered,
    Nacked,
    Expired,
    Closed,
    SelfMet,
}

// Room for one opening and the end of every request.
pub const ROWS: usize = 1 + ENTRIES * FACES;

// Face, class word, fate, nonce and expiry of each happening, lent by the caller: rows of numbers, as `note_of` and `row_of` have them.
pub type Rows = [[u64; 5]; ROWS];

// The number of a fate, by the order of the total's line.
impl From<Fate> for u64 {
    ghost from_gives = { λ f n. n ≡ fate_number (fate_in f) };

    #[tactic(auto, unfolding(crate::specs::Noted::fate_in, records::specs::Rows::fate_number))]
    fn from(fate: Fate) -> u64 {
        match fate {
            Fate::Opened => 1,
            Fate::Answered => 2,
            Fate::Nacked => 3,
            Fate::Expired => 4,
            Fate::Closed => 5,
            Fate::SelfMet => 6,
        }
    }
}

// Notes a row after the first `at`, with the word of a fate, and answers how many rows there are then; past the last row nothing is noted.
pub fn note(
    rows: &mut Rows,
    at: usize,
    face: usize,
    class: u64,
    fate: u64,
    nonce: u64,
    expiry: u64,
) -> usize
    ensures { Noted (lent rows) result at (note_of face class fate nonce expiry ∷ []) }
{
    if at < ROWS {
        rows[at] = [face as u64, class, fate, nonce, expiry];
        at + 1
    } else {
        at
    }
}

// Notes a happening.
pub fn note_fate(
    rows: &mut Rows,
    at: usize,
    face: usize,
    class: u64,
    fate: Fate,
    nonce: u64,
    expiry: u64,
) -> usize
    ensures { Noted (lent rows) result at (note_of face class (fate_number (fate_in fate)) nonce expiry ∷ []) }
{
    note(rows, at, face, class, u64::from(fate), nonce, expiry)
}
