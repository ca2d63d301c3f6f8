// What the tables' rows share: a row's first bytes, and a count that is cut at the table's size.
#![tactic(auto)]

ghost use Rattle.std.specs.Prelude.{◌≡◌, min, take};

// Whether what was to be put into a table fits, and how many rows there are then.
#[derive(Clone, Copy)]
pub struct Changed {
    pub fits: bool,
    pub count: usize,
}

// The first bytes of a row, as many as a length word says, all of them where it says more.
pub fn part(row: &[u8], len: u64) -> &[u8]
    ensures { result.now ≡ take len row.now }
{
    &row[..clamped(len as usize, row.len())]
}

// How many there are: a count past the size is the size. A function of its own, since the theorem `clamped_one` is about it.
pub fn clamped(count: usize, most: usize) -> usize
    ensures { result ≡ min count most }
{
    count.min(most)
}
