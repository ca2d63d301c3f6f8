// The order of the pending table's rows, which stay in place: which rows are used is a word's bits, and the order of opening is told by a
// number for each row.
#![tactic(auto)]

ghost use Rattle.std.specs.Prelude.{max, ◌≡◌};
ghost use Rattle.std.specs.Iterator.{at_most};
ghost use Rattle.laws.specs.Pick.{pick};
ghost use Rattle.laws.specs.Digits.{member, removed};
ghost use Rattle.sizes.specs.Sizes.{most_entries};
ghost use Rattle.pending_order.specs.Order.{rows_of};
ghost use Rattle.pending_order.specs.Places.Gives.{Gives};
ghost use Rattle.pending_order.specs.Places.Rows.{least_of, above_of, numbered, free_of, better, next_in, Fresh, Opens};

use sizes::ENTRIES;

// The number of each row, lent by the caller.
pub type Numbers = [u64; ENTRIES];

// Whether a set has a row. This function and `remove` stay beside those of `faces`: rows count from 0 and there are 64, faces count from 1
// and there are 16.
pub fn has(set: u64, row: usize) -> bool
    ensures { result ≡ member row set }
{
    row < ENTRIES && (set >> row) % 2 == 1
}

// The set without a row; a number that is no row changes nothing.
pub fn remove(set: u64, row: usize) -> u64
    ensures { result ≡ removed row set }
{
    if has(set, row) { set - (1 << row) } else { set }
}

// The rows of a set, the lowest first.
#[derive(Clone, Copy, Debug)]
pub struct RowWalk {
    left: u64,
}

impl RowWalk {
    // The rows of a set.
    pub fn of(set: u64) -> RowWalk
        ensures { result.left ≡ set }
    {
        RowWalk { left: set }
    }
}

impl Iterator for RowWalk {
    type Item = usize;

    ghost next_gives = { Gives };

    ghost remaining = { λ s. at_most s.left };

    // The lowest row that is left, which is taken out: the trailing zeros tell it.
    fn next(&mut self) -> Option<usize> {
        let row = self.left.trailing_zeros() as usize;
        if ENTRIES <= row {
            return None;
        }
        self.left = remove(self.left, row);
        Some(row)
    }
}

// The set with or without a row: a walk that chooses rows leaves out those that its test fails of.
#[tactic(auto, unfolding(laws::specs::Pick::pick))]
pub fn kept(set: u64, row: usize, stays: bool) -> u64
    ensures { result ≡ pick stays set (removed row set) }
{
    if stays { set } else { remove(set, row) }
}

// Of two rows the one that was opened first: the best so far, or another row, which stands after it. A number that is no row is not better.
#[tactic(auto, unfolding(crate::specs::Places::Rows::better, laws::specs::Pick::pick))]
pub fn better_row(numbers: &Numbers, best: usize, row: usize) -> usize
    ensures { result ≡ better most_entries numbers.now best row }
{
    if ENTRIES <= row || (best < ENTRIES && numbers[best] <= numbers[row]) {
        best
    } else {
        row
    }
}

// The row of a mask that was opened first, ENTRIES where there is none.
pub fn least(numbers: &Numbers, mask: u64) -> usize
    ensures { result ≡ least_of most_entries numbers.now mask }
{
    let mut best = ENTRIES;
    for row in RowWalk::of(mask) {
        best = better_row(numbers, best, row);
    }
    best
}

// The larger of two numbers: std's `max`. The theorem `larger_one` is about it.
pub fn larger(a: u64, b: u64) -> u64
    ensures { result ≡ max a b }
{
    a.max(b)
}

// One more than the largest number of the used rows, 0 where there are none.
pub fn next_number(numbers: &Numbers, used: u64) -> Option<u64>
    ensures { result ≡ next_in (above_of most_entries numbers.now used) }
{
    if used == 0 {
        return Some(0);
    }
    let mut most = 0;
    for row in RowWalk::of(used) {
        most = most.max(numbers[row]);
    }
    most.checked_add(1)
}

// Numbers the used rows anew, in their order: 0, 1, 2 ..
// Their order is that of opening and not that of the rows, so that each turn asks for the first of those that are left.
pub fn renumber(numbers: &mut Numbers, used: u64)
    ensures { numbers.new ≡ numbered numbers.old 0 (rows_of most_entries numbers.old used) }
{
    let mut left = used;
    let mut next = 0;
    let mut row = least(numbers, left);
    while row < ENTRIES {
        left = remove(left, row);
        numbers[row] = next;
        next += 1;
        row = least(numbers, left);
    }
}

// The lowest row that is not used, ENTRIES where all are.
pub fn free(used: u64) -> usize
    ensures { result ≡ free_of most_entries used }
{
    (!used).trailing_zeros() as usize
}

// A number above those of the used rows, which are numbered anew where the largest number is taken.
fn fresh_number(numbers: &mut Numbers, used: u64) -> u64
    ensures { Fresh most_entries numbers.old numbers.new used result }
{
    match next_number(numbers, used) {
        Some(number) => number,
        None => {
            renumber(numbers, used);
            ENTRIES as u64
        }
    }
}

// A row that was opened, ENTRIES where there was none free, and the used rows then.
#[derive(Clone, Copy, Debug, PartialEq, Eq)]
pub struct OpenedRow {
    pub row: usize,
    pub used: u64,
}

// Opens the lowest free row, as the last.
pub fn open_row(numbers: &mut Numbers, used: u64) -> OpenedRow
    ensures { Opens most_entries numbers.old numbers.new used result.row result.used }
{
    let row = free(used);
    if row < ENTRIES {
        numbers[row] = fresh_number(numbers, used);
        OpenedRow {
            row,
            used: used | (1 << row),
        }
    } else {
        OpenedRow { row, used }
    }
}
