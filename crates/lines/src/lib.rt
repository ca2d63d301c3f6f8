// The lines that a tape's run prints, written into a lent buffer: a line that fits is written whole, and one that does not fit leaves the
// buffer as it was. A writer answers the place past its line, which is the place that it was given where the line does not fit:
// from either the next line can be written.
#![tactic(auto)]

ghost use Rattle.std.specs.Prelude.{◌≡◌, ◌+◌, ◌*◌, ◌<◌, ◌≤◌, length};
ghost use Rattle.lines.specs.Decimal.{decimal};
ghost use Rattle.lines.specs.Lines.{spaced, event_line, send_line, bad_line, total_line, too_long};
ghost use Rattle.lines.specs.Places.Put.{placed, put, Stored, line_of};

use wire::fits;

// The seven numbers of the last line.
#[derive(Clone, Copy, Debug, PartialEq, Eq)]
pub struct Totals {
    pub opened: u64,
    pub answered: u64,
    pub nacked: u64,
    pub expired: u64,
    pub closed: u64,
    pub self_met: u64,
    pub still_open: u64,
}

// How many digits a number has.
fn width(n: u64) -> usize
    ensures { (result ≡ length (decimal n)) × (result ≤ 20) }
{
    let mut w = 1;
    let mut m = n;
    // A `while`, since how many turns there are is what is counted.
    while 10 <= m {
        m /= 10;
        w += 1;
    }
    w
}

// Stores bytes, where there is room for them.
fn store_word(out: &mut [u8], at: usize, word: &[u8]) -> usize
    requires { at + length word.now ≤ length out.old }
    ensures { Stored out.old at word.now out.new result }
{
    let end = at + word.len();
    out[at..end].copy_from_slice(word);
    end
}

// Stores the digits of a number, the last first, where there is room for them.
fn store_decimal(out: &mut [u8], at: usize, n: u64) -> usize
    requires { at + length (decimal n) ≤ length out.old }
    ensures { Stored out.old at (decimal n) out.new result }
{
    let w = width(n);
    let mut m = n;
    // By index, from the last place on: division gives the lowest digit first, and `Stored` speaks of places in `out`.
    for i in (0..w).rev() {
        out[at + i] = b'0' + (m % 10) as u8;
        m /= 10;
    }
    at + w
}

// Stores a space and a number's digits, where there is room for them.
fn store_spaced(out: &mut [u8], at: usize, n: u64) -> usize
    requires { at + length (spaced n) ≤ length out.old }
    ensures { Stored out.old at (spaced n) out.new result }
{
    out[at] = b' ';
    store_decimal(out, at + 1, n)
}

// How many bytes a line takes: a word, numbers, each after a space, and the line's end.
fn line_len(word: &[u8], numbers: &[u64]) -> usize
    requires { length word.now + 21 * length numbers.now + 1 ≤ usize.MAX }
    ensures exact { result ≡ length (line_of word.now numbers.now) }
    ensures short { result ≤ length word.now + 21 * length numbers.now + 1 }
{
    let mut len = word.len() + 1;
    for n in numbers {
        len += 1 + width(*n);
    }
    len
}

// Stores such a line, where there is room for it.
fn store_line(out: &mut [u8], at: usize, word: &[u8], numbers: &[u64]) -> usize
    requires { at + length (line_of word.now numbers.now) ≤ length out.old }
    ensures { Stored out.old at (line_of word.now numbers.now) out.new result }
{
    let mut end = store_word(out, at, word);
    for n in numbers {
        end = store_spaced(out, end, *n);
    }
    store_word(out, end, b"\n")
}

// Such a line, from `at` on.
fn put_line(out: &mut [u8], at: usize, word: &[u8], numbers: &[u64]) -> usize
    requires { length word.now + 21 * length numbers.now + 1 ≤ usize.MAX }
    ensures { placed result out.new ≡ put out.old at (line_of word.now numbers.now) }
{
    if fits(out.len(), at, line_len(word, numbers)) {
        store_line(out, at, word, numbers)
    } else {
        at
    }
}

// A number's digits, from `at` on.
pub fn put_decimal(out: &mut [u8], at: usize, n: u64) -> usize
    ensures { placed result out.new ≡ put out.old at (decimal n) }
{
    if fits(out.len(), at, width(n)) {
        store_decimal(out, at, n)
    } else {
        at
    }
}

// An event's line, from `at` on.
pub fn put_event_line(out: &mut [u8], at: usize, position: u64, answer: u64, sends: u64) -> usize
    ensures { placed result out.new ≡ put out.old at (event_line position answer sends) }
{
    let numbers = [answer, sends];
    if fits(out.len(), at, width(position) + line_len(b"", &numbers)) {
        let next = store_decimal(out, at, position);
        store_line(out, next, b"", &numbers)
    } else {
        at
    }
}

// A send's line, from `at` on.
pub fn put_send_line(out: &mut [u8], at: usize, face: u64, kind: u64, len: u64) -> usize
    ensures { placed result out.new ≡ put out.old at (send_line face kind len) }
{
    put_line(out, at, b">", &[face, kind, len])
}

// The line of an unreadable event, from `at` on.
pub fn put_bad_line(out: &mut [u8], at: usize, offset: u64) -> usize
    ensures { placed result out.new ≡ put out.old at (bad_line offset) }
{
    put_line(out, at, b"bad", &[offset])
}

// The line for a tape that is too long, from `at` on.
pub fn put_too_long(out: &mut [u8], at: usize) -> usize
    ensures { placed result out.new ≡ put out.old at too_long }
{
    put_line(out, at, b"too long", &[])
}

// The last line, from `at` on.
pub fn put_total_line(out: &mut [u8], at: usize, total: Totals) -> usize
    ensures { placed result out.new ≡ put out.old at (total_line total) }
{
    let numbers = [
        total.opened,
        total.answered,
        total.nacked,
        total.expired,
        total.closed,
        total.self_met,
        total.still_open,
    ];
    put_line(out, at, b"total", &numbers)
}
