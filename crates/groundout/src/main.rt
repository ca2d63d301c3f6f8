// Runs numbers, elements and names from standard input through the proved functions, and prints a line for each.
//
// The input, of which 65,536 bytes are read, is groups: a byte that says what to do, and one or two fields, each a length of two bytes,
// the higher first, and that many bytes. An unreadable group ends the run. A read or a write that fails ends it with that error.
#![tactic(auto)]

ghost use Rattle.std.specs.Prelude.{◌<◌, length, IfOk};
ghost use Rattle.groundout.specs.Places.Group.{FieldIn, Ahead};

use names::FNV_START;
use std::cmp::Ordering;
use std::io;
use std::io::{BufWriter, Read, Write};
use wire::{Cursor, Verdict};

// The most bytes of the input that are read.
const MOST: u64 = 65536;

// What is asked of one field.
#[derive(Clone, Copy)]
enum OfOne {
    Number,
    Element,
    Components,
    Scope,
    Hash,
    Written,
}

// What is asked of two fields.
#[derive(Clone, Copy)]
enum OfTwo {
    Names,
    Fingerprint,
}

// What a group asks.
#[derive(Clone, Copy)]
enum Kind {
    One(OfOne),
    Two(OfTwo),
}

// What a group asks whose first byte is b.
fn kind_of(b: u8) -> Option<Kind> {
    match b {
        1 => Some(Kind::One(OfOne::Number)),
        2 => Some(Kind::One(OfOne::Element)),
        3 => Some(Kind::One(OfOne::Components)),
        4 => Some(Kind::Two(OfTwo::Names)),
        5 => Some(Kind::One(OfOne::Scope)),
        6 => Some(Kind::Two(OfTwo::Fingerprint)),
        7 => Some(Kind::One(OfOne::Hash)),
        8 => Some(Kind::One(OfOne::Written)),
        _ => None,
    }
}

// Where the bytes of the field begin and end whose length stands at a place.
fn field_at(s: &[u8], at: usize) -> Option<(usize, usize)>
    ensures { FieldIn (length s.now) at result }
{
    if s.len() <= at {
        return None;
    }
    if s.len() - at < 2 {
        return None;
    }
    let n = usize::from(u16::from_be_bytes([s[at], s[at + 1]]));
    let from = at + 2;
    if s.len() - from < n {
        return None;
    }
    Some((from, from + n))
}

// A number after a space.
fn word(out: &mut impl Write, n: u64) -> io::Result<()> {
    write!(out, " {n}")
}

// The word of a fault.
fn bad(out: &mut impl Write) -> io::Result<()> {
    write!(out, " bad")
}

// 1: the number at the start.
fn number(out: &mut impl Write, s: &[u8]) -> io::Result<()> {
    let Some((v, next)) = (Cursor { at: 0 }).number(s) else {
        return bad(out);
    };
    word(out, v)?;
    word(out, next.at as u64)
}

// 2: the element at the start.
fn element(out: &mut impl Write, s: &[u8]) -> io::Result<()> {
    let Some((e, next)) = (Cursor { at: 0 }).element(s) else {
        return bad(out);
    };
    word(out, e.typ)?;
    word(out, e.at as u64)?;
    word(out, e.len as u64)?;
    word(out, next.at as u64)
}

// 3: what a name's bytes say: 5 malformed, 6 unsupported, or 0 fine, and how many components they are.
fn components(out: &mut impl Write, s: &[u8]) -> io::Result<()> {
    let c = names::count_components(s);
    match c.said {
        Verdict::Malformed => word(out, 5),
        Verdict::Unsupported => word(out, 6),
        Verdict::Fine => {
            word(out, 0)?;
            word(out, c.count as u64)
        }
    }
}

// 4: two names: whether they are the same, whether the first is a prefix of the second, and their order,
// 0 before, 1 the same, 2 after.
fn pair(out: &mut impl Write, a: &[u8], b: &[u8]) -> io::Result<()> {
    word(out, u64::from(names::same(a, b)))?;
    word(out, u64::from(names::is_prefix(a, b)))?;
    match names::compare(a, b) {
        Ordering::Less => word(out, 0),
        Ordering::Equal => word(out, 1),
        Ordering::Greater => word(out, 2),
    }
}

// 5: a name's scope: 1 under /localhost, 2 under /localhop, else 0.
fn scope(out: &mut impl Write, s: &[u8]) -> io::Result<()> {
    if names::under_localhost(s) {
        word(out, 1)
    } else if names::under_localhop(s) {
        word(out, 2)
    } else {
        word(out, 0)
    }
}

// 2^56: the values of the seven bytes that stay where one more follows.
const SEVEN_BYTES: u64 = 72057594037927936;

// The number that the first n bytes of s make, the highest first, modulo 2^64.
fn big(s: &[u8], n: usize) -> u64 {
    s.iter()
        .take(n)
        .fold(0, |v, b| v % SEVEN_BYTES * 256 + u64::from(*b))
}

// 6: the fingerprint of a name and a nonce.
fn fingerprint(out: &mut impl Write, name: &[u8], nonce: &[u8]) -> io::Result<()> {
    word(out, names::fingerprint_from(FNV_START, name, big(nonce, 4)))
}

// 8: the bytes of a number in its shortest form.
fn written(out: &mut impl Write, s: &[u8]) -> io::Result<()> {
    let mut buf = [0u8; 9];
    let Some(n) = wire::put_number(&mut buf, 0, big(s, 8)) else {
        return bad(out);
    };
    for b in buf.iter().take(n) {
        word(out, u64::from(*b))?;
    }
    Ok(())
}

// The answer to what is asked of one field.
fn one(out: &mut impl Write, asked: OfOne, s: &[u8]) -> io::Result<()> {
    match asked {
        OfOne::Number => number(out, s),
        OfOne::Element => element(out, s),
        OfOne::Components => components(out, s),
        OfOne::Scope => scope(out, s),
        OfOne::Hash => word(out, names::fnv_from(FNV_START, s)),
        OfOne::Written => written(out, s),
    }
}

// The answer to what is asked of two fields.
fn two(out: &mut impl Write, asked: OfTwo, a: &[u8], b: &[u8]) -> io::Result<()> {
    match asked {
        OfTwo::Names => pair(out, a, b),
        OfTwo::Fingerprint => fingerprint(out, a, b),
    }
}

// The group at a place: its line, and where the next group begins, or nothing where it is unreadable.
fn group(out: &mut impl Write, s: &[u8], at: usize) -> io::Result<Option<usize>>
    requires { at < length s.now }
    ensures { IfOk result (Ahead (length s.now) at) }
{
    let what = s[at];
    let Some(kind) = kind_of(what) else {
        return Ok(None);
    };
    let Some((a, b)) = field_at(s, at + 1) else {
        return Ok(None);
    };
    let end = match kind {
        Kind::One(asked) => {
            write!(out, "{what}")?;
            one(out, asked, &s[a..b])?;
            b
        }
        Kind::Two(asked) => {
            let Some((c, d)) = field_at(s, b) else {
                return Ok(None);
            };
            write!(out, "{what}")?;
            two(out, asked, &s[a..b], &s[c..d])?;
            d
        }
    };
    writeln!(out)?;
    Ok(Some(end))
}

// The groups of the input, one after the other.
fn groups(out: &mut impl Write, s: &[u8]) -> io::Result<()> {
    let mut at = 0;
    // A `while`, since a group begins where the one before it ends.
    while at < s.len() {
        let Some(next) = group(out, s, at)? else {
            return writeln!(out, "bad {at}");
        };
        at = next;
    }
    Ok(())
}

fn main(rt: HostRuntime) -> io::Result<()> {
    let mut input = Vec::new(rt.alloc());
    rt.reader().take(MOST).read_to_end(&mut input)?;
    let mut out = BufWriter::new(rt.alloc(), io::writer(&rt))?;
    groups(&mut out, input.as_slice())?;
    out.flush()
}
