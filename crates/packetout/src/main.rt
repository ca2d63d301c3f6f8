// Reads packets from standard input and prints what each means, one line a packet.
//
// The input, at most 65,536 bytes, is groups of a length, as a tape writes numbers, and a packet of that many bytes. A line is the
// packet's position, its answer, and where that is 0 the kind and fields. An unreadable group prints `bad` and its offset and ends the run.
// A read or a write that fails ends it with that error.
#![tactic(auto)]

ghost use Rattle.std.specs.Prelude.{length};
ghost use Rattle.packetout.specs.Places.Group.{GroupIn};

use answers::Answer;
use packets::{HopLimit, Interest, Packet};
use std::io;
use std::io::{BufWriter, Read, Write};

// The most bytes that an input has.
const MOST: usize = 65536;

// "kind (1 Interest, 2 Data, 3 Nack)"
#[derive(Clone, Copy)]
enum Kind {
    Interest = 1,
    Data = 2,
    Nack = 3,
}

// Where the packet of the group at a place stands, from and to, if the group is readable.
fn group_at(s: &[u8], at: usize) -> Option<(usize, usize)>
    ensures { GroupIn (length s.now) at result }
{
    let (n, from) = tape::number_at(s, at)?;
    if from <= at {
        return None;
    }
    let left = s.len().checked_sub(from)?;
    if (left as u64) < n {
        return None;
    }
    Some((from, from + n as usize))
}

// A number after a space.
fn word(out: &mut impl Write, n: u64) -> io::Result<()> {
    write!(out, " {n}")
}

// Bytes in lower-case hex after a space, `-` where there are none.
fn hex(out: &mut impl Write, s: &[u8]) -> io::Result<()> {
    out.write_all(b" ")?;
    if s.is_empty() {
        out.write_all(b"-")?;
    }
    for b in s {
        write!(out, "{b:02x}")?;
    }
    Ok(())
}

// A flag as 1 or 0.
fn flag(out: &mut impl Write, b: bool) -> io::Result<()> {
    word(out, u64::from(b))
}

// Name, flags and nonce of the Interest in s.
fn request(out: &mut impl Write, s: &[u8], i: Interest) -> io::Result<()> {
    hex(out, packethead::find_name(s))?;
    flag(out, i.can_be_prefix)?;
    flag(out, i.must_be_fresh)?;
    let nonce = i.nonce;
    write!(out, " {nonce:08x}")
}

// The HopLimit, `-` where there is none.
fn limit(out: &mut impl Write, h: Option<HopLimit>) -> io::Result<()> {
    match h {
        None => out.write_all(b" -"),
        Some(h) => word(out, h.limit),
    }
}

// A packet's answer.
fn answer(out: &mut impl Write, a: Answer) -> io::Result<()> {
    word(out, u64::from(a))
}

// The bare packet s: kind and fields.
fn meaning(out: &mut impl Write, s: &[u8], p: Packet) -> io::Result<()> {
    match p {
        Packet::Interest(i) => {
            word(out, Kind::Interest as u64)?;
            request(out, s, i)?;
            word(out, i.lifetime)?;
            limit(out, i.hop)
        }
        Packet::Data(d) => {
            word(out, Kind::Data as u64)?;
            hex(out, packethead::find_name(s))?;
            word(out, d.freshness)
        }
        Packet::Nack(reason, i) => {
            word(out, Kind::Nack as u64)?;
            word(out, reason)?;
            request(out, s, i)
        }
    }
}

// The packet s, as it came.
fn packet(out: &mut impl Write, s: &[u8]) -> io::Result<()> {
    match packethead::read_header(s) {
        Err(a) => answer(out, a),
        Ok(part) => {
            if s.len() < part.from || s.len() - part.from < part.len {
                return Ok(());
            }
            let bare = &s[part.from..part.from + part.len];
            match packets::read_bare(bare, part.nack, part.marked) {
                Err(a) => answer(out, a),
                Ok(p) => {
                    answer(out, Answer::Done)?;
                    meaning(out, bare, p)
                }
            }
        }
    }
}

// The groups of the input, one after the other.
fn groups(out: &mut impl Write, s: &[u8]) -> io::Result<()> {
    let mut at: usize = 0;
    let mut position: u64 = 1;
    // A `while`, since a group begins where the one before it ends.
    while at < s.len() {
        let Some((from, to)) = group_at(s, at) else {
            return writeln!(out, "bad {at}");
        };
        write!(out, "{position}")?;
        packet(out, &s[from..to])?;
        writeln!(out)?;
        position += 1;
        at = to;
    }
    Ok(())
}

fn main(rt: HostRuntime) -> io::Result<()> {
    let mut input = Vec::new(rt.alloc());
    rt.reader().take(MOST as u64 + 1).read_to_end(&mut input)?;
    let mut out = BufWriter::new(rt.alloc(), io::writer(&rt))?;
    if MOST < input.len() {
        out.write_all(b"too long\n")?;
    } else {
        groups(&mut out, input.as_slice())?;
    }
    out.flush()
}
