// The header: what came is a bare packet, or an LpPacket that holds one, with a Nack or without.
ghost use Rattle.std.specs.Prelude.{◌≡◌, ◌+◌, ◌^◌, ◌<◌, length};
ghost use Rattle.packethead.specs.Places.Header.{part_at, bytes_at, header_from, header_in};
ghost use Rattle.packethead.specs.Header.{whole_number, lp_read, header_read};

use answers::Answer;
use grammar::{Place, order, types};
use wire::Cursor;

// Where the bare packet stands, the reason of the Nack that it came with, if it came with one, and whether the header has an element
// that is 6.
#[derive(Clone, Copy)]
pub struct Part {
    pub from: usize,
    pub len: usize,
    pub nack: Option<u64>,
    pub marked: bool,
}

// The bytes at a place of s, as a part of s; none where the place does not lie within s.
pub fn part_at(s: &[u8], p: Place) -> &[u8]
    ensures { result.now ≡ part_at s.now p }
{
    let at = p.at;
    if s.len() < at || s.len() - at < p.len {
        return &[];
    }
    &s[at..at + p.len]
}

// The bytes of an element that a walk over s looked for, as a part of s; none where it is not there.
#[tactic(auto, unfolding(crate::specs::Places::Header::bytes_at))]
pub fn bytes_at(s: &[u8], p: Option<Place>) -> &[u8]
    ensures { result.now ≡ bytes_at s.now p }
{
    match p {
        None => &[],
        Some(p) => part_at(s, p),
    }
}

// The whole number that fills s, or 0 where s has another length, as the definition `whole_number` says.
pub fn whole_of(s: &[u8]) -> u64
    ensures { result ≡ whole_number s.now }
{
    wire::whole_number(s).unwrap_or(0)
}

// The value of an LpPacket, which stands at base in the packet that came.
fn read_lp(s: &[u8], base: usize) -> Result<Part, Answer>
    requires { base + length s.now < 2 ^ 64 }
    ensures { result ≡ header_from base (length s.now) (lp_read s.now) }
{
    let f = grammar::walk(s, types::LP_PACKET);
    if f.said.is_malformed() {
        return Err(Answer::Malformed);
    }
    let nack = f.places[order::NACK];
    let held = bytes_at(s, nack);
    let k = grammar::walk(held, types::NACK);
    if k.said.is_malformed() {
        return Err(Answer::Malformed);
    }
    let fragment = f.places[order::FRAGMENT].ok_or(Answer::Unsupported)?;
    let reason = whole_of(bytes_at(held, k.places[order::NACK_REASON]));
    Ok(Part {
        from: base + fragment.at,
        len: fragment.len,
        nack: nack.map(|_| reason),
        marked: f.said.is_unsupported(),
    })
}

// A packet as it came: "over 1,500 (4)", then its outer element, "the packet at the last byte".
pub fn read_header(s: &[u8]) -> Result<Part, Answer>
    ensures { result ≡ header_in (length s.now) (header_read s.now) }
{
    if sizes::PACKET < s.len() {
        return Err(Answer::TooLong);
    }
    let (e, next) = (Cursor { at: 0 }).element(s).ok_or(Answer::Malformed)?;
    if next.at < s.len() {
        return Err(Answer::Malformed);
    }
    let row = grammar::row_of(grammar::OUTER, e.typ).ok_or(Answer::Malformed)?;
    if row.order == order::LP_PACKET {
        return read_lp(&s[e.at..e.at + e.len], e.at);
    }
    Ok(Part {
        from: 0,
        len: s.len(),
        nack: None,
        marked: false,
    })
}
