// The bare packet: an Interest or a Data; with a Nack, an Interest.
ghost use Rattle.std.specs.Prelude.{◌≡◌, ◌+◌, ◌^◌, ◌<◌, length};
ghost use Rattle.grammar.specs.Types as types;
ghost use Rattle.grammar.specs.Walk.{walked};
ghost use Rattle.packets.specs.Bare.{bare_read};
ghost use Rattle.packets.specs.Places.Bare.{interest_in, packet_in};
ghost use Rattle.packets.specs.Places.Bare.{moved_by, lifetime_at, freshness_at, hop_at, nacked_packet, HopFits, IsFound};
ghost use Rattle.packets.specs.Places.Bare.{name_checked, interest_from, data_from};

use answers::Answer;
use grammar::{Found, Place, order, types};
use names::Counted;
use packethead::{bytes_at, part_at, whole_of};
use wire::Cursor;

// A HopLimit, and where it stands.
#[derive(Clone, Copy)]
pub struct HopLimit {
    pub limit: u64,
    pub at: usize,
}

// An Interest: its name's place, the two flags, nonce, lifetime as it counts, and its HopLimit, if it has one.
#[derive(Clone, Copy)]
pub struct Interest {
    pub name: Place,
    pub can_be_prefix: bool,
    pub must_be_fresh: bool,
    pub nonce: u64,
    pub lifetime: u64,
    pub hop: Option<HopLimit>,
}

// A Data: its name's place, and its freshness as it counts.
#[derive(Clone, Copy)]
pub struct Data {
    pub name: Place,
    pub freshness: u64,
}

// What a bare packet is: an Interest, a Data, or a Nack's reason and its Interest. Places are places in it.
#[derive(Clone, Copy)]
pub enum Packet {
    Interest(Interest),
    Data(Data),
    Nack(u64, Interest),
}

// A place in a packet whose value stands at base.
#[tactic(auto, unfolding(crate::specs::Places::Bare::moved_by))]
fn shifted(p: Place, base: usize) -> Place
    requires { base + p.at < 2 ^ 64 }
    ensures { result ≡ moved_by base p }
{
    Place {
        at: base + p.at,
        len: p.len,
    }
}

// "An InterestLifetime above 60,000 counts as 60,000, absent as 4,000."
#[tactic(auto, using(crate::specs::Laws::Bare::capped_min), unfolding(crate::specs::Places::Bare::lifetime_at))]
fn lifetime_of(v: &[u8], p: Option<Place>) -> u64
    ensures { result ≡ lifetime_at v.now p }
{
    match p {
        None => sizes::USUAL_LIFETIME,
        Some(p) => whole_of(part_at(v, p)).min(sizes::MOST_LIFETIME),
    }
}

// "A FreshnessPeriod above 86,400,000 counts as that, absent as 0."
#[tactic(auto, using(crate::specs::Laws::Bare::capped_min), unfolding(crate::specs::Places::Bare::freshness_at))]
fn freshness_of(m: &[u8], p: Option<Place>) -> u64
    ensures { result ≡ freshness_at m.now p }
{
    whole_of(bytes_at(m, p)).min(sizes::MOST_FRESHNESS)
}

// The HopLimit of an Interest whose value stands at base.
#[tactic(auto, unfolding(crate::specs::Places::Bare::hop_at))]
fn hop_of(v: &[u8], p: Option<Place>, base: usize) -> Option<HopLimit>
    requires { HopFits base p }
    ensures { result ≡ hop_at base v.now p }
{
    let p = p?;
    Some(HopLimit {
        limit: whole_of(part_at(v, p)),
        at: base + p.at,
    })
}

// The Interest whose elements were found in its value, which stands at base; its name stands at a place of it.
fn made(v: &[u8], f: Found, name: Place, base: usize) -> Interest
    requires { IsFound types.interest v.now base f name }
    ensures { result ≡ interest_in (base + length v.now) (walked types.interest v.now) }
{
    Interest {
        name: shifted(name, base),
        can_be_prefix: f.places[order::CAN_BE_PREFIX].is_some(),
        must_be_fresh: f.places[order::MUST_BE_FRESH].is_some(),
        nonce: whole_of(bytes_at(v, f.places[order::NONCE])),
        lifetime: lifetime_of(v, f.places[order::LIFETIME]),
        hop: hop_of(v, f.places[order::HOP_LIMIT], base),
    }
}

// An Interest, or the Nack that brought it.
#[tactic(auto, unfolding(crate::specs::Places::Bare::nacked_packet))]
fn with_nack(nack: Option<u64>, i: Interest) -> Packet
    ensures { result ≡ nacked_packet nack i }
{
    match nack {
        None => Packet::Interest(i),
        Some(reason) => Packet::Nack(reason, i),
    }
}

// What the name of a packet refuses whose elements are there: 5 in the name; 6, in the name or already met; then the name's size.
#[tactic(auto, unfolding(crate::specs::Places::Bare::name_checked, laws::specs::Pick::pick))]
fn check_name(name: Place, c: Counted, unsupported: bool) -> Result<(), Answer>
    ensures { result ≡ name_checked name.len c unsupported }
{
    if c.said.is_malformed() {
        return Err(Answer::Malformed);
    }
    if unsupported || c.said.is_unsupported() {
        return Err(Answer::Unsupported);
    }
    if sizes::NAME < name.len || sizes::COMPONENTS < c.count {
        return Err(Answer::TooLong);
    }
    Ok(())
}

// The value of an Interest, which stands at base. "5, 6, name size (4)": 5 anywhere comes first, then 6, in the header too. A name has
// "one component or more".
fn read_interest(v: &[u8], base: usize, nack: Option<u64>, marked: bool) -> Result<Packet, Answer>
    requires { base + length v.now < 2 ^ 64 }
    ensures { result ≡ interest_from nack marked base v.now }
{
    let f = grammar::walk(v, types::INTEREST);
    if f.said.is_malformed() || f.places[order::NONCE].is_none() {
        return Err(Answer::Malformed);
    }
    let name = f.places[order::NAME].ok_or(Answer::Malformed)?;
    let c = names::count_components(part_at(v, name));
    if c.count == 0 {
        return Err(Answer::Malformed);
    }
    check_name(name, c, marked || f.said.is_unsupported())?;
    Ok(with_nack(nack, made(v, f, name, base)))
}

// The value of a Data, which stands at base. Where there is no MetaInfo it has no bytes, and nothing is found in it.
fn read_data(v: &[u8], base: usize, marked: bool) -> Result<Packet, Answer>
    requires { base + length v.now < 2 ^ 64 }
    ensures { result ≡ data_from marked base v.now }
{
    let f = grammar::walk(v, types::DATA);
    if f.said.is_malformed()
        || f.places[order::SIGNATURE_INFO].is_none()
        || f.places[order::SIGNATURE_VALUE].is_none()
    {
        return Err(Answer::Malformed);
    }
    let name = f.places[order::NAME].ok_or(Answer::Malformed)?;
    let held = bytes_at(v, f.places[order::META_INFO]);
    let m = grammar::walk(held, types::META_INFO);
    if m.said.is_malformed() {
        return Err(Answer::Malformed);
    }
    let c = names::count_components(part_at(v, name));
    check_name(name, c, marked)?;
    Ok(Packet::Data(Data {
        name: shifted(name, base),
        freshness: freshness_of(held, m.places[order::FRESHNESS]),
    }))
}

// "A Fragment holds a bare Interest or Data, with Nack an Interest; else 5."
pub fn read_bare(s: &[u8], nack: Option<u64>, marked: bool) -> Result<Packet, Answer>
    ensures { result ≡ packet_in (length s.now) (bare_read nack marked s.now) }
{
    let (e, next) = (Cursor { at: 0 }).element(s).ok_or(Answer::Malformed)?;
    if next.at < s.len() {
        return Err(Answer::Malformed);
    }
    let row = grammar::row_of(types::FRAGMENT, e.typ).ok_or(Answer::Malformed)?;
    let value = &s[e.at..e.at + e.len];
    if row.order == order::INTEREST {
        return read_interest(value, e.at, nack, marked);
    }
    if row.order == order::DATA && nack.is_none() {
        return read_data(value, e.at, marked);
    }
    Err(Answer::Malformed)
}
