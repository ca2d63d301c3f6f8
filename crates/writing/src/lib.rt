// Packets written into a lent buffer: the Nack, the Interest with its HopLimit lowered, and the Data.
// A function `write_..` looks whether there is room; a function `store_..` is called where there is, and says where what it stored ends.
#![tactic(auto)]

ghost use Rattle.std.specs.Prelude.{◌≡◌, ℕ, ◌+◌, ◌-◌, ◌%◌, ◌^◌, ◌≤◌, ◌<◌, List, length, set, ltb};
ghost use Rattle.laws.specs.Pick.{pick};
ghost use Rattle.wire.specs.Write.{bytes_of, head_of, written};
ghost use Rattle.wire.specs.Places.Write.{outcome, wrote};
ghost use Rattle.writing.specs.Written.{flag, request_value, request_bytes, reason_bytes, nack_value, nack_bytes};
ghost use Rattle.packets.specs.Places.View.{lowered};
ghost use Rattle.grammar.specs.Types as types;
ghost use Rattle.writing.specs.Places.Stored.{Room, Stored};

use grammar::types;
use packets::HopLimit;

// The types that are written, as the `u64` that an element's head takes. By `as`: a constant's value may call no conversion.
const INTEREST: u64 = types::INTEREST as u64;

const NAME: u64 = types::NAME as u64;

const NONCE: u64 = types::NONCE as u64;

const MUST_BE_FRESH: u64 = types::MUST_BE_FRESH as u64;

const CAN_BE_PREFIX: u64 = types::CAN_BE_PREFIX as u64;

const FRAGMENT: u64 = types::FRAGMENT as u64;

const LP_PACKET: u64 = types::LP_PACKET as u64;

const NACK: u64 = types::NACK as u64;

const NACK_REASON: u64 = types::NACK_REASON as u64;

// How many bytes a Nonce has.
const NONCE_LEN: usize = 4;

// The Interest that a Nack gives back: its Name, its two flags and its Nonce.
#[derive(Clone, Copy)]
pub struct Request<'a> {
    pub name: &'a [u8],
    pub prefix: bool,
    pub fresh: bool,
    pub nonce: u64,
}

// How many bytes an element takes whose value has `len` bytes.
fn element_len(typ: u64, len: usize) -> usize
    requires { len + 18 < 2 ^ 64 }
    ensures { (value : List ℕ) → length value ≡ len → length (written typ value) ≡ result }
{
    wire::width_of(typ) + wire::width_of(len as u64) + len
}

// How many bytes a flag takes.
fn flag_len(typ: u64, on: bool) -> usize
    ensures { length (flag typ on) ≡ result }
{
    if on { element_len(typ, 0) } else { 0 }
}

// How many bytes the NackReason takes.
fn reason_len(reason: u8) -> usize
    ensures { length (reason_bytes reason) ≡ result }
{
    if reason == 0 {
        0
    } else {
        element_len(NACK_REASON, 1)
    }
}

// How many bytes the value of the LpPacket takes.
fn nack_len(reason: u8, request: Request) -> usize
    ensures { let r = request.entry in length (nack_value reason r.name.now r.prefix r.fresh r.nonce) ≡ result }
{
    element_len(NACK, reason_len(reason)) + element_len(FRAGMENT, request.len())
}

// An element's head. There is room for it, so that `at` is never what `unwrap_or` answers.
fn store_head(buf: &mut [u8], at: usize, typ: u64, len: usize) -> usize
    requires { Room buf.old at (head_of typ len) }
    ensures { Stored buf.old at (head_of typ len) buf.new result }
{
    wire::put_head(buf, at, typ, len as u64).unwrap_or(at)
}

// The bytes of `src`, for which there is room too.
fn store_bytes(buf: &mut [u8], at: usize, src: &[u8]) -> usize
    requires { Room buf.old at src.now }
    ensures { Stored buf.old at src.now buf.new result }
{
    wire::put_bytes(buf, at, src).unwrap_or(at)
}

// An element.
fn store_element(buf: &mut [u8], at: usize, typ: u64, value: &[u8]) -> usize
    requires { Room buf.old at (written typ value.now) }
    ensures { Stored buf.old at (written typ value.now) buf.new result }
{
    let from = store_head(buf, at, typ, value.len());
    store_bytes(buf, from, value)
}

// An element of length 0 where a flag is set.
fn store_flag(buf: &mut [u8], at: usize, typ: u64, on: bool) -> usize
    requires { Room buf.old at (flag typ on) }
    ensures { Stored buf.old at (flag typ on) buf.new result }
{
    if on { store_head(buf, at, typ, 0) } else { at }
}

// The Nonce: four bytes, the highest first.
fn store_nonce(buf: &mut [u8], at: usize, nonce: u64) -> usize
    requires { Room buf.old at (written 0x0A (bytes_of 4 nonce)) }
    ensures { Stored buf.old at (written 0x0A (bytes_of 4 nonce)) buf.new result }
{
    let bytes = nonce.to_be_bytes();
    store_element(buf, at, NONCE, &bytes[bytes.len() - NONCE_LEN..])
}

impl Request<'_> {
    // How many bytes the Interest's value takes.
    fn value_len(self) -> usize
        ensures { let r = self.entry in length (request_value r.name.now r.prefix r.fresh r.nonce) ≡ result }
    {
        let flags = flag_len(CAN_BE_PREFIX, self.prefix) + flag_len(MUST_BE_FRESH, self.fresh);
        element_len(NAME, self.name.len()) + flags + element_len(NONCE, NONCE_LEN)
    }

    // How many bytes the Interest takes.
    fn len(self) -> usize
        ensures { let r = self.entry in length (request_bytes r.name.now r.prefix r.fresh r.nonce) ≡ result }
    {
        element_len(INTEREST, self.value_len())
    }

    // The Interest's value: Name, flags and Nonce.
    fn store_value(self, buf: &mut [u8], at: usize) -> usize
        requires { Room buf.old at (request_value self.name.now self.prefix self.fresh self.nonce) }
        ensures { let r = self.entry in Stored buf.old at (request_value r.name.now r.prefix r.fresh r.nonce) buf.new result }
    {
        let first = store_element(buf, at, NAME, self.name);
        let second = store_flag(buf, first, CAN_BE_PREFIX, self.prefix);
        let third = store_flag(buf, second, MUST_BE_FRESH, self.fresh);
        store_nonce(buf, third, self.nonce)
    }

    // The Interest.
    fn store(self, buf: &mut [u8], at: usize) -> usize
        requires { Room buf.old at (request_bytes self.name.now self.prefix self.fresh self.nonce) }
        ensures { let r = self.entry in Stored buf.old at (request_bytes r.name.now r.prefix r.fresh r.nonce) buf.new result }
    {
        let from = store_head(buf, at, INTEREST, self.value_len());
        self.store_value(buf, from)
    }

    // The Fragment, which holds the Interest.
    fn store_fragment(self, buf: &mut [u8], at: usize) -> usize
        requires { Room buf.old at (written types.fragment (request_bytes self.name.now self.prefix self.fresh self.nonce)) }
        ensures { let r = self.entry in
            Stored buf.old at (written types.fragment (request_bytes r.name.now r.prefix r.fresh r.nonce)) buf.new result }
    {
        let from = store_head(buf, at, FRAGMENT, self.len());
        self.store(buf, from)
    }
}

// The NackReason, left out for reason 0.
fn store_reason(buf: &mut [u8], at: usize, reason: u8) -> usize
    requires { Room buf.old at (reason_bytes reason) }
    ensures { Stored buf.old at (reason_bytes reason) buf.new result }
{
    if reason == 0 {
        at
    } else {
        store_element(buf, at, NACK_REASON, &[reason])
    }
}

// The element Nack, which holds the NackReason.
fn store_cause(buf: &mut [u8], at: usize, reason: u8) -> usize
    requires { Room buf.old at (written types.nack (reason_bytes reason)) }
    ensures { Stored buf.old at (written types.nack (reason_bytes reason)) buf.new result }
{
    let from = store_head(buf, at, NACK, reason_len(reason));
    store_reason(buf, from, reason)
}

// The LpPacket: its value is the element Nack, and then the Fragment.
fn store_nack(buf: &mut [u8], at: usize, reason: u8, request: Request) -> usize
    requires { Room buf.old at (nack_bytes reason request.name.now request.prefix request.fresh request.nonce) }
    ensures { let r = request.entry in Stored buf.old at (nack_bytes reason r.name.now r.prefix r.fresh r.nonce) buf.new result }
{
    let from = store_head(buf, at, LP_PACKET, nack_len(reason, request));
    let fragment = store_cause(buf, from, reason);
    request.store_fragment(buf, fragment)
}

// "A Nack is written as LpPacket with Nack, NackReason (left out for reason 0), and an Interest of Name, the two flags and Nonce only."
pub fn write_nack(buf: &mut [u8], at: usize, reason: u8, request: Request) -> Option<usize>
    ensures { let r = request.entry in
        outcome result buf.new ≡ wrote buf.old at (nack_bytes reason r.name.now r.prefix r.fresh r.nonce) }
{
    let len = element_len(LP_PACKET, nack_len(reason, request));
    if !wire::fits(buf.len(), at, len) {
        return None;
    }
    Some(store_nack(buf, at, reason, request))
}

// "The Interest leaves as it came without its Lp header, HopLimit one lower."
pub fn write_interest(
    buf: &mut [u8],
    at: usize,
    bare: &[u8],
    hop: Option<HopLimit>,
) -> Option<usize>
    ensures { outcome result buf.new ≡ wrote buf.old at (lowered bare.now hop) }
{
    let end = wire::put_bytes(buf, at, bare)?;
    if let Some(hop) = hop {
        lower(buf, at, bare.len(), hop);
    }
    Some(end)
}

// One lower, the HopLimit of an Interest of `len` bytes that stands at `at`.
fn lower(buf: &mut [u8], at: usize, len: usize, hop: HopLimit)
    requires { at + len ≤ length buf.old }
    ensures { buf.new ≡ pick (ltb hop.at len) (set buf.old (at + hop.at) ((hop.limit - 1) % 256)) buf.old }
{
    if hop.at < len {
        buf[at + hop.at] = (hop.limit.saturating_sub(1) % 256) as u8;
    }
}

// "Data leaves without its Lp header."
pub fn write_data(buf: &mut [u8], at: usize, bare: &[u8]) -> Option<usize>
    ensures { outcome result buf.new ≡ wrote buf.old at bare.now }
{
    wire::put_bytes(buf, at, bare)
}
