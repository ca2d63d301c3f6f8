// Writing into a lent buffer: what fits is written whole, and what does not fit leaves the buffer as it was.
ghost use Rattle.std.specs.Prelude.{◌≡◌, ◌+◌, ◌≤◌, ◌∷◌, length, leb};
ghost use Rattle.std.proofs.lemmas.List.Edits.{sets};
ghost use Rattle.wire.specs.Number.{width_of};
ghost use Rattle.wire.specs.Write.{encoded, head_of};
ghost use Rattle.wire.specs.Places.Write.{outcome, wrote};

use crate::read::width_of;

// The bytes of src, from a place on that has room for them.
fn copy(buf: &mut [u8], at: usize, src: &[u8])
    requires { at + length src.now ≤ length buf.old }
    ensures { buf.new ≡ sets buf.old at src.now }
{
    buf[at..at + src.len()].copy_from_slice(src);
}

// A form of 3, 5 or 9 bytes: the first byte, which says how many follow, and these.
fn put_long(buf: &mut [u8], at: usize, form: u8, bytes: &[u8])
    requires { at + 1 + length bytes.now ≤ length buf.old }
    ensures { buf.new ≡ sets buf.old at (form ∷ bytes.now) }
{
    buf[at] = form;
    copy(buf, at + 1, bytes);
}

// The shortest form of n, where there is room for it.
fn put_shortest(buf: &mut [u8], at: usize, n: u64)
    requires { at + width_of n ≤ length buf.old }
    ensures { buf.new ≡ sets buf.old at (encoded n) }
{
    let bytes = n.to_be_bytes();
    match n {
        0..=252 => buf[at] = bytes[7],
        253..=65535 => put_long(buf, at, 253, &bytes[6..]),
        65536..=4294967295 => put_long(buf, at, 254, &bytes[4..]),
        _ => put_long(buf, at, 255, &bytes),
    }
}

// Whether `len` bytes fit into a buffer of `all` bytes from `at` on.
pub fn fits(all: usize, at: usize, len: usize) -> bool
    ensures { result ≡ leb (at + len) all }
{
    at <= all && len <= all - at
}

// A variable number in its shortest form, from `at` on.
pub fn put_number(buf: &mut [u8], at: usize, n: u64) -> Option<usize>
    ensures { outcome result buf.new ≡ wrote buf.old at (encoded n) }
{
    let width = width_of(n);
    if fits(buf.len(), at, width) {
        put_shortest(buf, at, n);
        Some(at + width)
    } else {
        None
    }
}

// An element's head: its type and the length of its value, from `at` on.
pub fn put_head(buf: &mut [u8], at: usize, typ: u64, len: u64) -> Option<usize>
    ensures { outcome result buf.new ≡ wrote buf.old at (head_of typ len) }
{
    let first = width_of(typ);
    let both = first + width_of(len);
    if fits(buf.len(), at, both) {
        put_shortest(buf, at, typ);
        put_shortest(buf, at + first, len);
        Some(at + both)
    } else {
        None
    }
}

// The bytes of src, from `at` on.
pub fn put_bytes(buf: &mut [u8], at: usize, src: &[u8]) -> Option<usize>
    ensures { outcome result buf.new ≡ wrote buf.old at src.now }
{
    if fits(buf.len(), at, src.len()) {
        copy(buf, at, src);
        Some(at + src.len())
    } else {
        None
    }
}
