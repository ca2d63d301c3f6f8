// Equality, prefix and canonical order of names.
ghost use Rattle.std.specs.Prelude.{◌≡◌, ◌+◌, ◌≤◌, length};
ghost use Rattle.names.specs.Name.{same_bytes, prefix_of};
ghost use Rattle.names.specs.Order.{lexical, component_order, canonical_order};
ghost use Rattle.names.specs.Places.Order.{component_at};

use std::cmp::Ordering;
use wire::{Cursor, Element};

// Whether two names have the same bytes.
pub fn same(a: &[u8], b: &[u8]) -> bool
    ensures { result ≡ same_bytes a.now b.now }
{
    a == b
}

// Whether a is a prefix of b.
pub fn is_prefix(a: &[u8], b: &[u8]) -> bool
    ensures { result ≡ prefix_of a.now b.now }
{
    b.starts_with(a)
}

// Bytes in order: the first that differ decide, and the shorter comes first where none do.
pub fn compare_bytes(a: &[u8], b: &[u8]) -> Ordering
    ensures { result ≡ lexical a.now b.now }
{
    a.cmp(b)
}

// "component type, length, bytes": the components that stand in a and in b.
fn compare_components(a: &[u8], x: Element, b: &[u8], y: Element) -> Ordering
    requires { (x.at + x.len ≤ length a.now) × (y.at + y.len ≤ length b.now) }
    ensures { result ≡ component_order (component_at a.now x) (component_at b.now y) }
{
    let v = &a[x.at..x.at + x.len];
    let w = &b[y.at..y.at + y.len];
    x.typ
        .cmp(&y.typ)
        .then(x.len.cmp(&y.len))
        .then_with(|| compare_bytes(v, w))
}

// "canonical order (component type, length, bytes; a prefix first)"
pub fn compare(a: &[u8], b: &[u8]) -> Ordering
    ensures { result ≡ canonical_order a.now b.now }
{
    let mut i = Cursor { at: 0 };
    let mut j = Cursor { at: 0 };
    // A `loop`, since in each name a component says where the next one begins.
    loop {
        match (i.element(a), j.element(b)) {
            (None, None) => return Ordering::Equal,
            (None, Some(_)) => return Ordering::Less,
            (Some(_), None) => return Ordering::Greater,
            (Some((x, c)), Some((y, d))) => match compare_components(a, x, b, y) {
                Ordering::Equal => {
                    i = c;
                    j = d;
                }
                decided => return decided,
            },
        }
    }
}
