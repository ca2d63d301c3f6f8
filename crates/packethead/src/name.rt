// The name finder.
ghost use Rattle.std.specs.Prelude.{◌≡◌};
ghost use Rattle.packethead.specs.Name.{name_in, name_of};

use grammar::types;
use wire::Cursor;

// The value of the first Name among the elements of v, as a part of v; empty where there is none, as a Name of no components is:
// the definition `name_in` answers bytes for both.
fn name_in(v: &[u8]) -> &[u8]
    ensures { result.now ≡ name_in v.now }
{
    let mut cursor = Cursor { at: 0 };
    // A `while`, since an element says where the next one begins.
    while cursor.at < v.len() {
        let Some((e, next)) = cursor.element(v) else {
            return &[];
        };
        if e.typ == u64::from(types::NAME) {
            return &v[e.at..e.at + e.len];
        }
        cursor = next;
    }
    &[]
}

// "The name finder returns the part of the packet slice that holds the Name's value": the Name of a bare Interest or Data.
pub fn find_name(s: &[u8]) -> &[u8]
    ensures { result.now ≡ name_of s.now }
{
    match (Cursor { at: 0 }).element(s) {
        None => &[],
        Some((e, _)) => name_in(&s[e.at..e.at + e.len]),
    }
}
