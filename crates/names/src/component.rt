// A name's components, and the scope that its first one says.
ghost use Rattle.std.specs.Prelude.{◌≡◌, nat_lt};
ghost use Rattle.names.specs.Name.{counted, first_is, under_localhost, under_localhop};

use crate::order::same;
use wire::{Cursor, Verdict};

// What a name's bytes say, and how many components they are; none where they are malformed.
// The count stands beside the verdict, as in the definition `counted`: a name that is unsupported has a count too.
#[derive(Clone, Copy)]
pub struct Counted {
    pub said: Verdict,
    pub count: usize,
}

// "Component types are 1 to 65,535"
const HIGHEST_TYPE: u64 = 65535;

// "whole first components of type 8"
const GENERIC_TYPE: u64 = 8;

// What bytes that are no Name's value say.
const MALFORMED: Counted = Counted {
    said: Verdict::Malformed,
    count: 0,
};

// Whether a component's type, which is 1 or more, is a marked one: 1 or 2.
fn is_marked(typ: u64) -> bool
    ensures { result ≡ nat_lt typ 3 }
{
    typ < 3
}

// "Component types are 1 to 65,535; types 1 and 2 are 6."
pub fn count_components(name: &[u8]) -> Counted
    ensures { result ≡ counted name.now }
{
    let mut place = Cursor { at: 0 };
    let mut count = 0;
    let mut met = false;
    // A `while`, since a component says where the next one begins.
    while place.at < name.len() {
        let Some((e, next)) = place.element(name) else {
            return MALFORMED;
        };
        if HIGHEST_TYPE < e.typ {
            return MALFORMED;
        }
        met = met || is_marked(e.typ);
        count += 1;
        place = next;
    }
    let said = if met {
        Verdict::Unsupported
    } else {
        Verdict::Fine
    };
    Counted { said, count }
}

// Whether the first component is of type 8 and has the bytes of word: the one comparison of every scope decision.
pub fn first_is(name: &[u8], word: &[u8]) -> bool
    ensures { result ≡ first_is word.now name.now }
{
    let Some((e, _)) = (Cursor { at: 0 }).element(name) else {
        return false;
    };
    e.typ == GENERIC_TYPE && same(&name[e.at..e.at + e.len], word)
}

// Whether the name stands under /localhost.
pub fn under_localhost(name: &[u8]) -> bool
    ensures { result ≡ under_localhost name.now }
{
    first_is(name, b"localhost")
}

// Whether the name stands under /localhop.
pub fn under_localhop(name: &[u8]) -> bool
    ensures { result ≡ under_localhop name.now }
{
    first_is(name, b"localhop")
}
