// Reading: "Types and lengths are TLV variable numbers of 1, 3, 5 or 9 bytes, shortest form only."
ghost use Rattle.std.specs.Prelude.{◌≡◌, ◌≤◌, length};
ghost use Rattle.wire.specs.Number.{big, width_of};
ghost use Rattle.wire.specs.Places.Place.{long_number_at, any_number_at, number_at, element_at, whole_of};

// A place in a slice. The slice is the parent, and its length is where the parent ends.
#[derive(Clone, Copy)]
pub struct Cursor {
    pub at: usize,
}

// An element: its type, and the place and the length of its value.
#[derive(Clone, Copy)]
pub struct Element {
    pub typ: u64,
    pub at: usize,
    pub len: usize,
}

// "Type is 1 to 2^32-1"
const HIGHEST_TYPE: u64 = 4294967295;

// How many bytes the shortest form of n takes.
pub fn width_of(n: u64) -> usize
    ensures { result ≡ width_of n }
{
    match n {
        0..=252 => 1,
        253..=65535 => 3,
        65536..=4294967295 => 5,
        _ => 9,
    }
}

// The number that at most eight bytes make, the highest first.
fn big_of(bytes: &[u8]) -> u64
    requires { length bytes.now ≤ 8 }
    ensures { result ≡ big 0 bytes.now }
{
    let mut n = 0;
    for b in bytes {
        n = n * 256 + u64::from(*b);
    }
    n
}

// "Whole numbers in elements take 1, 2, 4 or 8 bytes."
pub fn whole_number(s: &[u8]) -> Option<u64>
    ensures { result ≡ whole_of s.now }
{
    match s.len() {
        1 | 2 | 4 | 8 => Some(big_of(s)),
        _ => None,
    }
}

impl Cursor {
    // The number whose first byte b, 253 or more, the cursor has passed: b says how many bytes it has.
    fn long_number(self, s: &[u8], b: u64) -> Option<(u64, Cursor)>
        requires { self.at ≤ length s.now }
        ensures { result ≡ long_number_at s.now b self.at }
    {
        let width = match b {
            253 => 2,
            254 => 4,
            _ => 8,
        };
        let bytes = s[self.at..].get(..width)?;
        Some((
            big_of(bytes),
            Cursor {
                at: self.at + width,
            },
        ))
    }

    // A variable number in any of its forms, shortest or not.
    pub fn any_number(self, s: &[u8]) -> Option<(u64, Cursor)>
        ensures { result ≡ any_number_at s.now self.at }
    {
        let b = u64::from(*s.get(self.at)?);
        let next = Cursor { at: self.at + 1 };
        if b < 253 {
            Some((b, next))
        } else {
            next.long_number(s, b)
        }
    }

    // A variable number in its shortest form.
    pub fn number(self, s: &[u8]) -> Option<(u64, Cursor)>
        ensures { result ≡ number_at s.now self.at }
    {
        let (v, next) = self.any_number(s)?;
        if next.at - self.at == width_of(v) {
            Some((v, next))
        } else {
            None
        }
    }

    // An element whose type and length may have any form. It is kept out of `element`, so that that stays small.
    #[inline(never)]
    fn long_element(self, s: &[u8]) -> Option<(Element, Cursor)>
        ensures { result ≡ element_at s.now self.at }
    {
        let (typ, c) = self.number(s)?;
        if typ < 1 || HIGHEST_TYPE < typ {
            return None;
        }
        let (n, d) = c.number(s)?;
        if ((s.len() - d.at) as u64) < n {
            return None;
        }
        let len = n as usize;
        Some((Element { typ, at: d.at, len }, Cursor { at: d.at + len }))
    }

    // "Each element ends within its parent": the element at the cursor with the cursor past it, or the fault. The usual form, a
    // byte each for type and length, comes first, and is small enough to be compiled into the callers.
    pub fn element(self, s: &[u8]) -> Option<(Element, Cursor)>
        ensures { result ≡ element_at s.now self.at }
    {
        let at = self.at;
        if at < s.len() && 2 <= s.len() - at {
            let left = s.len() - at;
            let typ = u64::from(s[at]);
            let n = usize::from(s[at + 1]);
            let b = at + 2;
            if 0 < typ && typ < 253 && n < 253 {
                if n <= left - 2 {
                    return Some((Element { typ, at: b, len: n }, Cursor { at: b + n }));
                }
            }
        }
        self.long_element(s)
    }
}
