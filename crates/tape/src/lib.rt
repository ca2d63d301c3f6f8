// Tapes: their numbers, read from a slice.
#![tactic(auto)]

ghost use Rattle.std.specs.Prelude.{◌≡◌, ◌<◌};
ghost use Rattle.tape.specs.Number.{tape_number_at};
ghost use Rattle.tape.specs.Places.Number.{Passed, closed};

// The place value of a tenth group, 128 to the power 9: of 64 bits only the highest is left for it, and none for an eleventh.
const TENTH: u64 = 9223372036854775808;

// The number that ends with the group b, and the place past it: v is the number of the groups before it, unit its place value.
fn last_group(v: u64, unit: u64, b: u64, next: usize) -> Option<(u64, usize)>
    requires passed { Passed v unit }
    requires is_last { b < 128 }
    ensures { result ≡ closed v unit b next }
{
    if unit == 1 {
        return Some((b, next));
    }
    if b == 0 {
        return None;
    }
    if unit == TENTH {
        if 1 < b {
            return None;
        }
        return Some((v + unit, next));
    }
    Some((v + b * unit, next))
}

// A number and the place past it: "Numbers are groups of seven bits, low first, top bit set on all but the last, shortest form, at most
// 64 bits."
pub fn number_at(s: &[u8], at: usize) -> Option<(u64, usize)>
    ensures { result ≡ tape_number_at s.now at }
{
    let mut v: u64 = 0;
    let mut unit: u64 = 1;
    // By index, since the place past the number is answered, and `at` may lie past the end of s.
    for i in at..s.len() {
        let b = s[i] as u64;
        if b < 128 {
            return last_group(v, unit, b, i + 1);
        }
        if unit == TENTH {
            return None;
        }
        v += (b - 128) * unit;
        unit *= 128;
    }
    None
}
