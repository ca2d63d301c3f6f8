// The fingerprint of a name and a nonce: 64-bit FNV-1a.
ghost use Rattle.std.specs.Prelude.{◌≡◌, ◌*◌, ◌%◌, ◌^◌};
ghost use Rattle.names.specs.Fingerprint.{stepped, fnv, fingerprint};

// "start at 14695981039346656037"
pub const FNV_START: u64 = 14695981039346656037;

// "multiply by 1099511628211"
const FNV_PRIME: u64 = 1099511628211;

// a times b modulo 2^64, from halves of 32 bits. Of the program's own, as `docs/DECISIONS.md` F4 has it.
pub fn wrapping_mul(a: u64, b: u64) -> u64
    ensures { result ≡ (a * b) % 2 ^ 64 }
{
    let a0 = a % 4294967296;
    let a1 = a / 4294967296;
    let b0 = b % 4294967296;
    let b1 = b / 4294967296;
    let low = a0 * b0;
    let m1 = a1 * b0 % 4294967296;
    let m2 = a0 * b1 % 4294967296;
    let mid = (m1 + m2) % 4294967296;
    low.wrapping_add(mid * 4294967296)
}

// "for each byte xor, then multiply by 1099511628211 modulo 2^64"
fn fnv_step(h: u64, b: u8) -> u64
    ensures { result ≡ stepped h b }
{
    wrapping_mul(h ^ u64::from(b), FNV_PRIME)
}

// FNV-1a over bytes, from a value on.
pub fn fnv_from(start: u64, s: &[u8]) -> u64
    ensures { result ≡ fnv start s.now }
{
    let mut h = start;
    for b in s {
        h = fnv_step(h, *b);
    }
    h
}

// "over the name's value bytes, then the nonce", from a starting value: the nonce's four bytes follow the name as on the wire.
pub fn fingerprint_from(start: u64, name: &[u8], nonce: u64) -> u64
    ensures { result ≡ fingerprint start name.now nonce }
{
    let bytes = nonce.to_be_bytes();
    fnv_from(fnv_from(start, name), &bytes[4..])
}
