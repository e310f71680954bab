// Fields packed bit by bit into bytes: one is read out of bytes, or put down a bit to a byte and packed.
#![tactic(auto)]

ghost use Rattle.std.specs.Prelude.{◌≡◌, ℕ, ◌+◌, ◌*◌, ◌%◌, ◌^◌, ◌≤◌, ◌<◌, length, get_or};
ghost use Rattle.std.proofs.Math.Seq.{paste};
ghost use Rattle.bits.specs.Bits.{bits_at, val, field, packed, bit_of, Two};

// Byte k, 0 past the end.
fn byte_at(s: &[u8], k: usize) -> u64
    ensures { (result ≡ get_or s.now k 0) × (result < 256) }
{
    s.get(k).map_or(0, |x| u64::from(*x))
}

// Bytes k and k + 1 as one number. Within the bytes one test serves both.
fn two_at(s: &[u8], k: usize) -> u64
    requires { k ≤ 65536 }
    ensures { Two s.now k result }
{
    if k + 1 < s.len() {
        return u64::from(s[k]) * 256 + u64::from(s[k + 1]);
    }
    byte_at(s, k) * 256
}

// The field of n bits at `at`, which two bytes hold.
pub fn read_field(s: &[u8], at: usize, n: usize) -> u64
    requires { (at % 8 + n ≤ 16) × (at ≤ 65536) }
    ensures { (result ≡ bits_at s.now at n) × (result < 2 ^ n) }
{
    let two = two_at(s, at / 8);
    let behind = 16 - at % 8 - n;
    (two >> behind) % (1 << n)
}

// The field of eight bits that byte k is: two bytes are not asked for.
pub fn read_byte(s: &[u8], k: usize) -> u64
    ensures { (result ≡ bits_at s.now (8 * k) 8) × (result < 256) }
{
    byte_at(s, k)
}

// Puts the n bits of v, one to a byte, from `at` on.
pub fn put_field(bs: &mut [u8], at: usize, n: usize, v: u64)
    requires { (n ≤ 14) × (at + n ≤ length bs.old) }
    ensures { bs.new ≡ paste bs.old at (field n v) n }
{
    for i in 0..n {
        bs[at + i] = ((v >> (n - 1 - i)) % 2) as u8;
    }
}

// The byte that eight bits from `at` make.
fn byte(bs: &[u8], at: usize) -> u8
    requires { (at + 8 ≤ length bs.now) × ((i : ℕ) → get_or bs.now i 0 < 2) }
    ensures { result ≡ val (bit_of bs.now) at 8 }
{
    let mut v: u8 = 0;
    for i in 0..8 {
        v = v * 2 + bs[at + i];
    }
    v
}

// Packs eight bits to a byte.
pub fn pack(bs: &[u8], out: &mut [u8])
    requires { (8 * length out.old ≤ length bs.now) × ((i : ℕ) → get_or bs.now i 0 < 2) }
    ensures { out.new ≡ packed (bit_of bs.now) (length out.old) }
{
    for (k, x) in out.iter_mut().enumerate() {
        *x = byte(bs, 8 * k);
    }
}
