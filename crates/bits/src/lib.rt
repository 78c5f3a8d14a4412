// Bit sets and fields of a width over bytes: bit i is bit i % 8 of byte i / 8, field i of w bits has the bits from i * w on.
#![tactic(auto)]

ghost use Rattle.std.specs.Prelude.{◌≡◌, true, false, ℕ, ◌+◌, ◌*◌, ◌/◌, ◌^◌, ◌<◌, ◌≤◌, length};
ghost use Rattle.bits.specs.Bits.{power_of, bit_at, with_bit, WithinIs, two_at, field_at, with_field, PutIs};

const POWERS: [u8; 8] = [1, 2, 4, 8, 16, 32, 64, 128];

// 2 to the k.
fn power(k: usize) -> u8
    requires { k < 8 }
    ensures { (result ≡ power_of k) × (0 < result) }
{
    POWERS[k]
}

// Whether bit i is set.
pub fn get(s: &[u8], i: usize) -> bool
    requires { i / 8 < length s.now }
    ensures { result ≡ bit_at s.now i }
{
    (s[i / 8] >> (i % 8)) % 2 == 1
}

// Bit i is set, and no other is changed.
pub fn set(s: &mut [u8], i: usize)
    requires { i / 8 < length s.old }
    ensures { (j : ℕ) → bit_at s.new j ≡ with_bit (bit_at s.old) i j }
{
    let w = s[i / 8];
    let p = power(i % 8);
    s[i / 8] = w | p;
}

// Is each bit of a set in b?
pub fn is_within(a: &[u8], b: &[u8]) -> bool
    requires { length a.now ≡ length b.now }
    ensures { WithinIs a.now b.now result }
{
    for i in 0..a.len() {
        if a[i] & b[i] != a[i] {
            return false;
        }
    }
    true
}

// No bit is set.
pub fn clear(s: &mut [u8])
    ensures { (j : ℕ) → bit_at s.new j ≡ false }
{
    s.fill(0);
}

// No bit of the first n bytes is set.
pub fn clear_to(s: &mut [u8], n: usize)
    requires { n ≤ length s.old }
    ensures { (j : ℕ) → j / 8 < n → bit_at s.new j ≡ false }
{
    s[..n].fill(0);
}

// The two bytes from number b on, as a number.
fn two_at(s: &[u8], b: usize) -> usize
    requires { b + 1 < length s.now }
    ensures { (result ≡ two_at s.now b) × (result < 65536) }
{
    usize::from(s[b]) + 256 * usize::from(s[b + 1])
}

// The field with number i of w bits.
pub fn field_get(s: &[u8], w: usize, i: usize) -> usize
    requires { (w ≤ 8) × (i < 65536) × (i * w / 8 + 1 < length s.now) }
    ensures { (result ≡ field_at w s.now i) × (result < 2 ^ w) }
{
    let at = i * w;
    let x = two_at(s, at / 8);
    (x >> (at % 8)) % (1 << w)
}

// Two bytes with v in place of the w bits from bit r on.
fn with_bits(x: usize, r: usize, w: usize, v: usize) -> usize
    requires { (x < 65536) × (r < 8) × (w ≤ 8) × (v < 2 ^ w) }
    ensures { PutIs x r w v result × (result < 65536) }
{
    let high = x >> r >> w;
    (((high << w) + v) << r) + x % (1 << r)
}

// Field i of w bits is v, and no other is changed.
pub fn field_put(s: &mut [u8], w: usize, i: usize, v: usize)
    requires { (w ≤ 8) × (i < 65536) × (i * w / 8 + 1 < length s.old) × (v < 2 ^ w) }
    ensures { (j : ℕ) → field_at w s.new j ≡ with_field (field_at w s.old) i v j }
{
    let at = i * w;
    let b = at / 8;
    let y = with_bits(two_at(s, b), at % 8, w, v);
    s[b] = (y % 256) as u8;
    s[b + 1] = (y / 256) as u8;
}
