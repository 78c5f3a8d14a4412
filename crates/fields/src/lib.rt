// Fields of bytes: what every reader of a file, a code or a store shares.
#![tactic(auto)]

ghost use Rattle.std.specs.Prelude.{◌≡◌, ◌+◌, ◌*◌, ◌<◌, ◌≤◌, length};
ghost use Rattle.rules.specs.Bytes.{same};
ghost use Rattle.rules.specs.Code.{u2_at, u4_at};
ghost use Rattle.rules.specs.Package.{edition_of};
ghost use Rattle.fields.specs.Editions.{edition_if};
ghost use Rattle.fields.specs.Words.{eight_at};

// A byte as a number.
pub fn wide(x: u8) -> usize
    ensures { (result ≡ x) × (result < 256) }
{
    usize::from(x)
}

// A number of two bytes.
pub fn long(x: u16) -> usize
    ensures { (result ≡ x) × (result ≤ 65535) }
{
    usize::from(x)
}

// The u2 at a place.
pub fn u2_at(s: &[u8], at: usize) -> usize
    requires { at + 1 < length s.now }
    ensures { (result ≡ u2_at s.now at) × (result < 65536) }
{
    wide(s[at]) * 256 + wide(s[at + 1])
}

// The four bytes at a place as an unsigned number.
pub fn u4_at(s: &[u8], at: usize) -> usize
    requires { at + 3 < length s.now }
    ensures { (result ≡ u4_at s.now at) × (result < 4294967296) }
{
    u2_at(s, at) * 65536 + u2_at(s, at + 2)
}

// A number and the two bytes at a place as one number.
fn with_two(n: usize, s: &[u8], at: usize) -> usize
    requires { (n < 281474976710656) × (at + 1 < length s.now) }
    ensures { (result ≡ n * 65536 + u2_at s.now at) × (u2_at s.now at < 65536) }
{
    (n * 256 + wide(s[at])) * 256 + wide(s[at + 1])
}

// A number and the four bytes at a place as one number.
fn with_four(n: usize, s: &[u8], at: usize) -> usize
    requires { (n < 4294967296) × (at + 3 < length s.now) }
    ensures { (result ≡ n * 4294967296 + u4_at s.now at) × (u4_at s.now at < 4294967296) }
{
    with_two(with_two(n, s, at), s, at + 2)
}

// The eight bytes at a place as an unsigned number: byte by byte, which the compiler makes one read.
pub fn eight_at(s: &[u8], at: usize) -> usize
    requires { at + 7 < length s.now }
    ensures { result ≡ eight_at s.now at }
{
    with_four(with_four(0, s, at), s, at + 4)
}

// The same bytes, one after the other?
fn same_each(a: &[u8], b: &[u8]) -> bool
    requires { length a.now ≡ length b.now }
    ensures { result ≡ same a.now b.now }
{
    for i in 0..a.len() {
        if a[i] != b[i] {
            return false;
        }
    }
    true
}

// The same bytes, fewer than eight? The last four may overlap the first.
fn same_short(a: &[u8], b: &[u8]) -> bool
    requires { (length a.now ≡ length b.now) × (length a.now < 8) }
    ensures { result ≡ same a.now b.now }
{
    if a.len() < 4 {
        return same_each(a, b);
    }
    if u4_at(a, 0) != u4_at(b, 0) {
        return false;
    }
    let last = a.len() - 4;
    u4_at(a, last) == u4_at(b, last)
}

// The same bytes, eight or more? The last eight may overlap those before.
// Kept: a loop by eights, since one over the bytes or the pieces of eight misses its speed.
fn same_long(a: &[u8], b: &[u8]) -> bool
    requires { (length a.now ≡ length b.now) × (8 ≤ length a.now) }
    ensures { result ≡ same a.now b.now }
{
    let last = a.len() - 8;
    let mut i = 0;
    while i < last {
        if eight_at(a, i) != eight_at(b, i) {
            return false;
        }
        i += 8;
    }
    eight_at(a, last) == eight_at(b, last)
}

// Have both the same length and the same bytes?
pub fn same_bytes(a: &[u8], b: &[u8]) -> bool
    ensures { result ≡ same a.now b.now }
{
    if a.len() != b.len() {
        return false;
    }
    if a.len() < 8 {
        return same_short(a, b);
    }
    same_long(a, b)
}

// Is a package file of five bytes or more of the second edition, the one with handlers?
pub fn says_second(f: &[u8]) -> bool
    requires { 4 < length f.now }
    ensures { edition_of f.now ≡ edition_if result }
{
    if f[4] != 2 {
        return false;
    }
    f[3] == 0
}

// Is any file?
pub fn is_second(f: &[u8]) -> bool
    ensures { edition_of f.now ≡ edition_if result }
{
    if f.len() < 5 {
        return false;
    }
    says_second(f)
}
