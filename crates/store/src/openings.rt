// What a store opens with: mark and version, and in version 2 its limits.
ghost use Rattle.std.specs.Prelude.{◌≡◌, ◌≤◌, length, take};
ghost use Rattle.rules.specs.Bytes.{same};
ghost use Rattle.rules.specs.Limits.{limits_range};
ghost use Rattle.rules.specs.Store.{store_mark, opening_of, store_limits, first_entry, limits_at};
ghost use Rattle.cursor.specs.Limits.{limits_of};
ghost use Rattle.store.specs.Openings.{opening_told};

use cursor::Limits;

// The opening of a store: version 1, or version 2 with its limits.
#[derive(Clone, Copy)]
pub enum Opening {
    First,
    Second(Limits),
}

// Does the buffer begin with the mark and this version?
fn opens(s: &[u8], version: u8) -> bool
    requires { 5 ≤ length s.now }
    ensures { result ≡ same (take 5 s.now) (store_mark version) }
{
    fields::same_bytes(&s[..5], &[0x42, 0x43, 0x53, 0, version])
}

// Does each limit lie in its range: depth 1 to 16, parents 1 to 8, code length 1 to 32,767?
pub fn limits_ok(l: Limits) -> bool
    ensures { result ≡ limits_range (limits_of l) }
{
    if l.depth < 1 {
        return false;
    }
    if 16 < l.depth {
        return false;
    }
    if l.parents < 1 {
        return false;
    }
    if 8 < l.parents {
        return false;
    }
    if l.code < 1 {
        return false;
    }
    l.code <= 32767
}

// The limits behind the used field.
fn limits_at(s: &[u8]) -> Limits
    requires { 11 ≤ length s.now }
    ensures { limits_of result ≡ limits_at s.now }
{
    Limits {
        depth: fields::wide(s[7]),
        parents: fields::wide(s[8]),
        code: fields::u2_at(s, 9),
    }
}

// The opening of a buffer, if it has one.
pub fn opening_of(s: &[u8]) -> Option<Opening>
    ensures { opening_told result ≡ opening_of s.now }
{
    if s.len() < 5 {
        return None;
    }
    if opens(s, 1) {
        return Some(Opening::First);
    }
    if s.len() < 11 {
        return None;
    }
    if !opens(s, 2) {
        return None;
    }
    let l = limits_at(s);
    if limits_ok(l) {
        return Some(Opening::Second(l));
    }
    None
}

// The limits of a store: those that version 2 opens with, else document 01's.
pub fn limits_of(s: &[u8]) -> Limits
    ensures { limits_of result ≡ store_limits s.now }
{
    match opening_of(s) {
        Some(Opening::Second(l)) => l,
        Some(Opening::First) => Limits::standard(),
        None => Limits::standard(),
    }
}

// Where the first entry of a store stands: behind its opening bytes.
pub fn first_entry(s: &[u8]) -> usize
    ensures { result ≡ first_entry s.now }
{
    match opening_of(s) {
        Some(Opening::Second(_)) => 11,
        Some(Opening::First) => 7,
        None => 7,
    }
}
