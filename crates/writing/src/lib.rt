// Writing the store: an empty one, an entry appended, an entry cut out. Nothing else writes there.
#![tactic(auto)]

ghost use Rattle.std.specs.Prelude.{◌≡◌, [], ◌∷◌, ◌+◌, ◌<◌, ◌≤◌, T, length, drop, replicate};
ghost use Rattle.std.proofs.Math.Seq.{paste};
ghost use Rattle.rules.specs.Bytes.{pick, high, low};
ghost use Rattle.rules.specs.Limits.{limits_range};
ghost use Rattle.rules.specs.Store.{version1, version2, domain, loaded, domain_byte, write};
ghost use Rattle.rules.specs.Questions.{q30_limits};
ghost use Rattle.cursor.specs.Limits.{limits_of};
ghost use Rattle.writing.specs.Changes.{limits_given, kind_said, Emptied, Room, Appended, CutAt, CutOut};

use cursor::Limits;

// The kinds of domains: any package, or only packages that keep to the subset without int.
#[derive(Clone, Copy, PartialEq, Eq)]
pub enum DomainKind {
    Full,
    WithoutInt,
}

impl DomainKind {
    // The byte that stands for it in a domain's entry.
    fn byte(self) -> u8
        ensures { result ≡ domain_byte (kind_said self) }
    {
        match self {
            DomainKind::Full => 1,
            DomainKind::WithoutInt => 3,
        }
    }
}

// Writes a u2 at a place.
fn put_u2(store: &mut [u8], at: usize, n: usize)
    requires { (at + 1 < length store.old) × (n < 65536) }
    ensures { store.new ≡ paste store.old at (high n ∷ low n ∷ []) 2 }
{
    store[at] = (n / 256) as u8;
    store[at + 1] = (n % 256) as u8;
}

// Writes an entry's kind and body length at a place.
fn put_head(store: &mut [u8], at: usize, kind: u8, n: usize)
    requires { (at + 2 < length store.old) × (n < 65536) }
    ensures { store.new ≡ paste store.old at (kind ∷ high n ∷ low n ∷ []) 3 }
{
    store[at] = kind;
    put_u2(store, at + 1, n);
}

// Copies bytes to a place.
fn copy_in(store: &mut [u8], at: usize, from: &[u8])
    requires { at + length from.now ≤ length store.old }
    ensures { store.new ≡ paste store.old at from.now (length from.now) }
{
    // Kept: no `copy_from_slice`, which needs memmove: the header promises that the library needs memset alone.
    for i in 0..from.len() {
        store[at + i] = from[i];
    }
}

// Zeros n bytes from a place on.
fn zero_out(store: &mut [u8], at: usize, n: usize)
    requires { at + n ≤ length store.old }
    ensures { store.new ≡ paste store.old at (replicate n 0) n }
{
    store[at..at + n].fill(0);
}

// Writes an empty store over the whole buffer, all but its limits: mark, version, used, and zeros behind the opening bytes.
fn write_empty(store: &mut [u8], version: u8, opening: usize)
    requires { (7 ≤ opening) × (opening ≤ length store.old) × (opening < 65536) }
    ensures { Emptied store.old store.new version opening }
{
    let n = store.len();
    store[0] = 0x42;
    store[1] = 0x43;
    store[2] = 0x53;
    store[3] = 0;
    store[4] = version;
    put_u2(store, 5, opening);
    zero_out(store, opening, n - opening);
}

// Writes an empty store of version 1 over the whole buffer.
pub fn write_fresh(store: &mut [u8])
    requires { 7 ≤ length store.old }
    ensures { store.new ≡ write version1 (length store.old) [] }
{
    write_empty(store, 1, 7);
}

// Writes an empty store of version 2 with these limits over the whole buffer.
fn write_limited(store: &mut [u8], l: Limits)
    requires { (11 ≤ length store.old) × T (limits_range (limits_of l)) }
    ensures { store.new ≡ write (version2 (limits_of l)) (length store.old) [] }
{
    write_empty(store, 2, 11);
    store[7] = l.depth as u8;
    store[8] = l.parents as u8;
    put_u2(store, 9, l.code);
}

// 30. Does each limit given lie in its range? Then writes an empty store of version 2 with these limits over the whole buffer, else nothing.
pub fn write_fresh_limits(store: &mut [u8], depth: u8, parents: u8, code: u16) -> bool
    requires { 11 ≤ length store.old }
    ensures value { result ≡ q30_limits (limits_given depth parents code) }
    ensures store_after { store.new ≡ pick result (write (version2 (limits_given depth parents code)) (length store.old) []) store.old }
{
    let l = Limits {
        depth: depth as usize,
        parents: parents as usize,
        code: code as usize,
    };
    if !store::openings::limits_ok(l) {
        return false;
    }
    write_limited(store, l);
    true
}

// Writes a domain's entry behind the others.
pub fn append_domain(store: &mut [u8], end: usize, kind: DomainKind, aid: &[u8])
    requires { Room store.old end (domain (kind_said kind) aid.now) }
    ensures { Appended store.old store.new (domain (kind_said kind) aid.now) }
{
    let n = aid.len();
    put_head(store, end, kind.byte(), n);
    copy_in(store, end + 3, aid);
    put_u2(store, 5, end + 3 + n);
}

// Writes a package's entry behind the others.
pub fn append_package(store: &mut [u8], end: usize, domain: &[u8], file: &[u8])
    requires { Room store.old end (loaded domain.now file.now) × (length domain.now < 256) }
    ensures { Appended store.old store.new (loaded domain.now file.now) }
{
    let d = domain.len();
    let n = 1 + d + file.len();
    put_head(store, end, 2, n);
    store[end + 3] = d as u8;
    copy_in(store, end + 4, domain);
    copy_in(store, end + 4 + d, file);
    put_u2(store, 5, end + 3 + n);
}

// Cuts out the entry from `at` up to `next`: the later ones move up, and the freed end is zeroed.
pub fn cut_entry(store: &mut [u8], end: usize, at: usize, next: usize)
    requires { CutAt store.old end at next }
    ensures { CutOut store.old store.new at next }
{
    let k = next - at;
    store.copy_within(next..end, at);
    zero_out(store, end - k, k);
    put_u2(store, 5, end - k);
}
