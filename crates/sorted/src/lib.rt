// Places of a store's entries, sorted by the AIDs that the entries are known by: found by halving, entered one after the other.
// A table's first number is the count of its places; they follow it.
#![tactic(auto)]

ghost use Rattle.std.specs.Prelude.{◌≡◌, ◌+◌, ◌<◌, ◌≤◌, length};
ghost use Rattle.sorted.specs.Sorted.{below, key_place, key_at, Keyed, count, Sorted, Lower, HereIs, Found, Opened, Entered};

use fields::{same_bytes, wide};
use halving::partition_point;

// A number of a table.
fn place(x: u16) -> usize
    ensures { (result ≡ x) × (result < 65536) }
{
    x as usize
}

// Does the first AID come before the second?
fn before(a: &[u8], b: &[u8]) -> bool
    ensures { result ≡ below a.now b.now }
{
    for i in 0..a.len() {
        if b.len() <= i {
            return false;
        }
        if a[i] != b[i] {
            return a[i] < b[i];
        }
    }
    a.len() < b.len()
}

// Where the length stands of the AID that the entry at a place is known by: a domain's own, a package's in its file.
fn key_place(s: &[u8], p: usize) -> usize
    requires { p + 3 < length s.now }
    ensures { result ≡ key_place s.now p }
{
    if s[p] != 2 {
        return p + 2;
    }
    p + 11 + wide(s[p + 3])
}

// That AID.
fn key(s: &[u8], p: usize) -> &[u8]
    requires { Keyed s.now p }
    ensures { result.now ≡ key_at s.now p }
{
    let at = key_place(s, p);
    let from = at + 1;
    let to = from + wide(s[at]);
    &s[from..to]
}

// How many places have an AID before this one.
fn lower(s: &[u8], table: &[u16], aid: &[u8]) -> usize
    requires { Sorted s.now table.now }
    ensures { Lower s.now table.now aid.now result }
{
    partition_point(
        0,
        place(table[0]),
        |k| before(key(s, place(table[k + 1])), aid),
    )
}

// The same with the last place tried first: AIDs that come in their order are entered at once.
fn rank(s: &[u8], table: &[u16], aid: &[u8]) -> usize
    requires { Sorted s.now table.now }
    ensures { Lower s.now table.now aid.now result }
{
    let n = place(table[0]);
    if n == 0 {
        return 0;
    }
    let p = place(table[n]);
    if before(key(s, p), aid) {
        return n;
    }
    lower(s, table, aid)
}

// Is there a place with number k, counted from 0, and has it this AID?
fn here(s: &[u8], table: &[u16], k: usize, aid: &[u8]) -> bool
    requires { Sorted s.now table.now }
    ensures { HereIs s.now table.now k aid.now result }
{
    if place(table[0]) <= k {
        return false;
    }
    let p = place(table[k + 1]);
    same_bytes(aid, key(s, p))
}

// The place that has this AID, if one has.
pub fn find(s: &[u8], table: &[u16], aid: &[u8]) -> Option<usize>
    requires { Sorted s.now table.now }
    ensures { Found s.now table.now aid.now result }
{
    let k = lower(s, table, aid);
    if here(s, table, k, aid) {
        return Some(place(table[k + 1]));
    }
    None
}

// Moves the places from r up to n one up, and puts p at r.
fn open_at(table: &mut [u16], n: usize, r: usize, p: u16)
    requires { (r ≤ n) × (n + 1 < length table.old) }
    ensures { Opened table.old table.new n r p }
{
    table.copy_within(r + 1..n + 1, r + 2);
    table[r + 1] = p;
}

// Enters a place, unless another has its AID: then it says no.
pub fn enter(s: &[u8], table: &mut [u16], p: usize) -> bool
    requires sorted { Sorted s.now table.old × Keyed s.now p × (p < 65536) }
    requires table_in_bounds { (count table.old + 1 < length table.old) × (count table.old < 65535) }
    ensures { Entered s.now table.old table.new p result }
{
    let n = place(table[0]);
    let aid = key(s, p);
    let r = rank(s, &*table, aid);
    if here(s, &*table, r, aid) {
        return false;
    }
    open_at(&mut *table, n, r, p as u16);
    table[0] = (n + 1) as u16;
    true
}
