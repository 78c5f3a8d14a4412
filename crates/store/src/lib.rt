// The store by its bytes: its opening, layout, entries at their places, what would fit.
#![tactic(auto)]

pub mod openings;
pub mod subset;

ghost use Rattle.std.specs.Prelude.{◌≡◌, max, ◌+◌, ◌<◌, ◌≤◌, length, get_or, take, drop};
ghost use Rattle.std.proofs.Math.Option.{some};
ghost use Rattle.rules.specs.Bytes.{all, is_some, same};
ghost use Rattle.rules.specs.Store.{DomainKind, Entry, domain, loaded, is_zero, entry_of, opening_of, store_opening, first_entry};
ghost use Rattle.rules.specs.Questions.{q1_size};
ghost use Rattle.rules.specs.Operations.{is_domain};
ghost use Rattle.store.specs.Entries.{StandFrom, FilesStand, own_aid};
ghost use Rattle.store.specs.Answers.{LayoutSays, NextSays, FillSays, PartAt, SpotAt, FileAt, InUse, Fits};

use openings::{Opening, first_entry};

// An entry by its places: a domain's AID from its first byte up to the end; a package's domain, its file, the end of both.
#[derive(Clone, Copy)]
pub enum EntryPart {
    Domain {
        from: usize,
        next: usize,
    },
    Package {
        from: usize,
        file: usize,
        next: usize,
    },
}

// From where up to where an entry stands.
#[derive(Clone, Copy)]
pub struct EntryPlace {
    pub at: usize,
    pub next: usize,
}

// A package: its entry's place, its file's first byte, the end of both.
#[derive(Clone, Copy)]
pub struct FileBounds {
    pub at: usize,
    pub from: usize,
    pub to: usize,
}

// 1. Has the store 64 to 65,535 bytes?
pub fn size_ok(s: &[u8]) -> bool
    ensures { result ≡ q1_size s.now }
{
    if s.len() < 64 {
        return false;
    }
    s.len() <= 65535
}

// The greater of two bytes.
// Kept: no call of another crate within the loop over a store's free bytes; `max` was not measured there.
fn greater(a: u8, b: u8) -> u8
    ensures { result ≡ max a b }
{
    if a < b { b } else { a }
}

// Are all bytes from a place on zero? By the greatest of them: no test within the loop, so that many are compared at a time.
fn zeros_from(s: &[u8], from: usize) -> bool
    requires { from ≤ length s.now }
    ensures { result ≡ all is_zero (drop from s.now) }
{
    let mut greatest = 0;
    for i in from..s.len() {
        greatest = greater(greatest, s[i]);
    }
    greatest == 0
}

// Do kind and body of an entry whose body has n bytes read?
fn body_reads(s: &[u8], at: usize, n: usize) -> bool
    requires { at + 3 + n ≤ length s.now }
    ensures { result ≡ is_some (entry_of (get_or s.now at 0) (take n (drop (at + 3) s.now))) }
{
    if s[at] == 1 {
        return true;
    }
    if s[at] == 3 {
        return true;
    }
    if s[at] != 2 {
        return false;
    }
    if n == 0 {
        return false;
    }
    fields::wide(s[at + 3]) <= n - 1
}

// The place behind the entry at a place, where one reads that does not pass `end`.
fn next_place(s: &[u8], at: usize, end: usize) -> Option<usize>
    requires { (at ≤ end) × (end ≤ length s.now) }
    ensures { NextSays s.now at end result }
{
    if end - at < 3 {
        return None;
    }
    let n = fields::u2_at(s, at + 1);
    if n > end - at - 3 {
        return None;
    }
    if body_reads(s, at, n) {
        return Some(at + 3 + n);
    }
    None
}

// Do entries stand back to back from a place exactly up to `end`?
fn filled(s: &[u8], from: usize, end: usize) -> bool
    requires { (from ≤ end) × (end ≤ length s.now) }
    ensures { FillSays s.now from end result }
{
    let mut at = from;
    while at < end {
        let Some(next) = next_place(s, at, end) else {
            return false;
        };
        at = next;
    }
    true
}

// The layout of a buffer whose opening bytes end at a place.
fn laid_from(s: &[u8], from: usize) -> Option<usize>
    requires { (opening_of s.now ≡ some (store_opening s.now)) × (from ≡ first_entry s.now) }
    ensures { LayoutSays s.now result }
{
    if s.len() < from {
        return None;
    }
    let end = fields::u2_at(s, 5);
    if end < from {
        return None;
    }
    if end > s.len() {
        return None;
    }
    if !zeros_from(s, end) {
        return None;
    }
    if !filled(s, from, end) {
        return None;
    }
    Some(end)
}

// The layout of a buffer: its used value, where the buffer is laid out as a store.
pub fn laid_out(s: &[u8]) -> Option<usize>
    ensures { LayoutSays s.now result }
{
    match openings::opening_of(s)? {
        Opening::First => laid_from(s, 7),
        Opening::Second(_) => laid_from(s, 11),
    }
}

// The entry at a place of the entries that end at `end`, if the place is before `end`.
pub fn entry_at(s: &[u8], at: usize, end: usize) -> Option<EntryPart>
    requires { StandFrom s.now at end }
    ensures { PartAt s.now at end result }
{
    if at == end {
        return None;
    }
    let next = at + 3 + fields::u2_at(s, at + 1);
    if s[at] != 2 {
        return Some(EntryPart::Domain { from: at + 3, next });
    }
    Some(EntryPart::Package {
        from: at + 4,
        file: at + 4 + fields::wide(s[at + 3]),
        next,
    })
}

// Where a domain's entry stands, of the entries that end at `end`.
pub fn find_domain(s: &[u8], end: usize, aid: &[u8]) -> Option<EntryPlace>
    requires { StandFrom s.now (first_entry s.now) end }
    ensures { SpotAt (is_domain aid.now) s.now end result }
{
    let mut at = first_entry(s);
    while let Some(part) = entry_at(s, at, end) {
        match part {
            EntryPart::Domain { from, next } => {
                if fields::same_bytes(aid, &s[from..next]) {
                    return Some(EntryPlace { at, next });
                }
                at = next;
            }
            EntryPart::Package { next, .. } => {
                at = next;
            }
        }
    }
    None
}

// Is a file's own AID the one given?
fn own_is(f: &[u8], aid: &[u8]) -> bool
    requires { (7 < length f.now) × (8 + get_or f.now 7 0 ≤ length f.now) }
    ensures { result ≡ same aid.now (own_aid f.now) }
{
    let end = 8 + fields::wide(f[7]);
    fields::same_bytes(aid, &f[8..end])
}

// Where a package stands, of the entries that end at `end`.
pub fn find_package(s: &[u8], end: usize, aid: &[u8]) -> Option<FileBounds>
    requires { FilesStand s.now end }
    ensures { FileAt s.now end aid.now result }
{
    let mut at = first_entry(s);
    while let Some(part) = entry_at(s, at, end) {
        match part {
            EntryPart::Domain { next, .. } => {
                at = next;
            }
            EntryPart::Package { file, next, .. } => {
                if own_is(&s[file..next], aid) {
                    return Some(FileBounds {
                        at,
                        from: file,
                        to: next,
                    });
                }
                at = next;
            }
        }
    }
    None
}

// Does a package lie in the domain, of the entries that end at `end`?
pub fn domain_in_use(s: &[u8], end: usize, aid: &[u8]) -> bool
    requires { StandFrom s.now (first_entry s.now) end }
    ensures { InUse s.now end aid.now result }
{
    let mut at = first_entry(s);
    while let Some(part) = entry_at(s, at, end) {
        match part {
            EntryPart::Domain { next, .. } => {
                at = next;
            }
            EntryPart::Package { from, file, next } => {
                if fields::same_bytes(aid, &s[from..file]) {
                    return true;
                }
                at = next;
            }
        }
    }
    false
}

// 21. Does a domain's entry fit, of either kind?
pub fn domain_fits(s: &[u8], end: usize, aid: &[u8]) -> bool
    requires { end ≤ length s.now }
    ensures { (k : DomainKind) → Fits s.now end (domain k aid.now) result }
{
    let free = s.len() - end;
    if free < 3 {
        return false;
    }
    aid.len() <= free - 3
}

// 21. Does a package's entry fit?
pub fn package_fits(s: &[u8], end: usize, domain: &[u8], file: &[u8]) -> bool
    requires { end ≤ length s.now }
    ensures { Fits s.now end (loaded domain.now file.now) result }
{
    let free = s.len() - end;
    if free < 4 {
        return false;
    }
    if domain.len() > free - 4 {
        return false;
    }
    file.len() <= free - 4 - domain.len()
}
