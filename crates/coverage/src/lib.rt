// Question 19 by the numbers of domains: the loading domain and what the caller lists are looked for in the list of what is called.
#![tactic(auto)]

ghost use Rattle.std.specs.Prelude.{◌≤◌, ◌<◌, length};
ghost use Rattle.policies.specs.Say.{own_slot, PolicyOver, HasSlot};
ghost use Rattle.policies.specs.Numbers.{NumberIs};
ghost use Rattle.policies.specs.Rows.{row_length, HasPlaces, ListOver};
ghost use Rattle.coverage.specs.Covers.{KnownBits, ListedKept, WantedKept, LoadingKept, AllKept, CoversKept};

use fields::wide;
use files::{aid_bytes, nth_aid};
use policies::rows::{has_bit, number_at, with_bit};
use policies::{RightsPlace, TwoLists, indexes_of, listed_slot, slot};

// A caller's policy, the policy of what it calls, and the number of the loading domain.
#[derive(Clone, Copy)]
pub struct Asked {
    pub caller: usize,
    pub called: usize,
    pub loading: usize,
}

// A domain of the own list that a policy of the other file is asked for: its index, its number, and the policy.
#[derive(Clone, Copy)]
pub struct Wanted {
    pub index: usize,
    pub number: usize,
    pub policy: usize,
}

// A caller's policy, the policy of what it calls, and as bits numbers of domains that the latter lists.
#[derive(Clone, Copy)]
pub struct Listing {
    pub caller: usize,
    pub called: usize,
    pub bits: u64,
}

// The numbers that the row knows of the slots that the policy of g at a place lists, which is not FF, as bits; bit 63 for the others.
fn known_mask(g: &[u8], l: TwoLists, at: usize, row: &[u8]) -> u64
    requires list_over { ListOver g.now l.other at }
    requires has_places { HasPlaces row.now l }
    ensures { KnownBits g.now l at row.now result }
{
    let mut m: u64 = 0;
    for i in indexes_of(g, at) {
        m = with_bit(m, wide(row[l.base + slot(wide(*i))]));
    }
    m
}

// Does the policy of g at a place, which is not FF, in a file of domain `other`, list x, whose number is n? The number is kept for the slot
// found.
fn lists_kept(
    g: &[u8],
    other: &[u8],
    l: TwoLists,
    at: usize,
    x: &[u8],
    n: usize,
    row: &mut [u8],
) -> bool
    requires list_over { ListOver g.now l.other at }
    requires has_places { HasPlaces row.old l × (n < 256) }
    ensures { ListedKept g.now other.now l at x.now n row.old row.new result }
{
    let p = RightsPlace {
        domains: l.other,
        policy: at,
    };
    match listed_slot(g, other, p, x) {
        Some(k) => {
            row[l.base + k] = n as u8;
            true
        }
        None => false,
    }
}

// The same of a domain of the own list, told by the mask m where its bit is set.
fn lists_wanted(
    f: &[u8],
    g: &[u8],
    other: &[u8],
    l: TwoLists,
    x: Wanted,
    m: u64,
    row: &mut [u8],
) -> bool
    requires has_slot { HasSlot f.now l.own x.index × (x.index < own_slot) × ListOver g.now l.other x.policy }
    requires has_places { HasPlaces row.old l × (x.number < 256) }
    ensures { WantedKept f.now g.now other.now l x m row.old row.new result }
{
    if has_bit(m, x.number) {
        return true;
    }
    match nth_aid(f, l.own, x.index) {
        Some(a) => lists_kept(g, other, l, x.policy, aid_bytes(f, a), x.number, row),
        None => false,
    }
}

// The same of the loading domain.
fn lists_loading(
    g: &[u8],
    other: &[u8],
    domain: &[u8],
    l: TwoLists,
    x: Asked,
    m: u64,
    row: &mut [u8],
) -> bool
    requires list_over { ListOver g.now l.other x.called }
    requires has_places { HasPlaces row.old l × (x.loading < 256) }
    ensures { LoadingKept g.now other.now domain.now l x m row.old row.new result }
{
    if has_bit(m, x.loading) {
        return true;
    }
    lists_kept(g, other, l, x.called, domain, x.loading, row)
}

// Does the policy called, which allows the loading domain, list all that the caller's lists, neither of them FF? FE of the caller is the
// loading domain.
fn lists_all<'a>(
    f: &'a [u8],
    domain: &'a [u8],
    g: &[u8],
    other: &[u8],
    l: TwoLists,
    p: Listing,
    map: &mut [u8],
) -> bool
    requires list_over { ListOver f.now l.own p.caller × ListOver g.now l.other p.called }
    requires has_places { HasPlaces map.old l × (row_length ≤ length map.old) }
    ensures { AllKept f.now domain.now g.now other.now l p map.old map.new result }
{
    let own = TwoLists {
        own: l.own,
        other: l.own,
        base: 0,
    };
    let mut bits = p.bits;
    for k in indexes_of(f, p.caller) {
        let i = slot(wide(*k));
        if i < 32 {
            let n = number_at(f, domain, f, domain, own, i, map);
            let x = Wanted {
                index: i,
                number: n,
                policy: p.called,
            };
            if !lists_wanted(f, g, other, l, x, bits, map) {
                return false;
            }
            bits = with_bit(bits, n);
        }
    }
    true
}

// Does the policy of g that is called, in a file of domain `other`, allow the loading domain, and all that the caller's of f allows? Only
// these are looked for in the list of g.
pub fn covers<'a>(
    f: &'a [u8],
    domain: &'a [u8],
    g: &[u8],
    other: &[u8],
    l: TwoLists,
    p: Asked,
    map: &mut [u8],
) -> bool
    requires policy_over { PolicyOver f.now l.own p.caller }
    requires policy_over_2 { PolicyOver g.now l.other p.called }
    requires has_places { HasPlaces map.old l × (row_length ≤ length map.old) }
    requires number_is { NumberIs f.now l.own domain.now domain.now p.loading }
    ensures { CoversKept f.now domain.now g.now other.now l p map.old map.new result }
{
    if wide(g[p.called]) == 255 {
        return true;
    }
    if wide(f[p.caller]) == 255 {
        return false;
    }
    let m = known_mask(g, l, p.called, &*map);
    if !lists_loading(g, other, domain, l, p, m, map) {
        return false;
    }
    let x = Listing {
        caller: p.caller,
        called: p.called,
        bits: with_bit(m, p.loading),
    };
    lists_all(f, domain, g, other, l, x, map)
}
