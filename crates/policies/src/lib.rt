// What a policy allows in the domain of its entry: a policy stands in a file at one place, the domains that its indexes count at another,
// and index FE means the domain that the file's package lies in.
#![tactic(auto)]

pub mod rows;

ghost use Rattle.std.specs.Prelude.{◌≡◌, ◌≤◌};
ghost use Rattle.rules.specs.Bytes.{aid};
ghost use Rattle.places.specs.Reads.{Ends};
ghost use Rattle.policies.specs.Say.{slot_of, IndexesThere, ListsIs, ListedIs, PolicyOver, HasSlot, SlotIs, Admits, AdmitsAllOf, indexes_at};
ghost use Rattle.policies.specs.Numbers.{DomainsThere, NumberIs, ListedDomain, ListedSlot};
ghost use Rattle.policies.specs.Rows.{ListOver};

use fields::{same_bytes, wide};
use files::{after_aid, aid_bytes, aid_is, nth_aid};

// Where a method's rights stand in its file: the list of domains, and the policy over it.
#[derive(Clone, Copy)]
pub struct RightsPlace {
    pub domains: usize,
    pub policy: usize,
}

// Two lists of domains: the one that numbers are of, the one whose slots are numbered, and where the numbers stand in a row.
#[derive(Clone, Copy)]
pub struct TwoLists {
    pub own: usize,
    pub other: usize,
    pub base: usize,
}

// The slot of an index: a domain's is its own, that of FE comes behind those of 32 domains.
pub fn slot(i: usize) -> usize
    ensures { result ≡ slot_of i }
{
    if i == 254 {
        return 32;
    }
    i
}

// The indexes of the policy at a place, which is not FF.
pub fn indexes_of(s: &[u8], at: usize) -> &[u8]
    requires { IndexesThere s.now at }
    ensures { result.now ≡ indexes_at s.now at }
{
    let start = at + 1;
    let end = start + wide(s[at]);
    &s[start..end]
}

// Is k one of them?
fn lists(s: &[u8], at: usize, k: usize) -> bool
    requires { IndexesThere s.now at }
    ensures { ListsIs s.now at k result }
{
    indexes_of(s, at).iter().any(|i| k == wide(*i))
}

// Is the AID at c the bytes of x, and k one of the indexes of the policy at `at`?
fn listed_as(s: &[u8], c: usize, x: &[u8], at: usize, k: usize) -> bool
    requires ends { Ends aid s.now c }
    requires indexes_there { IndexesThere s.now at }
    ensures { ListedIs s.now c x.now at k result }
{
    if !aid_is(s, c, x) {
        return false;
    }
    lists(s, at, k)
}

// The number of a domain that is x and that the policy at `at` lists by its index, which is not FF.
fn listed_domain(s: &[u8], domains: usize, at: usize, x: &[u8]) -> Option<usize>
    requires { ListOver s.now domains at }
    ensures { ListedDomain s.now domains at x.now result }
{
    let mut c = domains + 1;
    for k in 0..wide(s[domains]) {
        if listed_as(s, c, x, at, k) {
            return Some(k);
        }
        c = after_aid(s, c);
    }
    None
}

// A slot that the policy lists, which is not FF, and that stands for x in a file of domain `own`.
pub fn listed_slot(s: &[u8], own: &[u8], p: RightsPlace, x: &[u8]) -> Option<usize>
    requires { ListOver s.now p.domains p.policy }
    ensures { ListedSlot s.now p.domains own.now p.policy x.now result }
{
    match listed_domain(s, p.domains, p.policy, x) {
        Some(k) => Some(k),
        None => {
            if same_bytes(x, own) && lists(s, p.policy, 254) {
                return Some(32);
            }
            None
        }
    }
}

// Does the policy allow x, in a file of domain `own`? Each domain is compared once.
pub fn admits(s: &[u8], own: &[u8], p: RightsPlace, x: &[u8]) -> bool
    requires { PolicyOver s.now p.domains p.policy }
    ensures { Admits s.now p.domains own.now p.policy x.now result }
{
    if wide(s[p.policy]) == 255 {
        return true;
    }
    listed_slot(s, own, p, x).is_some()
}

// What slot k of the list of domains at u stands for, in a file of domain `own`.
pub fn slot_aid<'a>(t: &'a [u8], own: &'a [u8], u: usize, k: usize) -> &'a [u8]
    requires { HasSlot t.now u k }
    ensures { SlotIs t.now u own.now k result.now }
{
    if k == 32 {
        return own;
    }
    match nth_aid(t, u, k) {
        Some(a) => aid_bytes(t, a),
        None => own,
    }
}

// Does the first policy, in a file of domain `own`, allow all that the second allows in one of domain `other`?
pub fn admits_all_of<'a>(
    s: &[u8],
    own: &[u8],
    p: RightsPlace,
    t: &'a [u8],
    other: &'a [u8],
    q: RightsPlace,
) -> bool
    requires policy_over { PolicyOver s.now p.domains p.policy }
    requires policy_over_2 { PolicyOver t.now q.domains q.policy }
    ensures { AdmitsAllOf s.now p.domains own.now p.policy
        t.now q.domains other.now q.policy result }
{
    if wide(s[p.policy]) == 255 {
        return true;
    }
    if wide(t[q.policy]) == 255 {
        return false;
    }
    for i in indexes_of(t, q.policy) {
        let x = slot_aid(t, other, q.domains, slot(wide(*i)));
        if listed_slot(s, own, p, x).is_none() {
            return false;
        }
    }
    true
}

// The number of x in the domains listed at u, the loading domain behind them; one more than the last where it is not there.
// Kept: a number for "not there", since the answer is kept as a byte of a row, and compared as one.
pub fn number_of(f: &[u8], u: usize, domain: &[u8], x: &[u8]) -> usize
    requires { DomainsThere f.now u }
    ensures number_is { NumberIs f.now u domain.now x.now result }
    ensures upper_bound { result ≤ 33 }
{
    let count = wide(f[u]);
    let mut c = u + 1;
    for k in 0..count {
        if aid_is(f, c, x) {
            return k;
        }
        c = after_aid(f, c);
    }
    if same_bytes(x, domain) {
        return count;
    }
    count + 1
}
