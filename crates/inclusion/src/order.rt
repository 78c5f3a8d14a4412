// Policies over lists of domains that have the same order in both files: compared by their indexes.
ghost use Rattle.std.specs.Prelude.{◌≡◌};
ghost use Rattle.policies.specs.Say.{IndexesThere};
ghost use Rattle.policies.specs.Numbers.{DomainsThere};
ghost use Rattle.inclusion.specs.Order.{slot_as, IndexBits, BitsIs, PrefixIs, OrderTells};

use super::Masked;
use fields::wide;
use files::{after_aid, aid_bytes, aid_is};
use policies::rows::{has_bit, with_bit};
use policies::{RightsPlace, indexes_of};

// An index of a list, those of domains below 32, with a number for FE.
// Kept: apart from `slot` of policies, which is told of every number: it asks for FE, this one for what is below 32.
fn slot_as(i: usize, own: usize) -> usize
    ensures { result ≡ slot_as own i }
{
    if i < 32 {
        return i;
    }
    own
}

// The indexes of the policy at a place, which is not FF, as bits; that of FE is `own`.
pub fn index_bits(s: &[u8], at: usize, own: usize) -> u64
    requires { IndexesThere s.now at }
    ensures { IndexBits s.now at own result }
{
    let mut m: u64 = 0;
    for i in indexes_of(s, at) {
        m = with_bit(m, slot_as(wide(*i), own));
    }
    m
}

// Is each of them a bit of m?
fn are_bits(s: &[u8], at: usize, own: usize, m: u64) -> bool
    requires { IndexesThere s.now at }
    ensures { BitsIs s.now at own m result }
{
    indexes_of(s, at)
        .iter()
        .all(|i| has_bit(m, slot_as(wide(*i), own)))
}

// Are the domains of b listed at v the first ones of those of a listed at u, in this order?
fn begins_with(a: &[u8], u: usize, b: &[u8], v: usize) -> bool
    requires domains_there { DomainsThere a.now u }
    requires domains_there_2 { DomainsThere b.now v }
    ensures { PrefixIs a.now u b.now v result }
{
    let count = wide(b[v]);
    if wide(a[u]) < count {
        return false;
    }
    let mut c = u + 1;
    let mut d = v + 1;
    for _ in 0..count {
        if !aid_is(a, c, aid_bytes(b, d)) {
            return false;
        }
        c = after_aid(a, c);
        d = after_aid(b, d);
    }
    true
}

// Do these lists of domains begin alike, and are the indexes of the policy of b at q, `own` for FE, bits of the mask?
pub fn in_order(a: &[u8], b: &[u8], q: RightsPlace, m: Masked, own: usize) -> bool
    requires { DomainsThere a.now m.domains × DomainsThere b.now q.domains × IndexesThere b.now q.policy }
    ensures { OrderTells a.now b.now q m own result }
{
    if !are_bits(b, q.policy, own, m.bits) {
        return false;
    }
    begins_with(a, m.domains, b, q.domains)
}
