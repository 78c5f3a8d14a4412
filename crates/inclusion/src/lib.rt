// Whether one method's policy allows all that another's allows, by indexes or by the numbers of their domains; by AIDs only where neither
// tells it. A row keeps the numbers that were found.
#![tactic(auto)]

pub mod order;

ghost use Rattle.std.specs.Prelude.{◌≡◌, true, length};
ghost use Rattle.policies.specs.Say.{PolicyOver, AdmitsAllOf};
ghost use Rattle.policies.specs.Numbers.{DomainsThere};
ghost use Rattle.policies.specs.Rows.{row_length, ListOver};
ghost use Rattle.inclusion.specs.Rows.{WithinKept, RowTrue, RowEmpty};
ghost use Rattle.inclusion.specs.Order.{OwnBit};

use fields::{same_bytes, wide};
use order::{in_order, index_bits};
use policies::rows::{has_bit, number_at};
use policies::{RightsPlace, TwoLists, admits_all_of, indexes_of, slot};

// A policy's indexes as bits, and where the list of domains stands that they count.
#[derive(Clone, Copy)]
pub struct Masked {
    pub domains: usize,
    pub bits: u64,
}

// Is the number of each slot that the policy of g at a place lists, which is not FF, a bit of the mask? Numbers are those of the domains of
// f, with `domain` behind them.
fn within<'a>(
    f: &[u8],
    domain: &[u8],
    m: Masked,
    g: &'a [u8],
    other: &'a [u8],
    q: RightsPlace,
    row: &mut [u8],
) -> bool
    requires domains_there { DomainsThere f.now m.domains }
    requires list_over { ListOver g.now q.domains q.policy }
    requires row_len { length row.old ≡ row_length }
    ensures { WithinKept f.now domain.now m g.now other.now q row.old row.new result }
{
    let l = TwoLists {
        own: m.domains,
        other: q.domains,
        base: 0,
    };
    for i in indexes_of(g, q.policy) {
        let n = number_at(f, domain, g, other, l, slot(wide(*i)), row);
        if !has_bit(m.bits, n) {
            return false;
        }
    }
    true
}

// The bit for FE of a policy compared by its indexes with one in a file of domain `own` and of that many domains: behind these where both
// domains are the same, else one that is never set.
// Kept: 63 for "never", since the answer is a bit's number, asked of a mask for each index: an option would be asked each time.
fn own_bit(own: &[u8], other: &[u8], count: usize) -> usize
    ensures { OwnBit own.now other.now count result }
{
    if same_bytes(own, other) {
        return count;
    }
    63
}

// Do indexes or numbers tell that the policy of a at p, in a file of domain `own`, allows all that the one of b at q allows in one of domain
// `other`? A no tells nothing. Lists of domains that begin alike are compared by indexes, others by numbers, which are indexes of the first
// policy where its domains are all different.
fn told_yes<'a>(
    a: &[u8],
    own: &[u8],
    p: RightsPlace,
    b: &'a [u8],
    other: &'a [u8],
    q: RightsPlace,
    row: &mut [u8],
) -> bool
    requires policy_over { PolicyOver a.now p.domains p.policy }
    requires policy_over_2 { PolicyOver b.now q.domains q.policy }
    requires row_true { RowTrue a.now p.domains own.now b.now q.domains other.now row.old }
    ensures admits_all_of { result ≡ true → AdmitsAllOf a.now p.domains own.now p.policy
        b.now q.domains other.now q.policy true }
    ensures row_true_2 { RowTrue a.now p.domains own.now b.now q.domains other.now row.new }
{
    let at = q.policy;
    let count = wide(b[at]);
    if count < 4 {
        return false;
    }
    if count == 255 {
        return false;
    }
    let first = p.policy;
    if wide(a[first]) == 255 {
        return true;
    }
    let domains = p.domains;
    let most = wide(a[domains]);
    let m = Masked {
        domains: domains,
        bits: index_bits(a, first, most),
    };
    if in_order(a, b, q, m, own_bit(own, other, most)) {
        return true;
    }
    within(a, own, m, b, other, q, row)
}

// Does the policy of a at p, in a file of domain `own`, allow all that the one of b at q allows in one of domain `other`?
pub fn admits_in_turn<'a>(
    a: &[u8],
    own: &[u8],
    p: RightsPlace,
    b: &'a [u8],
    other: &'a [u8],
    q: RightsPlace,
    row: &mut [u8],
) -> bool
    requires policy_over { PolicyOver a.now p.domains p.policy }
    requires policy_over_2 { PolicyOver b.now q.domains q.policy }
    requires row_true { RowTrue a.now p.domains own.now b.now q.domains other.now row.old }
    ensures admits_all_of { AdmitsAllOf a.now p.domains own.now p.policy
        b.now q.domains other.now q.policy result }
    ensures row_true_2 { RowTrue a.now p.domains own.now b.now q.domains other.now row.new }
{
    if told_yes(a, own, p, b, other, q, row) {
        return true;
    }
    admits_all_of(a, own, p, b, other, q)
}

// No number is known.
pub fn empty_row(row: &mut [u8])
    requires { length row.old ≡ row_length }
    ensures { RowEmpty row.new }
{
    row.fill(255);
}
