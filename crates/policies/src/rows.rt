// Numbers of domains, kept in rows between comparisons, and sets of numbers as bits.
ghost use Rattle.std.specs.Prelude.{◌<◌, ◌≡◌};
ghost use Rattle.policies.specs.Say.{HasSlot};
ghost use Rattle.policies.specs.Numbers.{DomainsThere};
ghost use Rattle.policies.specs.Rows.{with_bit, has_bit, HasPlaces, NumberKept};

use super::{TwoLists, number_of, slot_aid};
use fields::wide;

// The mask m with bit n.
pub fn with_bit(m: u64, n: usize) -> u64
    ensures { result ≡ with_bit m n }
{
    m | 1u64 << (n % 64)
}

// Has the mask m bit n?
pub fn has_bit(m: u64, n: usize) -> bool
    ensures { result ≡ has_bit m n }
{
    (m >> (n % 64)) % 2 == 1
}

// The number, in the own list with `domain` behind it, of what slot k of the other list stands for in a file of domain `other`: from the
// row where it is known; found and kept there where it is not.
pub fn number_at<'a>(
    f: &[u8],
    domain: &[u8],
    g: &'a [u8],
    other: &'a [u8],
    l: TwoLists,
    k: usize,
    row: &mut [u8],
) -> usize
    requires domains_there { DomainsThere f.now l.own }
    requires has_slot { HasSlot g.now l.other k }
    requires has_places { HasPlaces row.old l }
    ensures number_kept { NumberKept f.now domain.now g.now other.now l k row.old row.new result }
    ensures upper_bound { result < 256 }
{
    let known = wide(row[l.base + k]);
    if known != 255 {
        return known;
    }
    let n = number_of(f, l.own, domain, slot_aid(g, other, l.other, k));
    row[l.base + k] = n as u8;
    n
}
