// Domains of kind 3: those whose packages keep to the subset without int.
ghost use Rattle.std.specs.Prelude.{◌≡◌, ◌<◌, ◌≤◌, length};
ghost use Rattle.rules.specs.Store.{domain, first_entry};
ghost use Rattle.store.specs.Entries.{part, kind_at, StandFrom, is_without_int};
ghost use Rattle.store.specs.Answers.{SubsetSays};

use super::openings::first_entry;
use super::{EntryPart, entry_at};

// Is the domain whose entry stands at a place, its AID from `from` up to `next`, of kind 3, and is its AID the one given?
fn is_without_int(s: &[u8], at: usize, from: usize, next: usize, aid: &[u8]) -> bool
    requires { (at < length s.now) × (from ≤ next) × (next ≤ length s.now) }
    ensures { result ≡ is_without_int aid.now (domain (kind_at s.now at) (part s.now from next)) }
{
    if s[at] != 3 {
        return false;
    }
    fields::same_bytes(aid, &s[from..next])
}

// Is a domain of kind 3, of the entries that end at `end`?
pub fn keeps_subset(s: &[u8], end: usize, aid: &[u8]) -> bool
    requires { StandFrom s.now (first_entry s.now) end }
    ensures { SubsetSays s.now end aid.now result }
{
    let mut at = first_entry(s);
    while let Some(part) = entry_at(s, at, end) {
        match part {
            EntryPart::Domain { from, next } => {
                if is_without_int(s, at, from, next, aid) {
                    return true;
                }
                at = next;
            }
            EntryPart::Package { next, .. } => {
                at = next;
            }
        }
    }
    false
}
