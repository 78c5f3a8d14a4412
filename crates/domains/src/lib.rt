// The domains of a store: questions 3, 4 and 5 of its entries in order, each over the earlier ones, and 26 of the packages of kind-3 domains.
#![tactic(auto)]

ghost use Rattle.std.specs.Prelude.{◌≡◌, true, ◌*◌, ◌≤◌, length};
ghost use Rattle.rules.specs.Store.{domain, loaded, first_entry, store_limits};
ghost use Rattle.store.specs.Entries.{part, kind_at, EntryAt, StandFrom};
ghost use Rattle.domains.specs.Domains.{reads_without_int, DomainsIs, EntrySays, AllSay};

use file_codes::subset::file_keeps;
use store::EntryPart;

// 3 and 4 of the domain whose entry stands from `at` up to `next`, its AID from `from` on. If it is new, it is entered.
fn domain_ok(s: &[u8], at: usize, from: usize, next: usize, table: &mut [u16]) -> bool
    requires domains_is { DomainsIs s.now at table.old }
    requires entry_at { EntryAt s.now at (domain (kind_at s.now at) (part s.now from next)) next × (from ≤ next) }
    requires s_len_bound { length s.now ≤ 65535 }
    ensures entry_says { EntrySays s.now at (domain (kind_at s.now at) (part s.now from next)) result }
    ensures domains_is_2 { result ≡ true → DomainsIs s.now next table.new }
{
    if !cursor::length_ok(&s[from..next]) {
        return false;
    }
    sorted::enter(s, table, at)
}

// 26 of a file in a domain of kind 3, where the file reads and each code splits.
fn file_ok(s: &[u8], g: &[u8]) -> bool
    ensures { result ≡ reads_without_int (store_limits s.now) g.now }
{
    match reader::read_package(g, store::openings::limits_of(s)) {
        Err(_) => false,
        Ok(_) => {
            let table = instructions::table();
            file_keeps(g, &table)
        }
    }
}

// 3 and 5 of the package whose entry stands at a place, its domain's AID from `from` up to `file`, its file up to `next`; and 26 of it, where
// the domain is of kind 3: here, since the table has the domain's place.
fn package_ok(s: &[u8], at: usize, from: usize, file: usize, next: usize, table: &[u16]) -> bool
    requires domains_is { DomainsIs s.now at table.now }
    requires from_le_file { (from ≤ file) × (file ≤ next) × (next ≤ length s.now) }
    ensures { EntrySays s.now at (loaded (part s.now from file) (part s.now file next)) result }
{
    if !cursor::length_ok(&s[from..file]) {
        return false;
    }
    let Some(p) = sorted::find(s, table, &s[from..file]) else {
        return false;
    };
    if s[p] != 3 {
        return true;
    }
    file_ok(s, &s[file..next])
}

// Is the domain of each entry up to a place as questions 3 to 5 ask, over the earlier entries?
pub fn domains_ok(s: &[u8], end: usize, table: &mut [u16]) -> bool
    requires stand_from { StandFrom s.now (first_entry s.now) end }
    requires s_len_bound { (length s.now ≤ 65535) × (length s.now ≤ 8 * length table.old) }
    ensures { AllSay s.now end result }
{
    table[0] = 0;
    let mut at = store::openings::first_entry(s);
    while let Some(part) = store::entry_at(s, at, end) {
        match part {
            EntryPart::Domain { from, next } => {
                if !domain_ok(s, at, from, next, &mut *table) {
                    return false;
                }
                at = next;
            }
            EntryPart::Package { from, file, next } => {
                if !package_ok(s, at, from, file, next, &*table) {
                    return false;
                }
                at = next;
            }
        }
    }
    true
}
