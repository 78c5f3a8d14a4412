// A load judged over the entries that end at a place, and the packages of a store one after the other: the same functions for question 2
// and for the call.
#![tactic(auto)]

pub mod contents;
pub mod questions;

ghost use Rattle.std.specs.Prelude.{◌≡◌, true, ◌≤◌, length};
ghost use Rattle.rules.specs.Store.{first_entry};
ghost use Rattle.store.specs.Entries.{StandFrom};
ghost use Rattle.store.specs.Sound.{OverSome};
ghost use Rattle.index.specs.Index.{IndexIs};
ghost use Rattle.homes.specs.Found.{Indexed};
ghost use Rattle.depths.specs.Depths.{DepthsKept};
ghost use Rattle.judge.specs.Says.{used_at, HasRoom, LoadSays, DomainsYes, entry_of, PackageThere, EntrySays, PackagesSay};

use contents::inside_answer;
use fields::u2_at;
use homes::Loaded;
use questions::{file_answer, parents_answer, running_answer};
use refusals::refusal::Refusal;
use store::subset::keeps_subset;
use store::{EntryPart, openings};

// The entry of a package by its places: its start, the file's first byte, its end. The domain's AID stands three bytes behind its start.
#[derive(Clone, Copy)]
pub struct PackageEntry {
    pub at: usize,
    pub file: usize,
    pub next: usize,
}

// The domain that a file is loaded into: where its AID stands behind its length, and whether 26 is asked. It is asked where the domain is
// of kind 3, and not of a stored package, of which it was asked with 3 and 5.
#[derive(Clone, Copy)]
pub struct LoadingDomain {
    pub aid: usize,
    pub subset: bool,
}

// A file that is judged: where the entries before it end, and the domain that it is loaded into. Its numbers take two bytes each, so that
// it is handed on in a register.
#[derive(Clone, Copy)]
pub struct Judging {
    pub end: u16,
    pub aid: u16,
    pub subset: bool,
}

// Load, over all entries of a store: the first refusal of 3, 5, 10 to 17, 24, 26, 18 to 21, or the depth of the deepest own class. In a
// domain's entry the AID stands behind the low byte of its length, two bytes behind the entry's start.
pub fn load_answer<'a>(
    s: &'a [u8],
    domain: &[u8],
    file: &'a [u8],
    index: &[u16],
    depths: &[u8],
    names: &mut [u16],
    seen: &mut [u8],
) -> Result<usize, Refusal>
    requires over_some { OverSome s.now (used_at s.now) }
    requires indexed { Indexed s.now (used_at s.now) index.now × DepthsKept s.now (used_at s.now) depths.now }
    requires s_len_bound { (length s.now ≤ 65535) × HasRoom s.now names.old seen.old }
    ensures { LoadSays s.now (used_at s.now) domain.now file.now result }
{
    if !cursor::length_ok(domain) {
        return Err(Refusal::AidLength);
    }
    let end = u2_at(s, 5);
    match store::find_domain(s, end, domain) {
        Some(p) => {
            let loading = LoadingDomain {
                aid: p.at + 2,
                subset: keeps_subset(s, end, domain),
            };
            file_answer(s, loading, file, index, depths, names, seen)
        }
        None => Err(Refusal::DomainUnknown),
    }
}

// Would a load have been accepted as the entry at these places? If so, its package is entered into the index, and the depths of its
// classes into the table.
fn package_sound(
    s: &[u8],
    x: PackageEntry,
    index: &mut [u16],
    depths: &mut [u8],
    names: &mut [u16],
    seen: &mut [u8],
) -> bool
    requires over_some { OverSome s.now x.at × PackageThere s.now x }
    requires index_is { IndexIs s.now x.at index.old × DepthsKept s.now x.at depths.old }
    requires s_len_bound { (length s.now ≤ 65535) × HasRoom s.now names.old seen.old }
    ensures entry_says { EntrySays s.now x.at (entry_of s.now x) result }
    ensures index_is_2 { result ≡ true → IndexIs s.now x.next index.new × DepthsKept s.now x.next depths.new }
{
    let at = x.at;
    let file = x.file;
    let next = x.next;
    let g = &s[file..next];
    let aid = at + 3;
    let mut own = [0u8; 32];
    let mut places = [0u16; 15];
    let Ok(_) = parents_answer(s, at, g, index, depths, &mut own, &mut places) else {
        return false;
    };
    let judged = Judging {
        end: at as u16,
        aid: aid as u16,
        subset: false,
    };
    let Ok(()) = inside_answer(s, judged, g, index, &places, names, seen) else {
        return false;
    };
    depths::table::keep_depths(s, depths, &own, file, next);
    let loaded = Loaded {
        end: at,
        domain: aid,
    };
    let Ok(()) = running_answer(s, loaded, g, index, &places, names, seen) else {
        return false;
    };
    index::enter_package(s, at, file, next, index);
    true
}

// Would each entry up to a place have been accepted, where questions 3 to 5 of each are answered yes? With tables lent for no entries; those
// of accepted ones then hold them all.
pub fn packages_sound(
    s: &[u8],
    end: usize,
    index: &mut [u16],
    depths: &mut [u8],
    names: &mut [u16],
    seen: &mut [u8],
) -> bool
    requires stand_from { StandFrom s.now (first_entry s.now) end × DomainsYes s.now end }
    requires index_is { IndexIs s.now (first_entry s.now) index.old × DepthsKept s.now (first_entry s.now) depths.old }
    requires s_len_bound { (length s.now ≤ 65535) × HasRoom s.now names.old seen.old }
    ensures packages_say { PackagesSay s.now end result }
    ensures index_is_2 { result ≡ true → IndexIs s.now end index.new × DepthsKept s.now end depths.new }
{
    let mut at = openings::first_entry(s);
    while let Some(part) = store::entry_at(s, at, end) {
        match part {
            EntryPart::Domain { next, .. } => {
                at = next;
            }
            EntryPart::Package { file, next, .. } => {
                let x = PackageEntry {
                    at: at,
                    file: file,
                    next: next,
                };
                if !package_sound(s, x, index, depths, names, seen) {
                    return false;
                }
                at = next;
            }
        }
    }
    true
}
