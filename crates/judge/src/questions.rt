// What is asked of a file over the entries that end at a place, from 10 on: the same for a load and for a package of the store.
ghost use Rattle.std.specs.Prelude.{◌≡◌, true, ℕ, ◌≤◌, length, get_or};
ghost use Rattle.rules.specs.Bytes.{aid};
ghost use Rattle.rules.specs.Package.{most_classes};
ghost use Rattle.rules.specs.Questions.{q10_marked};
ghost use Rattle.refusals.specs.Refusals.{number_said};
ghost use Rattle.store.specs.Sound.{OverSome};
ghost use Rattle.places.specs.Reads.{Ends};
ghost use Rattle.homes.specs.Homes.{aid_at};
ghost use Rattle.homes.specs.Found.{places_length, Indexed, ImportPlaces};
ghost use Rattle.depths.specs.Depths.{DepthsKept};
ghost use Rattle.judge.specs.Says.{used_at, HasRoom, ReadSome, Asked14Some, NumberFrom, ParentsAnswer, DomainTold, TablesTold, FileSays};

use super::contents::inside_answer;
use super::{Judging, LoadingDomain};
use depths::Bounds;
use fields::u2_at;
use homes::{Loaded, Places};
use refusals::refusal::Refusal;
use store::openings;

// 12 to 14 of a file that reads: the first no, or the depth of the deepest class; with it the depths of the own classes and the
// places of the imports, in a table that has none before.
fn package_answer<'a>(
    s: &'a [u8],
    end: usize,
    file: &'a [u8],
    index: &[u16],
    depths: &[u8],
    own: &mut [u8],
    places: &mut Places,
) -> Result<usize, Refusal>
    requires over_some { OverSome s.now end × (q10_marked file.now ≡ true) × ReadSome s.now file.now }
    requires indexed { Indexed s.now end index.now × DepthsKept s.now end depths.now × (length s.now ≤ 65535) }
    requires own_len { (length own.old ≡ most_classes) × (length places.old ≡ places_length) × ((k : ℕ) → get_or places.old k 0 ≡ 0) }
    ensures parents_answer { ParentsAnswer s.now end file.now result }
    ensures tables_told { TablesTold s.now end file.now own.new places.new result }
{
    if !imports::package_new(file, s, end, index) {
        return Err(Refusal::PackageExists);
    }
    if !imports::imports_there(file, s, end, index, places) {
        return Err(Refusal::ImportMissing);
    }
    let mut rows = [0u16; 512];
    let limits = openings::limits_of(s);
    let bounds = Bounds {
        end: end,
        most: limits.depth,
    };
    match depths::parents_ok(file, s, places, &mut rows, depths, own, bounds) {
        Some(depth) => Ok(depth),
        None => Err(Refusal::ClassParents),
    }
}

// 10 to 14 of a file: the first no, or the depth of the deepest class; with it the depths of the own classes and the places of
// the imports, in a table that has none before.
pub fn parents_answer<'a>(
    s: &'a [u8],
    end: usize,
    file: &'a [u8],
    index: &[u16],
    depths: &[u8],
    own: &mut [u8],
    places: &mut Places,
) -> Result<usize, Refusal>
    requires over_some { OverSome s.now end }
    requires indexed { Indexed s.now end index.now × DepthsKept s.now end depths.now × (length s.now ≤ 65535) }
    requires own_len { (length own.old ≡ most_classes) × (length places.old ≡ places_length) × ((k : ℕ) → get_or places.old k 0 ≡ 0) }
    ensures parents_answer { ParentsAnswer s.now end file.now result }
    ensures tables_told { TablesTold s.now end file.now own.new places.new result }
{
    reader::read_package(file, openings::limits_of(s))?;
    package_answer(s, end, file, index, depths, own, places)
}

// Load, from 20 on, of a file that passed 14: the first no.
pub fn running_answer<'a>(
    s: &'a [u8],
    x: Loaded,
    file: &'a [u8],
    index: &[u16],
    places: &Places,
    names: &mut [u16],
    seen: &mut [u8],
) -> Result<(), Refusal>
    requires asked14some { Asked14Some s.now x.end (aid_at s.now x.domain) file.now × Ends aid s.now x.domain }
    requires indexed { Indexed s.now x.end index.now × ImportPlaces file.now s.now x.end places.now }
    requires s_len_bound { (length s.now ≤ 65535) × HasRoom s.now names.old seen.old }
    ensures { NumberFrom 20 s.now x.end (aid_at s.now x.domain) file.now (number_said result) }
{
    let end = x.end;
    let domain = x.domain;
    if !running::running_ok(file, s, x, index, places, names, seen) {
        return Err(Refusal::RunningPolicy);
    }
    if !store::package_fits(s, end, files::aid_bytes(s, domain), file) {
        return Err(Refusal::StoreFull);
    }
    Ok(())
}

// Load, from 10 on, over all entries of a store.
pub fn file_answer<'a>(
    s: &'a [u8],
    domain: LoadingDomain,
    file: &'a [u8],
    index: &[u16],
    depths: &[u8],
    names: &mut [u16],
    seen: &mut [u8],
) -> Result<usize, Refusal>
    requires over_some { OverSome s.now (used_at s.now) × DomainTold s.now (used_at s.now) file.now domain }
    requires indexed { Indexed s.now (used_at s.now) index.now × DepthsKept s.now (used_at s.now) depths.now }
    requires s_len_bound { (length s.now ≤ 65535) × HasRoom s.now names.old seen.old }
    ensures { FileSays s.now (used_at s.now) (aid_at s.now domain.aid) file.now result }
{
    let end = u2_at(s, 5);
    let aid = domain.aid;
    let mut own = [0u8; 32];
    let mut places = [0u16; 15];
    let depth = parents_answer(s, end, file, index, depths, &mut own, &mut places)?;
    let judged = Judging {
        end: end as u16,
        aid: aid as u16,
        subset: domain.subset,
    };
    inside_answer(s, judged, file, index, &places, names, seen)?;
    let loaded = Loaded { end, domain: aid };
    running_answer(s, loaded, file, index, &places, names, seen)?;
    Ok(depth)
}
