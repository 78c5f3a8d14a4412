// Questions 12 and 13 of a file over the entries that end at a place: is it new, is each import installed, and where?
#![tactic(auto)]

ghost use Rattle.std.specs.Prelude.{◌≡◌, ℕ, ◌≤◌, length, get_or};
ghost use Rattle.index.specs.Index.{IndexIs};
ghost use Rattle.homes.specs.Found.{places_length, ImportPlaces};
ghost use Rattle.imports.specs.Say.{SettingThere, NewIs, ImportsIs, ImportThere, ImportHomeIs};

use fields::wide;
use homes::{Home, Places};

// 12. Is the package AID not installed?
pub fn package_new(f: &[u8], s: &[u8], end: usize, index: &[u16]) -> bool
    requires setting_there { SettingThere f.now s.now end }
    requires index_is { IndexIs s.now end index.now }
    ensures { NewIs f.now s.now end result }
{
    index::package_by(s, end, index, files::own_aid(f)).is_none()
}

// The home of the package installed under the AID of import k, counted from 0, of the list of imports at a place.
fn import_home(f: &[u8], s: &[u8], end: usize, index: &[u16], at: usize, k: usize) -> Option<Home>
    requires import_there { ImportThere f.now s.now end at }
    requires index_is { IndexIs s.now end index.now }
    ensures { ImportHomeIs f.now s.now end k result }
{
    let c = files::nth_aid(f, at, k)?;
    homes::by_aid(s, end, index, files::aid_bytes(f, c))
}

// 13. Is each import installed? The places of their entries go into the table, which has none before.
pub fn imports_there(f: &[u8], s: &[u8], end: usize, index: &[u16], places: &mut Places) -> bool
    requires setting_there { SettingThere f.now s.now end × (length s.now ≤ 65535) }
    requires index_is { IndexIs s.now end index.now }
    requires places_len { (length places.old ≡ places_length) × ((k : ℕ) → get_or places.old k 0 ≡ 0) }
    ensures imports_is { ImportsIs f.now s.now end result }
    ensures import_places { ImportPlaces f.now s.now end places.new }
{
    let at = files::imports_at(f);
    for k in 0..wide(f[at]) {
        let Some(h) = import_home(f, s, end, index, at, k) else {
            return false;
        };
        places[k] = h.before as u16;
    }
    true
}
