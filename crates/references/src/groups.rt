// What the references of a group name, kept in a table for as many as it holds.
ghost use Rattle.std.specs.Prelude.{◌+◌, ◌≤◌, ◌<◌, ◌≡◌, true, false, length};
ghost use Rattle.homes.specs.Found.{ImportPlaces};
ghost use Rattle.slots.specs.Slots.{SlotsTrue};
ghost use Rattle.references.specs.Setting.{Judged};
ghost use Rattle.references.specs.Named.{GroupTrue, Lent};
ghost use Rattle.references.specs.Kept.{held, kept_count, kept_length, is_told, KeptTrue, SearchedIn, AllTold, in_group, told_in, SameTold};

use super::{Group, OpenReference, Told, kept, search_reference, tell_reference};
use homes::Places;

// A place of the table of a group.
#[derive(Clone, Copy)]
pub struct PlaceIn {
    pub group: Group,
    pub k: usize,
}

// Which open references of a group are searched: all, or those that calls asked for.
#[derive(Clone, Copy)]
pub struct Asked {
    pub group: Group,
    pub all: bool,
}

// How many references of the file the table of the group holds.
fn held(g: Group) -> usize
    ensures { result ≡ held g }
{
    g.count.saturating_sub(g.first).min(32)
}

// What is told of the references of the group, in the table, by the places of the file's imports, where no class above the class named is
// asked. What the table holds before is of no account.
pub fn tell_group<'a>(
    f: &'a [u8],
    s: &'a [u8],
    places: &Places,
    slots: &mut [u16],
    table: &mut [u16],
    g: Group,
)
    requires judged { Judged f.now s.now g.end × GroupTrue f.now g × (length table.old ≡ kept_length) }
    requires import_places { ImportPlaces f.now s.now g.end places.now × (length s.now ≤ 65535) }
    requires slots_true { SlotsTrue f.now s.now slots.old }
    ensures kept_true { KeptTrue f.now s.now g table.new }
    ensures slots_true_2 { SlotsTrue f.now s.now slots.new }
{
    for k in 0..held(g) {
        let x = tell_reference(f, s, places, slots, g, g.first + k);
        kept::keep_told(table, k, x);
    }
}

// What is open in a place of the table is searched.
fn search_place<'a>(
    f: &'a [u8],
    s: &'a [u8],
    packages: &[u16],
    slots: &mut [u16],
    seen: &mut [u8],
    table: &mut [u16],
    x: PlaceIn,
)
    requires judged { Judged f.now s.now x.group.end × GroupTrue f.now x.group × KeptTrue f.now s.now x.group table.old }
    requires k_lt_kept_count { (x.k < kept_count) × (x.group.first + x.k < x.group.count) × Lent s.now x.group.end packages.now seen.old }
    requires slots_true { SlotsTrue f.now s.now slots.old }
    ensures searched_in { SearchedIn f.now s.now x.group x.k table.old table.new }
    ensures slots_true_2 { SlotsTrue f.now s.now slots.new }
{
    let g = x.group;
    if let Told::Open(h, place) = kept::told_at(table, x.k) {
        let open = OpenReference {
            number: g.first + x.k,
            home: h,
            place,
        };
        let found = search_reference(f, s, packages, slots, seen, g, open);
        kept::keep(table, x.k, found);
    }
}

// The open ones that calls asked for, or all that are open, are searched.
pub fn search_open<'a>(
    f: &'a [u8],
    s: &'a [u8],
    packages: &[u16],
    slots: &mut [u16],
    seen: &mut [u8],
    table: &mut [u16],
    x: Asked,
)
    requires judged { Judged f.now s.now x.group.end × GroupTrue f.now x.group × KeptTrue f.now s.now x.group table.old }
    requires lent { Lent s.now x.group.end packages.now seen.old }
    requires slots_true { SlotsTrue f.now s.now slots.old }
    ensures kept_true { KeptTrue f.now s.now x.group table.new × (x.all ≡ true → AllTold x.group table.new) }
    ensures slots_true_2 { SlotsTrue f.now s.now slots.new }
{
    let group = x.group;
    for k in 0..held(group) {
        if x.all || kept::is_wanted(table, k) {
            search_place(f, s, packages, slots, seen, table, PlaceIn { group, k });
        }
    }
}

// Are calls of reference k asked with the group: is it one of the group, or none of the file's?
pub fn in_group(g: Group, k: usize) -> bool
    ensures { result ≡ in_group g k }
{
    g.count <= k || g.first <= k && k - g.first < 32
}

// What is told of reference k, by the table of the group with which it is asked.
pub fn told_in(table: &[u16], g: Group, k: usize) -> Told
    requires { (length table.now ≡ kept_length) × (in_group g k ≡ true) }
    ensures { result ≡ told_in table.now g k }
{
    if g.count <= k {
        return Told::Nothing;
    }
    kept::told_at(table, k - g.first)
}

// A call asks for what is open of reference k.
pub fn want_in(table: &mut [u16], g: Group, k: usize)
    requires { (length table.old ≡ kept_length) × (in_group g k ≡ true) × (is_told (told_in table.old g k) ≡ false) }
    ensures { SameTold table.old table.new }
{
    if k < g.count {
        kept::want(table, k - g.first);
    }
}
