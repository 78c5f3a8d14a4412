// What a reference of the file being judged names: the class by the places of the imports, the declaration with the search or without it.
#![tactic(auto)]

pub mod groups;
pub mod kept;

ghost use Rattle.std.specs.Prelude.{◌≤◌, length};
ghost use Rattle.homes.specs.Found.{ImportPlaces};
ghost use Rattle.slots.specs.Slots.{SlotsTrue};
ghost use Rattle.references.specs.Setting.{Judged};
ghost use Rattle.references.specs.Named.{GroupTrue, Lent, ClassIs, RecordThere, MeantIs, OwnMeant, NumbersTell, ReferenceIs, ToldIs, OpenFrom};

use files::Reference;
use homes::{Home, Places};
use search::Sought;
use slots::Site;

// The declaration that a reference means: the home of its package, the places of its class record and of its method in the file there;
// whether the class named is of kind 0; and the number of the package where the class named declares it itself, else 16.
// Kept: 16 is the row of all other packages, as the table's mark holds it: an `Option` of a row is no plainer.
#[derive(Clone, Copy)]
pub struct Meant {
    pub home: Home,
    pub class: usize,
    pub method: usize,
    pub kind0: bool,
    pub pack: usize,
}

// What is told of a reference: the declaration that it means; that it names nothing; or nothing yet but the class named: it is open. Of that
// class the home of its package and the place of its record in the file there are told.
// Kept: an `Option` around two of these three answers is no plainer.
#[derive(Clone, Copy)]
pub enum Told {
    Method(Meant),
    Nothing,
    Open(Home, usize),
}

// References of the file being judged, from one on as many as a table holds: where the earlier entries end, where the file's references
// stand and how many they are, and the number of the first.
#[derive(Clone, Copy)]
pub struct Group {
    pub end: usize,
    pub at: usize,
    pub count: usize,
    pub first: usize,
}

// A reference that is open: its number, and the class named.
#[derive(Clone, Copy)]
pub struct OpenReference {
    pub number: usize,
    pub home: Home,
    pub place: usize,
}

// The class that a reference names: the home of its package, and the place of its record in the file there.
#[derive(Clone, Copy)]
pub struct ClassRecord {
    pub home: Home,
    pub place: usize,
}

// The record of the class named: the number of its package, and the record's place in the file there.
#[derive(Clone, Copy)]
pub struct NamedRecord {
    pub pack: usize,
    pub place: usize,
}

// The class that package number p and class number c name in the file being judged, over the entries that end at a place, by the places of its
// imports.
fn class_named<'a>(
    f: &'a [u8],
    s: &'a [u8],
    end: usize,
    places: &Places,
    slots: &mut [u16],
    p: usize,
    c: usize,
) -> Option<ClassRecord>
    requires judged { Judged f.now s.now end × ImportPlaces f.now s.now end places.now × (length s.now ≤ 65535) }
    requires slots_true { SlotsTrue f.now s.now slots.old }
    ensures class_is { ClassIs f.now s.now end p c result }
    ensures slots_true_2 { SlotsTrue f.now s.now slots.new }
{
    let home = homes::placed(s, end, places, p)?;
    let k = slots::slot_for(slots, home);
    let x = Site { home, slot: k };
    let place = slots::class_in(f, s, slots, x, c)?;
    Some(ClassRecord { home, place })
}

// The declaration that a class and a name mean, where it is the class's own; else it is open.
fn own_declared<'a>(f: &'a [u8], s: &'a [u8], x: Sought, r: NamedRecord) -> Told
    requires { Judged f.now s.now x.end × RecordThere f.now s.now x r }
    ensures { OwnMeant f.now s.now x r result }
{
    let h = x.home;
    let g = homes::file_of(f, s, h);
    let place = r.place;
    match files::find_method(g, place, x.name) {
        Some(m) => Told::Method(Meant {
            home: h,
            class: place,
            method: m,
            kind0: !files::is_interface(g, place),
            pack: r.pack,
        }),
        None => Told::Open(h, place),
    }
}

// What a package number, a class number and a name name, where no class above the class named is asked.
fn told_by<'a>(
    f: &'a [u8],
    s: &'a [u8],
    places: &Places,
    slots: &mut [u16],
    end: usize,
    x: Reference,
) -> Told
    requires judged { Judged f.now s.now end × ImportPlaces f.now s.now end places.now × (length s.now ≤ 65535) }
    requires slots_true { SlotsTrue f.now s.now slots.old }
    ensures numbers_tell { NumbersTell f.now s.now end x result }
    ensures slots_true_2 { SlotsTrue f.now s.now slots.new }
{
    match class_named(f, s, end, places, slots, x.pack, x.class) {
        Some(c) => {
            let sought = Sought {
                end,
                home: c.home,
                number: x.class,
                name: x.name,
            };
            let r = NamedRecord {
                pack: x.pack,
                place: c.place,
            };
            own_declared(f, s, sought, r)
        }
        None => Told::Nothing,
    }
}

// What is told of the reference with a number of the file being judged, where no class above the class named is asked.
fn tell_reference<'a>(
    f: &'a [u8],
    s: &'a [u8],
    places: &Places,
    slots: &mut [u16],
    g: Group,
    k: usize,
) -> Told
    requires judged { Judged f.now s.now g.end × GroupTrue f.now g }
    requires import_places { ImportPlaces f.now s.now g.end places.now × (length s.now ≤ 65535) }
    requires slots_true { SlotsTrue f.now s.now slots.old }
    ensures told_is { ToldIs f.now s.now g.end k result }
    ensures slots_true_2 { SlotsTrue f.now s.now slots.new }
{
    match files::reference_at(f, g.at, k) {
        Some(named) => told_by(f, s, places, slots, g.end, named),
        None => Told::Nothing,
    }
}

// The declaration that a class and a name mean: the first that the search from the class finds.
fn found_from<'a>(
    f: &'a [u8],
    s: &'a [u8],
    packages: &[u16],
    slots: &mut [u16],
    seen: &mut [u8],
    x: Sought,
    r: NamedRecord,
) -> Option<Meant>
    requires judged { Judged f.now s.now x.end × RecordThere f.now s.now x r }
    requires lent { Lent s.now x.end packages.now seen.old }
    requires slots_true { SlotsTrue f.now s.now slots.old }
    ensures meant_is { MeantIs f.now s.now x r result }
    ensures slots_true_2 { SlotsTrue f.now s.now slots.new }
{
    let g = homes::file_of(f, s, x.home);
    let kind0 = !files::is_interface(g, r.place);
    let d = search::find(f, s, packages, slots, seen, x)?;
    Some(Meant {
        home: d.home,
        class: d.class,
        method: d.method,
        kind0,
        pack: 16,
    })
}

// What a reference that is open names: it is searched from the class named.
fn search_reference<'a>(
    f: &'a [u8],
    s: &'a [u8],
    packages: &[u16],
    slots: &mut [u16],
    seen: &mut [u8],
    g: Group,
    x: OpenReference,
) -> Option<Meant>
    requires judged { Judged f.now s.now g.end × GroupTrue f.now g × OpenFrom f.now s.now g.end x.number x.home x.place }
    requires lent { Lent s.now g.end packages.now seen.old }
    requires slots_true { SlotsTrue f.now s.now slots.old }
    ensures reference_is { ReferenceIs f.now s.now g.end x.number result }
    ensures slots_true_2 { SlotsTrue f.now s.now slots.new }
{
    let named = files::reference_at(f, g.at, x.number)?;
    let sought = Sought {
        end: g.end,
        home: x.home,
        number: named.class,
        name: named.name,
    };
    let r = NamedRecord {
        pack: named.pack,
        place: x.place,
    };
    found_from(f, s, packages, slots, seen, sought, r)
}
