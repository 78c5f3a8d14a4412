// The classes that the walk of question 20 visits, and the step from one to a parent. The walk keeps a visit at each level: its numbers
// take two bytes each, those of classes and slots one.
ghost use Rattle.std.specs.Prelude.{◌≡◌, ◌≤◌, length};
ghost use Rattle.homes.specs.Homes.{RecordIs};
ghost use Rattle.homes.specs.Found.{Indexed};
ghost use Rattle.classes.specs.Say.{CountIs};
ghost use Rattle.classes.specs.Keys.{key};
ghost use Rattle.slots.specs.Slots.{SmallHome, SlotsTrue};
ghost use Rattle.running.specs.Walk.{visit_home, visit_names, SmallNames, visit_for, VisitThere, VisitPlaced, PlacedIs};
ghost use Rattle.running.specs.Walk.{NumberedThere, NumberedAt, ParentPlaced, ParentVisit};

use chains::Names;
use fields::wide;
use homes::Home;
use slots::Site;

// A class that is visited for own class `own` over the entries that end at `end`, whose names end at `stored` and at `all`, and whose
// package's domain stands at place `domain` of the store: its home and number, and the slot of its package and the place of its record
// once these are found.
// Kept: `as usize` on these numbers. With usize::from six proofs did not close, as each use then has an equation of its own.
#[derive(Clone, Copy)]
pub struct Visit {
    pub end: u16,
    pub domain: u16,
    pub own: u8,
    pub stored: u16,
    pub all: u16,
    pub from: u16,
    pub to: u16,
    pub before: u16,
    pub number: u8,
    pub slot: u8,
    pub place: u16,
}

// The home of the class.
pub fn home_of(v: Visit) -> Home
    ensures { result ≡ visit_home v }
{
    Home {
        from: v.from as usize,
        to: v.to as usize,
        before: v.before as usize,
    }
}

// The names of the own class.
pub fn names_of(v: Visit) -> Names
    ensures { result ≡ visit_names v }
{
    let h = Home {
        from: 0,
        to: 0,
        before: v.end as usize,
    };
    Names {
        end: v.end as usize,
        own: v.own as usize,
        stored: v.stored as usize,
        all: v.all as usize,
        home: h,
        number: v.own as usize,
    }
}

// The visit of class n at a home, for the own class of these names; the domain of its package stands at place d.
pub fn visit_for(w: Names, d: usize, h: Home, n: usize) -> Visit
    requires { SmallNames w × (d ≤ 65535) × SmallHome h × (n ≤ 255) }
    ensures { result ≡ visit_for w d h n }
{
    Visit {
        end: w.end as u16,
        domain: d as u16,
        own: w.own as u8,
        stored: w.stored as u16,
        all: w.all as u16,
        from: h.from as u16,
        to: h.to as u16,
        before: h.before as u16,
        number: n as u8,
        slot: 0,
        place: 0,
    }
}

// The number of the class's bit.
pub fn bit_of(v: Visit) -> usize
    ensures { result ≡ key (visit_home v) v.number }
{
    v.before as usize * 3 / 11 + v.number as usize
}

// The visit with the slot of the class's package and the place of its record.
pub fn placed<'a>(f: &'a [u8], s: &'a [u8], slots: &mut [u16; 640], v: Visit) -> Visit
    requires visit_there { VisitThere f.now s.now v × (length s.now ≤ 65535) }
    requires slots_true { SlotsTrue f.now s.now slots.old }
    ensures placed_is { PlacedIs f.now s.now v result }
    ensures slots_true_2 { SlotsTrue f.now s.now slots.new }
{
    let h = home_of(v);
    let k = slots::slot_for(slots, h);
    let x = Site { home: h, slot: k };
    let c = slots::record_in(f, s, slots, x, v.number as usize);
    Visit {
        slot: k as u8,
        place: c as u16,
        ..v
    }
}

// The record of the class, as a part of whichever holds it.
fn record_of<'a>(f: &'a [u8], s: &'a [u8], v: Visit) -> &'a [u8]
    requires { VisitPlaced f.now s.now v }
    ensures { RecordIs f.now s.now (visit_home v) v.number result.now }
{
    let at = v.place as usize;
    let g = homes::file_of(f, s, home_of(v));
    &g[at..]
}

// How many parents the class has.
pub fn parents_in<'a>(f: &'a [u8], s: &'a [u8], v: Visit) -> usize
    requires { VisitPlaced f.now s.now v }
    ensures { CountIs f.now s.now (visit_home v) v.number result × (result ≤ 8) }
{
    let c = record_of(f, s, v);
    wide(c[1])
}

// The home of the package that number p stands for in the class's file, which the slot or the index of the earlier entries finds.
fn package_home<'a>(
    f: &'a [u8],
    s: &'a [u8],
    index: &[u16],
    slots: &mut [u16; 640],
    v: Visit,
    p: usize,
) -> Home
    requires visit_placed { VisitPlaced f.now s.now v × (length s.now ≤ 65535) }
    requires numbered_there { NumberedThere f.now s.now v p × Indexed s.now v.end index.now }
    requires slots_true { SlotsTrue f.now s.now slots.old }
    ensures numbered_at { NumberedAt f.now s.now v p result }
    ensures slots_true_2 { SlotsTrue f.now s.now slots.new }
{
    let h = home_of(v);
    let x = Site {
        home: h,
        slot: v.slot as usize,
    };
    match slots::import_in(f, s, v.end as usize, index, slots, x, p) {
        Some(g) => g,
        None => h,
    }
}

// The visit of its parent with number i.
fn parent_visit<'a>(
    f: &'a [u8],
    s: &'a [u8],
    index: &[u16],
    slots: &mut [u16; 640],
    v: Visit,
    i: usize,
) -> Visit
    requires parent_placed { ParentPlaced f.now s.now v i × (length s.now ≤ 65535) }
    requires indexed { Indexed s.now v.end index.now }
    requires slots_true { SlotsTrue f.now s.now slots.old }
    ensures parent_visit { ParentVisit f.now s.now v i result }
    ensures slots_true_2 { SlotsTrue f.now s.now slots.new }
{
    let c = record_of(f, s, v);
    let number = wide(c[3 + 2 * i]);
    let h = package_home(f, s, index, slots, v, wide(c[2 + 2 * i]));
    visit_for(names_of(v), v.domain as usize, h, number)
}

// The same in a frame of its own.
// Kept: it calls itself so that it stays apart: the header gives bounds of the stack.
#[inline(never)]
pub fn parent_apart<'a>(
    f: &'a [u8],
    s: &'a [u8],
    index: &[u16],
    slots: &mut [u16; 640],
    v: Visit,
    i: usize,
) -> Visit
    requires parent_placed { ParentPlaced f.now s.now v i × (length s.now ≤ 65535) }
    requires indexed { Indexed s.now v.end index.now }
    requires slots_true { SlotsTrue f.now s.now slots.old }
    ensures parent_visit { ParentVisit f.now s.now v i result }
    ensures slots_true_2 { SlotsTrue f.now s.now slots.new }
{
    if 65535 < s.len() {
        let p = parent_apart(f, s, index, slots, v, i);
        return p;
    }
    parent_visit(f, s, index, slots, v, i)
}
