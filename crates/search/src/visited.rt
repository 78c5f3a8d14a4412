// The classes that the search visits, and the step from one to a parent. The walk keeps a visit at each level, and tells a class as one
// number, which stands in a register: so its levels take little stack. Functions `.._apart` stand in frames of their own.
ghost use Rattle.std.specs.Prelude.{◌≡◌, ◌≤◌, length};
ghost use Rattle.homes.specs.Homes.{RecordIs};
ghost use Rattle.homes.specs.Found.{Indexed};
ghost use Rattle.classes.specs.Say.{ParentIs};
ghost use Rattle.classes.specs.Keys.{key};
ghost use Rattle.slots.specs.Slots.{SmallHome, SlotsTrue};
ghost use Rattle.search.specs.Walk.{class_code, spot_in, SpotThere, visit_spot, VisitPlaced, VisitOf};
ghost use Rattle.search.specs.Walk.{DeclaresIs, ParentInside, NamedBy, InterfaceIs};

use classes::ClassSpot;
use homes::Home;
use slots::{Site, parents};

// A class that is visited over the entries that end at `end`, as one number, with the place of its record in its file and the number of
// its parents, and the name sought. Class 0 is none.
// Kept: the stack bound: an `Option` of a visit has a tag beside it, eight bytes more at each level of the walk.
#[derive(Clone, Copy)]
pub struct Visit {
    pub class: usize,
    pub name: usize,
    pub end: u16,
    pub place: u16,
    pub parents: u8,
}

// The numbers of the package and of the class by which a record names a parent.
#[derive(Clone, Copy)]
pub struct Named {
    pub pack: usize,
    pub number: usize,
}

// A class as one number: 1, then the places of its home in two bytes each, then its number in one. 0 stands for none.
// Kept: the stack bound: one number stands in a register at each level of the walk, a `ClassSpot` or an `Option` of one in four or five.
fn class_of(c: ClassSpot) -> usize
    requires { SmallHome c.home × (c.number ≤ 255) }
    ensures { result ≡ class_code c }
{
    let h = c.home;
    (((65536 + h.from) * 65536 + h.to) * 65536 + h.before) * 256 + c.number
}

// The class that a number tells.
pub fn spot_of(c: usize) -> ClassSpot
    ensures { result ≡ spot_in c }
{
    let before = c / 256;
    let to = before / 65536;
    let from = to / 65536;
    let h = Home {
        from: from % 65536,
        to: to % 65536,
        before: before % 65536,
    };
    ClassSpot {
        home: h,
        number: c % 256,
    }
}

// The number of the class's bit.
pub fn bit_of(c: usize) -> usize
    ensures { result ≡ key (spot_in c).home (spot_in c).number }
{
    c / 256 % 65536 * 3 / 11 + c % 256
}

// The visit of a class, over the entries that end at a place.
pub fn visit_of<'a>(
    f: &'a [u8],
    s: &'a [u8],
    slots: &mut [u16],
    end: usize,
    name: usize,
    c: ClassSpot,
) -> Visit
    requires spot_there { SpotThere f.now s.now end c × (length s.now ≤ 65535) }
    requires slots_true { SlotsTrue f.now s.now slots.old }
    ensures visit_of { VisitOf f.now s.now end name c result }
    ensures slots_true_2 { SlotsTrue f.now s.now slots.new }
{
    let at = parents::place_of(f, s, slots, c);
    let g = homes::file_of(f, s, c.home);
    Visit {
        class: class_of(c),
        name: name,
        end: end as u16,
        place: at as u16,
        parents: g[at + 1],
    }
}

// The record of the class, as a part of whichever holds it.
fn record_of<'a>(f: &'a [u8], s: &'a [u8], v: Visit) -> &'a [u8]
    requires { VisitPlaced f.now s.now v }
    ensures { RecordIs f.now s.now (visit_spot v).home (visit_spot v).number result.now }
{
    let at = v.place as usize;
    let c = spot_of(v.class);
    let g = homes::file_of(f, s, c.home);
    &g[at..]
}

// Does a class that is visited declare the name itself?
pub fn declares<'a>(f: &'a [u8], s: &'a [u8], v: Visit) -> bool
    requires { VisitPlaced f.now s.now v }
    ensures { DeclaresIs f.now s.now (visit_spot v) v.name result }
{
    let c = spot_of(v.class);
    let g = homes::file_of(f, s, c.home);
    files::find_method(g, v.place as usize, v.name).is_some()
}

// The same in a frame of its own.
#[inline(never)]
pub fn declares_apart<'a>(f: &'a [u8], s: &'a [u8], v: Visit) -> bool
    requires { VisitPlaced f.now s.now v × (length s.now ≤ 65535) }
    ensures { DeclaresIs f.now s.now (visit_spot v) v.name result }
{
    if 65535 < s.len() {
        return declares_apart(f, s, v);
    }
    declares(f, s, v)
}

// The numbers by which its record names its parent with number i.
fn named_in<'a>(f: &'a [u8], s: &'a [u8], v: Visit, i: usize) -> Named
    requires { ParentInside f.now s.now v i }
    ensures { NamedBy f.now s.now v i result }
{
    let c = record_of(f, s, v);
    Named {
        pack: usize::from(c[2 + 2 * i]),
        number: usize::from(c[3 + 2 * i]),
    }
}

// Its parent with number i, told in a frame of its own: in the same package, or in one that the slot or the index finds.
#[inline(never)]
pub fn parent_apart<'a>(
    f: &'a [u8],
    s: &'a [u8],
    index: &[u16],
    slots: &mut [u16],
    v: Visit,
    i: usize,
) -> usize
    requires parent_inside { ParentInside f.now s.now v i × (length s.now ≤ 65535) }
    requires indexed { Indexed s.now v.end index.now }
    requires slots_true { SlotsTrue f.now s.now slots.old }
    ensures parent_is { ParentIs f.now s.now (visit_spot v).home (visit_spot v).number i (spot_in result) }
    ensures slots_true_2 { SlotsTrue f.now s.now slots.new }
{
    if 65535 < s.len() {
        let c = parent_apart(f, s, index, slots, v, i);
        return c;
    }
    let p = named_in(f, s, v, i);
    let c = spot_of(v.class);
    let h = c.home;
    if p.pack == 0 {
        return class_of(ClassSpot {
            home: h,
            number: p.number,
        });
    }
    let k = slots::slot_for(slots, h);
    let x = Site { home: h, slot: k };
    let Some(g) = slots::import_in(f, s, v.end as usize, index, slots, x, p.pack) else {
        unreachable!()
    };
    class_of(ClassSpot {
        home: g,
        number: p.number,
    })
}

// The visit of a class that is told, for the same name; none where it is of kind 0.
// Kept: the stack bound: a visit of class 0 stands for none, as beside `Visit`.
fn interface_at<'a>(f: &'a [u8], s: &'a [u8], slots: &mut [u16], v: Visit, c: usize) -> Visit
    requires spot_there { SpotThere f.now s.now v.end (spot_in c) × (length s.now ≤ 65535) }
    requires slots_true { SlotsTrue f.now s.now slots.old }
    ensures interface_is { InterfaceIs f.now s.now v c result result.class }
    ensures slots_true_2 { SlotsTrue f.now s.now slots.new }
{
    let mut w = visit_of(f, s, slots, v.end as usize, v.name, spot_of(c));
    let k = record_of(f, s, w);
    if k[0] == 1 {
        return w;
    }
    w.class = 0;
    w
}

// The same in a frame of its own.
#[inline(never)]
pub fn interface_apart<'a>(f: &'a [u8], s: &'a [u8], slots: &mut [u16], v: Visit, c: usize) -> Visit
    requires spot_there { SpotThere f.now s.now v.end (spot_in c) × (length s.now ≤ 65535) }
    requires slots_true { SlotsTrue f.now s.now slots.old }
    ensures interface_is { InterfaceIs f.now s.now v c result result.class }
    ensures slots_true_2 { SlotsTrue f.now s.now slots.new }
{
    if 65535 < s.len() {
        let w = interface_apart(f, s, slots, v, c);
        return w;
    }
    interface_at(f, s, slots, v, c)
}
