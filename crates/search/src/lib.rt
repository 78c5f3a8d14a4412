// The declaration that a class and a name mean: that of the class itself or of the first along its kind-0 parents that declares the name,
// else of the first among the interfaces of these, each chain member's in turn, depth first in listed order. Functions `.._apart` are
// `inline(never)`, and call themselves where the store has more than 65,535 bytes, which it never has; so the compiler does not make them a
// part of their callers.
#![tactic(auto)]

pub mod visited;

ghost use Rattle.std.specs.Prelude.{◌≡◌, false, ℕ, ◌+◌, ◌*◌, ◌/◌, ◌<◌, ◌≤◌, length};
ghost use Rattle.bits.specs.Bits.{bit_at};
ghost use Rattle.fields.specs.Told.{told};
ghost use Rattle.homes.specs.Found.{Indexed};
ghost use Rattle.classes.specs.Say.{ClassThere};
ghost use Rattle.classes.specs.Keys.{seen_length};
ghost use Rattle.slots.specs.Slots.{SlotsTrue};
ghost use Rattle.search.specs.Search.{SoughtThere, SearchIs};
ghost use Rattle.search.specs.Walk.{visit_spot, VisitPlaced, above, whole, along_up, itself, searched, MeantIs};
ghost use Rattle.search.specs.Walk.{class_in, DeclaredHere, DeclaresIs, SeenNone, sought_spot, SoughtFrom};

use classes::ClassSpot;
use homes::Home;
use slots::parents;
use visited::Visit;

// A class by the home of its package and its number there, and a name that is sought from it on, over the entries that end at a place.
#[derive(Clone, Copy)]
pub struct Sought {
    pub end: usize,
    pub home: Home,
    pub number: usize,
    pub name: usize,
}

// Where a declaration stands: the home of its package, the places of its class record and of its method in the file there.
#[derive(Clone, Copy)]
pub struct Declaration {
    pub home: Home,
    pub class: usize,
    pub method: usize,
}

// The declaration of a name by a class itself.
fn declared_in<'a>(
    f: &'a [u8],
    s: &'a [u8],
    slots: &mut [u16],
    c: ClassSpot,
    name: usize,
) -> Option<Declaration>
    requires class_there { ClassThere f.now s.now c.home c.number × (length s.now ≤ 65535) }
    requires slots_true { SlotsTrue f.now s.now slots.old }
    ensures declared_here { DeclaredHere f.now s.now c name result }
    ensures slots_true_2 { SlotsTrue f.now s.now slots.new }
{
    let home = c.home;
    let class = parents::place_of(f, s, slots, c);
    let g = homes::file_of(f, s, home);
    let method = files::find_method(g, class, name)?;
    Some(Declaration {
        home,
        class,
        method,
    })
}

// The first class that declares the name, as one number, 0 for none: an interface, those among its parents and theirs. None is above one
// without parents, so that the walks nest once less than classes lie above each other.
// Kept: the stack bound: the class in one register, with 0 for none.
#[cycle(class_declares_parents_declare)]
fn class_declares<'a>(
    f: &'a [u8],
    s: &'a [u8],
    index: &[u16],
    slots: &mut [u16],
    seen: &mut [u8],
    v: Visit,
) -> usize
    requires visit_placed { VisitPlaced f.now s.now v × (length s.now ≤ 65535) × Indexed s.now v.end index.now }
    requires seen_none { SeenNone f.now s.now v.end v.name seen.old }
    requires slots_true { SlotsTrue f.now s.now slots.old }
    ensures meant_is { MeantIs f.now s.now v.end (visit_spot v) v.name whole (class_in result) }
    ensures seen_none_2 { SeenNone f.now s.now v.end v.name seen.new }
    ensures slots_true_2 { SlotsTrue f.now s.now slots.new }
{
    if visited::declares_apart(f, s, v) {
        return v.class;
    }
    if v.parents == 0 {
        return 0;
    }
    parents_declare(f, s, index, slots, seen, v)
}

// The first of the interfaces among the class's parents, and theirs. One that leads to none is seen from then on, and passed over before
// its record is looked for.
// Kept: the stack bound: the class in one register, with 0 for none.
#[cycle(class_declares_parents_declare)]
fn parents_declare<'a>(
    f: &'a [u8],
    s: &'a [u8],
    index: &[u16],
    slots: &mut [u16],
    seen: &mut [u8],
    v: Visit,
) -> usize
    requires visit_placed { VisitPlaced f.now s.now v × (length s.now ≤ 65535) × Indexed s.now v.end index.now }
    requires seen_none { SeenNone f.now s.now v.end v.name seen.old }
    requires slots_true { SlotsTrue f.now s.now slots.old }
    ensures meant_is { MeantIs f.now s.now v.end (visit_spot v) v.name above (class_in result) }
    ensures seen_none_2 { SeenNone f.now s.now v.end v.name seen.new }
    ensures slots_true_2 { SlotsTrue f.now s.now slots.new }
{
    for i in 0..usize::from(v.parents) {
        let c = visited::parent_apart(f, s, index, slots, v, i);
        if bits::get(seen, visited::bit_of(c)) {
            continue;
        }
        let w = visited::interface_apart(f, s, slots, v, c);
        if w.class == 0 {
            continue;
        }
        let r = class_declares(f, s, index, slots, seen, w);
        if r != 0 {
            return r;
        }
        bits::set(seen, visited::bit_of(c));
    }
    0
}

// The first class that declares the name: the class itself, or one along its kind-0 parents.
fn chain_declares<'a>(
    f: &'a [u8],
    s: &'a [u8],
    index: &[u16],
    slots: &mut [u16],
    x: Sought,
) -> Option<ClassSpot>
    requires sought_from { SoughtFrom f.now s.now index.now x }
    requires slots_true { SlotsTrue f.now s.now slots.old }
    ensures meant_is { MeantIs f.now s.now x.end (sought_spot x) x.name (along_up itself) (told result) }
    ensures slots_true_2 { SlotsTrue f.now s.now slots.new }
{
    let mut at = Some(ClassSpot {
        home: x.home,
        number: x.number,
    });
    while let Some(c) = at {
        let v = visited::visit_of(f, s, slots, x.end, x.name, c);
        if visited::declares(f, s, v) {
            return Some(c);
        }
        at = parents::kind0_parent(f, s, x.end, index, slots, c);
    }
    None
}

// No class is seen yet, over the entries that end at a place.
fn clear_seen(seen: &mut [u8], end: usize)
    requires { (end * 3 / 88 + 5 ≤ length seen.old) × (end ≤ 65535) }
    ensures { (j : ℕ) → j / 8 < end * 3 / 88 + 5 → bit_at seen.new j ≡ false }
{
    bits::clear_to(seen, end * 3 / 88 + 5);
}

// The first class that declares the name among the interfaces of the class, then of its kind-0 parents in turn.
fn interfaces_declare<'a>(
    f: &'a [u8],
    s: &'a [u8],
    index: &[u16],
    slots: &mut [u16],
    seen: &mut [u8],
    x: Sought,
) -> Option<ClassSpot>
    requires sought_from { SoughtFrom f.now s.now index.now x × (seen_length s.now ≤ length seen.old) }
    requires slots_true { SlotsTrue f.now s.now slots.old }
    ensures meant_is { MeantIs f.now s.now x.end (sought_spot x) x.name (along_up above) (told result) }
    ensures slots_true_2 { SlotsTrue f.now s.now slots.new }
{
    clear_seen(seen, x.end);
    let mut at = Some(ClassSpot {
        home: x.home,
        number: x.number,
    });
    while let Some(c) = at {
        let v = visited::visit_of(f, s, slots, x.end, x.name, c);
        let r = parents_declare(f, s, index, slots, seen, v);
        if r != 0 {
            return Some(visited::spot_of(r));
        }
        at = parents::kind0_parent(f, s, x.end, index, slots, c);
    }
    None
}

// The class whose declaration is meant.
fn class_meant<'a>(
    f: &'a [u8],
    s: &'a [u8],
    index: &[u16],
    slots: &mut [u16],
    seen: &mut [u8],
    x: Sought,
) -> Option<ClassSpot>
    requires sought_from { SoughtFrom f.now s.now index.now x × (seen_length s.now ≤ length seen.old) }
    requires slots_true { SlotsTrue f.now s.now slots.old }
    ensures meant_is { MeantIs f.now s.now x.end (sought_spot x) x.name searched (told result) }
    ensures slots_true_2 { SlotsTrue f.now s.now slots.new }
{
    match chain_declares(f, s, index, slots, x) {
        Some(c) => Some(c),
        None => interfaces_declare(f, s, index, slots, seen, x),
    }
}

// The declaration that a class and a name mean. What `seen` holds before and after is of no account.
pub fn find<'a>(
    f: &'a [u8],
    s: &'a [u8],
    index: &[u16],
    slots: &mut [u16],
    seen: &mut [u8],
    x: Sought,
) -> Option<Declaration>
    requires sought_there { SoughtThere f.now s.now x × (length s.now ≤ 65535) }
    requires indexed { Indexed s.now x.end index.now × (seen_length s.now ≤ length seen.old) }
    requires slots_true { SlotsTrue f.now s.now slots.old }
    ensures search_is { SearchIs f.now s.now x result }
    ensures slots_true_2 { SlotsTrue f.now s.now slots.new }
{
    let c = class_meant(f, s, index, slots, seen, x)?;
    declared_in(f, s, slots, c, x.name)
}
