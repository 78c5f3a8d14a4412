// Question 20: does the method that runs for an own class and a name allow all that each non-static method of that name allows, in
// the class and in its ancestors? Functions `.._apart` are `inline(never)`, and call themselves where the store has more than 65,535 bytes,
// which it never has; so the compiler does not make them a part of their callers, and their frames stand on the stack only while they run.
#![tactic(auto)]

pub mod allowed;
pub mod visited;

ghost use Rattle.std.specs.Prelude.{◌≡◌, true, ◌+◌, ◌*◌, ◌/◌, ◌≤◌, length};
ghost use Rattle.homes.specs.Homes.{own_home};
ghost use Rattle.homes.specs.Found.{Indexed, ImportPlaces};
ghost use Rattle.classes.specs.Say.{ClassThere, Kind0Is};
ghost use Rattle.classes.specs.Keys.{seen_length};
ghost use Rattle.chains.specs.Names.{names_length, NamesIs, Kept, AsStored, Room};
ghost use Rattle.chains.specs.Say.{RunningThere};
ghost use Rattle.slots.specs.Slots.{SlotsTrue};
ghost use Rattle.running.specs.Say.{MethodsPass, ClassPasses, OwnClassThere, OwnPasses, JudgedThere, RunningIs};
ghost use Rattle.running.specs.Walk.{visit_home, visit_names, VisitPlaced, WalkFrom, SeenPass, SeenIf, BitsFor, ParentsPass};

use chains::{MethodSpot, Names};
use classes::ClassSpot;
use fields::wide;
use homes::{Loaded, Places};
use slots::parents;
use visited::{Visit, home_of, names_of};

// An own class of kind 0: its names, where the domain of its package stands in the store, and whether the bits of classes seen, which
// were set for the own class before, hold for it too.
#[derive(Clone, Copy)]
pub struct OwnClass {
    pub names: Names,
    pub domain: usize,
    pub alike: bool,
}

// Do all methods of the class pass for the own class?
fn methods_pass<'a>(f: &'a [u8], s: &'a [u8], names: &[u16], v: Visit) -> bool
    requires visit_placed { VisitPlaced f.now s.now v }
    requires names_is { NamesIs f.now s.now names.now (visit_names v) }
    ensures { MethodsPass f.now s.now v.end v.domain v.own (visit_home v) v.number result }
{
    let w = names_of(v);
    let h = home_of(v);
    let g = homes::file_of(f, s, h);
    let start = files::methods_of(g, v.place as usize);
    let mut c = start + 1;
    let mut row = [255u8; 33];
    let mut last = h;
    for _ in 0..wide(g[start]) {
        if let Some(runs) = allowed::method_beside(f, s, names, w, h, c) {
            allowed::turn_row(&mut row, last, runs.home);
            let asked = MethodSpot { home: h, place: c };
            if !allowed::allows_all_of(f, s, v.domain as usize, runs, asked, &mut row) {
                return false;
            }
            last = runs.home;
        }
        c = files::after_method(g, c);
    }
    true
}

// The same in a frame of its own.
// Kept: it calls itself so that it stays apart: the header gives bounds of the stack.
#[inline(never)]
fn methods_apart<'a>(f: &'a [u8], s: &'a [u8], names: &[u16], v: Visit) -> bool
    requires visit_placed { VisitPlaced f.now s.now v × (length s.now ≤ 65535) }
    requires names_is { NamesIs f.now s.now names.now (visit_names v) }
    ensures { MethodsPass f.now s.now v.end v.domain v.own (visit_home v) v.number result }
{
    if 65535 < s.len() {
        return methods_apart(f, s, names, v);
    }
    methods_pass(f, s, names, v)
}

// Do the class and all its ancestors pass for the own class? One that was seen passed before.
#[cycle(class_passes_parents_pass)]
fn class_passes<'a>(
    f: &'a [u8],
    s: &'a [u8],
    index: &[u16],
    names: &[u16],
    seen: &mut [u8],
    slots: &mut [u16; 640],
    v: Visit,
) -> bool
    requires walk_from { WalkFrom f.now s.now index.now names.now v }
    requires seen_pass { SeenPass f.now s.now v.end v.domain v.own seen.old }
    requires slots_true { SlotsTrue f.now s.now slots.old }
    ensures class_passes { ClassPasses f.now s.now v.end v.domain v.own (visit_home v) v.number result }
    ensures seen_pass_2 { SeenPass f.now s.now v.end v.domain v.own seen.new }
    ensures slots_true_2 { SlotsTrue f.now s.now slots.new }
{
    if bits::get(seen, visited::bit_of(v)) {
        return true;
    }
    let w = visited::placed(f, s, slots, v);
    if !methods_apart(f, s, names, w) {
        return false;
    }
    parents_pass(f, s, index, names, seen, slots, w)
}

// Do its parents and all their ancestors? Each that does is seen from then on.
#[cycle(class_passes_parents_pass)]
fn parents_pass<'a>(
    f: &'a [u8],
    s: &'a [u8],
    index: &[u16],
    names: &[u16],
    seen: &mut [u8],
    slots: &mut [u16; 640],
    v: Visit,
) -> bool
    requires walk_from { WalkFrom f.now s.now index.now names.now v × VisitPlaced f.now s.now v }
    requires seen_pass { SeenPass f.now s.now v.end v.domain v.own seen.old }
    requires slots_true { SlotsTrue f.now s.now slots.old }
    ensures parents_pass { ParentsPass f.now s.now v.end v.domain v.own (visit_home v) v.number result }
    ensures seen_pass_2 { SeenPass f.now s.now v.end v.domain v.own seen.new }
    ensures slots_true_2 { SlotsTrue f.now s.now slots.new }
{
    let count = visited::parents_in(f, s, v);
    for i in 0..count {
        let p = visited::parent_apart(f, s, index, slots, v, i);
        if !class_passes(f, s, index, names, seen, slots, p) {
            return false;
        }
        bits::set(seen, visited::bit_of(p));
    }
    true
}

// The bits of classes seen for an own class, over the entries that end at a place: those that were set, where they hold for it, else none.
fn bits_for(seen: &mut [u8], end: usize, alike: bool)
    requires { (end * 3 / 88 + 5 ≤ length seen.old) × (end ≤ 65535) }
    ensures { BitsFor seen.old seen.new end alike }
{
    if alike {
        return;
    }
    bits::clear_to(seen, end * 3 / 88 + 5);
}

// Question 20 of an own class, whose names are at hand. Where no method can run nothing is asked.
fn own_class_passes<'a>(
    f: &'a [u8],
    s: &'a [u8],
    index: &[u16],
    names: &[u16],
    seen: &mut [u8],
    slots: &mut [u16; 640],
    o: OwnClass,
) -> bool
    requires own_class_there { OwnClassThere f.now s.now o × Kind0Is f.now s.now (own_home o.names.end) o.names.own true }
    requires names_is { NamesIs f.now s.now names.now o.names }
    requires indexed { Indexed s.now o.names.end index.now × (length s.now ≤ 65535) }
    requires seen_if { SeenIf f.now s.now o.names.end o.domain o.names.own seen.old o.alike }
    requires slots_true { SlotsTrue f.now s.now slots.old }
    ensures own_passes { OwnPasses f.now s.now o.names.end o.domain o.names.own result }
    ensures seen_pass { SeenPass f.now s.now o.names.end o.domain o.names.own seen.new }
    ensures slots_true_2 { SlotsTrue f.now s.now slots.new }
{
    let w = o.names;
    if chains::none_run(f, s, names, w) {
        return true;
    }
    let end = w.end;
    bits_for(seen, end, o.alike);
    let v = visited::visit_for(w, o.domain, homes::own_home(end), w.own);
    class_passes(f, s, index, names, seen, slots, v)
}

// The names of own class b, found in a frame of its own.
// Kept: it calls itself so that it stays apart: the header gives bounds of the stack.
#[inline(never)]
fn names_apart<'a>(
    f: &'a [u8],
    s: &'a [u8],
    index: &[u16],
    names: &mut [u16],
    slots: &mut [u16; 640],
    kept: Names,
    b: usize,
) -> Names
    requires running_there { RunningThere f.now s.now kept.end b }
    requires kept { Kept f.now s.now names.old kept × Room f.now s.now names.old }
    requires indexed { Indexed s.now kept.end index.now × SlotsTrue f.now s.now slots.old }
    ensures end_value { (result.end ≡ kept.end) × (result.own ≡ b) × NamesIs f.now s.now names.new result }
    ensures kept_2 { Kept f.now s.now names.new result × AsStored f.now s.now result }
    ensures slots_true { SlotsTrue f.now s.now slots.new }
{
    if 65535 < s.len() {
        return names_apart(f, s, index, names, slots, kept, b);
    }
    chains::find_names(f, s, index, names, slots, kept, b)
}

// Question 20 of a file that is judged, over the entries of the store before it, and their index; the places of its imports are lent. For an
// interface nothing runs. What `names` and `seen` hold before and after is of no account.
pub fn running_ok<'a>(
    f: &'a [u8],
    s: &'a [u8],
    x: Loaded,
    index: &[u16],
    places: &Places,
    names: &mut [u16],
    seen: &mut [u8],
) -> bool
    requires judged_there { JudgedThere f.now s.now x.end x.domain × ImportPlaces f.now s.now x.end places.now }
    requires indexed { Indexed s.now x.end index.now × (length s.now ≤ 65535) }
    requires s_in_bounds { names_length s.now ≤ length names.old }
    requires s_in_bounds_2 { seen_length s.now ≤ length seen.old }
    ensures { RunningIs f.now s.now x.end x.domain result }
{
    let end = x.end;
    let domain = x.domain;
    let mut slots = [0u16; 640];
    slots::enter_imports(s, &mut slots, end, places);
    let h = homes::own_home(end);
    let mut kept = chains::no_names(end);
    let count = wide(f[files::classes_at(f)]);
    for b in 0..count {
        let c = ClassSpot { home: h, number: b };
        if parents::is_kind0(f, s, &mut slots, c) {
            let w = names_apart(f, s, index, &mut *names, &mut slots, kept, b);
            let o = OwnClass {
                names: w,
                domain,
                alike: chains::run_alike(kept, w),
            };
            kept = w;
            if !own_class_passes(f, s, index, names, seen, &mut slots, o) {
                return false;
            }
        }
    }
    true
}
