// The chain of an own class of kind 0, which is the class and those along its kind-0 parents, the non-static methods of its classes
// sorted by name, and the method that runs for a name. A chain goes from own classes to stored ones and never back.
#![tactic(auto)]

pub mod gathered;
pub mod linked;

ghost use Rattle.std.specs.Prelude.{◌≡◌, true, ◌<◌, ◌≤◌, length};
ghost use Rattle.homes.specs.Found.{Indexed};
ghost use Rattle.slots.specs.Slots.{SlotsTrue};
ghost use Rattle.chains.specs.Chain.{most_links, names_start, PartRoom, Same};
ghost use Rattle.chains.specs.Names.{names_of, HitThere, HitRuns, NamesIs, Kept, NoneKept, AsStored, RunAlike, KeptFor, Room, NoneRuns};
ghost use Rattle.chains.specs.Say.{MethodHere, IfImplemented, RunningThere, RunsIs};
ghost use Rattle.rules.specs.Store.{store_limits};

use classes::ClassSpot;
use gathered::gather;
use homes::Home;
use linked::{find_part, home_before};

// A method where it stands: the home of its file, and its place there.
#[derive(Clone, Copy)]
pub struct MethodSpot {
    pub home: Home,
    pub place: usize,
}

// The names of own class `own` over the entries that end at `end`: the names of stored classes end at `stored`, those of own classes
// at `all`. The stored ones are those of the chain from class `number` at `home` on, if `home` lies in the store.
#[derive(Clone, Copy)]
pub struct Names {
    pub end: usize,
    pub own: usize,
    pub stored: usize,
    pub all: usize,
    pub home: Home,
    pub number: usize,
}

// The method at a place of the file at a home, if implemented.
fn if_implemented(g: &[u8], h: Home, at: usize) -> Option<MethodSpot>
    requires { MethodHere g.now at }
    ensures { IfImplemented g.now h at result }
{
    if !files::is_implemented(g, at) {
        return None;
    }
    Some(MethodSpot { home: h, place: at })
}

// The method at place q of the bytes that hold it, whose home is that of a link from i on, if implemented.
fn if_runs<'a>(f: &'a [u8], s: &'a [u8], names: &[u16], i: usize, q: usize) -> Option<MethodSpot>
    requires hit_there { HitThere f.now s.now names.now i q }
    requires i_le_most_links { (i ≤ most_links) × (names_start ≤ length names.now) }
    ensures { HitRuns f.now s.now names.now i q result }
{
    let h = home_before(names, i, q);
    let m = q - h.from;
    if_implemented(homes::file_of(f, s, h), h, m)
}

// The method that runs for own class v.own, of kind 0, and a name. The search ends at the first of the name, implemented or not.
pub fn running_method<'a>(
    f: &'a [u8],
    s: &'a [u8],
    names: &[u16],
    v: Names,
    name: usize,
) -> Option<MethodSpot>
    requires running_there { RunningThere f.now s.now v.end v.own }
    requires names_is { NamesIs f.now s.now names.now v }
    ensures { RunsIs f.now s.now v.end v.own name result }
{
    match methods::find(f, names, v.stored, v.all, name) {
        Some(i) => if_runs(f, s, names, 16, usize::from(names[i])),
        None => match methods::find(s, names, 128, v.stored, name) {
            Some(j) => if_runs(f, s, names, 0, usize::from(names[j])),
            None => None,
        },
    }
}

// Has the chain of own class v.own no non-static method at all? Then nothing runs for any name.
pub fn none_run<'a>(f: &'a [u8], s: &'a [u8], names: &[u16], v: Names) -> bool
    requires { NamesIs f.now s.now names.now v }
    ensures { NoneRuns f.now s.now v.end v.own result }
{
    v.all == 128
}

// No names, before the first own class.
pub fn no_names(end: usize) -> Names
    ensures { (result.end ≡ end) × NoneKept result }
{
    Names {
        end,
        own: 0,
        stored: 128,
        all: 128,
        home: homes::own_home(end),
        number: 0,
    }
}

// Do the same methods run for the own classes of both names? They do where no own class of either chain has a non-static method, and both
// chains go on at the same stored class.
pub fn run_alike(v: Names, w: Names) -> bool
    ensures { result ≡ true → RunAlike v w }
{
    v.home.from != 0
        && v.all == v.stored
        && w.all == w.stored
        && v.home == w.home
        && v.number == w.number
}

// The names of the chain from stored class d on, from number 128 of the table up to the number told: those kept, if they are of this class.
fn stored_names<'a>(
    f: &'a [u8],
    s: &'a [u8],
    index: &[u16],
    names: &mut [u16],
    slots: &mut [u16],
    kept: Names,
    d: ClassSpot,
) -> usize
    requires part_room { PartRoom f.now s.now kept.end 0 (store_limits s.now).depth d.home d.number × (0 < d.home.from) }
    requires kept { Kept f.now s.now names.old kept × Room f.now s.now names.old }
    requires indexed { Indexed s.now kept.end index.now × SlotsTrue f.now s.now slots.old }
    ensures kept_for { KeptFor f.now s.now names.new d.home d.number result ×
        Same names.old names.new 64 names_start × (length names.new ≡ length names.old) }
    ensures slots_true { SlotsTrue f.now s.now slots.new }
{
    let g = d.home;
    let n = d.number;
    let to = kept.stored;
    if g == kept.home && n == kept.number {
        return to;
    }
    let stop = find_part(f, s, kept.end, index, &mut *names, slots, d);
    gather(f, s, names, g, n, stop.link, 128)
}

// The names of own class `own`: those of stored classes end at `stored`, and are those of the chain from class c on, if c is stored.
fn names_of(end: usize, own: usize, stored: usize, all: usize, c: ClassSpot) -> Names
    ensures { result ≡ names_of end own stored all c }
{
    Names {
        end,
        own,
        stored,
        all,
        home: c.home,
        number: c.number,
    }
}

// The names of own class b, of kind 0, over the entries that end at kept.end. The stored ones that were kept serve again where they can.
pub fn find_names<'a>(
    f: &'a [u8],
    s: &'a [u8],
    index: &[u16],
    names: &mut [u16],
    slots: &mut [u16],
    kept: Names,
    b: usize,
) -> Names
    requires running_there { RunningThere f.now s.now kept.end b }
    requires kept { Kept f.now s.now names.old kept × Room f.now s.now names.old }
    requires indexed { Indexed s.now kept.end index.now × SlotsTrue f.now s.now slots.old }
    ensures end_value { (result.end ≡ kept.end) × (result.own ≡ b) × NamesIs f.now s.now names.new result }
    ensures kept_2 { Kept f.now s.now names.new result × AsStored f.now s.now result }
    ensures slots_true { SlotsTrue f.now s.now slots.new }
{
    let h = homes::own_home(kept.end);
    let x = ClassSpot { home: h, number: b };
    let stop = find_part(f, s, kept.end, index, &mut *names, slots, x);
    let last = stop.link;
    let next = stop.next;
    match next {
        Some(d) => {
            let to = stored_names(f, s, index, &mut *names, slots, kept, d);
            let all = gather(f, s, names, h, b, last, to);
            names_of(kept.end, b, to, all, d)
        }
        None => {
            let all = gather(f, s, names, h, b, last, 128);
            names_of(kept.end, b, 128, all, x)
        }
    }
}
