// Class places and homes of imports of the packages at hand: a slot for each package, filled as far as it was asked. A slot tells the
// truth of the package whose home stands in it.
#![tactic(auto)]

pub mod parents;

ghost use Rattle.std.specs.Prelude.{◌≡◌, true, ◌+◌, ◌*◌, ◌<◌, ◌≤◌, length, set};
ghost use Rattle.rules.specs.Bytes.{Bytes};
ghost use Rattle.homes.specs.Homes.{HomeThere, NumberedIs, ClassPlaced};
ghost use Rattle.homes.specs.Found.{places_length, Indexed, ImportPlaces, PlacesStand};
ghost use Rattle.classes.specs.Say.{ClassThere, RecordAt};
ghost use Rattle.slots.specs.Slots.{slot_count, slot_length, slots_length, home_in, with_home, slot_home, SmallHome, Emptied, SlotsTrue, SlotFor};

use homes::{Home, Places};

// A package whose classes and imports are asked for: its home, and the slot for it.
#[derive(Clone, Copy)]
pub struct Site {
    pub home: Home,
    pub slot: usize,
}

// The home that stands in three numbers of a table.
pub fn home_in(slots: &[u16], at: usize) -> Home
    requires { at + 2 < length slots.now }
    ensures { result ≡ home_in slots.now at }
{
    Home {
        from: usize::from(slots[at]),
        to: usize::from(slots[at + 1]),
        before: usize::from(slots[at + 2]),
    }
}

// Writes it there.
pub fn put_home(slots: &mut [u16], at: usize, h: Home)
    requires at_in_bounds { at + 2 < length slots.old }
    requires small_home { SmallHome h }
    ensures { slots.new ≡ with_home slots.old at h }
{
    slots[at] = h.from as u16;
    slots[at + 1] = h.to as u16;
    slots[at + 2] = h.before as u16;
}

// Nothing is known in slot k.
fn empty_slot(slots: &mut [u16], k: usize)
    requires { (k < slot_count) × (slots_length ≤ length slots.old) }
    ensures { Emptied slots.old slots.new k }
{
    slots[80 * k..80 * k + 80].fill(0);
}

// Nothing is known in any slot.
pub fn clear(slots: &mut [u16])
    requires { slots_length ≤ length slots.old }
    ensures { (f s : Bytes) → SlotsTrue f s slots.new }
{
    slots[..640].fill(0);
}

// Slot k is that of the package at a home: it is emptied where it was another's.
fn take_slot(slots: &mut [u16], h: Home, k: usize)
    requires k_lt_slot_count { (k < slot_count) × (slots_length ≤ length slots.old) }
    requires small_home { SmallHome h }
    ensures { SlotFor slots.old slots.new h k }
{
    let g = home_in(slots, 80 * k + 32);
    if g == h {
        return;
    }
    empty_slot(slots, k);
    put_home(slots, 80 * k + 32, h);
}

// Nothing is known in any slot but where the own file's imports lie: slot 0 has their homes, by their places.
pub fn enter_imports(s: &[u8], slots: &mut [u16], end: usize, places: &Places)
    requires slots_length_in_bounds { (slots_length ≤ length slots.old) × (end ≤ 65535) × (length s.now ≤ 65535) }
    requires places_len { (length places.now ≡ places_length) × PlacesStand s.now places.now }
    ensures { (f : Bytes) → ImportPlaces f s.now end places.now → SlotsTrue f s.now slots.new }
{
    clear(slots);
    take_slot(slots, homes::own_home(end), 0);
    for p in 1..16 {
        let place = usize::from(places[p - 1]);
        if place == 0 {
            return;
        }
        put_home(slots, 32 + 3 * p, homes::home_at(s, place));
    }
}

// The slot that holds the package at a home, or an empty one, or one by the home's place; slot 0 is the own file's.
pub fn slot_for(slots: &[u16], h: Home) -> usize
    requires { slots_length ≤ length slots.now }
    ensures { result < slot_count }
{
    if h.from == 0 {
        return 0;
    }
    for k in 1..8 {
        let to = usize::from(slots[80 * k + 33]);
        if to == h.to || to == 0 {
            return k;
        }
    }
    1 + h.before / 16 % 7
}

// The place of the record of class n of a package, if it has that class.
pub fn class_in<'a>(f: &'a [u8], s: &'a [u8], slots: &mut [u16], x: Site, n: usize) -> Option<usize>
    requires home_there { HomeThere f.now s.now x.home × (x.slot < slot_count) }
    requires small_home { SmallHome x.home }
    requires slots_true { SlotsTrue f.now s.now slots.old }
    ensures class_placed { ClassPlaced f.now s.now x.home n result }
    ensures slots_true_2 { SlotsTrue f.now s.now slots.new }
{
    let h = x.home;
    let k = x.slot;
    take_slot(slots, h, k);
    let g = homes::file_of(f, s, h);
    named::class_at(g, slots, 80 * k, n)
}

// The place of the record of class n of a package that has it.
pub fn record_in<'a>(f: &'a [u8], s: &'a [u8], slots: &mut [u16], x: Site, n: usize) -> usize
    requires class_there { ClassThere f.now s.now x.home n × (x.slot < slot_count) }
    requires small_home { SmallHome x.home }
    requires slots_true { SlotsTrue f.now s.now slots.old }
    ensures record_at { RecordAt f.now s.now x.home n result }
    ensures slots_true_2 { SlotsTrue f.now s.now slots.new }
{
    match class_in(f, s, slots, x, n) {
        Some(c) => c,
        None => 0,
    }
}

// The home of the package that a package number stands for in the package's file: 0 the same, p the p-th import's.
pub fn import_in<'a>(
    f: &'a [u8],
    s: &'a [u8],
    end: usize,
    index: &[u16],
    slots: &mut [u16],
    x: Site,
    p: usize,
) -> Option<Home>
    requires home_there { HomeThere f.now s.now x.home × (x.slot < slot_count) }
    requires indexed { Indexed s.now end index.now × (x.home.before ≤ end) }
    requires small_home { SmallHome x.home × (length s.now ≤ 65535) }
    requires slots_true { SlotsTrue f.now s.now slots.old }
    ensures numbered_is { NumberedIs f.now s.now x.home p result }
    ensures slots_true_2 { SlotsTrue f.now s.now slots.new }
{
    let h = x.home;
    let k = x.slot;
    if p == 0 {
        return Some(h);
    }
    if 15 < p {
        return homes::numbered(f, s, end, index, h, p);
    }
    take_slot(slots, h, k);
    let at = 80 * k + 32 + 3 * p;
    let kept = home_in(slots, at);
    if kept.to != 0 {
        return Some(kept);
    }
    let g = homes::numbered(f, s, end, index, h, p)?;
    put_home(slots, at, g);
    Some(g)
}
