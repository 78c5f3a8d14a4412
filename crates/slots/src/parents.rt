// A class by the home of its package and its number there, looked for by the slots: the place of its record, its kind, its parents.
ghost use Rattle.std.specs.Prelude.{◌≡◌, ◌≤◌, length};
ghost use Rattle.homes.specs.Homes.{RecordIs};
ghost use Rattle.homes.specs.Found.{Indexed};
ghost use Rattle.classes.specs.Say.{ClassThere, CountIs, ParentThere, ParentIs, Kind0Is, Kind0ParentIs, FoundNearer, FoundBefore, RecordAt};
ghost use Rattle.slots.specs.Slots.{SlotsTrue};

use super::{Site, import_in, record_in, slot_for};
use classes::ClassSpot;
use fields::wide;

// The place of the record of a class.
pub fn place_of<'a>(f: &'a [u8], s: &'a [u8], slots: &mut [u16], x: ClassSpot) -> usize
    requires class_there { ClassThere f.now s.now x.home x.number × (length s.now ≤ 65535) }
    requires slots_true { SlotsTrue f.now s.now slots.old }
    ensures record_at { RecordAt f.now s.now x.home x.number result }
    ensures slots_true_2 { SlotsTrue f.now s.now slots.new }
{
    let h = x.home;
    let k = slot_for(slots, h);
    record_in(f, s, slots, Site { home: h, slot: k }, x.number)
}

// The record, as a part of whichever holds it.
fn record_of<'a>(f: &'a [u8], s: &'a [u8], slots: &mut [u16], x: ClassSpot) -> &'a [u8]
    requires class_there { ClassThere f.now s.now x.home x.number × (length s.now ≤ 65535) }
    requires slots_true { SlotsTrue f.now s.now slots.old }
    ensures record_is { RecordIs f.now s.now x.home x.number result.now }
    ensures slots_true_2 { SlotsTrue f.now s.now slots.new }
{
    let at = place_of(f, s, slots, x);
    let g = homes::file_of(f, s, x.home);
    &g[at..]
}

// Is the class of kind 0?
pub fn is_kind0<'a>(f: &'a [u8], s: &'a [u8], slots: &mut [u16], x: ClassSpot) -> bool
    requires class_there { ClassThere f.now s.now x.home x.number × (length s.now ≤ 65535) }
    requires slots_true { SlotsTrue f.now s.now slots.old }
    ensures kind0is { Kind0Is f.now s.now x.home x.number result }
    ensures slots_true_2 { SlotsTrue f.now s.now slots.new }
{
    let c = record_of(f, s, slots, x);
    c[0] != 1
}

// How many parents it has.
pub fn parent_count<'a>(f: &'a [u8], s: &'a [u8], slots: &mut [u16], x: ClassSpot) -> usize
    requires class_there { ClassThere f.now s.now x.home x.number × (length s.now ≤ 65535) }
    requires slots_true { SlotsTrue f.now s.now slots.old }
    ensures count_is { CountIs f.now s.now x.home x.number result × (result ≤ 8) }
    ensures slots_true_2 { SlotsTrue f.now s.now slots.new }
{
    let c = record_of(f, s, slots, x);
    wide(c[1])
}

// Its parent with number i, whose package the index of the entries that end at a place finds.
pub fn parent_at<'a>(
    f: &'a [u8],
    s: &'a [u8],
    end: usize,
    index: &[u16],
    slots: &mut [u16],
    x: ClassSpot,
    i: usize,
) -> ClassSpot
    requires parent_there { ParentThere f.now s.now x.home x.number i × (length s.now ≤ 65535) }
    requires indexed { Indexed s.now end index.now × (x.home.before ≤ end) }
    requires slots_true { SlotsTrue f.now s.now slots.old }
    ensures parent_is { ParentIs f.now s.now x.home x.number i result }
    ensures slots_true_2 { SlotsTrue f.now s.now slots.new }
{
    let c = record_of(f, s, slots, x);
    let number = wide(c[3 + 2 * i]);
    let h = x.home;
    let p = wide(c[2 + 2 * i]);
    let k = slot_for(slots, h);
    match import_in(f, s, end, index, slots, Site { home: h, slot: k }, p) {
        Some(g) => ClassSpot { home: g, number },
        None => x,
    }
}

// Its first parent of kind 0.
pub fn kind0_parent<'a>(
    f: &'a [u8],
    s: &'a [u8],
    end: usize,
    index: &[u16],
    slots: &mut [u16],
    x: ClassSpot,
) -> Option<ClassSpot>
    requires class_there { ClassThere f.now s.now x.home x.number × (length s.now ≤ 65535) }
    requires indexed { Indexed s.now end index.now × (x.home.before ≤ end) }
    requires slots_true { SlotsTrue f.now s.now slots.old }
    ensures kind0parent_is { Kind0ParentIs f.now s.now x.home x.number result × FoundNearer x.home result × FoundBefore x.home x.number result }
    ensures slots_true_2 { SlotsTrue f.now s.now slots.new }
{
    let count = parent_count(f, s, slots, x);
    for i in 0..count {
        let p = parent_at(f, s, end, index, slots, x, i);
        if is_kind0(f, s, slots, p) {
            return Some(p);
        }
    }
    None
}
