// A table of what references name: six numbers for each, the home of the declaration's package, the places of its class and of its method,
// and a mark. Where it is open home and place are those of the class named.
ghost use Rattle.std.specs.Prelude.{◌≡◌, ◌*◌, ◌+◌, ◌<◌, ◌≤◌, false, length};
ghost use Rattle.slots.specs.Slots.{SmallHome};
ghost use Rattle.references.specs.Kept.{kept_count, kept_length, row_of, mark_of, told_of, told_at, is_told, SmallMeant, SmallFound, SmallTold};
ghost use Rattle.references.specs.Kept.{with_row, with_meant, with_nothing, with_open, KeptIs, SameTold};

use super::{Meant, Told};
use homes::Home;

// The mark where nothing is named, behind those of declarations.
const NOTHING: u16 = 34;

// The mark where what is named is open.
const OPEN: u16 = 35;

// The mark where it is open, and a call asked for it.
const WANTED: u16 = 36;

// The row of a package's domains: its number below 16, else 16.
fn row_of(pack: usize) -> usize
    ensures { (result ≡ row_of pack) × (result ≤ 16) }
{
    pack.min(16)
}

// The mark of a declaration: twice the row of its package, and one more where the class named is of kind 0.
fn mark_of(x: Meant) -> usize
    ensures { (result ≡ mark_of x) × (result ≤ 33) }
{
    2 * row_of(x.pack) + usize::from(x.kind0)
}

// Writes six numbers in place k.
fn keep_row(table: &mut [u16], k: usize, h: Home, class: usize, method: usize, mark: u16)
    requires { (k < kept_count) × (length table.old ≡ kept_length) × SmallHome h × (class ≤ 65535) × (method ≤ 65535) }
    ensures { table.new ≡ with_row table.old (6 * k) h class method mark }
{
    let at = 6 * k;
    slots::put_home(table, at, h);
    table[at + 3] = class as u16;
    table[at + 4] = method as u16;
    table[at + 5] = mark;
}

// Writes a declaration there.
fn keep_meant(table: &mut [u16], k: usize, x: Meant)
    requires { (k < kept_count) × (length table.old ≡ kept_length) × SmallMeant x }
    ensures { table.new ≡ with_meant table.old (6 * k) x }
{
    keep_row(table, k, x.home, x.class, x.method, mark_of(x) as u16);
}

// Writes there that nothing is named.
fn keep_nothing(table: &mut [u16], k: usize)
    requires { (k < kept_count) × (length table.old ≡ kept_length) }
    ensures { table.new ≡ with_nothing table.old (6 * k) }
{
    table[6 * k + 5] = NOTHING;
}

// Writes there that it is open, and the class named.
fn keep_open(table: &mut [u16], k: usize, h: Home, place: usize)
    requires { (k < kept_count) × (length table.old ≡ kept_length) × SmallHome h × (place ≤ 65535) }
    ensures { table.new ≡ with_open table.old (6 * k) h place }
{
    keep_row(table, k, h, place, 0, OPEN);
}

// Writes in place k what is told of a reference.
pub fn keep_told(table: &mut [u16], k: usize, x: Told)
    requires { (k < kept_count) × (length table.old ≡ kept_length) × SmallTold x }
    ensures { KeptIs table.old table.new k x }
{
    match x {
        Told::Method(m) => keep_meant(table, k, m),
        Told::Nothing => keep_nothing(table, k),
        Told::Open(h, place) => keep_open(table, k, h, place),
    }
}

// A call asks for what is open in place k.
pub fn want(table: &mut [u16], k: usize)
    requires { (k < kept_count) × (length table.old ≡ kept_length) × (is_told (told_at table.old k) ≡ false) }
    ensures { SameTold table.old table.new }
{
    table[6 * k + 5] = WANTED;
}

// Has a call asked for what is open in place k?
pub fn is_wanted(table: &[u16], k: usize) -> bool
    requires { (k < kept_count) × (length table.now ≡ kept_length) }
{
    table[6 * k + 5] == WANTED
}

// Writes in place k what is named.
pub fn keep(table: &mut [u16], k: usize, x: Option<Meant>)
    requires { (k < kept_count) × (length table.old ≡ kept_length) × SmallFound x }
    ensures { KeptIs table.old table.new k (told_of x) }
{
    match x {
        Some(m) => keep_meant(table, k, m),
        None => keep_nothing(table, k),
    }
}

// What is told in place k.
pub fn told_at(table: &[u16], k: usize) -> Told
    requires { (k < kept_count) × (length table.now ≡ kept_length) }
    ensures { result ≡ told_at table.now k }
{
    let at = 6 * k;
    let mark = table[at + 5];
    if mark == NOTHING {
        return Told::Nothing;
    }
    let home = slots::home_in(table, at);
    if NOTHING < mark {
        return Told::Open(home, usize::from(table[at + 3]));
    }
    Told::Method(Meant {
        home,
        class: usize::from(table[at + 3]),
        method: usize::from(table[at + 4]),
        kind0: mark % 2 == 1,
        pack: usize::from(mark / 2),
    })
}
