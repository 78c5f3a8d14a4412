// Places of methods in a table, sorted by name: entered one after the other, each name once, and found by halving.
#![tactic(auto)]

ghost use Rattle.std.specs.Prelude.{◌≡◌, ◌<◌, ◌≤◌, length};
ghost use Rattle.methods.specs.Table.{name_at, Named, Sorted, Lower, Found, Opened, Entered};

use fields::u2_at;
use halving::partition_point;

// The name of the method at a place.
pub fn name_at(t: &[u8], p: usize) -> usize
    requires { Named t.now p }
    ensures { result ≡ name_at t.now p }
{
    u2_at(t, p + 1)
}

// Where the names from a up to e cease to be smaller than a name.
fn lower(t: &[u8], places: &[u16], a: usize, e: usize, name: usize) -> usize
    requires { Sorted t.now places.now a e }
    ensures { Lower t.now places.now a e name result }
{
    partition_point(a, e, |k| name_at(t, usize::from(places[k])) < name)
}

// Where the method of a name stands among the numbers from a up to e.
pub fn find(t: &[u8], places: &[u16], a: usize, e: usize, name: usize) -> Option<usize>
    requires { Sorted t.now places.now a e }
    ensures { Found t.now places.now a e name result }
{
    let r = lower(t, places, a, e, name);
    if e <= r {
        return None;
    }
    if name_at(t, usize::from(places[r])) != name {
        return None;
    }
    Some(r)
}

// Moves the numbers from r up to e one up, and puts p at r.
fn open_at(places: &mut [u16], e: usize, r: usize, p: usize)
    requires { (r ≤ e) × (e < length places.old) × (p ≤ 65535) }
    ensures { Opened places.old places.new e r p }
{
    places.copy_within(r..e, r + 1);
    places[r] = p as u16;
}

// Enters the method at place p among the numbers from a up to e, unless one of its name is there. Where they end then.
pub fn enter(t: &[u8], places: &mut [u16], a: usize, e: usize, p: usize) -> usize
    requires sorted { Sorted t.now places.old a e }
    requires e_in_bounds { (e < length places.old) × Named t.now p × (p ≤ 65535) }
    ensures { Entered t.now places.old places.new a e p result }
{
    let name = name_at(t, p);
    let r = lower(t, &*places, a, e, name);
    if e <= r {
        open_at(places, e, r, p);
        return e + 1;
    }
    if name_at(t, usize::from(places[r])) == name {
        return e;
    }
    open_at(places, e, r, p);
    e + 1
}
