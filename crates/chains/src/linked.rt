// The classes of a chain in a table: for each the home of its package, and the place of its record in the file there.
ghost use Rattle.std.specs.Prelude.{◌≡◌, ◌+◌, ◌<◌, ◌≤◌, length};
ghost use Rattle.homes.specs.Found.{Indexed};
ghost use Rattle.slots.specs.Slots.{SlotsTrue};
ghost use Rattle.chains.specs.Chain.{most_links, all_links, names_start, link_home, link_place, with_link, PartRoom, PartIs};
ghost use Rattle.chains.specs.Names.{first_link, HomeForIs};

use classes::ClassSpot;
use homes::Home;
use slots::parents;

// Where a part of a chain ends, and the class that follows it.
#[derive(Clone, Copy)]
pub struct Stop {
    pub link: usize,
    pub next: Option<ClassSpot>,
}

// Writes link i: the home of a class's package, and the place of its record in the file there.
fn set_link(names: &mut [u16], i: usize, h: Home, c: usize)
    requires i_lt_all_links { (i < all_links) × (names_start ≤ length names.old) }
    requires from_bound { (h.from ≤ 65535) × (h.to ≤ 65535) × (h.before ≤ 65535) × (c ≤ 65535) }
    ensures { names.new ≡ with_link names.old i h c }
{
    slots::put_home(&mut *names, 4 * i, h);
    names[4 * i + 3] = c as u16;
}

// The home of link i.
pub fn link_home(names: &[u16], i: usize) -> Home
    requires { (i < all_links) × (names_start ≤ length names.now) }
    ensures { result ≡ link_home names.now i }
{
    slots::home_in(names, 4 * i)
}

// The place of its record.
pub fn link_place(names: &[u16], i: usize) -> usize
    requires { (i < all_links) × (names_start ≤ length names.now) }
    ensures { result ≡ link_place names.now i }
{
    usize::from(names[4 * i + 3])
}

// The first link of the part to which a home belongs.
pub fn first_link(h: Home) -> usize
    ensures { result ≡ first_link h }
{
    if h.from == 0 {
        return 16;
    }
    0
}

// Writes class c and those along its kind-0 parents from the first link of its part on, as long as all are own or all are stored.
pub fn find_part<'a>(
    f: &'a [u8],
    s: &'a [u8],
    end: usize,
    index: &[u16],
    names: &mut [u16],
    slots: &mut [u16],
    c: ClassSpot,
) -> Stop
    requires part_room { PartRoom f.now s.now end (first_link c.home) (first_link c.home + most_links) c.home c.number }
    requires names_start_in_bounds { (names_start ≤ length names.old) × SlotsTrue f.now s.now slots.old }
    requires f_len_bound { (length f.now ≤ 65535) × (length s.now ≤ 65535) × Indexed s.now end index.now }
    ensures part_is { PartIs f.now s.now names.old names.new c (first_link c.home) result.link result.next }
    ensures slots_true { SlotsTrue f.now s.now slots.new }
{
    let mut x = c;
    for i in first_link(c.home)..32 {
        let at = parents::place_of(f, s, slots, x);
        set_link(&mut *names, i, x.home, at);
        let n = parents::kind0_parent(f, s, end, index, slots, x);
        match n {
            Some(d) => {
                if x.home.from < d.home.from {
                    return Stop {
                        link: i + 1,
                        next: n,
                    };
                }
                x = d;
            }
            None => {
                return Stop {
                    link: i + 1,
                    next: n,
                };
            }
        }
    }
    Stop {
        link: 32,
        next: None,
    }
}

// The home of the first link from i on that does not lie behind place q.
// Kept: a home of zeros behind the loop, where every caller has a link: a function that could not fail still cannot.
pub fn home_before(names: &[u16], i: usize, q: usize) -> Home
    requires { (i ≤ most_links) × (names_start ≤ length names.now) }
    ensures { HomeForIs names.now i q result }
{
    for k in i..32 {
        let h = link_home(names, k);
        if h.from <= q {
            return h;
        }
    }
    Home {
        from: 0,
        to: 0,
        before: 0,
    }
}
