// The non-static methods of the classes of a chain, entered by name.
ghost use Rattle.std.specs.Prelude.{◌≡◌, ◌+◌, ◌-◌, ◌*◌, ◌<◌, ◌≤◌, length};
ghost use Rattle.methods.specs.Table.{Sorted};
ghost use Rattle.chains.specs.Chain.{most_links, names_start};
ghost use Rattle.chains.specs.Names.{text_of, first_link, Held, Added, Gathers, PartThere, GatheredAll};
ghost use Rattle.chains.specs.Say.{RecordThere, MethodHere};

use super::linked::{first_link, link_home, link_place};
use homes::Home;

// Enters the method at place m of the file g, which stands in t from `base` on, among the names from a up to e, unless it is static.
fn add_method(
    g: &[u8],
    t: &[u8],
    names: &mut [u16],
    base: usize,
    m: usize,
    a: usize,
    e: usize,
) -> usize
    requires method_here { MethodHere g.now m × Held g.now t.now base }
    requires sorted { Sorted t.now names.old a e × (e < length names.old) }
    ensures { Added g.now t.now names.old names.new m (base + m) a e result }
{
    if files::is_static(g, m) {
        return e;
    }
    methods::enter(t, names, a, e, base + m)
}

// Enters the non-static methods of the class at place c of the file g.
fn gather_class(
    g: &[u8],
    t: &[u8],
    names: &mut [u16],
    base: usize,
    c: usize,
    a: usize,
    e: usize,
) -> usize
    requires record_there { RecordThere g.now c × Held g.now t.now base }
    requires sorted { Sorted t.now names.old a e × (e + 64 ≤ length names.old) }
    ensures { Gathers g.now t.now names.old names.new c base a e result }
{
    let start = files::methods_of(g, c);
    let mut m = start + 1;
    let mut to = e;
    for _ in 0..usize::from(g[start]) {
        to = add_method(g, t, &mut *names, base, m, a, to);
        m = files::after_method(g, m);
    }
    to
}

// The bytes that hold the file at a home.
fn text_of<'a>(f: &'a [u8], s: &'a [u8], h: Home) -> &'a [u8]
    ensures { result.now ≡ text_of f.now s.now h }
{
    if h.from == 0 {
        return f;
    }
    s
}

// Enters the non-static methods of the classes up to link `last` of the part that begins with class n at home h, from a on.
pub fn gather<'a>(
    f: &'a [u8],
    s: &'a [u8],
    names: &mut [u16],
    h: Home,
    n: usize,
    last: usize,
    a: usize,
) -> usize
    requires part_there { PartThere f.now s.now names.old h n last }
    requires last_bound { (last ≤ first_link h + most_links) × (names_start ≤ a) × (a + 64 * (last - first_link h) ≤ length names.old) }
    requires f_len_bound { (length f.now ≤ 65535) × (length s.now ≤ 65535) }
    ensures { GatheredAll f.now s.now names.old names.new h n last a result }
{
    let mut to = a;
    for i in first_link(h)..last {
        let g = link_home(&*names, i);
        let c = link_place(&*names, i);
        let base = g.from;
        to = gather_class(
            homes::file_of(f, s, g),
            text_of(f, s, h),
            &mut *names,
            base,
            c,
            a,
            to,
        );
    }
    to
}
