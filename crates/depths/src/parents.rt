// The parents of an own class as its record lists them, and what is told of them: how many are of kind 0, and the greatest depth.
ghost use Rattle.std.specs.Prelude.{◌≡◌, ◌+◌, ◌*◌, ◌≤◌, ◌<◌, length, get_or};
ghost use Rattle.rules.specs.Store.{store_limits};
ghost use Rattle.files.specs.Say.{Readable};
ghost use Rattle.homes.specs.Homes.{own_home};
ghost use Rattle.homes.specs.Found.{ImportPlaces};
ghost use Rattle.named.specs.Named.{home_of, PackageThere, ClassFrom, RowsTrue};
ghost use Rattle.depths.specs.Depths.{ParentsThere, ImportCount, ClassThere, Kind0Is, Kind0Count, DepthIs, DeepestIs, depth_width, DepthsKept, OwnTo};

use super::{Own, table};
use fields::wide;
use homes::Places;

// A class as it is listed: where the earlier entries end, the bits of a depth in the table, its package number and its class number.
#[derive(Clone, Copy)]
pub struct Listed {
    pub end: usize,
    pub width: usize,
    pub pack: usize,
    pub class: usize,
}

// A parent as it is listed: its package number and its class number.
#[derive(Clone, Copy)]
pub struct Parent {
    pub pack: usize,
    pub class: usize,
}

// Of a class 1 where it is of kind 0, else 0, and its depth; of parents how many are of kind 0, and the greatest depth.
#[derive(Clone, Copy)]
pub struct Told {
    pub kind0: usize,
    pub depth: usize,
}

// The import count of a file.
pub fn import_count(f: &[u8]) -> usize
    requires { Readable f.now }
    ensures { ImportCount f.now result }
{
    wide(f[files::imports_at(f)])
}

// How many parents the class has whose record stands at a place.
pub fn parent_count(f: &[u8], place: usize) -> usize
    requires { place + 1 < length f.now }
    ensures { (result ≡ get_or f.now (place + 1) 0) × (result < 256) }
{
    wide(f[place + 1])
}

// Its parent with number i, as it is listed.
pub fn parent_at(f: &[u8], place: usize, i: usize) -> Parent
    requires { place + 3 + 2 * i < length f.now }
    ensures { (result.pack ≡ get_or f.now (place + 2 + 2 * i) 0) × (result.class ≡ get_or f.now (place + 3 + 2 * i) 0) }
{
    Parent {
        pack: wide(f[place + 2 + 2 * i]),
        class: wide(f[place + 3 + 2 * i]),
    }
}

// 1 where a class's first byte says kind 0, else 0.
// Kept: it is added to a count and compared with one; a bool would be made the same number at both places.
pub fn flag(kind: usize) -> usize
    ensures { ((kind ≡ 1 → result ≡ 0) × ((kind ≡ 1 → ⊥) → result ≡ 1)) × (result ≤ 1) }
{
    if kind == 1 {
        return 0;
    }
    1
}

// Kind and depth of a class that an own class lists as a parent.
fn parent_told<'a>(
    f: &'a [u8],
    s: &'a [u8],
    places: &Places,
    rows: &mut [u16],
    t: &[u8],
    depths: &[u8],
    x: Listed,
) -> Told
    requires import_places { ImportPlaces f.now s.now x.end places.now × PackageThere f.now x.pack }
    requires class_there { ClassThere f.now s.now x.end (home_of s.now x.end places.now x.pack) x.class }
    requires rows_true { RowsTrue f.now s.now x.end places.now rows.old }
    requires depths_kept { DepthsKept s.now x.end t.now × (length s.now ≤ 65535) × (x.width ≡ depth_width s.now) }
    requires class_in_bounds { x.pack ≡ 0 → (x.class < length depths.now) × DepthIs f.now s.now x.end (own_home x.end) x.class (get_or depths.now x.class 0) }
    ensures kind0is { Kind0Is f.now s.now x.end (home_of s.now x.end places.now x.pack) x.class result.kind0 × (result.kind0 ≤ 1) }
    ensures depth_is { DepthIs f.now s.now x.end (home_of s.now x.end places.now x.pack) x.class result.depth × (result.depth < 256) }
    ensures rows_true_2 { RowsTrue f.now s.now x.end places.now rows.new }
{
    let h = named::home_at(s, x.end, places, x.pack);
    let g = homes::file_of(f, s, h);
    match named::stands_at(g, rows, 32 * x.pack, x.class) {
        Some(i) => Told {
            kind0: flag(wide(g[i])),
            depth: table::depth_told(t, x.width, depths, h.from, i, x.class, wide(g[i + 1])),
        },
        None => Told { kind0: 0, depth: 0 },
    }
}

// The kind-0 parents of an own class, counted, and the greatest depth of its parents.
pub fn own_parents<'a>(
    f: &'a [u8],
    s: &'a [u8],
    places: &Places,
    rows: &mut [u16],
    t: &[u8],
    depths: &[u8],
    o: Own,
) -> Told
    requires parents_there { ParentsThere f.now s.now o.end × ImportPlaces f.now s.now o.end places.now }
    requires import_count { ImportCount f.now o.imports × ClassFrom f.now o.number o.place }
    requires rows_true { RowsTrue f.now s.now o.end places.now rows.old }
    requires depths_kept { DepthsKept s.now o.end t.now × (length s.now ≤ 65535) × OwnTo f.now s.now o.end o.number depths.now }
    requires most_value { o.most ≡ (store_limits s.now).depth }
    ensures kind0count { Kind0Count f.now s.now o.end (own_home o.end) o.number result.kind0 }
    ensures deepest_is { DeepestIs f.now s.now o.end (own_home o.end) o.number result.depth }
    ensures rows_true_2 { RowsTrue f.now s.now o.end places.now rows.new }
{
    let k = parent_count(f, o.place);
    let width = table::width_of(o.most);
    let mut found = 0;
    let mut deepest = 0;
    for i in 0..k {
        let x = parent_at(f, o.place, i);
        let y = Listed {
            end: o.end,
            width: width,
            pack: x.pack,
            class: x.class,
        };
        let w = parent_told(f, s, places, rows, t, depths, y);
        found += w.kind0;
        deepest = w.depth.max(deepest);
    }
    Told {
        kind0: found,
        depth: deepest,
    }
}
