// Question 14 of a file over the entries that end at a place: parents and depths. Depths of stored classes are kept in a table of fields
// of a few bits, written when their package was accepted.
#![tactic(auto)]

pub mod existence;
pub mod parents;
pub mod table;

ghost use Rattle.std.specs.Prelude.{◌≡◌, suc, ◌+◌, ◌≤◌, ◌<◌, length};
ghost use Rattle.rules.specs.Package.{most_classes};
ghost use Rattle.rules.specs.Store.{store_limits};
ghost use Rattle.homes.specs.Found.{ImportPlaces};
ghost use Rattle.named.specs.Named.{Judged, ClassFrom, RowsTrue};
ghost use Rattle.depths.specs.Depths.{ParentsThere, ImportCount, capped, DepthsKept, OwnTo, OwnIs, LaterParts, ParentedIs, OwnTold};

use existence::parents_exist;
use fields::wide;
use homes::Places;
use parents::{flag, import_count, own_parents};

// Where the earlier entries end, and the depth limit.
#[derive(Clone, Copy)]
pub struct Bounds {
    pub end: usize,
    pub most: usize,
}

// An own class: where the earlier entries end, the depth limit, the file's import count, the class's number and the place of its record.
#[derive(Clone, Copy)]
pub struct Own {
    pub end: usize,
    pub most: usize,
    pub imports: usize,
    pub number: usize,
    pub place: usize,
}

// One more than a depth, which counts up to the limit.
fn one_more(d: usize, most: usize) -> usize
    requires { most < 255 }
    ensures { (result ≡ suc (capped most d)) × (result ≤ most + 1) }
{
    if d <= most {
        return d + 1;
    }
    most + 1
}

// The depth of an own class, if its parents are of the right kinds.
fn own_depth<'a>(
    f: &'a [u8],
    s: &'a [u8],
    places: &Places,
    rows: &mut [u16],
    t: &[u8],
    depths: &[u8],
    o: Own,
) -> Option<usize>
    requires parents_there { ParentsThere f.now s.now o.end × ImportPlaces f.now s.now o.end places.now }
    requires import_count { ImportCount f.now o.imports × ClassFrom f.now o.number o.place }
    requires rows_true { RowsTrue f.now s.now o.end places.now rows.old }
    requires depths_kept { DepthsKept s.now o.end t.now × (length s.now ≤ 65535) × OwnTo f.now s.now o.end o.number depths.now }
    requires most_value { o.most ≡ (store_limits s.now).depth }
    ensures own_is { OwnIs f.now s.now o.end o.number result }
    ensures rows_true_2 { RowsTrue f.now s.now o.end places.now rows.new }
{
    let a = o.place;
    let w = own_parents(f, s, places, rows, t, depths, o);
    if flag(wide(f[a])) < w.kind0 {
        return None;
    }
    Some(one_more(w.depth, o.most))
}

// 14, second and third part: have interfaces only interface parents, classes at most one kind-0 parent, is each depth at most the limit? With
// a yes the depth of the deepest class, 0 where there is none.
fn depths_ok<'a>(
    f: &'a [u8],
    s: &'a [u8],
    places: &Places,
    rows: &mut [u16],
    t: &[u8],
    depths: &mut [u8],
    b: Bounds,
) -> Option<usize>
    requires parents_there { ParentsThere f.now s.now b.end × ImportPlaces f.now s.now b.end places.now }
    requires rows_true { RowsTrue f.now s.now b.end places.now rows.old }
    requires depths_kept { DepthsKept s.now b.end t.now × (length s.now ≤ 65535) }
    requires most_value { (b.most ≡ (store_limits s.now).depth) × (length depths.old ≡ most_classes) }
    ensures later_parts { LaterParts f.now s.now b.end depths.new result }
    ensures rows_true_2 { RowsTrue f.now s.now b.end places.now rows.new }
{
    let imports = import_count(f);
    let mut n = 0;
    let mut figure = 0;
    while let Some(place) = named::stands_at(f, rows, 0, n) {
        let own = Own {
            end: b.end,
            most: b.most,
            imports: imports,
            number: n,
            place: place,
        };
        let d = own_depth(f, s, places, rows, t, depths, own)?;
        if b.most < d {
            return None;
        }
        depths[n] = d as u8;
        figure = d.max(figure);
        n += 1;
    }
    Some(figure)
}

// 14. Does each parent exist, have interfaces and classes parents of the right kinds, is each depth at most the limit? With a yes
// the depth of the deepest class, 0 where there is none, and the depths of the own classes.
pub fn parents_ok<'a>(
    f: &'a [u8],
    s: &'a [u8],
    places: &Places,
    rows: &mut [u16],
    t: &[u8],
    depths: &mut [u8],
    b: Bounds,
) -> Option<usize>
    requires judged { Judged f.now s.now b.end × ImportPlaces f.now s.now b.end places.now }
    requires rows_true { RowsTrue f.now s.now b.end places.now rows.old }
    requires depths_kept { DepthsKept s.now b.end t.now × (length s.now ≤ 65535) }
    requires most_value { (b.most ≡ (store_limits s.now).depth) × (length depths.old ≡ most_classes) }
    ensures parented_is { ParentedIs f.now s.now b.end result }
    ensures own_told { OwnTold f.now s.now b.end depths.new result }
    ensures rows_true_2 { RowsTrue f.now s.now b.end places.now rows.new }
{
    if !parents_exist(f, s, places, rows, b) {
        return None;
    }
    depths_ok(f, s, places, rows, t, depths, b)
}
