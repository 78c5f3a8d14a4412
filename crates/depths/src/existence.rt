// Question 14, first part: whether each parent of each own class exists, an own one with a smaller number.
ghost use Rattle.homes.specs.Found.{ImportPlaces};
ghost use Rattle.named.specs.Named.{Judged, ClassFrom, RowsTrue};
ghost use Rattle.depths.specs.Depths.{ImportCount, ExistsIs, AllExist, ParentsExist};

use super::parents::{import_count, parent_at, parent_count};
use super::{Bounds, Own};
use homes::Places;

// Does a parent of an own class, told by package and class number, exist, an own one with a smaller number?
fn parent_exists<'a>(
    f: &'a [u8],
    s: &'a [u8],
    places: &Places,
    rows: &mut [u16],
    o: Own,
    p: usize,
    c: usize,
) -> bool
    requires judged { Judged f.now s.now o.end × ImportPlaces f.now s.now o.end places.now }
    requires import_count { ImportCount f.now o.imports × RowsTrue f.now s.now o.end places.now rows.old }
    ensures exists_is { ExistsIs f.now s.now o.end o.number (record { pack = p; class = c }) result }
    ensures rows_true { RowsTrue f.now s.now o.end places.now rows.new }
{
    if o.imports < p {
        return false;
    }
    match named::class_in(f, s, o.end, places, rows, p, c) {
        Some(_) => {
            if p != 0 {
                return true;
            }
            c < o.number
        }
        None => false,
    }
}

// Does each parent of an own class?
fn class_parents_exist<'a>(
    f: &'a [u8],
    s: &'a [u8],
    places: &Places,
    rows: &mut [u16],
    o: Own,
) -> bool
    requires judged { Judged f.now s.now o.end × ImportPlaces f.now s.now o.end places.now }
    requires import_count { ImportCount f.now o.imports × RowsTrue f.now s.now o.end places.now rows.old }
    requires class_from { ClassFrom f.now o.number o.place }
    ensures all_exist { AllExist f.now s.now o.end o.number result }
    ensures rows_true { RowsTrue f.now s.now o.end places.now rows.new }
{
    let k = parent_count(f, o.place);
    for i in 0..k {
        let x = parent_at(f, o.place, i);
        if !parent_exists(f, s, places, rows, o, x.pack, x.class) {
            return false;
        }
    }
    true
}

// 14, first part: does each parent exist, an own one with a smaller number?
pub fn parents_exist<'a>(
    f: &'a [u8],
    s: &'a [u8],
    places: &Places,
    rows: &mut [u16],
    b: Bounds,
) -> bool
    requires judged { Judged f.now s.now b.end × ImportPlaces f.now s.now b.end places.now }
    requires rows_true { RowsTrue f.now s.now b.end places.now rows.old }
    ensures parents_exist { ParentsExist f.now s.now b.end result }
    ensures rows_true_2 { RowsTrue f.now s.now b.end places.now rows.new }
{
    let imports = import_count(f);
    let mut n = 0;
    while let Some(place) = named::stands_at(f, rows, 0, n) {
        let own = Own {
            end: b.end,
            most: b.most,
            imports: imports,
            number: n,
            place: place,
        };
        if !class_parents_exist(f, s, places, rows, own) {
            return false;
        }
        n += 1;
    }
    true
}
