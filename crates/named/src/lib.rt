// The class that a package number and a class number name in the file being judged: the home of its package, the place of its record.
// Places are kept in rows of 32 numbers, one row for each file; 0 is a place that is not known yet.
// Kept: 0 for not known, since the caller lends the rows as numbers of two bytes, and an option of one takes twice the memory.
#![tactic(auto)]

ghost use Rattle.std.specs.Prelude.{◌≡◌, ◌+◌, ◌≤◌, ◌<◌, length, get_or};
ghost use Rattle.rules.specs.Package.{most_classes};
ghost use Rattle.files.specs.Say.{Readable};
ghost use Rattle.files.specs.Say as files';
ghost use Rattle.homes.specs.Homes.{ClassPlaced};
ghost use Rattle.homes.specs.Found.{places_length, ImportPlaces};
ghost use Rattle.named.specs.Named.{Judged, home_of, PackageThere, NumberPlaced, ClassesFrom, ClassStands, RowTrue, Beside, RowsTrue};

use fields::{long, u2_at};
use homes::{Home, Places};

// The greatest class number up to c whose place the row tells; 0 where it tells none.
fn known_to(rows: &[u16], base: usize, c: usize) -> usize
    requires { base + c < length rows.now }
    ensures { (result ≤ c) × (0 < result → 0 < get_or rows.now (base + result) 0) }
{
    for j in (1..c + 1).rev() {
        if rows[base + j] != 0 {
            return j;
        }
    }
    0
}

// The place that is known, else that of the first class of a file.
fn start_of(g: &[u8], known: usize) -> usize
    requires { Readable g.now }
    ensures { (known ≡ 0 → ClassesFrom g.now 0 result) × (0 < known → result ≡ known) }
{
    if known != 0 {
        return known;
    }
    files::classes_at(g) + 1
}

// The place of class c, walking on from class j at a place; what is passed is written to the row.
fn walk_on(
    g: &[u8],
    rows: &mut [u16],
    base: usize,
    c: usize,
    j: usize,
    place: usize,
) -> Option<usize>
    requires readable { Readable g.now × RowTrue g.now rows.old base }
    requires j_le_c { (j ≤ c) × (c < most_classes) × ClassesFrom g.now j place }
    ensures class_stands { ClassStands g.now c result }
    ensures row_true { RowTrue g.now rows.new base × Beside rows.old rows.new base }
{
    let size = u2_at(g, 5);
    let mut i = place;
    for n in j..c {
        if size <= i {
            return None;
        }
        rows[base + n] = i as u16;
        i = files::after_class(g, i);
    }
    if size <= i {
        return None;
    }
    rows[base + c] = i as u16;
    Some(i)
}

// The place of the record of class c of a file, by the row that starts at a number.
pub fn stands_at(g: &[u8], rows: &mut [u16], base: usize, c: usize) -> Option<usize>
    requires { Readable g.now × RowTrue g.now rows.old base }
    ensures class_stands { ClassStands g.now c result }
    ensures row_true { RowTrue g.now rows.new base × Beside rows.old rows.new base }
{
    if 32 <= c {
        return None;
    }
    let known = long(rows[base + c]);
    if known != 0 {
        return Some(known);
    }
    let j = known_to(rows, base, c);
    let place = start_of(g, long(rows[base + j]));
    walk_on(g, rows, base, c, j, place)
}

// A place of its record, as it is read.
pub fn class_at(g: &[u8], rows: &mut [u16], base: usize, c: usize) -> Option<usize>
    requires { Readable g.now × RowTrue g.now rows.old base }
    ensures class_placed { files'.ClassPlaced g.now c result }
    ensures row_true { RowTrue g.now rows.new base × Beside rows.old rows.new base }
{
    stands_at(g, rows, base, c)
}

// The home of the package that a number stands for in the file being judged: 0 its own, k that of its k-th import, by the places of these.
pub fn home_at(s: &[u8], end: usize, places: &Places, p: usize) -> Home
    requires { (length places.now ≡ places_length) × NumberPlaced s.now places.now p }
    ensures { result ≡ home_of s.now end places.now p }
{
    if p == 0 {
        return homes::own_home(end);
    }
    homes::home_at(s, long(places[p - 1]))
}

// The place of the record of the class that package number p and class number c name in the file being judged.
pub fn class_in<'a>(
    f: &'a [u8],
    s: &'a [u8],
    end: usize,
    places: &Places,
    rows: &mut [u16],
    p: usize,
    c: usize,
) -> Option<usize>
    requires judged { Judged f.now s.now end × ImportPlaces f.now s.now end places.now }
    requires package_there { PackageThere f.now p × RowsTrue f.now s.now end places.now rows.old }
    ensures class_placed { ClassPlaced f.now s.now (home_of s.now end places.now p) c result }
    ensures rows_true { RowsTrue f.now s.now end places.now rows.new }
{
    let g = homes::file_of(f, s, home_at(s, end, places, p));
    class_at(g, rows, 32 * p, c)
}
