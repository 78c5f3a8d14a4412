// Where the file of a package lies: the file being judged, or a part of the store. Packages by number, classes by number.
#![tactic(auto)]

ghost use Rattle.std.specs.Prelude.{◌≡◌, ◌≤◌, length};
ghost use Rattle.rules.specs.Bytes.{aid};
ghost use Rattle.places.specs.Reads.{Ends};
ghost use Rattle.files.specs.Say.{Readable};
ghost use Rattle.homes.specs.Found.{places_length, Indexed, home_numbered, PlacesStand};
ghost use Rattle.homes.specs.Homes.{own_home, home_of, PackageFrom, file_of, aid_at, domain_place, HomeThere, ByAid, ImportPlaced, NumberedIs};

use fields::long;

// The bounds of a file in the store, and the place where the entries before it end; 0 and 0 for the file being judged.
// Kept: 0 for the file being judged, since tables keep a home as three numbers, and the recursive walks hold it by value in a bounded stack.
#[derive(Clone, Copy, PartialEq, Eq)]
pub struct Home {
    pub from: usize,
    pub to: usize,
    pub before: usize,
}

// A file that is judged: where the entries before it end, and where in the store the AID of the domain that it is loaded into stands.
#[derive(Clone, Copy)]
pub struct Loaded {
    pub end: usize,
    pub domain: usize,
}

// The places of the entries of a file's imports, 0 behind the last one.
// Kept: 0 for none, since an option of a u16 takes twice the memory, which is fixed.
pub type Places = [u16; 15];

// The home of the file being judged, behind the entries that end at a place.
pub fn own_home(end: usize) -> Home
    ensures { result ≡ own_home end }
{
    Home {
        from: 0,
        to: 0,
        before: end,
    }
}

// The home of the package whose entry stands at a place.
pub fn home_at(s: &[u8], before: usize) -> Home
    requires { PackageFrom s.now before }
    ensures { result ≡ home_of s.now before }
{
    let from = index::file_from(s, before);
    let to = index::entry_to(s, before);
    Home {
        from: from,
        to: to,
        before: before,
    }
}

// The file at a home, as a part of whichever holds it.
pub fn file_of<'a>(f: &'a [u8], s: &'a [u8], h: Home) -> &'a [u8]
    requires { (h.from ≤ h.to) × (h.to ≤ length s.now) }
    ensures { result.now ≡ file_of f.now s.now h }
{
    let from = h.from;
    let to = h.to;
    if from == 0 {
        return f;
    }
    &s[from..to]
}

// The domain of the package at a home, as a part of the store; that of the file being judged stands at place d.
pub fn domain_of<'a>(s: &'a [u8], h: Home, d: usize) -> &'a [u8]
    requires { Ends aid s.now (domain_place h d) }
    ensures { result.now ≡ aid_at s.now (domain_place h d) }
{
    let from = h.from;
    let before = h.before;
    if from == 0 {
        return files::aid_bytes(s, d);
    }
    files::aid_bytes(s, before + 3)
}

// The place of the AID of import k of a file, counted from 0.
fn import_place(g: &[u8], k: usize) -> Option<usize>
    requires { Readable g.now }
    ensures { ImportPlaced g.now k result }
{
    files::nth_aid(g, files::imports_at(g), k)
}

// The home of the package of an AID among the entries that end at a place, by an index of these.
pub fn by_aid(s: &[u8], end: usize, index: &[u16], aid: &[u8]) -> Option<Home>
    requires { Indexed s.now end index.now }
    ensures { ByAid s.now end aid.now result }
{
    let b = index::package_by(s, end, index, aid)?;
    Some(Home {
        from: b.from,
        to: b.to,
        before: b.at,
    })
}

// The home of the package that a package number stands for in the file at a home: 0 the same, k the k-th import's.
pub fn numbered<'a>(
    f: &'a [u8],
    s: &'a [u8],
    end: usize,
    index: &[u16],
    h: Home,
    k: usize,
) -> Option<Home>
    requires home_there { HomeThere f.now s.now h }
    requires indexed { Indexed s.now end index.now × (h.before ≤ end) }
    ensures { NumberedIs f.now s.now h k result }
{
    if k == 0 {
        return Some(h);
    }
    let g = file_of(f, s, h);
    let i = import_place(g, k - 1)?;
    by_aid(s, end, index, files::aid_bytes(g, i))
}

// The home of the package that a package number stands for in the file being judged, by the places of its imports: 0 its own, k that of its k-th
// import, nothing where it has no such import.
pub fn placed(s: &[u8], end: usize, places: &Places, p: usize) -> Option<Home>
    requires { (length places.now ≡ places_length) × PlacesStand s.now places.now }
    ensures { result ≡ home_numbered s.now end places.now p }
{
    if p == 0 {
        return Some(own_home(end));
    }
    if 15 < p {
        return None;
    }
    let place = long(places[p - 1]);
    if place == 0 {
        return None;
    }
    Some(home_at(s, place))
}
