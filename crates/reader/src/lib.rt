// The package reader: questions 10 and 11 of a file, and where the lists of its package stand. One pass over the file.
#![tactic(auto)]

mod members;

ghost use Rattle.std.specs.Prelude.{◌≡◌};
ghost use Rattle.rules.specs.Bytes.{u1, u2, counted};
ghost use Rattle.rules.specs.Package.{format_of, most_references, most_classes, class_number, reference, class};
ghost use Rattle.rules.specs.Questions.{q10_marked};
ghost use Rattle.cursor.specs.Says.{Stops, skip_said};
ghost use Rattle.cursor.specs.Limits.{limits_of};
ghost use Rattle.reader.specs.Answers.{StopsFor, ContentsRead, LayoutRead, PackageRead};

use cursor::{Cursor, FilePlace, Limits};
use members::skip_methods;
use refusals::refusal::Refusal;

// "BPK", version 1, and version 2, with handlers.
const MARK_1: [u8; 5] = [0x42, 0x50, 0x4B, 0x00, 0x01];

const MARK_2: [u8; 5] = [0x42, 0x50, 0x4B, 0x00, 0x02];

// The greatest counts.
const MOST_DOMAINS: usize = 32;

const MOST_IMPORTS: usize = 15;

const MOST_REFERENCES: usize = 1024;

const MOST_CLASSES: usize = 32;

// Where the lists of a package stand in its file, each from its count on.
#[derive(Clone, Copy)]
pub struct Places {
    pub domains: FilePlace,
    pub imports: FilePlace,
    pub references: FilePlace,
    pub classes: FilePlace,
}

// Does the file begin with mark and version, 1 or 2?
fn marked(f: &[u8]) -> bool
    ensures { result ≡ q10_marked f.now }
{
    if f.len() < 5 {
        return false;
    }
    if fields::same_bytes(&f[..5], &MARK_1) {
        return true;
    }
    fields::same_bytes(&f[..5], &MARK_2)
}

// A count of at most `most` and that many parents of two bytes.
fn skip_parents(f: &[u8], from: Cursor, most: usize) -> Option<Cursor>
    ensures { Stops (counted most u1 class_number) f.now from.at.0 (skip_said result) }
{
    let (count, first) = from.u1(f)?;
    if most < count {
        return None;
    }
    let at = first.at.0;
    if (f.len() - at) / 2 < count {
        return None;
    }
    Some(Cursor::new(at + 2 * count))
}

// A count and that many references of four bytes.
fn skip_references(f: &[u8], from: Cursor) -> Option<Cursor>
    ensures { Stops (counted most_references u2 reference) f.now from.at.0 (skip_said result) }
{
    let (count, first) = from.u2(f)?;
    if MOST_REFERENCES < count {
        return None;
    }
    first.skip(f, 4 * count)
}

// A class: kind, parents, methods.
fn skip_class(f: &[u8], from: Cursor, domains: usize, limits: Limits) -> Option<Cursor>
    ensures { StopsFor domains (class (format_of (limits_of limits) f.now)) f.now from.at.0 (skip_said result) }
{
    let (kind, parents) = from.u1(f)?;
    if 1 < kind {
        return None;
    }
    let methods = skip_parents(f, parents, limits.parents)?;
    skip_methods(f, methods, domains, limits)
}

// A count and that many classes.
fn skip_classes(f: &[u8], from: Cursor, domains: usize, limits: Limits) -> Option<Cursor>
    ensures { StopsFor domains (λ ds. counted most_classes u1 (class (format_of (limits_of limits) f.now) ds)) f.now from.at.0 (skip_said result) }
{
    let (count, first) = from.u1(f)?;
    if MOST_CLASSES < count {
        return None;
    }
    let mut c = first;
    for _ in 0..count {
        c = skip_class(f, c, domains, limits)?;
    }
    Some(c)
}

// What follows the size: where the package AID and the lists stand, and the cursor behind them.
fn read_contents(f: &[u8], from: Cursor, limits: Limits) -> Option<(Places, Cursor)>
    ensures { ContentsRead (limits_of limits) f.now from.at.0 result }
{
    let (_, domains) = from.aid(f)?;
    let (count, imports) = domains.aids(f, MOST_DOMAINS)?;
    let (_, references) = imports.aids(f, MOST_IMPORTS)?;
    let classes = skip_references(f, references)?;
    let end = skip_classes(f, classes, count, limits)?;
    let places = Places {
        domains: domains.at,
        imports: imports.at,
        references: references.at,
        classes: classes.at,
    };
    Some((places, end))
}

// 11. Where the lists of the package stand, if what follows the mark is laid out as one, to the end of the file.
fn read_layout(f: &[u8], limits: Limits) -> Option<Places>
    ensures { LayoutRead (limits_of limits) f.now result }
{
    let (size, contents) = Cursor::new(5).u2(f)?;
    if size != f.len() {
        return None;
    }
    let (places, end) = read_contents(f, contents, limits)?;
    if end.at.0 < f.len() {
        return None;
    }
    Some(places)
}

// Questions 10 and 11 of a file: the refusal of the first that is answered no, or the places of the package's lists.
pub fn read_package(f: &[u8], limits: Limits) -> Result<Places, Refusal>
    ensures { PackageRead (limits_of limits) f.now result }
{
    if !marked(f) {
        return Err(Refusal::FileMark);
    }
    read_layout(f, limits).ok_or(Refusal::FileLayout)
}
