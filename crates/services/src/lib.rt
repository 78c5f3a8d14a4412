// The questions of a creation, a deletion, a removal and a query on a sound store, from 3 on.
#![tactic(auto)]

ghost use Rattle.std.specs.Prelude.{◌≡◌};
ghost use Rattle.rules.specs.Store.{DomainKind, store_limits};
ghost use Rattle.rules.specs.Operations.{create, delete, remove, is_domain, is_package, query_number, query_yes};
ghost use Rattle.refusals.specs.Refusals.{number_said};
ghost use Rattle.files.specs.Say.{Readable};
ghost use Rattle.store.specs.Entries.{FilesStand};
ghost use Rattle.store.specs.Sound.{SoundAt, Asked};
ghost use Rattle.services.specs.Answers.{CutSays, ImportsSays, OtherSays, ImportedSays, ClassOf, ClassAllows, FileAllows, yes_said};

use policies::RightsPlace;
use refusals::refusal::Refusal;
use store::{EntryPart, EntryPlace};

// Does a file import an AID?
fn imports(g: &[u8], aid: &[u8]) -> bool
    requires { Readable g.now }
    ensures { ImportsSays g.now aid.now result }
{
    let start = files::imports_at(g);
    let mut c = start + 1;
    for _ in 0..fields::wide(g[start]) {
        if files::aid_is(g, c, aid) {
            return true;
        }
        c = files::after_aid(g, c);
    }
    false
}

// Has a file another AID, and does it import this one?
fn other_imports(g: &[u8], aid: &[u8]) -> bool
    requires { Readable g.now }
    ensures { OtherSays g.now aid.now result }
{
    if files::aid_is(g, 7, aid) {
        return false;
    }
    imports(g, aid)
}

// 8. Does another installed package import an AID, of the entries that end at `end`?
fn imported(s: &[u8], end: usize, aid: &[u8]) -> bool
    requires { FilesStand s.now end }
    ensures { ImportedSays s.now end aid.now result }
{
    let mut at = store::openings::first_entry(s);
    while let Some(part) = store::entry_at(s, at, end) {
        match part {
            EntryPart::Domain { next, .. } => {
                at = next;
            }
            EntryPart::Package { file, next, .. } => {
                if other_imports(&s[file..next], aid) {
                    return true;
                }
                at = next;
            }
        }
    }
    false
}

// Does the method of a name of the class at a place allow a domain, in a file of domain `own`? Nothing where there is no such method.
fn class_allows(g: &[u8], own: &[u8], c: usize, name: usize, domain: &[u8]) -> Option<bool>
    requires { ClassOf g.now c }
    ensures { ClassAllows g.now own.now c name domain.now result }
{
    let m = files::find_method(g, c, name)?;
    let p = RightsPlace {
        domains: files::domains_at(g),
        policy: files::policy_of(g, m),
    };
    Some(policies::admits(g, own, p, domain))
}

// Does the method of a class and a name of a file allow a domain, where its package lies in domain `own`? Nothing where there is none.
fn file_allows(g: &[u8], own: &[u8], class: usize, name: usize, domain: &[u8]) -> Option<bool>
    requires { Readable g.now }
    ensures { FileAllows g.now own.now class name domain.now result }
{
    let c = files::class_place(g, class)?;
    class_allows(g, own, c, name, domain)
}

// Create, a domain of either kind: the first refusal of 3, 4 and 21.
pub fn create_answer(s: &[u8], used: usize, domain: &[u8]) -> Result<(), Refusal>
    requires { SoundAt s.now used }
    ensures { (k : DomainKind) → Asked s.now used (create k domain.now) (number_said result) }
{
    if !cursor::length_ok(domain) {
        return Err(Refusal::AidLength);
    }
    if store::find_domain(s, used, domain).is_some() {
        return Err(Refusal::DomainExists);
    }
    if !store::domain_fits(s, used, domain) {
        return Err(Refusal::StoreFull);
    }
    Ok(())
}

// Delete: the first refusal of 3, 5 and 6, or the place of the domain's entry.
pub fn delete_answer(s: &[u8], used: usize, domain: &[u8]) -> Result<EntryPlace, Refusal>
    requires { SoundAt s.now used }
    ensures { CutSays s.now used (delete domain.now) (is_domain domain.now) result }
{
    if !cursor::length_ok(domain) {
        return Err(Refusal::AidLength);
    }
    let Some(place) = store::find_domain(s, used, domain) else {
        return Err(Refusal::DomainUnknown);
    };
    if store::domain_in_use(s, used, domain) {
        return Err(Refusal::DomainOccupied);
    }
    Ok(place)
}

// Remove: the first refusal of 3, 7 and 8, or the place of the package's entry.
// Kept: one function with the deletion would take its two questions and two refusals as arguments, longer than the three questions here.
pub fn remove_answer(s: &[u8], used: usize, package: &[u8]) -> Result<EntryPlace, Refusal>
    requires { SoundAt s.now used }
    ensures { CutSays s.now used (remove «package».now) (is_package (store_limits s.now) «package».now) result }
{
    if !cursor::length_ok(package) {
        return Err(Refusal::AidLength);
    }
    let Some(b) = store::find_package(s, used, package) else {
        return Err(Refusal::PackageUnknown);
    };
    if imported(s, used, package) {
        return Err(Refusal::PackageImported);
    }
    Ok(EntryPlace {
        at: b.at,
        next: b.to,
    })
}

// A query of a sound store: the first refusal of 3, 7 and 9, or whether the method allows the domain.
pub fn query_on(
    s: &[u8],
    used: usize,
    domain: &[u8],
    package: &[u8],
    class: usize,
    name: usize,
) -> Result<bool, Refusal>
    requires { SoundAt s.now used }
    ensures { (number_said result ≡ query_number s.now domain.now «package».now class name)
        × (yes_said result ≡ query_yes s.now domain.now «package».now class name) }
{
    if !cursor::length_ok(domain) {
        return Err(Refusal::AidLength);
    }
    if !cursor::length_ok(package) {
        return Err(Refusal::AidLength);
    }
    match store::find_package(s, used, package) {
        Some(b) => {
            match file_allows(&s[b.from..b.to], &s[b.at + 4..b.from], class, name, domain) {
                Some(yes) => Ok(yes),
                None => Err(Refusal::MethodUnknown),
            }
        }
        None => Err(Refusal::PackageUnknown),
    }
}
