// One package file, walked by places. Each function takes the file as a slice and a place in it.
#![tactic(auto)]

ghost use Rattle.std.specs.Prelude.{◌≡◌, ℕ, Bool};
ghost use Rattle.rules.specs.Package.{Method};
ghost use Rattle.rules.specs.Bytes.{aid};
ghost use Rattle.places.specs.Reads.{Ends, EndsAt};
ghost use Rattle.files.specs.Say.{Aids, AfterAids, AidNth, AidBytes, AidIs, References, AfterReferences, ReferenceNth, PolicyThere, AfterPolicy, MethodThere, AfterMethod, PolicyAt, NameIs, VisibleIs, ImplementedIs, StaticIs, NamedIs, InstanceIs, TestIs, FirstPlaced, CodeIs, Methods, AfterMethods, ClassThere, AfterClass, ParentsAt, MethodsAt, InterfaceIs, DeclaredPlaced, InstancePlaced, Classes, ClassNth, Readable, OwnAid, DomainsAt, ImportsAt, ReferencesAt, ClassesAt, ClassPlaced};

use fields::{same_bytes, says_second, u2_at, wide};

// A reference: the number of its package, that of its class, and its name.
#[derive(Clone, Copy)]
pub struct Reference {
    pub pack: usize,
    pub class: usize,
    pub name: usize,
}

// Where the AID at a place ends.
pub fn after_aid(s: &[u8], at: usize) -> usize
    requires { Ends aid s.now at }
    ensures { EndsAt aid s.now at result }
{
    at + 1 + wide(s[at])
}

// Where the counted list of AIDs at a place ends.
pub fn after_aids(s: &[u8], at: usize) -> usize
    requires { Aids s.now at }
    ensures { AfterAids s.now at result }
{
    let mut c = at + 1;
    for _ in 0..wide(s[at]) {
        c = after_aid(s, c);
    }
    c
}

// The AID with a number in the counted list at a place.
// Kept: beside `nth_class`, and `after_aids` beside `after_methods`, since one walk over a closure would have to say in its clauses what
// a reader of any type reads at each place, which is no plainer than a loop of four lines.
pub fn nth_aid(s: &[u8], at: usize, k: usize) -> Option<usize>
    requires { Aids s.now at }
    ensures { AidNth s.now at k result }
{
    let mut c = at + 1;
    for i in 0..wide(s[at]) {
        if i == k {
            return Some(c);
        }
        c = after_aid(s, c);
    }
    None
}

// The AID at a place, as a part of the file.
pub fn aid_bytes<'a>(s: &'a [u8], at: usize) -> &'a [u8]
    requires { Ends aid s.now at }
    ensures { AidBytes s.now at result.now }
{
    let e = after_aid(s, at);
    &s[at + 1..e]
}

// Is it the bytes of x?
pub fn aid_is(s: &[u8], at: usize, x: &[u8]) -> bool
    requires { Ends aid s.now at }
    ensures { AidIs s.now at x.now result }
{
    same_bytes(x, aid_bytes(s, at))
}

// Where the counted list of references at a place ends.
pub fn after_references(s: &[u8], at: usize) -> usize
    requires { References s.now at }
    ensures { AfterReferences s.now at result }
{
    at + 2 + 4 * u2_at(s, at)
}

// The reference with a number in the counted list at a place.
pub fn reference_at(s: &[u8], at: usize, k: usize) -> Option<Reference>
    requires { References s.now at }
    ensures { ReferenceNth s.now at k result }
{
    if u2_at(s, at) <= k {
        return None;
    }
    let c = at + 2 + 4 * k;
    Some(Reference {
        pack: wide(s[c]),
        class: wide(s[c + 1]),
        name: u2_at(s, c + 2),
    })
}

// Where the policy at a place ends.
pub fn after_policy(s: &[u8], at: usize) -> usize
    requires { PolicyThere s.now at }
    ensures { AfterPolicy s.now at result }
{
    let n = wide(s[at]);
    if n == 255 {
        return at + 1;
    }
    at + 1 + n
}

// Where the method at a place ends.
pub fn after_method(s: &[u8], at: usize) -> usize
    requires { MethodThere s.now at }
    ensures { AfterMethod s.now at result }
{
    let b = wide(s[at]);
    let c = after_policy(s, at + 3);
    if b / 64 % 2 != 1 {
        return c;
    }
    let e = c + 2 + u2_at(s, c);
    if says_second(s) {
        return e + 1 + 6 * wide(s[e]);
    }
    e
}

// The policy of the method at a place.
pub fn policy_of(s: &[u8], at: usize) -> usize
    requires { MethodThere s.now at }
    ensures { PolicyAt s.now at result }
{
    at + 3
}

// The name of the method at a place.
pub fn name_of(s: &[u8], at: usize) -> usize
    requires { MethodThere s.now at }
    ensures { NameIs s.now at result }
{
    u2_at(s, at + 1)
}

// Is the method at a place visible?
pub fn is_visible(s: &[u8], at: usize) -> bool
    requires { MethodThere s.now at }
    ensures { VisibleIs s.now at result }
{
    wide(s[at]) / 128 % 2 == 1
}

// Is it implemented?
pub fn is_implemented(s: &[u8], at: usize) -> bool
    requires { MethodThere s.now at }
    ensures { ImplementedIs s.now at result }
{
    wide(s[at]) / 64 % 2 == 1
}

// Is it static?
pub fn is_static(s: &[u8], at: usize) -> bool
    requires { MethodThere s.now at }
    ensures { StaticIs s.now at result }
{
    wide(s[at]) / 32 % 2 == 1
}

// Is it one of that name?
fn is_named(s: &[u8], at: usize, name: usize) -> bool
    requires { MethodThere s.now at }
    ensures { NamedIs s.now at name result }
{
    name_of(s, at) == name
}

// Is it a non-static one of that name?
fn is_instance(s: &[u8], at: usize, name: usize) -> bool
    requires { MethodThere s.now at }
    ensures { InstanceIs s.now at name result }
{
    is_named(s, at, name) && !is_static(s, at)
}

// The code of the method at a place, as a part of the file; empty where it is not implemented.
pub fn code_of<'a>(s: &'a [u8], at: usize) -> &'a [u8]
    requires { MethodThere s.now at }
    ensures { CodeIs s.now at result.now }
{
    let b = wide(s[at]);
    let c = after_policy(s, at + 3);
    if b / 64 % 2 != 1 {
        return &s[c..c];
    }
    let e = c + 2 + u2_at(s, c);
    &s[c + 2..e]
}

// Where the counted list of methods at a place ends.
pub fn after_methods(s: &[u8], at: usize) -> usize
    requires { Methods s.now at }
    ensures { AfterMethods s.now at result }
{
    let mut c = at + 1;
    for _ in 0..wide(s[at]) {
        c = after_method(s, c);
    }
    c
}

// Is the class at a place an interface?
pub fn is_interface(s: &[u8], at: usize) -> bool
    requires { ClassThere s.now at }
    ensures { InterfaceIs s.now at result }
{
    wide(s[at]) == 1
}

// The counted list of parents of the class at a place.
pub fn parents_of(s: &[u8], at: usize) -> usize
    requires { ClassThere s.now at }
    ensures { ParentsAt s.now at result }
{
    at + 1
}

// The counted list of methods of the class at a place.
pub fn methods_of(s: &[u8], at: usize) -> usize
    requires { ClassThere s.now at }
    ensures { MethodsAt s.now at result }
{
    at + 2 + 2 * wide(s[at + 1])
}

// Where the class at a place ends.
pub fn after_class(s: &[u8], at: usize) -> usize
    requires { ClassThere s.now at }
    ensures { AfterClass s.now at result }
{
    after_methods(s, methods_of(s, at))
}

// The first method of the class at a place that passes a test.
fn first_method<F: Fn(usize) -> bool>(s: &[u8], at: usize, passes: F) -> Option<usize>
    requires class_there { ClassThere s.now at }
    requires askable { (c : ℕ) → MethodThere s.now c → F.pre passes c }
    ensures { (p : Method → Bool) → TestIs (F.post passes) s.now p → FirstPlaced s.now at p result }
{
    let start = methods_of(s, at);
    let mut c = start + 1;
    for _ in 0..wide(s[start]) {
        if passes(c) {
            return Some(c);
        }
        c = after_method(s, c);
    }
    None
}

// The method of a name that the class at a place declares.
pub fn find_method(s: &[u8], at: usize, name: usize) -> Option<usize>
    requires { ClassThere s.now at }
    ensures { DeclaredPlaced s.now at name result }
{
    first_method(s, at, |c| is_named(s, c, name))
}

// The non-static one.
pub fn find_instance(s: &[u8], at: usize, name: usize) -> Option<usize>
    requires { ClassThere s.now at }
    ensures { InstancePlaced s.now at name result }
{
    first_method(s, at, |c| is_instance(s, c, name))
}

// The class with a number in the counted list at a place.
pub fn nth_class(s: &[u8], at: usize, k: usize) -> Option<usize>
    requires { Classes s.now at }
    ensures { ClassNth s.now at k result }
{
    let mut c = at + 1;
    for i in 0..wide(s[at]) {
        if i == k {
            return Some(c);
        }
        c = after_class(s, c);
    }
    None
}

// The AID of a file's package, as a part of it.
pub fn own_aid<'a>(f: &'a [u8]) -> &'a [u8]
    requires { Readable f.now }
    ensures { OwnAid f.now result.now }
{
    aid_bytes(f, 7)
}

// The counted list of its domains.
pub fn domains_at(f: &[u8]) -> usize
    requires { Readable f.now }
    ensures { DomainsAt f.now result }
{
    after_aid(f, 7)
}

// The counted list of its imports.
pub fn imports_at(f: &[u8]) -> usize
    requires { Readable f.now }
    ensures { ImportsAt f.now result }
{
    after_aids(f, domains_at(f))
}

// The counted list of its references.
pub fn references_at(f: &[u8]) -> usize
    requires { Readable f.now }
    ensures { ReferencesAt f.now result }
{
    after_aids(f, imports_at(f))
}

// The counted list of its classes.
pub fn classes_at(f: &[u8]) -> usize
    requires { Readable f.now }
    ensures { ClassesAt f.now result }
{
    after_references(f, references_at(f))
}

// The record of its class k.
pub fn class_place(f: &[u8], k: usize) -> Option<usize>
    requires { Readable f.now }
    ensures { ClassPlaced f.now k result }
{
    nth_class(f, classes_at(f), k)
}
