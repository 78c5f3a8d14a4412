// Question 15: do names differ within each class; is each static method implemented, each interface method neither?
#![tactic(auto)]

ghost use Rattle.std.specs.Prelude.{◌≤◌, ◌<◌, ◌≡◌, length};
ghost use Rattle.rules.specs.Package.{most_methods};
ghost use Rattle.files.specs.Say.{MethodThere, NameIs, ClassThere, Readable};
ghost use Rattle.names.specs.Say.{FormIs, among, Below, ClassIs, NamesIs};

use fields::u2_at;
use files::{
    after_class, after_method, classes_at, is_implemented, is_interface, is_static, methods_of,
};

// Has the method at a place the form that its class's kind asks for?
fn form_ok(s: &[u8], at: usize, interface: bool) -> bool
    requires { MethodThere s.now at }
    ensures { FormIs s.now at interface result }
{
    let implemented = is_implemented(s, at);
    if is_static(s, at) {
        if interface {
            return false;
        }
        return implemented;
    }
    if interface {
        return !implemented;
    }
    true
}

// The name of the method at a place.
fn name_at(s: &[u8], at: usize) -> u16
    requires { MethodThere s.now at }
    ensures { NameIs s.now at result }
{
    u2_at(s, at + 1) as u16
}

// Is a name one of the first n of the table?
// Kept: all are compared, since `contains` has a way out, and a loop that has none is compiled to vectors.
fn is_among(names: &[u16], n: usize, name: u16) -> bool
    requires { n ≤ length names.now }
    ensures { result ≡ among names.now n name }
{
    let mut found = false;
    for i in 0..n {
        found = found | (names[i] == name);
    }
    found
}

// The same, where all of these are below `top`: those of a list that ascends are not compared.
fn is_taken(names: &[u16], n: usize, top: usize, name: u16) -> bool
    requires { Below names.now n top }
    ensures { result ≡ among names.now n name }
{
    let x = usize::from(name);
    if top <= x {
        return false;
    }
    is_among(names, n, name)
}

// A number above `top` and the name.
fn above(top: usize, name: u16) -> usize
    ensures { (top ≤ result) × (name < result) }
{
    top.max(usize::from(name) + 1)
}

// Do the names of the methods of the class at a place differ, and has each its form? The table takes the names of those passed.
fn class_ok(s: &[u8], at: usize, names: &mut [u16]) -> bool
    requires { ClassThere s.now at × (most_methods ≤ length names.old) }
    ensures { ClassIs s.now at result }
{
    let interface = is_interface(s, at);
    let start = methods_of(s, at);
    let count = usize::from(s[start]);
    let mut c = start + 1;
    let mut top = 0;
    for n in 0..count {
        if !form_ok(s, c, interface) {
            return false;
        }
        let name = name_at(s, c);
        if is_taken(&*names, n, top, name) {
            return false;
        }
        names[n] = name;
        top = above(top, name);
        c = after_method(s, c);
    }
    true
}

// Question 15 of a file that reads.
pub fn names_ok(f: &[u8]) -> bool
    requires { Readable f.now }
    ensures { NamesIs f.now result }
{
    let mut names = [0u16; 64];
    let start = classes_at(f);
    let mut c = start + 1;
    for _ in 0..usize::from(f[start]) {
        if !class_ok(f, c, &mut names) {
            return false;
        }
        c = after_class(f, c);
    }
    true
}
