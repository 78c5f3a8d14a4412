// The walk over the calls of the file being judged: questions 18 and 19 of those that are asked with a group of references.
ghost use Rattle.std.specs.Prelude.{◌≤◌, length};
ghost use Rattle.instructions.specs.Table.{TableIs};
ghost use Rattle.homes.specs.Homes.{aid_at};
ghost use Rattle.references.specs.Setting.{Judged};
ghost use Rattle.references.specs.Kept.{SameTold, KeptTrue};
ghost use Rattle.refusals.specs.Order.{call_told, Before};
ghost use Rattle.calls.specs.Maps.{AskerTrue, MapTrue};
ghost use Rattle.calls.specs.Calls.{with_table, OwnMethod, OwnClass, CodesSplit, CallNumberIs, MethodCallsAre, ClassCallsAre, FileCallsAre};

use super::allowed::meant_answer;
use super::{Asker, CallOf, asker_at};
use codes::CodeOffset;
use fields::wide;
use references::{Told, groups};
use refusals::first_said;
use refusals::refusal::Refusal;

// Questions 18 and 19 of a call in the method at a place, if it is asked with the group: the first no; 18 too where what it names is open,
// which is wanted from then on.
fn call_answer<'a>(
    f: &'a [u8],
    s: &'a [u8],
    kept: &mut [u16],
    map: &mut [u8],
    a: Asker,
    c: CallOf,
) -> Result<(), Refusal>
    requires own_method { OwnMethod f.now s.now a.group.end a.at × AskerTrue f.now s.now a }
    requires kept_true { KeptTrue f.now s.now a.group kept.old }
    requires map_true { MapTrue f.now s.now a.group.end (aid_at s.now a.domain) map.old }
    ensures call_number_is { CallNumberIs f.now s.now a.group.end (aid_at s.now a.domain)
        (with_table a.group kept.old) a.at c.kind c.reference (call_told result) }
    ensures before { Before 0 result }
    ensures map_true_2 { MapTrue f.now s.now a.group.end (aid_at s.now a.domain) map.new }
    ensures same_told { SameTold kept.old kept.new }
{
    let g = a.group;
    if !groups::in_group(g, c.reference) {
        return Ok(());
    }
    match groups::told_in(kept, g, c.reference) {
        Told::Method(x) => meant_answer(f, s, map, a, x, c),
        Told::Nothing => Err(Refusal::CallReference),
        Told::Open(_, _) => {
            groups::want_in(kept, g, c.reference);
            Err(Refusal::CallReference)
        }
    }
}

// Of the calls of the method at a place.
fn method_calls<'a>(
    f: &'a [u8],
    s: &'a [u8],
    table: &[u8; 256],
    kept: &mut [u16],
    map: &mut [u8],
    a: Asker,
) -> Result<(), Refusal>
    requires own_method { OwnMethod f.now s.now a.group.end a.at × AskerTrue f.now s.now a × TableIs table.now }
    requires kept_true { KeptTrue f.now s.now a.group kept.old }
    requires map_true { MapTrue f.now s.now a.group.end (aid_at s.now a.domain) map.old }
    ensures method_calls_are { MethodCallsAre f.now s.now a.group.end (aid_at s.now a.domain)
        (with_table a.group kept.old) a.at (call_told result) }
    ensures before { Before 0 result }
    ensures map_true_2 { MapTrue f.now s.now a.group.end (aid_at s.now a.domain) map.new }
    ensures same_told { SameTold kept.old kept.new }
{
    let code = files::code_of(f, a.at);
    let mut from = CodeOffset(0);
    let mut number = Ok(());
    while let Some(call) = codes::next_call(table, code, from) {
        let c = CallOf {
            kind: call.kind,
            reference: call.index,
        };
        number = first_said(number, call_answer(f, s, kept, map, a, c));
        from = call.next;
    }
    number
}

// Of the calls of the class at a place.
// Kept: a walk generic in the element takes two closures, one of which lends the table and the map, for five lines: no plainer.
fn class_calls<'a>(
    f: &'a [u8],
    s: &'a [u8],
    table: &[u8; 256],
    kept: &mut [u16],
    map: &mut [u8],
    a: Asker,
) -> Result<(), Refusal>
    requires own_class { OwnClass f.now s.now a.group.end a.at × AskerTrue f.now s.now a × TableIs table.now }
    requires kept_true { KeptTrue f.now s.now a.group kept.old }
    requires map_true { MapTrue f.now s.now a.group.end (aid_at s.now a.domain) map.old }
    ensures class_calls_are { ClassCallsAre f.now s.now a.group.end (aid_at s.now a.domain)
        (with_table a.group kept.old) a.at (call_told result) }
    ensures before { Before 0 result }
    ensures map_true_2 { MapTrue f.now s.now a.group.end (aid_at s.now a.domain) map.new }
    ensures same_told { SameTold kept.old kept.new }
{
    let start = files::methods_of(f, a.at);
    let mut c = start + 1;
    let mut number = Ok(());
    for _ in 0..wide(f[start]) {
        number = first_said(number, method_calls(f, s, table, kept, map, asker_at(a, c)));
        c = files::after_method(f, c);
    }
    number
}

// Of the calls of the file.
fn file_calls<'a>(
    f: &'a [u8],
    s: &'a [u8],
    table: &[u8; 256],
    kept: &mut [u16],
    map: &mut [u8],
    a: Asker,
) -> Result<(), Refusal>
    requires judged { Judged f.now s.now a.group.end × CodesSplit f.now × AskerTrue f.now s.now a × TableIs table.now }
    requires kept_true { KeptTrue f.now s.now a.group kept.old }
    requires map_true { MapTrue f.now s.now a.group.end (aid_at s.now a.domain) map.old }
    ensures file_calls_are { FileCallsAre f.now s.now a.group.end (aid_at s.now a.domain)
        (with_table a.group kept.old) (call_told result) }
    ensures before { Before 0 result }
    ensures same_told { SameTold kept.old kept.new }
{
    let start = files::classes_at(f);
    let mut c = start + 1;
    let mut number = Ok(());
    for _ in 0..wide(f[start]) {
        number = first_said(number, class_calls(f, s, table, kept, map, asker_at(a, c)));
        c = files::after_class(f, c);
    }
    number
}

// The same in a frame of its own, in which the numbers of domains stand: it is `inline(never)`, and calls itself where the store has more than
// 65,535 bytes, which it never has; so the compiler does not make it a part of its caller.
#[inline(never)]
pub fn group_calls<'a>(f: &'a [u8], s: &'a [u8], kept: &mut [u16], a: Asker) -> Result<(), Refusal>
    requires judged { Judged f.now s.now a.group.end × CodesSplit f.now × AskerTrue f.now s.now a × (length s.now ≤ 65535) }
    requires kept_true { KeptTrue f.now s.now a.group kept.old }
    ensures file_calls_are { FileCallsAre f.now s.now a.group.end (aid_at s.now a.domain)
        (with_table a.group kept.old) (call_told result) }
    ensures before { Before 0 result }
    ensures same_told { SameTold kept.old kept.new }
{
    if 65535 < s.len() {
        return group_calls(f, s, kept, a);
    }
    let table = instructions::table();
    let mut map = [255u8; 528];
    file_calls(f, s, &table, kept, &mut map, a)
}
