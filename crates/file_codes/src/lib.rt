// The codes of a file: questions 16, 17 and 24 of each, and whether there is a call of which 18 and 19 are to be asked.
#![tactic(auto)]

pub mod subset;

ghost use Rattle.std.specs.Prelude.{◌≡◌, ◌+◌, ◌*◌, ◌<◌, ◌≤◌, length, take, drop, get_or};
ghost use Rattle.instructions.specs.Table.{TableIs};
ghost use Rattle.refusals.specs.Order.{code_told, Before};
ghost use Rattle.files.specs.Say.{MethodThere};
ghost use Rattle.file_codes.specs.Codes.{HandlersAre, MethodHere, ClassHere, FileHere, MethodNumberIs, ClassNumberIs, FileNumberIs};

use fields::{is_second, u2_at, wide};
use refusals::first_said;
use refusals::refusal::Refusal;

// What follows a handler count at a place, as a part of the file: six bytes each.
fn counted_handlers<'a>(f: &'a [u8], at: usize) -> &'a [u8]
    requires { (at < length f.now) × (at + 1 + 6 * get_or f.now at 0 ≤ length f.now) }
    ensures { result.now ≡ take (6 * get_or f.now at 0) (drop (at + 1) f.now) }
{
    let n = 6 * wide(f[at]);
    &f[at + 1..at + 1 + n]
}

// The handlers of the method at a place, as a part of the file; empty where there are none.
fn handlers_of<'a>(f: &'a [u8], at: usize) -> &'a [u8]
    requires { MethodThere f.now at }
    ensures { HandlersAre f.now at result.now }
{
    if !is_second(f) {
        return &f[at..at];
    }
    let b = wide(f[at]);
    if b / 64 % 2 != 1 {
        return &f[at..at];
    }
    let c = files::after_policy(f, at + 3);
    counted_handlers(f, c + 2 + u2_at(f, c))
}

// Of the code of the method at a place: the first no, or whether there is a call.
fn method_number(
    f: &[u8],
    table: &[u8; 256],
    starts: &mut [u8],
    targets: &mut [u8],
    at: usize,
) -> Result<bool, Refusal>
    requires method_here { MethodHere f.now starts.old targets.old at }
    requires table_is { TableIs table.now }
    ensures number { MethodNumberIs f.now at (code_told result) }
    ensures before { Before 18 result }
{
    if !files::is_implemented(f, at) {
        return Ok(false);
    }
    codes::check_code(
        table,
        files::code_of(f, at),
        handlers_of(f, at),
        starts,
        targets,
    )
}

// Of the codes of the class at a place: each question of every code before the next.
// Kept: a walk generic in the element takes two closures, one of which lends both sets, for five lines: no plainer.
fn class_number(
    f: &[u8],
    table: &[u8; 256],
    starts: &mut [u8],
    targets: &mut [u8],
    at: usize,
) -> Result<bool, Refusal>
    requires class_here { ClassHere f.now starts.old targets.old at }
    requires table_is { TableIs table.now }
    ensures number { ClassNumberIs f.now at (code_told result) }
    ensures before { Before 18 result }
{
    let start = files::methods_of(f, at);
    let mut c = start + 1;
    let mut number = Ok(false);
    for _ in 0..wide(f[start]) {
        let n = method_number(f, table, starts, targets, c);
        number = first_said(number, n);
        c = files::after_method(f, c);
    }
    number
}

// Of the codes of a file. The two sets of bits are lent, and whatever they hold before is of no account.
pub fn codes_ok(
    f: &[u8],
    table: &[u8; 256],
    starts: &mut [u8],
    targets: &mut [u8],
) -> Result<bool, Refusal>
    requires file_here { FileHere f.now starts.old targets.old }
    requires table_is { TableIs table.now }
    ensures number { FileNumberIs f.now (code_told result) }
    ensures before { Before 18 result }
{
    let start = files::classes_at(f);
    let mut c = start + 1;
    let mut number = Ok(false);
    for _ in 0..wide(f[start]) {
        let n = class_number(f, table, starts, targets, c);
        number = first_said(number, n);
        c = files::after_class(f, c);
    }
    number
}
