// Codes: questions 16, 17 and 24 of one code in one walk, 26 in another, and its calls in order.
#![tactic(auto)]

mod branches;
mod handlers;
pub mod subset;

ghost use Rattle.std.specs.Prelude.{◌≡◌, false, ℕ, ◌*◌, ◌/◌, ◌+◌, ◌<◌, ◌≤◌, length};
ghost use Rattle.bits.specs.Bits.{bit_at};
ghost use Rattle.rules.specs.Code.{call_at};
ghost use Rattle.places.specs.Parts.{handlers_in};
ghost use Rattle.instructions.specs.Table.{TableIs, Whole};
ghost use Rattle.refusals.specs.Order.{code_told, Before};
ghost use Rattle.codes.specs.Marks.{Walk, code_number};
ghost use Rattle.codes.specs.Calls.{SplitsFrom, calls_here, IndexFits, Follows};

use branches::mark_targets;
use fields::u2_at;
use handlers::all_fit;
use instructions::{entry_at, instruction_length, may_end};
use refusals::refusal::Refusal;

// An offset in a code, counted from that code's first byte: never a place in a file.
#[derive(Clone, Copy)]
pub struct CodeOffset(pub usize);

// How a call is made: 8B, 8C, 8D, 8E.
#[derive(Clone, Copy)]
pub enum Calling {
    Virtual,
    Special,
    Static,
    Interface,
}

// A call, with the index of its reference.
#[derive(Clone, Copy)]
pub struct CallHere {
    pub kind: Calling,
    pub index: usize,
}

// A call, with the index of its reference and the offset behind it.
#[derive(Clone, Copy)]
pub struct NextCall {
    pub kind: Calling,
    pub index: usize,
    pub next: CodeOffset,
}

// What the walk over a code finds: the offset of its last instruction, none where it does not split or is empty; whether every branch
// stays inside; whether there is a call.
#[derive(Clone, Copy)]
pub struct Walked {
    pub last: Option<usize>,
    pub inside: bool,
    pub calls: bool,
}

// Walks over a code, once: sets the bit of each instruction's offset in `starts` and of each branch target in `targets`.
fn walk(table: &[u8; 256], code: &[u8], starts: &mut [u8], targets: &mut [u8]) -> Walked
    requires table_is { TableIs table.now × (length code.now ≤ 8 * length starts.old) × (length code.now ≤ 8 * length targets.old) }
    requires by_index { ((k : ℕ) → bit_at starts.old k ≡ false) × ((k : ℕ) → bit_at targets.old k ≡ false) }
    ensures { Walk code.now result.last result.inside result.calls starts.new targets.new }
{
    let mut at = 0;
    let mut last = None;
    let mut inside = true;
    let mut calls = false;
    // Kept: a step of the walk is as long as the instruction is.
    while at < code.len() {
        let entry = entry_at(table, code[at]);
        let Some(n) = instruction_length(code, at, entry) else {
            return Walked {
                last: None,
                inside,
                calls,
            };
        };
        bits::set(starts, at);
        last = Some(at);
        calls = calls | (entry / 16 == 1);
        if entry < 32 {
            at += n;
        } else {
            inside = inside & mark_targets(code, targets, at, entry);
            at += n;
        }
    }
    Walked {
        last,
        inside,
        calls,
    }
}

// Questions 16, 17 and 24 of a code, with a bit of both sets for each of its bytes and none left over but those of the last byte.
fn check_marked(
    table: &[u8; 256],
    code: &[u8],
    handlers: &[u8],
    starts: &mut [u8],
    targets: &mut [u8],
) -> Result<bool, Refusal>
    requires { TableIs table.now × (length code.now ≤ 8 * length starts.old) × (length starts.old ≡ length targets.old) }
    ensures { (code_told result ≡ code_number code.now (handlers_in handlers.now)) × Before 18 result }
{
    bits::clear(starts);
    bits::clear(targets);
    let found = walk(table, code, starts, targets);
    let Some(last) = found.last else {
        return Err(Refusal::CodeSplit);
    };
    if !may_end(code[last]) {
        return Err(Refusal::CodeSplit);
    }
    if !found.inside {
        return Err(Refusal::BranchTarget);
    }
    if !bits::is_within(targets, starts) {
        return Err(Refusal::BranchTarget);
    }
    if !all_fit(code.len(), starts, handlers) {
        return Err(Refusal::Handler);
    }
    Ok(found.calls)
}

// Questions 16, 17 and 24 of a code and its handlers: the first no; where all are yes, whether it has a call, of which 18 and 19 are to be
// asked. The two sets are lent, and whatever they hold before is of no account: as many bits of them as the code has bytes are used.
pub fn check_code(
    table: &[u8; 256],
    code: &[u8],
    handlers: &[u8],
    starts: &mut [u8],
    targets: &mut [u8],
) -> Result<bool, Refusal>
    requires { TableIs table.now × (length code.now ≤ 8 * length starts.old) × (length code.now ≤ 8 * length targets.old) }
    ensures { (code_told result ≡ code_number code.now (handlers_in handlers.now)) × Before 18 result }
{
    let n = (code.len() + 7) / 8;
    check_marked(table, code, handlers, &mut starts[..n], &mut targets[..n])
}

// The call at an offset where an instruction is whole, if it is one.
pub fn call_at(code: &[u8], offset: CodeOffset) -> Option<CallHere>
    requires { (offset.0 < length code.now) × Whole code.now offset.0 }
    ensures { (calls_here result ≡ call_at code.now offset.0) × IndexFits result }
{
    let at = offset.0;
    match code[at] {
        0x8B => Some(CallHere {
            kind: Calling::Virtual,
            index: u2_at(code, at + 1),
        }),
        0x8C => Some(CallHere {
            kind: Calling::Special,
            index: u2_at(code, at + 1),
        }),
        0x8D => Some(CallHere {
            kind: Calling::Static,
            index: u2_at(code, at + 1),
        }),
        0x8E => Some(CallHere {
            kind: Calling::Interface,
            index: u2_at(code, at + 2),
        }),
        _ => None,
    }
}

// The first call from an offset on, of a code that splits from there; none where none is left.
pub fn next_call(table: &[u8; 256], code: &[u8], from: CodeOffset) -> Option<NextCall>
    requires { TableIs table.now × SplitsFrom code.now from.0 }
    ensures { Follows code.now from.0 result }
{
    let mut at = from.0;
    while at < code.len() {
        let n = instruction_length(code, at, entry_at(table, code[at]))?;
        if let Some(call) = call_at(code, CodeOffset(at)) {
            return Some(NextCall {
                kind: call.kind,
                index: call.index,
                next: CodeOffset(at + n),
            });
        }
        at += n;
    }
    None
}
