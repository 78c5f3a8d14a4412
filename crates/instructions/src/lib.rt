// Instructions: the table of their lengths, the entries of switches, the opcodes that may come last, and the subset without int.
#![tactic(auto)]

mod lengths;
pub mod subset;

ghost use Rattle.std.specs.Prelude.{◌≡◌, ◌+◌, ◌-◌, ◌/◌, ◌%◌, ◌<◌, ◌≤◌, ltb, length};
ghost use Rattle.std.proofs.Math.Option.{some};
ghost use Rattle.rules.specs.Bytes.{pick, ◌and_then◌};
ghost use Rattle.rules.specs.Code.{u1_at, signed, numbers_from, switch_bytes, instruction_length, may_end, switch_entries};
ghost use Rattle.fields.specs.Told.{told};
ghost use Rattle.instructions.specs.Table.{Says, TableIs, switch_of, AtMost, AtLeast, Inside};

use fields::{u2_at, u4_at, wide};

// The table, formed once for all that is asked of an operation's codes, and lent from there.
pub fn table() -> [u8; 256]
    ensures { TableIs result }
{
    lengths::TABLE
}

// The entry of an opcode.
pub fn entry_at(table: &[u8; 256], opcode: u8) -> usize
    requires { TableIs table.now }
    ensures { Says opcode (result / 16) (result % 16) × (result < 256) }
{
    wide(table[opcode as usize])
}

// A signed field plus half its range: it keeps order and differences.
fn biased(half: usize, n: usize) -> usize
    requires { (n < half + half) × (half ≤ 2147483648) }
    ensures { (result ≡ pick (ltb n half) (n + half) (n - half)) × (result < half + half) }
{
    if n < half { n + half } else { n - half }
}

// How many numbers there are from low to high, two signed fields; none where low is above high.
fn numbers_from(half: usize, low: usize, high: usize) -> Option<usize>
    requires { (low < half + half) × (high < half + half) × (half ≤ 2147483648) }
    ensures { (numbers_from (signed half low) (signed half high) ≡ told result) × AtMost 4294967296 result }
{
    let l = biased(half, low);
    let h = biased(half, high);
    if l <= h { Some(h - l + 1) } else { None }
}

// How many entries the switch at an offset has; none where low is above high.
// Kept: a form is a number, since one table of 256 bytes tells form and size of every opcode.
pub fn entries_of(code: &[u8], at: usize, form: usize) -> Option<usize>
    requires { (3 < form) × (at + (switch_of form).head ≤ length code.now) }
    ensures { (switch_entries (switch_of form) code.now at ≡ told result) × AtMost 4294967296 result }
{
    if form == 4 {
        return numbers_from(0x8000, u2_at(code, at + 3), u2_at(code, at + 5));
    }
    if form == 5 {
        return numbers_from(0x8000_0000, u4_at(code, at + 3), u4_at(code, at + 7));
    }
    Some(u2_at(code, at + 3))
}

// The bytes of a switch by its fields, whether the code has them or not; none where low is above high.
fn switch_length(code: &[u8], at: usize, form: usize, head: usize) -> Option<usize>
    requires { (3 < form) × (head ≡ (switch_of form).head) × (at + head ≤ length code.now) }
    ensures { ((switch_entries (switch_of form) code.now at and_then λ n. some (switch_bytes (switch_of form) n)) ≡ told result) × AtLeast head result }
{
    let n = entries_of(code, at, form)?;
    if form < 6 {
        return Some(head + 2 * n);
    }
    if form == 6 {
        return Some(head + 4 * n);
    }
    Some(head + 6 * n)
}

// The length of the instruction at an offset, by its opcode's entry; none where none is there whole.
pub fn instruction_length(code: &[u8], at: usize, entry: usize) -> Option<usize>
    requires { Says (u1_at code.now at) (entry / 16) (entry % 16) × (at < length code.now) }
    ensures { (instruction_length code.now at ≡ told result) × Inside (length code.now) at result }
{
    let size = entry % 16;
    if size == 0 || code.len() - at < size {
        return None;
    }
    if entry < 64 {
        return Some(size);
    }
    let n = switch_length(code, at, entry / 16, size)?;
    if code.len() - at < n {
        return None;
    }
    Some(n)
}

// May the last instruction of a code have this opcode?
#[tactic(auto, unfolding(rules::specs::Code::may_end))]
pub fn may_end(opcode: u8) -> bool
    ensures { result ≡ may_end opcode }
{
    matches!(opcode, 0x70 | 0x72..=0x7A | 0x93 | 0xA8)
}
