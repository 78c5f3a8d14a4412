// Branches: each target that lies in the code sets its bit. Every answer says whether all of them do; where one does not, the bits are of no
// account.
ghost use Rattle.std.specs.Prelude.{[], ◌∷◌, ◌+◌, ◌-◌, ◌*◌, ◌/◌, ◌%◌, ◌^◌, ◌<◌, ◌≤◌, pos, ◌+ℤ◌, length};
ghost use Rattle.bits.specs.Bits.{bit_at};
ghost use Rattle.rules.specs.Code.{u1_at, signed, targets_each, targets_at};
ghost use Rattle.instructions.specs.Table.{Says, switch_of, Whole};
ghost use Rattle.codes.specs.Marks.{entry_targets, LandsAt, Adds};

use fields::{u2_at, wide};
use instructions::entries_of;

// An offset of a code of n bytes.
fn mark(targets: &mut [u8], n: usize, to: usize) -> bool
    requires { n ≤ 8 * length targets.old }
    ensures { Adds n (bit_at targets.old) targets.new result (pos to ∷ []) }
{
    if to < n {
        bits::set(targets, to);
        return true;
    }
    false
}

// Where a branch at an offset by a field x goes, in a code of n bytes; n where that is before the code.
fn target_of(n: usize, at: usize, half: usize, x: usize) -> usize
    requires { (x < half + half) × (at + (half + half) < 2 ^ 64) }
    ensures { LandsAt n (pos at +ℤ signed half x) result }
{
    let sum = at + x;
    if x < half {
        return sum;
    }
    if sum < half + half {
        return n;
    }
    sum - (half + half)
}

// The target of a branch at an offset by a field x.
fn mark_branch(code: &[u8], targets: &mut [u8], at: usize, half: usize, x: usize) -> bool
    requires { (length code.now ≤ 8 * length targets.old) × (at < length code.now) × (x < half + half) × (half ≤ 32768) }
    ensures { Adds (length code.now) (bit_at targets.old) targets.new result ((pos at +ℤ signed half x) ∷ []) }
{
    let n = code.len();
    mark(targets, n, target_of(n, at, half, x))
}

// The targets of n branches, the first field at an offset, each `step` bytes behind the one before.
fn mark_each(
    code: &[u8],
    targets: &mut [u8],
    at: usize,
    first: usize,
    step: usize,
    n: usize,
) -> bool
    requires code_len_bound { (length code.now ≤ 8 * length targets.old) × (at < length code.now) }
    requires le_step { (2 ≤ step) × (step ≤ 6) × (first + step * n ≤ length code.now + (step - 2)) }
    ensures { Adds (length code.now) (bit_at targets.old) targets.new result (targets_each n code.now at first step) }
{
    let mut field = first;
    for _ in 0..n {
        if !mark_branch(code, targets, at, 0x8000, u2_at(code, field)) {
            return false;
        }
        field += step;
    }
    true
}

// The targets of the switch at an offset, its default aside.
fn mark_switch(code: &[u8], targets: &mut [u8], at: usize, form: usize, head: usize) -> bool
    requires code_len_bound { (length code.now ≤ 8 * length targets.old) × (at < length code.now) }
    requires lt_form { (3 < form) × Says (u1_at code.now at) form head × Whole code.now at }
    ensures { Adds (length code.now) (bit_at targets.old) targets.new result (entry_targets (switch_of form) code.now at) }
{
    let Some(n) = entries_of(code, at, form) else {
        return true;
    };
    if form < 6 {
        return mark_each(code, targets, at, at + head, 2, n);
    }
    if form == 6 {
        return mark_each(code, targets, at, at + head + 2, 4, n);
    }
    mark_each(code, targets, at, at + head + 4, 6, n)
}

// The targets of the instruction at an offset, which branches, by its opcode's entry.
pub fn mark_targets(code: &[u8], targets: &mut [u8], at: usize, entry: usize) -> bool
    requires code_len_bound { (length code.now ≤ 8 * length targets.old) × (at < length code.now) × (32 ≤ entry) }
    requires says { Says (u1_at code.now at) (entry / 16) (entry % 16) × Whole code.now at }
    ensures { Adds (length code.now) (bit_at targets.old) targets.new result (targets_at code.now at) }
{
    if entry < 48 {
        return mark_branch(code, targets, at, 0x80, wide(code[at + 1]));
    }
    if mark_branch(code, targets, at, 0x8000, u2_at(code, at + 1)) {
        if entry < 64 {
            return true;
        }
        return mark_switch(code, targets, at, entry / 16, entry % 16);
    }
    false
}
