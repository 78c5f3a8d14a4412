// Handlers: question 24 of one code, by the set of offsets where its instructions start. A handler is start, end and target, two bytes each.
ghost use Rattle.std.specs.Prelude.{◌+◌, ◌*◌, ◌≤◌, length};
ghost use Rattle.codes.specs.Marks.{BeginsIs, FitsIs, AllFitIs};

use fields::u2_at;

// Does an instruction of a code of n bytes start at a number?
fn begins(n: usize, starts: &[u8], k: usize) -> bool
    requires { n ≤ 8 * length starts.now }
    ensures { BeginsIs n starts.now k result }
{
    if k < n {
        return bits::get(starts, k);
    }
    false
}

// The handler at a place, of a code of n bytes.
fn fits(n: usize, starts: &[u8], handlers: &[u8], at: usize) -> bool
    requires { (n ≤ 8 * length starts.now) × (at + 6 ≤ length handlers.now) }
    ensures { FitsIs n starts.now handlers.now at result }
{
    let start = u2_at(handlers, at);
    let end = u2_at(handlers, at + 2);
    if end <= start {
        return false;
    }
    if n < end {
        return false;
    }
    if !begins(n, starts, start) {
        return false;
    }
    if !begins(n, starts, u2_at(handlers, at + 4)) {
        return false;
    }
    if end == n {
        return true;
    }
    begins(n, starts, end)
}

// All handlers of a code of n bytes.
pub fn all_fit(n: usize, starts: &[u8], handlers: &[u8]) -> bool
    requires { n ≤ 8 * length starts.now }
    ensures { AllFitIs n starts.now handlers.now result }
{
    for k in 0..handlers.len() / 6 {
        if !fits(n, starts, handlers, 6 * k) {
            return false;
        }
    }
    true
}
