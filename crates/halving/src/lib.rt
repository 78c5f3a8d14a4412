// Where a test ceases to hold among numbers, found by halving.
#![tactic(auto)]

ghost use Rattle.std.specs.Prelude.{ℕ, ◌≤◌, ◌<◌};
ghost use Rattle.halving.specs.Partition.{PartedAt};

// A number from a up to e that a test does not hold of, and that it holds right before, found by halving. It is as `partition_point` of a
// slice, which asks that the test may be called of any element: this one is called of numbers from a up to e alone.
pub fn partition_point<F: Fn(usize) -> bool>(a: usize, e: usize, holds: F) -> usize
    requires a_le_e { a ≤ e }
    requires callable { (k : ℕ) → a ≤ k → k < e → F.pre holds k }
    ensures { PartedAt (F.post holds) a e result }
{
    let mut lo = a;
    let mut hi = e;
    while lo < hi {
        let mid = lo + (hi - lo) / 2;
        if holds(mid) {
            lo = mid + 1;
        } else {
            hi = mid;
        }
    }
    lo
}
