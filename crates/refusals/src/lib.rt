// Refusals: of two answers the one that a load gives first.
#![tactic(auto)]

pub mod refusal;

ghost use Rattle.std.specs.Prelude.{◌≡◌};
ghost use Rattle.refusals.specs.Order.{rank, first_of, first_said};

use refusal::Refusal;

// Of two answers the one that stands first in the list: a refusal stands before a yes, and of two refusals the one that is asked first; of
// two that are yes the greater. The second is looked at first: where it is yes, a refusal stays as it stands.
pub fn first_said<A: Ord + Drop>(a: Result<A, Refusal>, b: Result<A, Refusal>) -> Result<A, Refusal>
    ensures { result ≡ first_said A.Ord.cmp a b }
{
    match b {
        Ok(y) => match a {
            Ok(x) => Ok(x.max(y)),
            Err(e) => Err(e),
        },
        Err(f) => match a {
            Ok(_) => Err(f),
            Err(e) => Err(e.min(f)),
        },
    }
}

// Kept: numbers, as docs/DECISIONS.md names `first_no`, which takes every byte: how many questions stand before one in the list; of 0 all.
fn rank(n: u8) -> u8
    ensures { result ≡ rank n }
{
    if n == 16 {
        return 0;
    }
    if n == 17 {
        return 1;
    }
    if n == 24 {
        return 2;
    }
    if n == 18 {
        return 3;
    }
    if n == 19 {
        return 4;
    }
    5
}

// Of two answers as numbers the one that stands first in the list; 0 is no refusal.
pub fn first_no(a: u8, b: u8) -> u8
    ensures { result ≡ first_of a b }
{
    if b == 0 {
        return a;
    }
    if rank(b) < rank(a) { b } else { a }
}
