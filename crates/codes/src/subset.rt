// Question 26 of a code.
ghost use Rattle.std.specs.Prelude.{◌≡◌};
ghost use Rattle.rules.specs.Subset.{code_without_int};
ghost use Rattle.instructions.specs.Table.{TableIs};

use instructions::subset::is_barred;
use instructions::{entry_at, instruction_length};

// Does a code split, and is none of its instructions barred, whether it is reached or not?
pub fn without_int(table: &[u8; 256], code: &[u8]) -> bool
    requires { TableIs table.now }
    ensures { result ≡ code_without_int code.now }
{
    let mut at = 0;
    while at < code.len() {
        let Some(n) = instruction_length(code, at, entry_at(table, code[at])) else {
            return false;
        };
        if is_barred(code, at) {
            return false;
        }
        at += n;
    }
    true
}
