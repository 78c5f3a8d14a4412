// What the simulated card answers to a line, as characters put into a buffer.
ghost use Rattle.std.specs.Prelude.{◌%◌, ◌≤◌, length};
ghost use Rattle.io.specs.Counts.{IsPrefixLen};
ghost use Rattle.text.specs.Put.{Put};
ghost use Rattle.lines.specs.Card.{answered, bad, print_text};

use text::{put_bytes, put_decimal, put_three};

// Puts the number of a line with its answer and used.
pub fn put_answer(line: &mut [u8], number: u64, res: u32, used: usize) -> usize
    requires { 63 ≤ length line.old }
    ensures put { Put line.old 0 (print_text (answered number (res % 256) used)) line.new result }
    ensures prefix_len { IsPrefixLen result line.new }
{
    put_three(line, 0, number as usize, (res % 256) as usize, used)
}

// Puts the number of a line of other form.
pub fn put_bad(line: &mut [u8], number: u64) -> usize
    requires { 63 ≤ length line.old }
    ensures put { Put line.old 0 (print_text (bad number)) line.new result }
    ensures prefix_len { IsPrefixLen result line.new }
{
    let a = put_decimal(line, 0, number as usize);
    put_bytes(line, a, b" bad\n")
}
