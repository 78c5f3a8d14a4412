// Text put into a buffer: bytes as capital hex digits, figures as decimal digits. Each function answers the place behind what it put.
#![tactic(auto)]

ghost use Rattle.std.specs.Prelude.{[], ◌∷◌, ◌+◌, ◌*◌, ◌<◌, ◌≤◌, ◌≡◌, length};
ghost use Rattle.text.specs.Text.{hex_digit, hex_byte, hex_bytes, decimal, two_figures, three_figures};
ghost use Rattle.text.specs.Put.{Put};

// The capital hex digit of a number below 16.
fn hex_digit(n: usize) -> u8
    requires { n < 16 }
    ensures { result ≡ hex_digit n }
{
    if n < 10 {
        return 48 + n as u8;
    }
    55 + n as u8
}

// Puts a byte.
pub fn put_byte(out: &mut [u8], at: usize, b: u8) -> usize
    requires { at < length out.old }
    ensures { Put out.old at (b ∷ []) out.new result }
{
    out[at] = b;
    at + 1
}

// Puts bytes.
pub fn put_bytes(out: &mut [u8], at: usize, bytes: &[u8]) -> usize
    requires { at + length bytes.now ≤ length out.old }
    ensures { Put out.old at bytes.now out.new result }
{
    let to = at + bytes.len();
    out[at..to].copy_from_slice(bytes);
    to
}

// Puts a byte as two hex digits.
fn put_hex_byte(out: &mut [u8], at: usize, b: u8) -> usize
    requires { at + 2 ≤ length out.old }
    ensures { Put out.old at (hex_byte b) out.new result }
{
    let n = usize::from(b);
    let middle = put_byte(out, at, hex_digit(n / 16));
    put_byte(out, middle, hex_digit(n % 16))
}

// Puts bytes as hex digits.
pub fn put_hex(out: &mut [u8], at: usize, bytes: &[u8]) -> usize
    requires { at + 2 * length bytes.now ≤ length out.old }
    ensures { Put out.old at (hex_bytes bytes.now) out.new result }
{
    let mut to = at;
    for b in bytes {
        to = put_hex_byte(out, to, *b);
    }
    to
}

// Puts a figure in decimal digits.
pub fn put_decimal(out: &mut [u8], at: usize, n: usize) -> usize
    requires { at + length (decimal n) ≤ length out.old }
    ensures { Put out.old at (decimal n) out.new result }
{
    let mut digits = [0u8; 20];
    let count = io::decimal(n as u64, &mut digits);
    put_bytes(out, at, &digits[..count])
}

// Puts two figures, which end a line.
pub fn put_two(out: &mut [u8], at: usize, a: usize, b: usize) -> usize
    requires { at + length (decimal a) + length (decimal b) + 2 ≤ length out.old }
    ensures { Put out.old at (two_figures a b) out.new result }
{
    let first = put_decimal(out, at, a);
    let middle = put_byte(out, first, b' ');
    let second = put_decimal(out, middle, b);
    put_byte(out, second, b'\n')
}

// Puts three figures, which end a line.
pub fn put_three(out: &mut [u8], at: usize, a: usize, b: usize, c: usize) -> usize
    requires { at + length (decimal a) + length (decimal b) + length (decimal c) + 3 ≤ length out.old }
    ensures { Put out.old at (three_figures a b c) out.new result }
{
    let first = put_decimal(out, at, a);
    let middle = put_byte(out, first, b' ');
    put_two(out, middle, b, c)
}
