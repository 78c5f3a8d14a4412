// The lines of the simulated card: gathering them from chunks of input, and reading one (document 01, "The simulated card").
#![tactic(auto)]

pub mod answers;

ghost use Rattle.std.specs.Prelude.{◌≡◌, ◌++◌, ◌+◌, ◌*◌, ◌≤◌, ◌<◌, IfSome, length, take, drop};
ghost use Rattle.lines.specs.Line.{before, newline, most_kept, kept, argument, line_of, with_one, with_two, letter_and, parts, space};
ghost use Rattle.lines.specs.Line.{digit as Line·digit};
ghost use Rattle.rules.specs.Bytes.{Bytes, ◌and_then◌};
ghost use Rattle.fields.specs.Told.{told};
ghost use Rattle.lines.specs.Results.{first_byte, found, said, Within};

// The most characters of a line without the newline.
const LONGEST: usize = 8000;

// One character more: a line that has these is too long.
const MOST_KEPT: usize = LONGEST + 1;

// What a line of the four forms asks for, with the places where its decoded arguments end in the buffer lent for them.
#[derive(Clone, Copy)]
pub enum Form {
    Creation(usize),
    Deletion(usize),
    Removal(usize),
    Loading(usize, usize),
}

// What is gathered of a line: how many of its characters are kept, and the place of its newline, or of the chunk's end.
#[derive(Clone, Copy)]
pub struct Gathered {
    pub held: usize,
    pub at: usize,
}

// The place of the first such byte from a place on, or the end.
fn find(s: &[u8], from: usize, b: u8) -> usize
    requires { from ≤ length s.now }
    ensures { (result ≡ from + length (before b (drop from s.now))) × (result ≤ length s.now) }
{
    from + s[from..]
        .iter()
        .position(|x| *x == b)
        .unwrap_or(s.len() - from)
}

// Gathers a line: adds to the characters held of it those of a chunk from a place on, up to the next newline or the chunk's end.
pub fn gather(line: &mut [u8], held: usize, chunk: &[u8], from: usize) -> Gathered
    requires { (most_kept ≤ length line.old) × (held ≤ most_kept) × (from ≤ length chunk.now) }
    ensures line_after { take result.held line.new ≡ kept (take held line.old ++ before newline (drop from chunk.now)) }
    ensures at_value { result.at ≡ from + length (before newline (drop from chunk.now)) }
    ensures held_le_most_kept { (result.held ≤ most_kept) × (result.at ≤ length chunk.now) }
{
    let at = find(chunk, from, b'\n');
    let n = (at - from).min(MOST_KEPT - held);
    let end = held + n;
    line[held..end].copy_from_slice(&chunk[from..from + n]);
    Gathered { held: end, at }
}

// The number of a capital hex digit.
#[tactic(auto, unfolding(crate::specs::Line::digit))]
fn digit(c: u8) -> Option<u8>
    ensures { told result ≡ Line·digit c }
{
    match c {
        b'0'..=b'9' => Some(c - b'0'),
        b'A'..=b'F' => Some(c - b'A' + 10),
        _ => None,
    }
}

// The byte of the two characters at a place, if they are two digits.
fn byte_at(digits: &[u8], at: usize) -> Option<u8>
    requires { at < length digits.now }
    ensures { told result ≡ first_byte (drop at digits.now) }
{
    let next = at + 1;
    if next == digits.len() {
        return None;
    }
    let high = digit(digits[at])?;
    let low = digit(digits[next])?;
    Some(high * 16 + low)
}

// Decodes an argument to a place of a buffer, if it is one or more bytes, and answers how many.
fn decode(digits: &[u8], out: &mut [u8], at: usize) -> Option<usize>
    requires { 2 * at + length digits.now ≤ 2 * length out.old }
    ensures out_after { found result at out.new ≡ argument digits.now }
    ensures out_unchanged { take at out.new ≡ take at out.old }
    ensures result_bound { IfSome result (λ n. 2 * n ≤ length digits.now) }
{
    if digits.len() == 0 {
        return None;
    }
    let count = (digits.len() + 1) / 2;
    for n in 0..count {
        out[at + n] = byte_at(digits, 2 * n)?;
    }
    Some(count)
}

// The form of a letter with one argument of n bytes.
fn with_one(letter: u8, n: usize) -> Option<Form>
    ensures out_value { (out : Bytes) → said result out ≡ with_one letter (take n out) }
    ensures result_bound { Within n result }
{
    match letter {
        b'C' => Some(Form::Creation(n)),
        b'D' => Some(Form::Deletion(n)),
        b'R' => Some(Form::Removal(n)),
        _ => None,
    }
}

// Reads a letter with two arguments.
fn read_two(letter: u8, first: &[u8], second: &[u8], out: &mut [u8]) -> Option<Form>
    requires { length first.now + length second.now ≤ 2 * length out.old }
    ensures out_after { said result out.new ≡ (argument first.now and_then λ x. argument second.now and_then with_two letter x) }
    ensures result_bound { Within (length out.old) result }
{
    if letter != b'L' {
        return None;
    }
    let d = decode(first, out, 0)?;
    let n = decode(second, out, d)?;
    Some(Form::Loading(d, d + n))
}

// Reads the arguments after a letter and its space.
fn read_arguments(letter: u8, rest: &[u8], out: &mut [u8]) -> Option<Form>
    requires { length rest.now ≤ 2 * length out.old }
    ensures out_after { said result out.new ≡ letter_and letter (parts space rest.now) }
    ensures result_bound { Within (length out.old) result }
{
    let at = find(rest, 0, b' ');
    if at < rest.len() {
        return read_two(letter, &rest[..at], &rest[at + 1..], out);
    }
    let n = decode(rest, out, 0)?;
    with_one(letter, n)
}

// Reads a line, without its newline: what it asks for, if it has one of the four forms. The arguments' bytes stand one behind the other at the
// start of the buffer.
pub fn read_line(line: &[u8], out: &mut [u8]) -> Option<Form>
    requires { 4000 ≤ length out.old }
    ensures out_after { said result out.new ≡ line_of line.now }
    ensures result_bound { Within (length out.old) result }
{
    if line.len() > LONGEST {
        return None;
    }
    let at = find(line, 0, b' ');
    if at != 1 {
        return None;
    }
    if line.len() == 1 {
        return None;
    }
    read_arguments(line[0], &line[2..], out)
}
