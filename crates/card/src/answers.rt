// The card's answers: a line of standard output each, written at once.
use lines::answers::{put_answer, put_bad};
use streams::Failed;

// Writes a line; where that fails a line on standard error says so.
fn write_line(rt: &HostRuntime, line: &[u8]) -> Result<(), Failed> {
    let written = streams::write_out(rt, line);
    if written.is_err() {
        streams::tell(rt, b"card: standard output cannot be written\n");
    }
    written
}

// Says on standard error that the card stops since it cannot read.
pub fn tell_input(rt: &HostRuntime) {
    streams::tell(rt, b"card: standard input cannot be read\n");
}

// Writes the number of a line with its answer and used; three figures, two spaces and a newline have at most 63 characters.
pub fn print_answer(rt: &HostRuntime, number: u64, res: u32, used: usize) -> Result<(), Failed> {
    let mut line = [0u8; 63];
    let n = put_answer(&mut line, number, res, used);
    write_line(rt, &line[..n])
}

// Writes the number of a line of other form.
pub fn print_bad(rt: &HostRuntime, number: u64) -> Result<(), Failed> {
    let mut line = [0u8; 63];
    let n = put_bad(&mut line, number);
    write_line(rt, &line[..n])
}
