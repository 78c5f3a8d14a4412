// The simulated card: a store of 8,192 bytes, fresh at the start, and an operation for each line of standard input (document 01,
// "The simulated card"). What a program reads and writes is tested; that every call is safe, that it ends, and the characters of an answer
// are proved.
#![tactic(auto)]

mod answers;

ghost use Rattle.std.specs.Prelude.{◌<◌, ◌≤◌, IfOk, length};
ghost use Rattle.lines.specs.Line.{most_kept};
ghost use Rattle.lines.specs.Results.{middle, end};

use lines::Form;
use streams::Failed;

// Where a line is read: how many of its characters are held, and its number.
#[derive(Clone, Copy)]
struct Place {
    held: usize,
    number: u64,
}

// Does what a line of the four forms asks for; its arguments stand in the buffer.
fn operate(store: &mut [u8], form: Form, arguments: &[u8]) -> u32
    requires { (middle form ≤ end form) × (end form ≤ length arguments.now) }
{
    match form {
        Form::Creation(n) => loader::loader_create(store, &arguments[..n]),
        Form::Deletion(n) => loader::loader_delete(store, &arguments[..n]),
        Form::Removal(n) => loader::loader_remove(store, &arguments[..n]),
        Form::Loading(d, n) => loader::loader_load(store, &arguments[..d], &arguments[d..n]),
    }
}

// Answers a line.
fn answer(rt: &HostRuntime, store: &mut [u8], line: &[u8], number: u64) -> Result<(), Failed>
    requires { 6 < length store.old }
{
    let mut arguments = [0u8; 4000];
    let Some(form) = lines::read_line(line, &mut arguments) else {
        return answers::print_bad(rt, number);
    };
    let result = operate(store, form, &arguments);
    answers::print_answer(rt, number, result, fields::u2_at(store, 5))
}

// Answers the lines that end in a chunk, and holds the characters after the last newline. The number of a line would start again
// after 2^64 - 1 lines, which no input has.
fn take_chunk(
    rt: &HostRuntime,
    store: &mut [u8],
    line: &mut [u8],
    chunk: &[u8],
    place: Place,
) -> Result<Place, Failed>
    requires { (6 < length store.old) × (most_kept ≤ length line.old) × (place.held ≤ most_kept) }
    ensures { IfOk result (λ p. p.held ≤ most_kept) }
{
    let mut held = place.held;
    let mut number = place.number;
    let mut from = 0;
    // Kept: a turn goes on to the next newline, wherever it stands, and a loop over the parts of the chunk could not tell the last, which has none.
    while from < chunk.len() {
        let gathered = lines::gather(line, held, chunk, from);
        let at = gathered.at;
        held = gathered.held;
        if at < chunk.len() {
            answer(rt, store, &line[..held], number)?;
            held = 0;
            number = std::num::wrapping_add_u64(number, 1);
            from = at + 1;
        } else {
            from = at;
        }
    }
    Ok(Place { held, number })
}

// Answers the lines of standard input that end in a newline, and holds the characters after the last one. No input needs as many turns.
fn take_input(
    rt: &HostRuntime,
    store: &mut [u8],
    line: &mut [u8],
    chunk: &mut [u8],
) -> Result<Place, Failed>
    requires { (6 < length store.old) × (most_kept ≤ length line.old) }
    ensures { IfOk result (λ p. p.held ≤ most_kept) }
{
    let mut place = Place { held: 0, number: 1 };
    for _ in 0..u64::MAX {
        match streams::read_some(rt, chunk) {
            Ok(Some(count)) => place = take_chunk(rt, store, line, &chunk[..count], place)?,
            Ok(None) => return Ok(place),
            Err(error) => {
                answers::tell_input(rt);
                return Err(error);
            }
        }
    }
    Ok(place)
}

// Answers every line of standard input; the last may lack its newline.
fn run(rt: &HostRuntime, store: &mut [u8], line: &mut [u8], chunk: &mut [u8]) -> Result<(), Failed>
    requires { (6 < length store.old) × (most_kept ≤ length line.old) }
{
    let place = take_input(rt, store, line, chunk)?;
    let held = place.held;
    if held > 0 {
        answer(rt, store, &line[..held], place.number)?;
    }
    Ok(())
}

fn main(rt: HostRuntime) {
    let mut store = [0u8; 8192];
    let mut line = [0u8; 8001];
    let mut chunk = [0u8; 4096];
    loader::loader_fresh(&mut store);
    let _ = run(&rt, &mut store, &mut line, &mut chunk);
}
