// Standard input and output of a program: a read or a write that was interrupted or would have waited is made again.
#![tactic(auto)]

ghost use Rattle.std.specs.Prelude.{◌≤◌, IfErr, IfSome, MatchResult, length};
ghost use Rattle.io.specs.Counts.{IsPrefixLen};

use std::io::{Error, ErrorKind, Print, Read};

// A read or a write failed, and is not made again: how many bytes it had moved.
#[derive(Clone, Copy)]
pub struct Failed {
    pub moved: usize,
}

// Was the call that failed just now interrupted, or would it have waited? Then it moved nothing, and is made again.
fn is_repeated(error: Error) -> bool {
    match error.kind() {
        ErrorKind::Interrupted | ErrorKind::WouldBlock => true,
        _ => false,
    }
}

// Says words on standard error.
pub fn tell(rt: &HostRuntime, words: &[u8]) {
    let _ = rt.stderr().write_all(words);
}

// Writes bytes from a place on, or some of them, and answers the place up to which they are written.
fn write_some(rt: &HostRuntime, bytes: &[u8], from: usize) -> Result<usize, Failed>
    requires { from ≤ length bytes.now }
    ensures { MatchResult result (λ to. to ≤ length bytes.now) (λ e. e.moved ≤ length bytes.now) }
{
    match rt.stdout().write_some(&bytes[from..]) {
        Ok(0) => Err(Failed { moved: from }),
        Ok(put) => Ok(from + put),
        Err(error) => if is_repeated(error) {
            Ok(from)
        } else {
            Err(Failed { moved: from })
        },
    }
}

// Writes all bytes. None needs as many turns.
pub fn write_out(rt: &HostRuntime, bytes: &[u8]) -> Result<(), Failed>
    ensures { IfErr result (λ e. e.moved ≤ length bytes.now) }
{
    let mut from = 0;
    for _ in 0..u64::MAX {
        if from == bytes.len() {
            return Ok(());
        }
        from = write_some(rt, bytes, from)?;
    }
    Err(Failed { moved: from })
}

// Reads some bytes, and answers how many; none where the read is to be made again. `None` where the input ended.
pub fn read_some(rt: &HostRuntime, chunk: &mut [u8]) -> Result<Option<usize>, Failed>
    ensures { MatchResult result (λ read. IfSome read (λ n. IsPrefixLen n chunk.new)) (λ e. IsPrefixLen e.moved chunk.new) }
{
    match rt.stdin().read(chunk) {
        Ok(0) => Ok(None),
        Ok(count) => Ok(Some(count)),
        Err(error) => if is_repeated(error) {
            Ok(Some(0))
        } else {
            Err(Failed { moved: 0 })
        },
    }
}

// Reads bytes until the buffer is full or the input ends, and answers how many. No input needs as many turns.
pub fn read_whole(rt: &HostRuntime, buffer: &mut [u8]) -> Result<usize, Failed>
    ensures { MatchResult result (λ n. IsPrefixLen n buffer.new) (λ e. IsPrefixLen e.moved buffer.new) }
{
    let mut held = 0;
    for _ in 0..u64::MAX {
        if held == buffer.len() {
            return Ok(held);
        }
        match read_some(rt, &mut buffer[held..]) {
            Ok(Some(count)) => held += count,
            Ok(None) => return Ok(held),
            Err(_) => return Err(Failed { moved: held }),
        }
    }
    Err(Failed { moved: held })
}
