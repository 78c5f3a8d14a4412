// The methods of a class: policies, codes and handlers, read over one after the other.
ghost use Rattle.std.specs.Prelude.{◌≡◌, ◌≤◌, ◌||◌, ltb, eqb, length};
ghost use Rattle.rules.specs.Bytes.{u1, many, counted};
ghost use Rattle.rules.specs.Package.{edition_of, format_of, most_methods, own_index, item, policy, code_if, handlers_if, method};
ghost use Rattle.cursor.specs.Says.{Stops, skip_said};
ghost use Rattle.cursor.specs.Limits.{limits_of};
ghost use Rattle.reader.specs.Answers.{StopsFor};

use cursor::{Cursor, Limits};
use fields::is_second;

// The greatest counts.
const MOST_METHODS: usize = 64;

const MOST_ALLOWED: usize = 32;

const MOST_HANDLERS: usize = 16;

// FF alone: every domain.
const EVERY: usize = 0xFF;

// FE as an index: the domain that the package is loaded in.
const OWN: usize = 0xFE;

// Is it FE, or below the domain count?
fn is_index(index: usize, domains: usize) -> bool
    ensures { result ≡ (eqb index own_index || ltb index domains) }
{
    if index == OWN {
        return true;
    }
    index < domains
}

// So many indexes, each FE or below the domain count.
fn skip_indexes(f: &[u8], from: Cursor, count: usize, domains: usize) -> Option<Cursor>
    requires { from.at.0 ≤ length f.now }
    ensures { StopsFor domains (λ ds. many count (item ds)) f.now from.at.0 (skip_said result) }
{
    let mut c = from;
    for _ in 0..count {
        let (index, next) = c.u1(f)?;
        if !is_index(index, domains) {
            return None;
        }
        c = next;
    }
    Some(c)
}

// What a method allows: FF alone, or a count and that many indexes.
fn skip_policy(f: &[u8], from: Cursor, domains: usize) -> Option<Cursor>
    ensures { StopsFor domains policy f.now from.at.0 (skip_said result) }
{
    let (count, next) = from.u1(f)?;
    if count == EVERY {
        return Some(next);
    }
    if MOST_ALLOWED < count {
        return None;
    }
    skip_indexes(f, next, count, domains)
}

// If implemented, the code's length and the code.
fn skip_code(f: &[u8], from: Cursor, implemented: bool, limits: Limits) -> Option<Cursor>
    requires { from.at.0 ≤ length f.now }
    ensures { Stops (code_if (limits_of limits) implemented) f.now from.at.0 (skip_said result) }
{
    if !implemented {
        return Some(from);
    }
    let (size, next) = from.u2(f)?;
    if size < 1 {
        return None;
    }
    let most = limits.code;
    if most < size {
        return None;
    }
    next.skip(f, size)
}

// If implemented and of the second edition, a count and that many handlers of six bytes.
fn skip_handlers(f: &[u8], from: Cursor, implemented: bool) -> Option<Cursor>
    requires { from.at.0 ≤ length f.now }
    ensures { Stops (handlers_if (edition_of f.now) implemented) f.now from.at.0 (skip_said result) }
{
    if !implemented {
        return Some(from);
    }
    if !is_second(f) {
        return Some(from);
    }
    let (count, first) = from.u1(f)?;
    if MOST_HANDLERS < count {
        return None;
    }
    first.skip(f, 6 * count)
}

// A method: bitfield, name, allowed domains, code, handlers.
fn skip_method(f: &[u8], from: Cursor, domains: usize, limits: Limits) -> Option<Cursor>
    ensures { StopsFor domains (method (format_of (limits_of limits) f.now)) f.now from.at.0 (skip_said result) }
{
    let (bits, name) = from.u1(f)?;
    if bits % 32 != 0 {
        return None;
    }
    let (_, allowed) = name.u2(f)?;
    let code = skip_policy(f, allowed, domains)?;
    let implemented = bits / 64 % 2 == 1;
    let handlers = skip_code(f, code, implemented, limits)?;
    skip_handlers(f, handlers, implemented)
}

// A count and that many methods.
pub fn skip_methods(f: &[u8], from: Cursor, domains: usize, limits: Limits) -> Option<Cursor>
    ensures { StopsFor domains (λ ds. counted most_methods u1 (method (format_of (limits_of limits) f.now) ds)) f.now from.at.0 (skip_said result) }
{
    let (count, first) = from.u1(f)?;
    if MOST_METHODS < count {
        return None;
    }
    let mut c = first;
    for _ in 0..count {
        c = skip_method(f, c, domains, limits)?;
    }
    Some(c)
}
