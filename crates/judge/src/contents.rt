// What a file holds that passed 14, its names, codes and calls: questions 15 to 17, 24, 26, 18 and 19. `codes_with`
// is `inline(never)`, and calls itself where the store has more than 65,535 bytes, which it never has: so the compiler does not make it a
// part of its caller, and its sets stand on the stack only while they are used.
ghost use Rattle.std.specs.Prelude.{◌*◌, ◌≤◌, length};
ghost use Rattle.rules.specs.Bytes.{aid};
ghost use Rattle.rules.specs.Store.{store_limits};
ghost use Rattle.refusals.specs.Refusals.{number_said};
ghost use Rattle.refusals.specs.Order.{code_told, Before};
ghost use Rattle.file_codes.specs.Codes.{FileNumberIs};
ghost use Rattle.calls.specs.Calls.{CodesSplit};
ghost use Rattle.files.specs.Say.{Readable};
ghost use Rattle.places.specs.Reads.{Ends};
ghost use Rattle.homes.specs.Homes.{aid_at};
ghost use Rattle.homes.specs.Found.{Indexed, ImportPlaces};
ghost use Rattle.judge.specs.Says.{HasRoom, ReadSome, Asked14Some, NumberBefore, loading_of, DomainTold, SubsetIs};

use super::Judging;
use file_codes::subset::file_keeps;
use homes::{Loaded, Places};
use refusals::refusal::Refusal;
use store::openings;

// 18 and 19 of a file each code of which splits: the first no. The table in which 20 has its names has the slots here, that of the own file
// with the homes of its imports.
fn calls_answer<'a>(
    s: &'a [u8],
    x: Loaded,
    file: &'a [u8],
    index: &[u16],
    places: &Places,
    names: &mut [u16],
    seen: &mut [u8],
) -> Result<(), Refusal>
    requires asked14some { Asked14Some s.now x.end (aid_at s.now x.domain) file.now × CodesSplit file.now × Ends aid s.now x.domain }
    requires indexed { Indexed s.now x.end index.now × ImportPlaces file.now s.now x.end places.now }
    requires s_len_bound { (length s.now ≤ 65535) × HasRoom s.now names.old seen.old }
    ensures { NumberBefore 18 20 s.now x.end (aid_at s.now x.domain) file.now (number_said result) }
{
    slots::enter_imports(s, names, x.end, places);
    calls::calls_ok(file, s, x, index, places, names, seen)
}

// 16, 17 and 24 of a file: the first no, or whether the file has calls. With two sets of so many bytes, in a frame of its own.
#[inline(never)]
fn codes_with<const SET: usize>(s: &[u8], file: &[u8]) -> Result<bool, Refusal>
    requires { ReadSome s.now file.now × (length s.now ≤ 65535) × ((store_limits s.now).code ≤ 8 * SET) × (SET ≤ 65535) }
    ensures number { FileNumberIs file.now (code_told result) }
    ensures before { Before 18 result }
{
    if 65535 < s.len() {
        return codes_with::<SET>(s, file);
    }
    let table = instructions::table();
    let mut starts = [0u8; SET];
    let mut targets = [0u8; SET];
    file_codes::codes_ok(file, &table, &mut starts, &mut targets)
}

// The same, with the sets that the code limit asks for.
fn codes_answer(s: &[u8], file: &[u8]) -> Result<bool, Refusal>
    requires { ReadSome s.now file.now × (length s.now ≤ 65535) }
    ensures number { FileNumberIs file.now (code_told result) }
    ensures before { Before 18 result }
{
    let limits = openings::limits_of(s);
    if 4096 < limits.code {
        return codes_with::<4096>(s, file);
    }
    codes_with::<512>(s, file)
}

// 26 of a file that reads, where it is asked.
fn subset_ok(file: &[u8], asked: bool) -> bool
    requires { Readable file.now }
    ensures { SubsetIs file.now asked result }
{
    if !asked {
        return true;
    }
    let table = instructions::table();
    file_keeps(file, &table)
}

// 15 to 17, 24, 26, 18 and 19 of a file that passed 14: the first no.
pub fn inside_answer<'a>(
    s: &'a [u8],
    x: Judging,
    file: &'a [u8],
    index: &[u16],
    places: &Places,
    names: &mut [u16],
    seen: &mut [u8],
) -> Result<(), Refusal>
    requires asked14some { Asked14Some s.now x.end (aid_at s.now x.aid) file.now × DomainTold s.now x.end file.now (loading_of x) }
    requires indexed { Indexed s.now x.end index.now × ImportPlaces file.now s.now x.end places.now }
    requires s_len_bound { (length s.now ≤ 65535) × HasRoom s.now names.old seen.old }
    ensures { NumberBefore 15 20 s.now x.end (aid_at s.now x.aid) file.now (number_said result) }
{
    if !names::names_ok(file) {
        return Err(Refusal::MethodForm);
    }
    let calls = codes_answer(s, file)?;
    if !subset_ok(file, x.subset) {
        return Err(Refusal::CodeInt);
    }
    if !calls {
        return Ok(());
    }
    let loaded = Loaded {
        end: x.end as usize,
        domain: x.aid as usize,
    };
    calls_answer(s, loaded, file, index, places, names, seen)
}
