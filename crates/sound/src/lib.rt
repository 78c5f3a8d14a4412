// Questions 1 and 2 of a store, and a load judged over it. The tables are as large as the store's length and its depth limit ask: each class
// of lengths and limits has an instance of a function with the sizes of its tables. Such a function is `inline(never)`, and calls itself where
// the store has more than 65,535 bytes, which it never has; so the compiler does not make it a part of its caller, and only the tables of the
// store's own class stand on the stack.
#![tactic(auto)]

ghost use Rattle.std.specs.Prelude.{◌≡◌, ◌*◌, ◌≤◌, length};
ghost use Rattle.rules.specs.Store.{first_entry};
ghost use Rattle.store.specs.Entries.{StandFrom};
ghost use Rattle.domains.specs.Domains.{AllSay};
ghost use Rattle.judge.specs.Says.{used_at, DomainsYes, PackagesSay};
ghost use Rattle.sound.specs.Says.{Room, JudgedSays, LaidSays, OpenedSays, LoadingSays};

use refusals::refusal::Refusal;
use store::openings;

// A load that is accepted: where the entries of the store end, and the depth of the deepest own class.
#[derive(Clone, Copy)]
pub struct Loading {
    pub used: usize,
    pub depth: usize,
}

// Questions 3 to 5 of the entries of a store, with a table of so many numbers.
#[inline(never)]
fn domains_with<const TABLE: usize>(s: &[u8], used: usize) -> bool
    requires { StandFrom s.now (first_entry s.now) used × (length s.now ≤ 65535) × (length s.now ≤ 8 * TABLE) × (TABLE ≤ 65535) }
    ensures { AllSay s.now used result }
{
    if 65535 < s.len() {
        return domains_with::<TABLE>(s, used);
    }
    let mut table = [0u16; TABLE];
    domains::domains_ok(s, used, &mut table)
}

// Questions 3 to 5 of the entries of a store. Where there is no entry no table is made.
fn domains_sound(s: &[u8], used: usize) -> bool
    requires { StandFrom s.now (first_entry s.now) used × (length s.now ≤ 65535) }
    ensures { AllSay s.now used result }
{
    if used <= openings::first_entry(s) {
        return true;
    }
    if s.len() <= 8192 {
        return domains_with::<1024>(s, used);
    }
    domains_with::<8192>(s, used)
}

// The other questions of the entries of a store, with tables of so many numbers.
#[inline(never)]
fn packages_with<const INDEX: usize, const DEPTHS: usize, const NAMES: usize, const SEEN: usize>(
    s: &[u8],
    used: usize,
) -> bool
    requires stand_from { StandFrom s.now (first_entry s.now) used × DomainsYes s.now used }
    requires room { Room s.now INDEX DEPTHS NAMES SEEN × (length s.now ≤ 65535) }
    requires small { (INDEX ≤ 65535) × (DEPTHS ≤ 65535) × (NAMES ≤ 65535) × (SEEN ≤ 65535) }
    ensures { PackagesSay s.now used result }
{
    if 65535 < s.len() {
        return packages_with::<INDEX, DEPTHS, NAMES, SEEN>(s, used);
    }
    let mut index = [0u16; INDEX];
    let mut depths = [0u8; DEPTHS];
    let mut names = [0u16; NAMES];
    let mut seen = [0u8; SEEN];
    judge::packages_sound(s, used, &mut index, &mut depths, &mut names, &mut seen)
}

// The other questions of the entries of a store. Where there is no entry no table is made.
fn packages_sound(s: &[u8], used: usize) -> bool
    requires stand_from { StandFrom s.now (first_entry s.now) used × DomainsYes s.now used }
    requires s_len_bound { length s.now ≤ 65535 }
    ensures { PackagesSay s.now used result }
{
    if used <= openings::first_entry(s) {
        return true;
    }
    let limits = openings::limits_of(s);
    if limits.depth <= 8 {
        if s.len() <= 8192 {
            return packages_with::<304, 616, 640, 284>(s, used);
        }
        return packages_with::<2428, 4917, 640, 2239>(s, used);
    }
    if s.len() <= 8192 {
        return packages_with::<304, 821, 1152, 284>(s, used);
    }
    packages_with::<2428, 6556, 1152, 2239>(s, used)
}

// The same with a load behind them; `StoreUnsound` where an entry of the store is not accepted.
#[inline(never)]
fn load_with<'a, const INDEX: usize, const DEPTHS: usize, const NAMES: usize, const SEEN: usize>(
    s: &'a [u8],
    used: usize,
    domain: &[u8],
    file: &'a [u8],
) -> Result<usize, Refusal>
    requires stand_from { StandFrom s.now (first_entry s.now) used × DomainsYes s.now used × (used_at s.now ≡ used) }
    requires room { Room s.now INDEX DEPTHS NAMES SEEN × (length s.now ≤ 65535) }
    requires small { (INDEX ≤ 65535) × (DEPTHS ≤ 65535) × (NAMES ≤ 65535) × (SEEN ≤ 65535) }
    ensures { JudgedSays s.now used domain.now file.now result }
{
    if 65535 < s.len() {
        return load_with::<INDEX, DEPTHS, NAMES, SEEN>(s, used, domain, file);
    }
    let mut index = [0u16; INDEX];
    let mut depths = [0u8; DEPTHS];
    let mut names = [0u16; NAMES];
    let mut seen = [0u8; SEEN];
    if !judge::packages_sound(s, used, &mut index, &mut depths, &mut names, &mut seen) {
        return Err(Refusal::StoreUnsound);
    }
    judge::load_answer(s, domain, file, &index, &depths, &mut names, &mut seen)
}

// The same, with the tables of the store's length and depth limit.
fn load_judged<'a>(
    s: &'a [u8],
    used: usize,
    domain: &[u8],
    file: &'a [u8],
) -> Result<usize, Refusal>
    requires stand_from { StandFrom s.now (first_entry s.now) used × DomainsYes s.now used × (used_at s.now ≡ used) }
    requires s_len_bound { length s.now ≤ 65535 }
    ensures { JudgedSays s.now used domain.now file.now result }
{
    let limits = openings::limits_of(s);
    if limits.depth <= 8 {
        if s.len() <= 8192 {
            return load_with::<304, 616, 640, 284>(s, used, domain, file);
        }
        return load_with::<2428, 4917, 640, 2239>(s, used, domain, file);
    }
    if s.len() <= 8192 {
        return load_with::<304, 821, 1152, 284>(s, used, domain, file);
    }
    load_with::<2428, 6556, 1152, 2239>(s, used, domain, file)
}

// Questions 1 and 2 up to the domains: the first no, or where the entries end.
fn laid_out(s: &[u8]) -> Result<usize, Refusal>
    ensures { LaidSays s.now result }
{
    if !store::size_ok(s) {
        return Err(Refusal::StoreSize);
    }
    match store::laid_out(s) {
        None => Err(Refusal::StoreUnsound),
        Some(used) => {
            if domains_sound(s, used) {
                return Ok(used);
            }
            Err(Refusal::StoreUnsound)
        }
    }
}

// Questions 1 and 2: the first no, or where the entries of a sound store end.
pub fn open_store(s: &[u8]) -> Result<usize, Refusal>
    ensures { OpenedSays s.now result }
{
    let used = laid_out(s)?;
    if packages_sound(s, used) {
        return Ok(used);
    }
    Err(Refusal::StoreUnsound)
}

// A load: the first refusal of 1 to 3, 5, 10 to 17, 24, 26, 18 to 21, or what is accepted.
pub fn judge_load<'a>(s: &'a [u8], domain: &[u8], file: &'a [u8]) -> Result<Loading, Refusal>
    ensures { LoadingSays s.now domain.now file.now result }
{
    let used = laid_out(s)?;
    let depth = load_judged(s, used, domain, file)?;
    Ok(Loading { used, depth })
}
