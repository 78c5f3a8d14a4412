// The operations that the card's operating system calls. Each result is number + 256 × figure. The crate loader_c gives them to C.
#![tactic(auto)]

ghost use Rattle.std.specs.Prelude.{◌≡◌, ◌+◌, ◌*◌, Ok};
ghost use Rattle.rules.specs.Store.{version1, version2, full, without_int};
ghost use Rattle.rules.specs.Operations.{Operation, create, delete, load, remove, number, after, fresh_number, fresh_bytes};
ghost use Rattle.rules.specs.Bytes.{pick};
ghost use Rattle.refusals.specs.Refusals.{number_said};
ghost use Rattle.store.specs.Sound.{SoundAt};
ghost use Rattle.writing.specs.Changes.{limits_given, kind_said};
ghost use Rattle.judge.specs.Says.{LoadSays};
ghost use Rattle.services.specs.Answers.{yes_said};
ghost use Rattle.loader.specs.Promises.{LoadPromise, QueryPromise, Cuts};

use refusals::refusal::Refusal;
use store::EntryPlace;
use writing::DomainKind;

// The number of an answer: that of its refusal, 0 where there is none.
fn number_told(answer: Result<(), Refusal>) -> u32
    ensures { result ≡ number_said answer }
{
    match answer {
        Ok(()) => 0,
        Err(e) => e.number(),
    }
}

// The same of a query, with its figure: 1 for yes and 0 for no.
fn query_told(answer: Result<bool, Refusal>) -> u32
    ensures { result ≡ number_said answer + 256 * pick (yes_said answer) 1 0 }
{
    match answer {
        Ok(true) => 256,
        Ok(false) => 0,
        Err(e) => e.number(),
    }
}

// A creation of a domain of a kind.
fn create_on(store: &mut [u8], kind: DomainKind, domain: &[u8]) -> Result<(), Refusal>
    ensures value { number_said result ≡ number store.old (create (kind_said kind) domain.now) }
    ensures store_after { store.new ≡ after store.old (create (kind_said kind) domain.now) }
{
    let used = sound::open_store(store)?;
    services::create_answer(store, used, domain)?;
    writing::append_domain(store, used, kind, domain);
    Ok(())
}

// Cuts the entry at the place answered out of a sound store, or hands on the refusal.
fn cut(store: &mut [u8], used: usize, answer: Result<EntryPlace, Refusal>) -> Result<(), Refusal>
    requires { SoundAt store.old used × ((o : Operation) × Cuts store.old used o answer) }
    ensures { (o : Operation) → Cuts store.old used o answer → (number_said result ≡ number store.old o) × (store.new ≡ after store.old o) }
{
    let place = answer?;
    writing::cut_entry(store, used, place.at, place.next);
    Ok(())
}

// A load in a sound store that accepts it, with the depth of its deepest class.
fn load_on(store: &mut [u8], used: usize, domain: &[u8], file: &[u8], depth: usize) -> u32
    requires sound_at { SoundAt store.old used }
    requires load_says { LoadSays store.old used domain.now file.now (Ok depth) }
    ensures load_promise { LoadPromise store.old domain.now file.now result }
    ensures store_after { store.new ≡ after store.old (load domain.now file.now) }
{
    writing::append_package(store, used, domain, file);
    256 * depth as u32
}

// An empty store made of a buffer of 64 to 65,535 bytes.
fn fresh_on(store: &mut [u8]) -> Result<(), Refusal>
    ensures value { number_said result ≡ fresh_number store.old version1 }
    ensures store_after { store.new ≡ fresh_bytes store.old version1 }
{
    if !store::size_ok(store) {
        return Err(Refusal::StoreSize);
    }
    writing::write_fresh(store);
    Ok(())
}

// One with these limits, where each lies in its range.
fn fresh_limits_on(store: &mut [u8], depth: u8, parents: u8, code: u16) -> Result<(), Refusal>
    ensures value { number_said result ≡ fresh_number store.old (version2 (limits_given depth parents code)) }
    ensures store_after { store.new ≡ fresh_bytes store.old (version2 (limits_given depth parents code)) }
{
    if !store::size_ok(store) {
        return Err(Refusal::StoreSize);
    }
    if !writing::write_fresh_limits(store, depth, parents, code) {
        return Err(Refusal::Limits);
    }
    Ok(())
}

// Makes an empty store of a buffer of 64 to 65,535 bytes, whatever it held.
pub fn loader_fresh(store: &mut [u8]) -> u32
    ensures value { result ≡ fresh_number store.old version1 }
    ensures store_after { store.new ≡ fresh_bytes store.old version1 }
{
    number_told(fresh_on(store))
}

// The second fresh call: makes an empty store with these limits of such a buffer, where each limit lies in its range.
pub fn loader_fresh_limits(store: &mut [u8], depth: u8, parents: u8, code: u16) -> u32
    ensures value { result ≡ fresh_number store.old (version2 (limits_given depth parents code)) }
    ensures store_after { store.new ≡ fresh_bytes store.old (version2 (limits_given depth parents code)) }
{
    number_told(fresh_limits_on(store, depth, parents, code))
}

// Creates a domain of kind 1.
pub fn loader_create(store: &mut [u8], domain: &[u8]) -> u32
    ensures value { result ≡ number store.old (create full domain.now) }
    ensures store_after { store.new ≡ after store.old (create full domain.now) }
{
    number_told(create_on(store, DomainKind::Full, domain))
}

// The second creation: a domain of kind 3, whose packages keep to the subset without int.
pub fn loader_create_without_int(store: &mut [u8], domain: &[u8]) -> u32
    ensures value { result ≡ number store.old (create without_int domain.now) }
    ensures store_after { store.new ≡ after store.old (create without_int domain.now) }
{
    number_told(create_on(store, DomainKind::WithoutInt, domain))
}

// Deletes a domain.
pub fn loader_delete(store: &mut [u8], domain: &[u8]) -> u32
    ensures value { result ≡ number store.old (delete domain.now) }
    ensures store_after { store.new ≡ after store.old (delete domain.now) }
{
    match sound::open_store(store) {
        Err(e) => e.number(),
        Ok(used) => {
            let answer = services::delete_answer(store, used, domain);
            number_told(cut(store, used, answer))
        }
    }
}

// Loads a package file into a domain; the figure is the depth of its deepest class, 0 where it has none.
pub fn loader_load(store: &mut [u8], domain: &[u8], file: &[u8]) -> u32
    ensures load_promise { LoadPromise store.old domain.now file.now result }
    ensures store_after { store.new ≡ after store.old (load domain.now file.now) }
{
    match sound::judge_load(store, domain, file) {
        Err(refusal) => refusal.number(),
        Ok(x) => load_on(store, x.used, domain, file, x.depth),
    }
}

// Removes a package.
// Kept: one function with the deletion would take the question as a closure, with a contract longer than the two arms.
pub fn loader_remove(store: &mut [u8], package: &[u8]) -> u32
    ensures value { result ≡ number store.old (remove «package».now) }
    ensures store_after { store.new ≡ after store.old (remove «package».now) }
{
    match sound::open_store(store) {
        Err(e) => e.number(),
        Ok(used) => {
            let answer = services::remove_answer(store, used, package);
            number_told(cut(store, used, answer))
        }
    }
}

// Asks whether a package's method, by class and name, allows a domain; the figure is 1 for yes and 0 for no.
pub fn loader_query(store: &[u8], domain: &[u8], package: &[u8], class: u8, name: u16) -> u32
    ensures { QueryPromise store.now domain.now «package».now class name result }
{
    match sound::open_store(store) {
        Err(e) => e.number(),
        Ok(used) => query_told(services::query_on(
            store,
            used,
            domain,
            package,
            fields::wide(class),
            name as usize,
        )),
    }
}
