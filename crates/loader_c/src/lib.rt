// The operations of the crate loader as C functions of the same names and clauses, in a static library (include/loader.h).
#![tactic(auto)]

ghost use Rattle.std.specs.Prelude.{◌≡◌};
ghost use Rattle.rules.specs.Store.{version1, version2, full, without_int};
ghost use Rattle.rules.specs.Operations.{create, delete, load, remove, number, after, fresh_number, fresh_bytes};
ghost use Rattle.writing.specs.Changes.{limits_given};
ghost use Rattle.loader.specs.Promises.{LoadPromise, QueryPromise};

// Makes an empty store of a buffer of 64 to 65,535 bytes, whatever it held.
#[unsafe(no_mangle)]
pub extern "C" fn loader_fresh(store: &mut [u8]) -> u32
    ensures value { result ≡ fresh_number store.old version1 }
    ensures store_after { store.new ≡ fresh_bytes store.old version1 }
{
    loader::loader_fresh(store)
}

// The second fresh call: makes an empty store with these limits of such a buffer, where each limit lies in its range.
#[unsafe(no_mangle)]
pub extern "C" fn loader_fresh_limits(store: &mut [u8], depth: u8, parents: u8, code: u16) -> u32
    ensures value { result ≡ fresh_number store.old (version2 (limits_given depth parents code)) }
    ensures store_after { store.new ≡ fresh_bytes store.old (version2 (limits_given depth parents code)) }
{
    loader::loader_fresh_limits(store, depth, parents, code)
}

// Creates a domain of kind 1.
#[unsafe(no_mangle)]
pub extern "C" fn loader_create(store: &mut [u8], domain: &[u8]) -> u32
    ensures value { result ≡ number store.old (create full domain.now) }
    ensures store_after { store.new ≡ after store.old (create full domain.now) }
{
    loader::loader_create(store, domain)
}

// The second creation: a domain of kind 3, whose packages keep to the subset without int.
#[unsafe(no_mangle)]
pub extern "C" fn loader_create_without_int(store: &mut [u8], domain: &[u8]) -> u32
    ensures value { result ≡ number store.old (create without_int domain.now) }
    ensures store_after { store.new ≡ after store.old (create without_int domain.now) }
{
    loader::loader_create_without_int(store, domain)
}

// Deletes a domain.
#[unsafe(no_mangle)]
pub extern "C" fn loader_delete(store: &mut [u8], domain: &[u8]) -> u32
    ensures value { result ≡ number store.old (delete domain.now) }
    ensures store_after { store.new ≡ after store.old (delete domain.now) }
{
    loader::loader_delete(store, domain)
}

// Loads a package file into a domain; the figure is the depth of its deepest class, 0 where it has none.
#[unsafe(no_mangle)]
pub extern "C" fn loader_load(store: &mut [u8], domain: &[u8], file: &[u8]) -> u32
    ensures load_promise { LoadPromise store.old domain.now file.now result }
    ensures store_after { store.new ≡ after store.old (load domain.now file.now) }
{
    loader::loader_load(store, domain, file)
}

// Removes a package.
#[unsafe(no_mangle)]
pub extern "C" fn loader_remove(store: &mut [u8], package: &[u8]) -> u32
    ensures value { result ≡ number store.old (remove «package».now) }
    ensures store_after { store.new ≡ after store.old (remove «package».now) }
{
    loader::loader_remove(store, package)
}

// Asks whether a package's method, by class and name, allows a domain; the figure is 1 for yes and 0 for no.
#[unsafe(no_mangle)]
pub extern "C" fn loader_query(
    store: &[u8],
    domain: &[u8],
    package: &[u8],
    class: u8,
    name: u16,
) -> u32
    ensures { QueryPromise store.now domain.now «package».now class name result }
{
    loader::loader_query(store, domain, package, class, name)
}
