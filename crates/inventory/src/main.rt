// The printed inventory: the page of the store that standard input holds, on standard output (document 02, request 1). What a program reads
// and writes is tested; that the bytes it hands on to be written are the page of those it was given is proved.
#![tactic(auto)]

mod page;

ghost use Rattle.std.specs.Prelude.{◌≤◌, length};
ghost use Rattle.pages.specs.Says.{most_page};

// Prints the page of a store's bytes.
fn print_page(rt: &HostRuntime, store: &[u8], page: &mut [u8])
    requires { most_page ≤ length page.old }
{
    let n = page::put_page(store, page);
    if streams::write_out(rt, &page[..n]).is_err() {
        streams::tell(rt, b"inventory: standard output cannot be written\n");
    }
}

// One byte more than a store may have is read: it tells that there are too many.
fn main(rt: HostRuntime) {
    let mut store = [0u8; 65536];
    let mut page = [0u8; 131100];
    match streams::read_whole(&rt, &mut store) {
        Ok(count) => print_page(&rt, &store[..count], &mut page),
        Err(_) => streams::tell(&rt, b"inventory: standard input cannot be read\n"),
    }
}
