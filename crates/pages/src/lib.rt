// The lines of the inventory's page, put into a buffer (document 02, request 1). What a line and the totals are: inventory_rules.
#![tactic(auto)]

ghost use Rattle.std.specs.Prelude.{◌+◌, ◌*◌, ◌≤◌, length};
ghost use Rattle.files.specs.Say.{Readable};
ghost use Rattle.store.specs.Sound.{SoundAt};
ghost use Rattle.pages.specs.Says.{MethodsSay, LinePut, LinesSay, most_page};

use files::{after_class, classes_at, methods_of};
use store::EntryPart;
use text::{put_byte, put_hex, put_two};

// The place behind the lines, and the totals.
#[derive(Clone, Copy)]
pub struct Listed {
    pub at: usize,
    pub packages: usize,
    pub bytes: usize,
    pub methods: usize,
}

// The methods of a file, of all its classes.
fn methods_in(f: &[u8]) -> usize
    requires { Readable f.now }
    ensures { MethodsSay f.now result }
{
    let start = classes_at(f);
    let mut c = start + 1;
    let mut n = 0;
    for _ in 0..fields::wide(f[start]) {
        n += fields::wide(f[methods_of(f, c)]);
        c = after_class(f, c);
    }
    n
}

// Puts the line of a package, by its domain, its file and its methods.
fn put_line(out: &mut [u8], at: usize, domain: &[u8], file: &[u8], methods: usize) -> usize
    requires readable { Readable file.now × (length file.now ≤ 65535) × (methods ≤ 65025) }
    requires file_in_bounds { at + 2 * (length domain.now + length file.now) ≤ length out.old }
    ensures { LinePut out.old at domain.now file.now methods out.new result }
{
    let a = put_hex(out, at, files::own_aid(file));
    let b = put_byte(out, a, b' ');
    let c = put_hex(out, b, domain);
    let d = put_byte(out, c, b' ');
    put_two(out, d, file.len(), methods)
}

// Puts the lines of a sound store.
pub fn put_lines(s: &[u8], used: usize, out: &mut [u8]) -> Listed
    requires { SoundAt s.now used × (most_page ≤ length out.old) }
    ensures { LinesSay s.now used out.new result }
{
    let mut at = 0;
    let mut packages = 0;
    let mut bytes = 0;
    let mut methods = 0;
    let mut i = store::openings::first_entry(s);
    while let Some(part) = store::entry_at(s, i, used) {
        match part {
            EntryPart::Domain { next, .. } => {
                i = next;
            }
            EntryPart::Package { from, file, next } => {
                let n = methods_in(&s[file..next]);
                at = put_line(out, at, &s[from..file], &s[file..next], n);
                packages += 1;
                bytes += next - file;
                methods += n;
                i = next;
            }
        }
    }
    Listed {
        at,
        packages,
        bytes,
        methods,
    }
}
