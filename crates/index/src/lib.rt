// The packages of a store by their AIDs: the places of their entries, sorted by AID. Each is entered when its entry was judged.
#![tactic(auto)]

ghost use Rattle.std.specs.Prelude.{◌≡◌, ◌+◌, ◌≤◌, ◌<◌, length};
ghost use Rattle.store.specs.Entries.{FilesStand};
ghost use Rattle.store.specs.Answers.{FileAt};
ghost use Rattle.index.specs.Index.{file_from, entry_to, IndexIs, PackageStands};

use fields::{u2_at, wide};
use store::FileBounds;

// Where the file of the package entry at a place begins.
pub fn file_from(s: &[u8], at: usize) -> usize
    requires { at + 3 < length s.now }
    ensures { result ≡ file_from s.now at }
{
    at + 4 + wide(s[at + 3])
}

// Where the entry at a place ends.
pub fn entry_to(s: &[u8], at: usize) -> usize
    requires { at + 3 < length s.now }
    ensures { result ≡ entry_to s.now at }
{
    at + 3 + u2_at(s, at + 1)
}

// Enters the package whose entry stands from `at` up to `next`, its file from `file` on.
pub fn enter_package(s: &[u8], at: usize, file: usize, next: usize, index: &mut [u16])
    requires index_is { IndexIs s.now at index.old × FilesStand s.now at }
    requires package_stands { PackageStands s.now at file next }
    requires s_len_bound { length s.now ≤ 65535 }
    ensures { IndexIs s.now next index.new }
{
    sorted::enter(s, index, at);
}

// Where a package stands, of the entries that end at `end`.
pub fn package_by(s: &[u8], end: usize, index: &[u16], aid: &[u8]) -> Option<FileBounds>
    requires files_stand { FilesStand s.now end }
    requires index_is { IndexIs s.now end index.now }
    ensures { FileAt s.now end aid.now result }
{
    let at = sorted::find(s, index, aid)?;
    Some(FileBounds {
        at,
        from: file_from(s, at),
        to: entry_to(s, at),
    })
}
