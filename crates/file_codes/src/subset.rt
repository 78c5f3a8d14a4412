// Question 26 of a file: does each code split, and is no instruction barred?
ghost use Rattle.instructions.specs.Table.{TableIs};
ghost use Rattle.files.specs.Say.{MethodThere, ClassThere, Readable};
ghost use Rattle.file_codes.specs.Codes.{MethodKeeps, ClassKeeps, FileKeeps};

use codes::subset::without_int;
use fields::wide;

// Of the method at a place.
fn method_keeps(f: &[u8], table: &[u8; 256], at: usize) -> bool
    requires { MethodThere f.now at × TableIs table.now }
    ensures { MethodKeeps f.now at result }
{
    if !files::is_implemented(f, at) {
        return true;
    }
    without_int(table, files::code_of(f, at))
}

// Of the methods of the class at a place.
// Kept: as in the walk over codes, two closures for five lines are no plainer.
fn class_keeps(f: &[u8], table: &[u8; 256], at: usize) -> bool
    requires { ClassThere f.now at × TableIs table.now }
    ensures { ClassKeeps f.now at result }
{
    let start = files::methods_of(f, at);
    let mut c = start + 1;
    for _ in 0..wide(f[start]) {
        if !method_keeps(f, table, c) {
            return false;
        }
        c = files::after_method(f, c);
    }
    true
}

// Of a file that reads.
pub fn file_keeps(f: &[u8], table: &[u8; 256]) -> bool
    requires { Readable f.now × TableIs table.now }
    ensures { FileKeeps f.now result }
{
    let start = files::classes_at(f);
    let mut c = start + 1;
    for _ in 0..wide(f[start]) {
        if !class_keeps(f, table, c) {
            return false;
        }
        c = files::after_class(f, c);
    }
    true
}
