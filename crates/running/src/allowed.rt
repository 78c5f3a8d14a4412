// What one method allows beside another. A row keeps numbers of domains between comparisons; it is true of one pair of files.
ghost use Rattle.std.specs.Prelude.{◌≡◌, length};
ghost use Rattle.policies.specs.Rows.{row_length};
ghost use Rattle.chains.specs.Names.{NamesIs};
ghost use Rattle.running.specs.Say.{BothThere, AllowsAllOf, MethodThere};
ghost use Rattle.running.specs.Rows.{RowFor, RowTurned, BesideIs};

use chains::{MethodSpot, Names};
use fields::wide;
use homes::Home;
use policies::RightsPlace;

// Does the method x allow all that the method y allows? The domain of the file being judged stands at place d of the store.
pub fn allows_all_of<'a>(
    f: &'a [u8],
    s: &'a [u8],
    d: usize,
    x: MethodSpot,
    y: MethodSpot,
    row: &mut [u8; 33],
) -> bool
    requires both_there { BothThere f.now s.now d x y }
    requires row_for { RowFor f.now s.now d x.home y.home row.old }
    ensures allows_all_of { AllowsAllOf f.now s.now d x y result }
    ensures row_for_2 { RowFor f.now s.now d x.home y.home row.new }
{
    let a = homes::file_of(f, s, x.home);
    let b = homes::file_of(f, s, y.home);
    let p = RightsPlace {
        domains: files::domains_at(a),
        policy: files::policy_of(a, x.place),
    };
    let q = RightsPlace {
        domains: files::domains_at(b),
        policy: files::policy_of(b, y.place),
    };
    let own = homes::domain_of(s, x.home, d);
    let other = homes::domain_of(s, y.home, d);
    inclusion::admits_in_turn(a, own, p, b, other, q, row)
}

// The row, for the file at home h in place of that at home g: no number is known, where they are not the same.
pub fn turn_row(row: &mut [u8; 33], g: Home, h: Home)
    requires { length row.old ≡ row_length }
    ensures { RowTurned row.old row.new g h }
{
    if g != h {
        inclusion::empty_row(row);
    }
}

// What runs for the own class of these names and the name of the method at a place of the file at a home, if it must allow what that method
// allows: nothing is asked for a static method, or for one that allows nothing.
pub fn method_beside<'a>(
    f: &'a [u8],
    s: &'a [u8],
    names: &[u16],
    w: Names,
    h: Home,
    at: usize,
) -> Option<MethodSpot>
    requires method_there { MethodThere f.now s.now w.end w.own h at }
    requires names_is { NamesIs f.now s.now names.now w }
    ensures { BesideIs f.now s.now w.end w.own h at result }
{
    let g = homes::file_of(f, s, h);
    if files::is_static(g, at) {
        return None;
    }
    if wide(g[files::policy_of(g, at)]) == 0 {
        return None;
    }
    chains::running_method(f, s, names, w, files::name_of(g, at))
}
