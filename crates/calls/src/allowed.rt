// The rights of methods, and question 19 of a call by the numbers of domains.
ghost use Rattle.std.specs.Prelude.{◌+◌, ◌*◌, ◌≤◌, length, Some};
ghost use Rattle.homes.specs.Homes.{aid_at};
ghost use Rattle.references.specs.Named.{ReferenceIs};
ghost use Rattle.refusals.specs.Order.{call_told, Before};
ghost use Rattle.calls.specs.Maps.{AskerTrue, MapTrue};
ghost use Rattle.calls.specs.Rights.{StandsThere, RightsAt, MayCall, Callee, CalleeAllows};
ghost use Rattle.calls.specs.Calls.{OwnMethod, every_call, CallNumberIs};

use super::naming::named_well;
use super::{Asker, CallOf};
use coverage::Asked;
use homes::Home;
use policies::{RightsPlace, TwoLists};
use references::Meant;
use refusals::refusal::Refusal;

// Where the policy of the method at place m of the file at a home stands, and the list of domains that its indexes count.
pub fn rights_of<'a>(f: &'a [u8], s: &'a [u8], h: Home, m: usize) -> RightsPlace
    requires { StandsThere f.now s.now h m }
    ensures { RightsAt f.now s.now h m result }
{
    let g = homes::file_of(f, s, h);
    RightsPlace {
        domains: files::domains_at(g),
        policy: files::policy_of(g, m),
    }
}

// Question 19 of a call in the method at a place of the file being judged, which calls the method at m of the file at a home; row p of the
// table is that file's, row 0 that of the file being judged.
fn may_call<'a>(
    f: &'a [u8],
    s: &'a [u8],
    a: Asker,
    h: Home,
    m: usize,
    p: usize,
    map: &mut [u8],
) -> bool
    requires own_method { OwnMethod f.now s.now a.group.end a.at × StandsThere f.now s.now h m }
    requires asker_true { AskerTrue f.now s.now a }
    requires p_in_bounds { (33 * p + 33 ≤ length map.old) × (length map.old ≤ 528) }
    ensures { MayCall f.now s.now a.group.end (aid_at s.now a.domain) a.at h m p
        map.old map.new result }
{
    let own = homes::own_home(a.group.end);
    let q = rights_of(f, s, own, a.at);
    let r = rights_of(f, s, h, m);
    let l = TwoLists {
        own: q.domains,
        other: r.domains,
        base: 33 * p,
    };
    let x = Asked {
        caller: q.policy,
        called: r.policy,
        loading: a.loading,
    };
    let g = homes::file_of(f, s, h);
    let domain = files::aid_bytes(s, a.domain);
    let other = homes::domain_of(s, h, a.domain);
    coverage::covers(f, domain, g, other, l, x, map)
}

// The same by a table of its own, for a method that the class named does not declare itself.
fn may_call_above<'a>(f: &'a [u8], s: &'a [u8], a: Asker, x: Meant) -> bool
    requires own_method { OwnMethod f.now s.now a.group.end a.at × Callee f.now s.now a.group.end x }
    requires asker_true { AskerTrue f.now s.now a }
    ensures { CalleeAllows f.now s.now a.group.end (aid_at s.now a.domain) a.at x result }
{
    let mut map = [255u8; 66];
    may_call(f, s, a, x.home, x.method, 1, &mut map)
}

// Question 19 of a call that calls the declaration.
fn callee_allows<'a>(f: &'a [u8], s: &'a [u8], a: Asker, map: &mut [u8], x: Meant) -> bool
    requires own_method { OwnMethod f.now s.now a.group.end a.at × Callee f.now s.now a.group.end x }
    requires asker_true { AskerTrue f.now s.now a }
    requires map_true { MapTrue f.now s.now a.group.end (aid_at s.now a.domain) map.old }
    ensures callee_allows { CalleeAllows f.now s.now a.group.end (aid_at s.now a.domain) a.at x result }
    ensures map_true_2 { MapTrue f.now s.now a.group.end (aid_at s.now a.domain) map.new }
{
    if x.pack < 16 {
        return may_call(f, s, a, x.home, x.method, x.pack, map);
    }
    may_call_above(f, s, a, x)
}

// Questions 18 and 19 of a call in the method at a place of the file being judged, whose reference means a declaration: the first no.
pub fn meant_answer<'a>(
    f: &'a [u8],
    s: &'a [u8],
    map: &mut [u8],
    a: Asker,
    x: Meant,
    c: CallOf,
) -> Result<(), Refusal>
    requires own_method { OwnMethod f.now s.now a.group.end a.at × AskerTrue f.now s.now a }
    requires reference_is { ReferenceIs f.now s.now a.group.end c.reference (Some x) }
    requires map_true { MapTrue f.now s.now a.group.end (aid_at s.now a.domain) map.old }
    ensures call_number_is { CallNumberIs f.now s.now a.group.end (aid_at s.now a.domain) every_call
        a.at c.kind c.reference (call_told result) }
    ensures before { Before 0 result }
    ensures map_true_2 { MapTrue f.now s.now a.group.end (aid_at s.now a.domain) map.new }
{
    let kind = c.kind;
    let g = homes::file_of(f, s, x.home);
    if !named_well(g, x, kind) {
        return Err(Refusal::CallReference);
    }
    if !callee_allows(f, s, a, map, x) {
        return Err(Refusal::CallPolicy);
    }
    Ok(())
}
