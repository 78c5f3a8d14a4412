// The calls of a file, by what its references name: questions 18 and 19.
#![tactic(auto)]

mod allowed;
mod naming;
mod walk;

ghost use Rattle.std.specs.Prelude.{◌≤◌, ◌≡◌};
ghost use Rattle.rules.specs.Bytes.{aid};
ghost use Rattle.places.specs.Reads.{Ends};
ghost use Rattle.homes.specs.Homes.{aid_at};
ghost use Rattle.homes.specs.Found.{ImportPlaces};
ghost use Rattle.slots.specs.Slots.{SlotsTrue};
ghost use Rattle.references.specs.Setting.{Judged};
ghost use Rattle.references.specs.Named.{Lent};
ghost use Rattle.references.specs.Kept.{KeptTrue};
ghost use Rattle.refusals.specs.Order.{call_told, Before};
ghost use Rattle.calls.specs.Maps.{asker_at, asker_from, AskerTrue};
ghost use Rattle.calls.specs.Calls.{with_group, CodesSplit, FileCallsAre, CallsNumberIs};

use codes::Calling;
use fields::u2_at;
use homes::{Loaded, Places};
use references::groups::Asked;
use references::{Group, groups};
use refusals::first_said;
use refusals::refusal::Refusal;
use walk::group_calls;

// What a walk over the calls of the file being judged carries: the group of references whose calls are asked, where in the store the loading
// domain stands, its number among the file's domains, and the place of the method or class at hand.
#[derive(Clone, Copy)]
pub struct Asker {
    pub group: Group,
    pub domain: usize,
    pub loading: usize,
    pub at: usize,
}

// A call: its kind, and the number of its reference.
#[derive(Clone, Copy)]
pub struct CallOf {
    pub kind: Calling,
    pub reference: usize,
}

// The same, at another place.
fn asker_at(a: Asker, at: usize) -> Asker
    ensures { result ≡ asker_at a at }
{
    let group = a.group;
    Asker {
        group,
        domain: a.domain,
        loading: a.loading,
        at,
    }
}

// The same, with the group of references from another one on.
fn asker_from(a: Asker, first: usize) -> Asker
    ensures { result ≡ asker_from a first }
{
    let g = a.group;
    let group = Group {
        end: g.end,
        at: g.at,
        count: g.count,
        first,
    };
    Asker {
        group,
        domain: a.domain,
        loading: a.loading,
        at: a.at,
    }
}

// What is told of the file being judged, loaded in the domain at a place of the store.
fn told_of(f: &[u8], s: &[u8], end: usize, domain: usize) -> Asker
    requires judged { Judged f.now s.now end }
    requires ends { Ends aid s.now domain }
    ensures { (result.group.end ≡ end) × (result.domain ≡ domain) × (result.group.count ≤ 65535) × AskerTrue f.now s.now result }
{
    let loading = files::aid_bytes(s, domain);
    let at = files::references_at(f);
    let group = Group {
        end,
        at,
        count: u2_at(f, at),
        first: 0,
    };
    Asker {
        group,
        domain,
        loading: policies::number_of(f, files::domains_at(f), loading, loading),
        at: 0,
    }
}

// Questions 18 and 19 of the calls that are asked with a group of references, of which the table tells what the classes named declare
// themselves: the first no. Where a call asks for what is open that is searched, and the calls are asked again; all of the
// group is searched where 18 is answered once more. What `seen` holds before and after is of no account.
fn group_answer<'a>(
    f: &'a [u8],
    s: &'a [u8],
    packages: &[u16],
    slots: &mut [u16],
    seen: &mut [u8],
    kept: &mut [u16],
    a: Asker,
) -> Result<(), Refusal>
    requires judged { Judged f.now s.now a.group.end × CodesSplit f.now × AskerTrue f.now s.now a }
    requires kept_true { KeptTrue f.now s.now a.group kept.old }
    requires lent { Lent s.now a.group.end packages.now seen.old }
    requires slots_true { SlotsTrue f.now s.now slots.old }
    ensures file_calls_are { FileCallsAre f.now s.now a.group.end (aid_at s.now a.domain) (with_group a.group) (call_told result) }
    ensures before { Before 0 result }
    ensures slots_true_2 { SlotsTrue f.now s.now slots.new }
{
    let group = a.group;
    let told = group_calls(f, s, kept, a);
    if told != Err(Refusal::CallReference) {
        return told;
    }
    let wanted = Asked { group, all: false };
    groups::search_open(f, s, packages, slots, seen, kept, wanted);
    let searched = group_calls(f, s, kept, a);
    if searched != Err(Refusal::CallReference) {
        return searched;
    }
    let every = Asked { group, all: true };
    groups::search_open(f, s, packages, slots, seen, kept, every);
    group_calls(f, s, kept, a)
}

// Questions 18 and 19 of a file that is judged, each code of which splits: the first no, asked for a group of references
// after the other. The index of the entries before it and the places of its imports are lent, slots and bits; what `seen` holds before and
// after is of no account. The index serves the search above the class named alone.
pub fn calls_ok<'a>(
    f: &'a [u8],
    s: &'a [u8],
    x: Loaded,
    packages: &[u16],
    places: &Places,
    slots: &mut [u16],
    seen: &mut [u8],
) -> Result<(), Refusal>
    requires judged { Judged f.now s.now x.end × CodesSplit f.now }
    requires ends { Ends aid s.now x.domain × ImportPlaces f.now s.now x.end places.now }
    requires lent { Lent s.now x.end packages.now seen.old }
    requires slots_true { SlotsTrue f.now s.now slots.old }
    ensures number { CallsNumberIs f.now s.now x.end (aid_at s.now x.domain) (call_told result) }
    ensures before { Before 0 result }
{
    let mut kept = [0u16; 192];
    let told = told_of(f, s, x.end, x.domain);
    let mut first = 0;
    let mut number = Ok(());
    // Kept: a turn is taken even where the file has no references, since calls name some that are not there.
    loop {
        let a = asker_from(told, first);
        let g = a.group;
        groups::tell_group(f, s, places, &mut *slots, &mut kept, g);
        let n = group_answer(f, s, packages, &mut *slots, &mut *seen, &mut kept, a);
        number = first_said(number, n);
        first += 32;
        if g.count <= first {
            return number;
        }
    }
}
