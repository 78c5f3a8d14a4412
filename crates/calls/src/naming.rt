// Question 18 of a call: what it calls is visible and of the form that it asks.
ghost use Rattle.files.specs.Say.{ClassThere, MethodThere};
ghost use Rattle.calls.specs.Named.{SeenIs, FormIs, WellIs};

use codes::Calling;
use references::Meant;

// Is the method at m visible, if it lies outside the file being judged?
fn is_seen(g: &[u8], m: usize, outside: bool) -> bool
    requires { MethodThere g.now m }
    ensures { SeenIs g.now m outside result }
{
    if outside {
        return files::is_visible(g, m);
    }
    true
}

// Is the declaration of the form that the kind of call asks? 8B non-static and the class named of kind 0, 8C implemented, 8D static, 8E
// non-static and declared by an interface.
fn has_form(g: &[u8], x: Meant, kind: Calling) -> bool
    requires class_there { ClassThere g.now x.class }
    requires method_there { MethodThere g.now x.method }
    ensures { FormIs g.now x kind result }
{
    match kind {
        Calling::Virtual => {
            if files::is_static(g, x.method) {
                return false;
            }
            x.kind0
        }
        Calling::Special => files::is_implemented(g, x.method),
        Calling::Static => files::is_static(g, x.method),
        Calling::Interface => {
            if files::is_static(g, x.method) {
                return false;
            }
            files::is_interface(g, x.class)
        }
    }
}

// Both?
pub fn named_well(g: &[u8], x: Meant, kind: Calling) -> bool
    requires class_there { ClassThere g.now x.class }
    requires method_there { MethodThere g.now x.method }
    ensures { WellIs g.now x kind result }
{
    if !is_seen(g, x.method, x.home.from != 0) {
        return false;
    }
    has_form(g, x, kind)
}
