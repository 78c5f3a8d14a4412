// The inventory's page: its bytes, put into a buffer (document 02, request 1). What a page is: inventory_rules.
ghost use Rattle.std.specs.Prelude.{◌+◌, ◌≤◌, length};
ghost use Rattle.io.specs.Counts.{IsPrefixLen};
ghost use Rattle.text.specs.Text.{decimal};
ghost use Rattle.text.specs.Put.{Put};
ghost use Rattle.inventory_rules.specs.Inventory.{number_text, inventory};
ghost use Rattle.pages.specs.Says.{most_page};

use text::{put_byte, put_decimal, put_three};

// Puts a number alone.
fn put_number(out: &mut [u8], n: u32) -> usize
    requires { length (decimal n) + 1 ≤ length out.old }
    ensures { Put out.old 0 (number_text n) out.new result }
{
    let a = put_decimal(out, 0, n as usize);
    put_byte(out, a, b'\n')
}

// Puts the page of a store's bytes, and answers its length.
pub fn put_page(s: &[u8], out: &mut [u8]) -> usize
    requires { most_page ≤ length out.old }
    ensures put { Put out.old 0 (inventory s.now) out.new result }
    ensures prefix_len { IsPrefixLen result out.new }
{
    match sound::open_store(s) {
        Err(e) => put_number(out, e.number()),
        Ok(used) => {
            let x = pages::put_lines(s, used, out);
            put_three(out, x.at, x.packages, x.bytes, x.methods)
        }
    }
}
