// Entries looked up: whether one is asked for by a name or pattern, with its extent or not, and the first that is, or that is empty.
#![tactic(auto)]

ghost use Rattle.std.specs.Prelude.{◌≡◌, ◌+◌, ◌≤◌, ◌<◌, length};
ghost use Rattle.format.specs.Diskette.{eight_inch, Long, entry_bytes};
ghost use Rattle.format.specs.Names.{name_bytes};
ghost use Rattle.format.specs.Entries.{entry_at, named, is_file_rule, find_named_rule, find_empty_rule};

use format::{ENTRIES, Found};

// Whether a row is the user's, and its name is what the name in s at q asks for.
#[tactic(auto, using(lists::specs::Tests::short_circuits), unfolding(format::specs::Entries::named))]
pub fn is_named(wild: bool, user: u8, s: &[u8], q: usize, r: &[u8]) -> bool
    requires { (q + name_bytes ≤ length s.now) × (entry_bytes ≤ length r.now) }
    ensures { result ≡ named wild user s.now q r.now }
{
    r[0] == user
        && if wild {
            matching::name_like(true, s, q, r, 1)
        } else {
            matching::name_same(s, q, r, 1)
        }
}

// Whether a row is the user's, of the name in s at q, and covers the extent.
#[tactic(auto, using(lists::specs::Tests::short_circuits), unfolding(format::specs::Entries::is_file_rule))]
pub fn is_file(user: u8, s: &[u8], q: usize, ext: usize, r: &[u8]) -> bool
    requires { (q + name_bytes ≤ length s.now) × (entry_bytes ≤ length r.now) }
    ensures { result ≡ is_file_rule eight_inch user s.now q ext r.now }
{
    is_named(false, user, s, q, r) && entries::covers_extent(r, ext)
}

// The first entry of this user whose name is asked for.
pub fn find_named(image: &[u8], wild: bool, user: u8, s: &[u8], q: usize) -> Found
    requires { Long eight_inch image.now × (q + name_bytes ≤ length s.now) }
    ensures { result ≡ find_named_rule eight_inch (entry_at eight_inch image.now) wild user s.now q }
{
    (0..ENTRIES).find(|&e| is_named(wild, user, s, q, rows::row(image, e)))
}

// The first empty entry.
pub fn find_empty(image: &[u8]) -> Found
    requires { Long eight_inch image.now }
    ensures { result ≡ find_empty_rule eight_inch (entry_at eight_inch image.now) }
{
    (0..ENTRIES).find(|&e| rows::row(image, e)[0] == 0xE5)
}
