// A row against a search pattern, and the first entry that a pattern hits.
#![tactic(auto)]

ghost use Rattle.std.specs.Prelude.{◌≡◌, ◌≤◌, length};
ghost use Rattle.format.specs.Diskette.{eight_inch, Long, entry_bytes};
ghost use Rattle.format.specs.Entries.{entry_at};
ghost use Rattle.model.specs.Search.{pattern_bytes, extent_hit_rule, hit, find_hit_rule};

use format::{ENTRIES, Found};

// Whether byte 12 of a pattern asks for a row's extent: 3FH for any, another value for the same ex where s2 is 0, which is the row that covers
// that extent.
fn extent_hit(x: u8, row: &[u8]) -> bool
    requires { entry_bytes ≤ length row.now }
    ensures { result ≡ extent_hit_rule eight_inch x row.now }
{
    x == 63 || (row[12] == x && row[14] == 0)
}

// Whether a row is the user's and matches a pattern. The name is compared last: it takes longest.
fn hit(user: u8, pattern: &[u8], row: &[u8]) -> bool
    requires { (pattern_bytes ≤ length pattern.now) × (entry_bytes ≤ length row.now) }
    ensures { result ≡ hit eight_inch user pattern.now row.now }
{
    row[0] == user && extent_hit(pattern[11], row) && matching::name_like(true, pattern, 0, row, 1)
}

// The first entry from a place on that a pattern hits.
pub fn find_hit(image: &[u8], user: u8, pattern: &[u8], from: usize) -> Found
    requires { Long eight_inch image.now × (pattern_bytes ≤ length pattern.now) }
    ensures { result ≡ find_hit_rule eight_inch (entry_at eight_inch image.now) user pattern.now from }
{
    (from..ENTRIES).find(|&e| hit(user, pattern, rows::row(image, e)))
}
