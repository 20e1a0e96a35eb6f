// The key of a directory entry, made of user, name and extent: entries of one file share it. Every call asks for every entry's, so it is
// made of two words.
#![tactic(auto)]

ghost use Rattle.std.specs.Prelude.{◌≡◌, ◌+◌, ◌≤◌, ◌<◌, length};
ghost use Rattle.format.specs.Diskette.{entry_bytes};
ghost use Rattle.format.specs.Names.{name_bytes};
ghost use Rattle.keys.specs.Key.{mixed, key_from, key_of, file_key_rule, key_count};

// The number of keys.
pub const KEYS: usize = 256;

// Two halves of a word multiplied apart, so that no product is too long, and added.
#[tactic(auto, unfolding(crate::specs::Key::mixed))]
fn mix(both: u64) -> u64
    ensures { result ≡ mixed both }
{
    both % 0x100000000 * 0x3779B97F + both / 0x100000000 * 0x4A7C1563
}

// The key that two parts make: user and name, name and extent.
#[tactic(auto, unfolding(crate::specs::Key::key_from))]
fn fold(low: u64, high: u64) -> usize
    requires { high < 2305843009213693952 }
    ensures { (result ≡ key_from low high) × (result < key_count) }
{
    // A cast: the library converts no `u64` to a `usize`.
    (mix(low ^ high * 8) / 0x4000000) as usize % KEYS
}

// The key of a row: rows of one file have one key.
pub fn key(r: &[u8]) -> usize
    requires { entry_bytes ≤ length r.now }
    ensures { (result ≡ key_of r.now) × (result < key_count) }
{
    fold(
        lanes::word(r, 0) & 0x7F7F7F7F7F7F7FFF,
        lanes::word(r, 8) & 0x1F7F7F7F7F,
    )
}

// The key of the rows of a user, the name in s at q, and an extent.
pub fn file_key(user: u8, s: &[u8], q: usize, ext: usize) -> usize
    requires { q + name_bytes ≤ length s.now }
    ensures { (result ≡ file_key_rule user s.now q ext) × (result < key_count) }
{
    let low = (lanes::word(s, q) & 0x7F7F7F7F7F7F7F) * 256 + u64::from(user);
    // A cast: the library converts no `usize` to a `u64`.
    let high = (lanes::half(s, q + 7) & 0x7F7F7F7F) + (ext % 32) as u64 * 0x100000000;
    fold(low, high)
}
