// Entries by their keys: the chains that the check of the directory makes, and the look-up of a file along them. Every function that
// looks a file up is lent the chains; `Indexed` says that they are as the check has left them.
#![tactic(auto)]

ghost use Rattle.std.specs.Prelude.{◌≡◌, true, ◌+◌, ◌≤◌, ◌<◌, get_or, length};
ghost use Rattle.format.specs.Diskette.{eight_inch, Long, entry_bytes};
ghost use Rattle.format.specs.Names.{name_bytes};
ghost use Rattle.format.specs.Entries.{Rows, entry_at, used, find_file_rule};
ghost use Rattle.format.specs.Consistent.{same_file_rule, alone};
ghost use Rattle.chains.specs.Walk.{past};
ghost use Rattle.chains.specs.Chain.{chain_bytes, Chained, Indexed};

use format::Found;
use keys::KEYS;

// A number for each key, and then one for each entry.
pub const CHAIN_BYTES: usize = KEYS + format::ENTRIES;

// No key has an entry yet. The entries' own numbers are written before they are read.
pub fn start(chain: &mut [u8])
    requires { length chain.old ≡ chain_bytes eight_inch }
    ensures { (d : Rows) → Chained eight_inch d 0 chain.new }
{
    lists::fill(chain, 0, KEYS, 0);
}

// Whether two used rows are of one file.
#[tactic(auto, using(crate::specs::Walk::asks_same))]
fn same_file(r: &[u8], t: &[u8]) -> bool
    requires { (entry_bytes ≤ length r.now) × (entry_bytes ≤ length t.now) × (used r.now ≡ true) × (used t.now ≡ true) }
    ensures { result ≡ same_file_rule eight_inch r.now t.now }
{
    lookups::is_file(t[0], t, 1, entries::extent(t), r)
}

// The entry that a number of the chains names, where it is not 0. Links are numbers in fixed memory, as there is no heap; each says where the
// next look is, so a walk is a `while let`.
fn linked(chain: &[u8], at: usize) -> Found
    requires { at < length chain.now }
    ensures { past result ≡ get_or chain.now at 0 }
{
    match chain[at] {
        0 => None,
        n => Some(usize::from(n) - 1),
    }
}

// Whether no entry before e, whose row is r, is of the same file: only those of its key are looked at.
fn is_alone(image: &[u8], e: usize, r: &[u8], chain: &[u8]) -> bool
    requires { Long eight_inch image.now × (e < eight_inch.entries)
        × (entry_bytes ≤ length r.now) × (r.now ≡ entry_at eight_inch image.now e) × (used r.now ≡ true)
        × Chained eight_inch (entry_at eight_inch image.now) (e + 1) chain.now }
    ensures { result ≡ alone eight_inch (entry_at eight_inch image.now) e }
{
    let mut next = linked(chain, KEYS + e);
    while let Some(f) = next {
        if same_file(r, rows::row(image, f)) {
            return false;
        }
        next = linked(chain, KEYS + f);
    }
    true
}

// Whether e is alone; it becomes the last entry of its key.
pub fn take_key(image: &[u8], e: usize, r: &[u8], chain: &mut [u8]) -> bool
    requires { Long eight_inch image.now × (e < eight_inch.entries)
        × (entry_bytes ≤ length r.now) × (r.now ≡ entry_at eight_inch image.now e) × (used r.now ≡ true)
        × Chained eight_inch (entry_at eight_inch image.now) e chain.old }
    ensures { (result ≡ alone eight_inch (entry_at eight_inch image.now) e)
        × Chained eight_inch (entry_at eight_inch image.now) (e + 1) chain.new }
{
    let k = keys::key(r);
    chain[KEYS + e] = chain[k];
    // The number fits: the cast loses nothing.
    chain[k] = (e + 1) as u8;
    is_alone(image, e, r, chain)
}

// The entry of this user, name and extent: only those of its key are looked at.
pub fn find_file(image: &[u8], chain: &[u8], user: u8, s: &[u8], q: usize, ext: usize) -> Found
    requires { Long eight_inch image.now × (q + name_bytes ≤ length s.now) × (user ≤ 15)
        × Indexed eight_inch (entry_at eight_inch image.now) chain.now }
    ensures { result ≡ find_file_rule eight_inch (entry_at eight_inch image.now) user s.now q ext }
{
    let mut next = linked(chain, keys::file_key(user, s, q, ext));
    while let Some(f) = next {
        if lookups::is_file(user, s, q, ext, rows::row(image, f)) {
            return next;
        }
        next = linked(chain, KEYS + f);
    }
    None
}
