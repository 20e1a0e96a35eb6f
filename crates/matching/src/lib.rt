// The comparison of names in their low seven bits, of a name with a name or with a search pattern.
#![tactic(auto)]

ghost use Rattle.std.specs.Prelude.{◌≡◌, false, ◌+◌, ◌≤◌, length};
ghost use Rattle.format.specs.Names.{name_bytes, byte_like_rule, name_like_rule};

use format::NAME_BYTES;

// The low seven bits of each of the eight bytes of a word.
const SEVENS: u64 = 0x7F7F7F7F7F7F7F7F;

const EIGHT: usize = 8;

// Whether byte y is what x asks for. Equal bytes, the usual case, take one compare.
#[tactic(auto, using(lists::specs::Tests::short_circuits), unfolding(format::specs::Names::byte_like_rule))]
fn byte_like(wild: bool, x: u8, y: u8) -> bool
    ensures { result ≡ byte_like_rule wild x y }
{
    x % 128 == y % 128 || wild && x % 128 == 63
}

// Whether the name in r at p is what the name in s at q asks for.
pub fn name_like(wild: bool, s: &[u8], q: usize, r: &[u8], p: usize) -> bool
    requires { (q + name_bytes ≤ length s.now) × (p + name_bytes ≤ length r.now) }
    ensures { result ≡ name_like_rule wild s.now q r.now p }
{
    (0..NAME_BYTES).all(|i| byte_like(wild, s[q + i], r[p + i]))
}

// The same for names without 3FH, of which the first eight bytes are compared at once.
pub fn name_same(s: &[u8], q: usize, r: &[u8], p: usize) -> bool
    requires { (q + name_bytes ≤ length s.now) × (p + name_bytes ≤ length r.now) }
    ensures { result ≡ name_like_rule false s.now q r.now p }
{
    lanes::word(s, q) & SEVENS == lanes::word(r, p) & SEVENS
        && (EIGHT..NAME_BYTES).all(|i| byte_like(false, s[q + i], r[p + i]))
}
