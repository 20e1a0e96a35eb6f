// Four and eight bytes as one number. Eight are made of two fours, so that a compiler makes one load of each. Both promise that the
// bytes are bytes too, which a caller needs to tell the lanes apart.
#![tactic(auto)]

ghost use Rattle.std.specs.Prelude.{◌≡◌, ℕ, ◌+◌, ◌≤◌, ◌<◌, length, get_or};
ghost use Rattle.lanes.specs.Lanes.{half_at, word_at};

// Four bytes from `at` on, the first lowest.
#[tactic(auto, using(crate::specs::Lanes::half_sum))]
pub fn half(r: &[u8], at: usize) -> u64
    requires { at + 4 ≤ length r.now }
    ensures { (result ≡ half_at r.now at) × (result < 4294967296) × ((i : ℕ) → i < 4 → get_or r.now (at + i) 0 < 256) }
{
    u64::from(u32::from_le_bytes([r[at], r[at + 1], r[at + 2], r[at + 3]]))
}

// Eight bytes from `at` on, the first lowest. Two halves, for one load of each.
#[tactic(auto, using(crate::specs::Lanes::word_sum, crate::specs::Lanes::word_bytes))]
pub fn word(r: &[u8], at: usize) -> u64
    requires { at + 8 ≤ length r.now }
    ensures { (result ≡ word_at r.now at) × ((i : ℕ) → i < 8 → get_or r.now (at + i) 0 < 256) }
{
    half(r, at) + half(r, at + 4) * 0x100000000
}
