// The name rule.
#![tactic(auto)]

ghost use Rattle.std.specs.Prelude.{◌≡◌, not, cond, ◌+◌, ◌≤◌, length};
ghost use Rattle.format.specs.Names.{name_bytes, name_byte_rule, name_right_rule};

use format::NAME_BYTES;

// Whether a name may hold the byte: 20H to 7EH in the low seven bits, and 3FH only in a pattern.
#[tactic(auto, using(crate::proofs::Bytes::under, crate::proofs::Bytes::over, crate::proofs::Bytes::letter, crate::proofs::Bytes::any))]
fn name_byte(wild: bool, b: u8) -> bool
    ensures { result ≡ name_byte_rule wild b }
{
    let low = b % 128;
    32 <= low && low <= 126 && (wild || low != 63)
}

// 1 where a name may not hold the byte, or else 0.
fn name_fault(wild: bool, b: u8) -> u8
    ensures { (result ≡ cond (not (name_byte_rule wild b)) 1 0) × (result ≤ 1) }
{
    u8::from(!name_byte(wild, b))
}

// Whether the eleven bytes from `at` on obey the name rule. Their faults are counted: that takes several bytes at a time, where an
// early return would branch at each.
#[tactic(auto, using(lists::specs::Count::counts, lists::specs::Tests::short_circuits), unfolding(format::specs::Names::name_right_rule))]
pub fn name_right(wild: bool, r: &[u8], at: usize) -> bool
    requires { at + name_bytes ≤ length r.now }
    ensures { result ≡ name_right_rule wild r.now at }
{
    let mut faults: u8 = 0;
    for i in 0..NAME_BYTES {
        faults += name_fault(wild, r[at + i]);
    }
    faults == 0 && r[at] % 128 != 32
}
