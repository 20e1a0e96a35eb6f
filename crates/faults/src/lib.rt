// What is wrong with the bytes of a head, each held against a lowest, a highest and a barred number.
#![tactic(auto)]

ghost use Rattle.std.specs.Prelude.{◌≡◌, ℕ, ◌≤◌, length, get_or};
ghost use Rattle.std.specs.Int.Bits.{bit_and};
ghost use Rattle.lists.specs.Tab.{tab};
ghost use Rattle.faults.specs.Faults.{head_bytes, fault_of};

// The head of an entry: all but its slots.
pub const HEAD_BYTES: usize = 16;

// What is wrong with a number: 0 where nothing is.
#[tactic(auto, unfolding(crate::specs::Faults::fault_of))]
fn fault(x: u8, lowest: u8, highest: u8, barred: u8) -> u8
    ensures { result ≡ fault_of x lowest highest barred }
{
    x.saturating_sub(highest) | lowest.saturating_sub(x) | u8::from(x == barred)
}

// What is wrong with each byte of a head, as the tables say. They are lent, not named: so all bytes are treated alike, and a compiler
// takes them together.
#[tactic(auto, using(lists::specs::Tab::fills))]
pub fn find_faults(
    r: &[u8],
    counted: &[u8],
    lowest: &[u8],
    highest: &[u8],
    barred: &[u8],
    out: &mut [u8],
)
    requires { (head_bytes ≤ length r.now) × (length counted.now ≡ head_bytes) × (length lowest.now ≡ head_bytes)
        × (length highest.now ≡ head_bytes) × (length barred.now ≡ head_bytes) × (length out.old ≡ head_bytes) }
    ensures { out.new ≡ tab head_bytes (λ (i : ℕ). fault_of (bit_and (get_or r.now i 0) (get_or counted.now i 0))
        (get_or lowest.now i 0) (get_or highest.now i 0) (get_or barred.now i 0)) }
{
    for i in 0..HEAD_BYTES {
        out[i] = fault(r[i] & counted[i], lowest[i], highest[i], barred[i]);
    }
}
