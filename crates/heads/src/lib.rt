// The head of a directory entry, its first sixteen bytes: whether they are in range. Every call asks this of every entry, so it is
// written for all sixteen at once.
#![tactic(auto)]

ghost use Rattle.std.specs.Prelude.{◌≡◌, ◌≤◌, length};
ghost use Rattle.lists.specs.Tab.{tab};
ghost use Rattle.format.specs.Diskette.{entry_bytes};
ghost use Rattle.faults.specs.Faults.{head_bytes};
ghost use Rattle.heads.specs.Head.{fields_right_rule, row_right_rule, head_fault};

use faults::HEAD_BYTES;

// What each byte may be, from the user to rc: the bits that count, the lowest and the highest number that they may make, and one
// between that they may not. The specs of `faults` show that these are the rules. Four tables side by side: all sixteen bytes are taken at
// once only where each table is an array of bytes.
const COUNTED: [u8; HEAD_BYTES] = [
    255, 127, 127, 127, 127, 127, 127, 127, 127, 127, 127, 127, 255, 0, 255, 0,
];

const LOWEST: [u8; HEAD_BYTES] = [0, 33, 32, 32, 32, 32, 32, 32, 32, 32, 32, 32, 0, 0, 0, 0];

const HIGHEST: [u8; HEAD_BYTES] = [
    15, 126, 126, 126, 126, 126, 126, 126, 126, 126, 126, 126, 31, 255, 63, 255,
];

const BARRED: [u8; HEAD_BYTES] = [
    255, 63, 63, 63, 63, 63, 63, 63, 63, 63, 63, 63, 255, 255, 255, 255,
];

// What is wrong with each byte of a head, by the tables.
fn head_faults(r: &[u8]) -> [u8; HEAD_BYTES]
    requires { head_bytes ≤ length r.now }
    ensures { result ≡ tab head_bytes (head_fault r.now) }
{
    let mut faults = [0u8; HEAD_BYTES];
    faults::find_faults(r, &COUNTED, &LOWEST, &HIGHEST, &BARRED, &mut faults);
    faults
}

// Whether a row has a user, a name, ex and s2 in range.
#[tactic(auto, using(crate::specs::Head::words_tell))]
pub fn row_right(r: &[u8]) -> bool
    requires { entry_bytes ≤ length r.now }
    ensures { result ≡ row_right_rule r.now }
{
    let faults = head_faults(r);
    lanes::word(&faults, 0) | lanes::word(&faults, 8) == 0
}

// Whether a row or an FCB has a name, ex and s2 in range, whatever its byte 0 is. Two functions: a parameter would say less than their names.
#[tactic(auto, using(crate::specs::Head::fields_tell))]
pub fn fields_right(r: &[u8]) -> bool
    requires { entry_bytes ≤ length r.now }
    ensures { result ≡ fields_right_rule r.now }
{
    let faults = head_faults(r);
    lanes::word(&faults, 0) / 256 | lanes::word(&faults, 8) == 0
}
