// Rows that are no file's: labels and date entries. Whether they are right, what a label asks, and whether the disk has date entries.
#![tactic(auto)]

ghost use Rattle.std.specs.Prelude.{◌≡◌, ◌+◌, ◌≤◌, ◌<◌, eqb, length};
ghost use Rattle.lists.specs.Tests.{◌and◌};
ghost use Rattle.format.specs.Diskette.{eight_inch, Long, entry_bytes};
ghost use Rattle.format.specs.Entries.{entry_at};
ghost use Rattle.format.specs.Dates.{bcd, stamp_right, label_right_rule, dates_right_rule, dated};
ghost use Rattle.dates.specs.Label.{asks_bit};

// The bits of a label's byte 12 by which it asks for stamps.
pub const CREATE: u8 = 16;

pub const UPDATE: u8 = 32;

pub const ACCESS: u8 = 64;

// A 6, and an 8, for each digit of hour and minute: of a time, as two bytes, and of two stamps that stand one after the other. Where a digit's
// 8 comes with its 4 or its 2, six added to these carries into the 8, and only there.
const TIME_SIXES: u16 = 0x6666;

const TIME_EIGHTS: u16 = 0x8888;

const PAIR_SIXES: u64 = 0x6666000066660000;

const PAIR_EIGHTS: u64 = 0x8888000088880000;

// Whether hour and minute are two decimal digits each. Both are looked at together.
#[tactic(auto, using(crate::specs::Bcd::time_tells), unfolding(crate::specs::Bcd::fault))]
pub fn time_right(hour: u8, minute: u8) -> bool
    ensures { result ≡ (bcd hour and bcd minute) }
{
    let w = u16::from_le_bytes([hour, minute]);
    (w & TIME_SIXES) + TIME_SIXES & w & TIME_EIGHTS == 0
}

// What is wrong with the hours and minutes of the two stamps at a place: 0 where nothing is. All four are looked at together.
fn pair_fault(r: &[u8], at: usize) -> u64
    requires { at + 8 ≤ length r.now }
    ensures { eqb result 0 ≡ (stamp_right r.now at and stamp_right r.now (at + 4)) }
{
    let w = lanes::word(r, at);
    (w & PAIR_SIXES) + PAIR_SIXES & w & PAIR_EIGHTS
}

// Whether a label asks for the stamps of a bit. Any bit may be asked for: the promise holds of every one.
pub fn asks(r: &[u8], what: u8) -> bool
    requires { (entry_bytes ≤ length r.now) × (0 < what) }
    ensures { result ≡ asks_bit what r.now }
{
    r[12] / what % 2 == 1
}

// Whether a row is a label that is right: its own two stamps, and not create and access both asked for.
#[tactic(auto, using(lists::specs::Tests::short_circuits), unfolding(format::specs::Dates::is_label, format::specs::Dates::asks_create, format::specs::Dates::asks_access, format::specs::Dates::label_right_rule))]
pub fn label_right(r: &[u8]) -> bool
    requires { entry_bytes ≤ length r.now }
    ensures { result ≡ label_right_rule r.now }
{
    r[0] == 0x20 && pair_fault(r, 24) == 0 && !(asks(r, CREATE) && asks(r, ACCESS))
}

// Whether a row is a date entry that is right: two stamps for each of the three entries before it.
#[tactic(auto, using(lists::specs::Tests::short_circuits, crate::specs::Bcd::three_tell), unfolding(format::specs::Dates::is_dates, format::specs::Dates::dates_right_rule))]
pub fn dates_right(r: &[u8]) -> bool
    requires { entry_bytes ≤ length r.now }
    ensures { result ≡ dates_right_rule r.now }
{
    r[0] == 0x21 && pair_fault(r, 1) | pair_fault(r, 11) | pair_fault(r, 21) == 0
}

// Whether the disk has date entries: the first position for one tells.
pub fn is_dated(image: &[u8]) -> bool
    requires { Long eight_inch image.now }
    ensures { result ≡ dated (entry_at eight_inch image.now) }
{
    rows::row(image, 3)[0] == 0x21
}
