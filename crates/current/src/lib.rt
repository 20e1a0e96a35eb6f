// When an FCB is current: its fields are in range, it has an entry, and each of its slots is the entry's or pending for it.
#![tactic(auto)]

ghost use Rattle.std.specs.Prelude.{◌≡◌, ◌≤◌, length};
ghost use Rattle.format.specs.Diskette.{eight_inch, entry_bytes};
ghost use Rattle.format.specs.Entries.{entry_at, slots_of};
ghost use Rattle.format.specs.Fcb.{fcb_bytes, fcb_right_rule, current};
ghost use Rattle.slots.specs.Slots.{slots_same_rule};
ghost use Rattle.chains.specs.Chain.{Findable};

use format::Found;

// Whether an FCB's name, ex, s2 and cr are in range.
fn fcb_right(fcb: &[u8]) -> bool
    requires { length fcb.now ≡ fcb_bytes }
    ensures { result ≡ fcb_right_rule fcb.now }
{
    heads::fields_right(fcb) && fcb[32] <= 128
}

// Whether an FCB's slots are simply the entry's own, as they are as a rule. The arrays stay in this function: handed on by value they
// would be taken apart, byte by byte.
pub fn slots_own(row: &[u8], fcb: &[u8]) -> bool
    requires { (entry_bytes ≤ length row.now) × (entry_bytes ≤ length fcb.now) }
    ensures { result ≡ slots_same_rule (slots_of row.now) (slots_of fcb.now) }
{
    let mut es = [0u8; 16];
    entries::copy_slots(row, &mut es);
    let mut fs = [0u8; 16];
    entries::copy_slots(fcb, &mut fs);
    slots::same(&es, &fs)
}

// The entry of a current FCB.
pub fn current_entry(image: &[u8], map: &[u16], chain: &[u8], user: u8, fcb: &[u8]) -> Found
    requires { Findable eight_inch image.now chain.now user fcb.now }
    ensures { result ≡ current eight_inch (entry_at eight_inch image.now) map.now user fcb.now }
{
    if !fcb_right(fcb) {
        return None;
    }
    let Some(e) = chains::find_file(image, chain, user, fcb, 1, entries::extent(fcb)) else {
        return None;
    };
    let row = rows::row(image, e);
    let fits = slots_own(row, fcb)
        || slots::slots_fit(map, e, entries::slots(row), entries::slots(fcb));
    fits.then_some(e)
}
