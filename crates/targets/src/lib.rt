// Where the record calls 20, 21, 33 and 34 go: the target, its entry, and its slot and count as the FCB will have them there.
#![tactic(auto)]

ghost use Rattle.std.specs.Prelude.{◌≡◌, ◌<◌, length, Some};
ghost use Rattle.format.specs.Diskette.{eight_inch, Long, slot_count};
ghost use Rattle.format.specs.Entries.{entry_at, extent_of, find_file_rule};
ghost use Rattle.format.specs.Fcb.{fcb_bytes, random_of_rule};
ghost use Rattle.chains.specs.Chain.{Findable};
ghost use Rattle.targets.specs.Target.{TargetOf, over_last_rule, missing_code, arrived_slot_rule, arrived_count_rule, go_to_rule};

use format::Found;
use model::{Code, Plan};

// Where a record call goes: the extent, the record in it, and cr afterwards.
#[derive(Clone, Copy)]
pub struct Target {
    pub extent: usize,
    pub at: usize,
    pub after: usize,
}

// The random record number of an FCB, as its three bytes give it: in range or not.
fn random_of(fcb: &[u8]) -> usize
    requires { length fcb.now ≡ fcb_bytes }
    ensures { (result ≡ random_of_rule fcb.now) × (result < 16777216) }
{
    lists::three(fcb, 33)
}

// The target of a record call.
pub fn target_of(number: u8, fcb: &[u8]) -> Target
    requires { length fcb.now ≡ fcb_bytes }
    ensures { TargetOf number fcb.now result }
{
    if calls::is_random(number) {
        let r = random_of(fcb);
        let at = r % format::EXTENT_RECORDS;
        return Target {
            extent: r / format::EXTENT_RECORDS,
            at,
            after: at,
        };
    }
    let cr = usize::from(fcb[32]);
    let extent = entries::extent(fcb);
    if cr == format::EXTENT_RECORDS {
        return Target {
            extent: extent + 1,
            at: 0,
            after: 1,
        };
    }
    Target {
        extent,
        at: cr,
        after: cr + 1,
    }
}

// Whether a random record is over the last one.
pub fn over_last(number: u8, extent: usize) -> bool
    ensures { result ≡ over_last_rule number extent }
{
    calls::is_random(number) && format::EXTENTS <= extent
}

// The code of a call whose target has no entry, where that refuses it: 33 and 34 have codes of their own.
#[tactic(auto, unfolding(crate::specs::Target::missing_code))]
pub fn missing(number: u8, random: Code) -> Code
    ensures { result ≡ missing_code number random }
{
    if calls::is_random(number) {
        return random;
    }
    Code::NoRecord
}

// The target's entry, where e is the FCB's: the same one where there is no move, so that only a move looks it up.
pub fn target_entry(
    image: &[u8],
    chain: &[u8],
    user: u8,
    fcb: &[u8],
    e: usize,
    extent: usize,
) -> Found
    requires { (find_file_rule eight_inch (entry_at eight_inch image.now) user fcb.now 1 (extent_of fcb.now) ≡ Some e)
        × Findable eight_inch image.now chain.now user fcb.now }
    ensures { result ≡ find_file_rule eight_inch (entry_at eight_inch image.now) user fcb.now 1 extent }
{
    if entries::extent(fcb) == extent {
        return Some(e);
    }
    chains::find_file(image, chain, user, fcb, 1, extent)
}

// Slot j as the FCB has it once it has come from entry e to entry t.
#[tactic(auto, using(facts::specs::Slots::slot_byte), unfolding(crate::specs::Target::arrived_slot_rule))]
pub fn arrived_slot(image: &[u8], fcb: &[u8], e: usize, t: usize, j: usize) -> u8
    requires { Long eight_inch image.now × (length fcb.now ≡ fcb_bytes) × (t < eight_inch.entries) × (j < slot_count) }
    ensures { result ≡ arrived_slot_rule eight_inch (entry_at eight_inch image.now) fcb.now e t j }
{
    if t == e {
        return fcb[16 + j];
    }
    rows::row(image, t)[16 + j]
}

// The larger of the counts that the FCB, come from entry e to entry t, and that entry have.
#[tactic(auto, unfolding(crate::specs::Target::arrived_count_rule))]
pub fn arrived_count(image: &[u8], fcb: &[u8], e: usize, t: usize) -> u8
    requires { Long eight_inch image.now × (length fcb.now ≡ fcb_bytes) × (t < eight_inch.entries) }
    ensures { result ≡ arrived_count_rule (entry_at eight_inch image.now) fcb.now e t }
{
    let count = entries::count_of(rows::row(image, t));
    if t == e {
        return entries::count_of(fcb).max(count);
    }
    count
}

// The plan of a call whose target has an entry: there is a move where it is another than the FCB's.
#[tactic(auto, unfolding(crate::specs::Target::go_to_rule))]
pub fn go_to(e: usize, t: usize, b: usize) -> Plan
    ensures { result ≡ go_to_rule e t b }
{
    if t == e {
        return Plan::Stay(e, b);
    }
    Plan::Move(e, t, b)
}
