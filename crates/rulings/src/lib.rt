// The record calls decided, by the state as it came: refused with a code, or told a plan. Nothing is changed here.
#![tactic(auto)]

ghost use Rattle.std.specs.Prelude.{◌≡◌, ◌<◌, length};
ghost use Rattle.format.specs.Diskette.{Bytes, eight_inch, Long, slot_count};
ghost use Rattle.format.specs.Entries.{entry_at};
ghost use Rattle.format.specs.Fcb.{fcb_bytes};
ghost use Rattle.model.specs.Lent.{lend};
ghost use Rattle.chains.specs.Chain.{Findable};
ghost use Rattle.targets.specs.Target.{TargetOf};
ghost use Rattle.rulings.specs.Ruling.{read_to_rule, read_from, Among, guarded, block_for_rule, write_new_rule, write_to_rule, write_from, ruling};

use format::Found;
use model::{Code, Plan};
use targets::Target;

// Reading record r of an extent that has entry t, in slot j.
fn read_to(image: &[u8], fcb: &[u8], e: usize, t: usize, j: usize, r: usize) -> Result<Plan, Code>
    requires { Long eight_inch image.now × (length fcb.now ≡ fcb_bytes) × (t < eight_inch.entries) × (j < slot_count) }
    ensures { result ≡ read_to_rule eight_inch (entry_at eight_inch image.now) fcb.now e t j r }
{
    if usize::from(targets::arrived_count(image, fcb, e, t)) <= r {
        return Err(Code::NoRecord);
    }
    let slot = targets::arrived_slot(image, fcb, e, t, j);
    if slot == 0 {
        return Err(Code::NoRecord);
    }
    Ok(targets::go_to(e, t, usize::from(slot)))
}

// What a read is told once the FCB's entry e is known, and the target's as it was looked up.
fn rule_read(
    number: u8,
    at: usize,
    image: &[u8],
    fcb: &[u8],
    e: usize,
    j: usize,
    target: Found,
) -> Result<Plan, Code>
    requires { Long eight_inch image.now × (length fcb.now ≡ fcb_bytes) × (j < slot_count) × Among eight_inch.entries target }
    ensures { result ≡ read_from eight_inch (entry_at eight_inch image.now) fcb.now number e j at target }
{
    let Some(t) = target else {
        return Err(targets::missing(number, Code::NoExtent));
    };
    read_to(image, fcb, e, t, j, at)
}

// Whether t1' is set in the FCB's entry or in the target's.
#[tactic(auto, using(lists::specs::Tests::short_circuits), unfolding(crate::specs::Ruling::guarded))]
fn is_guarded(image: &[u8], e: usize, target: Found) -> bool
    requires { Long eight_inch image.now × (e < eight_inch.entries) × Among eight_inch.entries target }
    ensures { result ≡ guarded (entry_at eight_inch image.now) e target }
{
    if entries::is_read_only(rows::row(image, e)) {
        return true;
    }
    let Some(t) = target else {
        return false;
    };
    entries::is_read_only(rows::row(image, t))
}

// The block for a slot: its own, or the first free one where it has none.
#[tactic(auto, unfolding(crate::specs::Ruling::block_for_rule))]
fn block_for(map: &[u16], slot: u8) -> Found
    requires { length map.now ≡ eight_inch.blocks }
    ensures { result ≡ block_for_rule eight_inch map.now slot }
{
    if slot == 0 {
        return notes::first_free(map);
    }
    Some(usize::from(slot))
}

// Writing into an extent that has no entry: one is made in the first empty place.
#[tactic(auto, unfolding(crate::specs::Ruling::write_new_rule))]
fn write_new(image: &[u8], map: &[u16], code: Code, e: usize) -> Result<Plan, Code>
    requires { Long eight_inch image.now × (length map.now ≡ eight_inch.blocks) }
    ensures { result ≡ write_new_rule eight_inch (entry_at eight_inch image.now) map.now code e }
{
    let Some(t) = lookups::find_empty(image) else {
        return Err(code);
    };
    let Some(b) = notes::first_free(map) else {
        return Err(Code::DiskFull);
    };
    Ok(Plan::Make(e, t, b))
}

// Writing into slot j of the target's entry. A move goes by the slot of the entry moved to, not by the FCB's.
fn write_to(
    image: &[u8],
    map: &[u16],
    fcb: &[u8],
    code: Code,
    e: usize,
    j: usize,
    target: Found,
) -> Result<Plan, Code>
    requires { Long eight_inch image.now × (length map.now ≡ eight_inch.blocks) × (length fcb.now ≡ fcb_bytes) × (j < slot_count)
        × Among eight_inch.entries target }
    ensures { result ≡ write_to_rule eight_inch (entry_at eight_inch image.now) map.now fcb.now code e j target }
{
    let Some(t) = target else {
        return write_new(image, map, code, e);
    };
    let Some(b) = block_for(map, targets::arrived_slot(image, fcb, e, t, j)) else {
        return Err(Code::DiskFull);
    };
    Ok(targets::go_to(e, t, b))
}

// What a write is told once the FCB's entry e is known, and the target's as it was looked up.
#[tactic(auto, unfolding(crate::specs::Ruling::write_from))]
fn rule_write(
    number: u8,
    extent: usize,
    image: &[u8],
    map: &[u16],
    fcb: &[u8],
    e: usize,
    j: usize,
    target: Found,
) -> Result<Plan, Code>
    requires { Long eight_inch image.now × (length map.now ≡ eight_inch.blocks) × (length fcb.now ≡ fcb_bytes) × (e < eight_inch.entries) × (j < slot_count)
        × Among eight_inch.entries target }
    ensures { result ≡ write_from eight_inch (entry_at eight_inch image.now) map.now fcb.now number e j extent target }
{
    if is_guarded(image, e, target) {
        return Err(Code::ReadOnly);
    }
    if format::EXTENTS <= extent {
        return Err(Code::NoRecord);
    }
    let code = targets::missing(number, Code::NoEntry);
    write_to(image, map, fcb, code, e, j, target)
}

// What a record call is told.
pub fn rule(
    number: u8,
    target: Target,
    image: &[u8],
    map: &[u16],
    chain: &[u8],
    fcb: &[u8],
    user: u8,
) -> Result<Plan, Code>
    requires { (length map.now ≡ eight_inch.blocks) × TargetOf number fcb.now target × Findable eight_inch image.now chain.now user fcb.now }
    ensures { (buffer : Bytes) → result ≡ ruling eight_inch number user (lend image.now map.now fcb.now buffer) }
{
    let Target { extent, at, .. } = target;
    if targets::over_last(number, extent) {
        return Err(Code::BadRecord);
    }
    let Some(e) = current::current_entry(image, map, chain, user, fcb) else {
        return Err(Code::NotCurrent);
    };
    let found = targets::target_entry(image, chain, user, fcb, e, extent);
    let j = entries::slot_for(extent, at);
    if calls::writes(number) {
        return rule_write(number, extent, image, map, fcb, e, j, found);
    }
    rule_read(number, at, image, fcb, e, j, found)
}
