// What a close makes of an entry's row and of the map: the FCB's blocks are taken and recorded, and its end where that is later.
#![tactic(auto)]

ghost use Rattle.std.specs.Prelude.{◌≡◌, ◌≤◌, ◌<◌, length};
ghost use Rattle.lists.specs.Below.{any_below};
ghost use Rattle.lists.specs.Fold.{fold_below};
ghost use Rattle.format.specs.Diskette.{eight_inch, entry_bytes, slot_bytes, slot_count};
ghost use Rattle.format.specs.Fcb.{fcb_bytes};
ghost use Rattle.model.specs.Closing.{takes_slot_rule, merged_byte_rule, merged_slots, ends_later_rule, later_end_rule, closed_row_rule, closed_note, close_changes_rule};
ghost use Rattle.merging.specs.Merging.{close_keeps_rule};

use std::array;

// Whether slot j takes the FCB's block: the entry has none there, and the FCB has one.
fn takes_slot(es: [u8; 16], fs: [u8; 16], j: usize) -> bool
    requires { j < slot_count }
    ensures { result ≡ takes_slot_rule eight_inch es fs j }
{
    es[j] == 0 && fs[j] != 0
}

// Byte i of the slots after a close: on this disk slot i. A block that the entry has stays.
#[tactic(auto, unfolding(model::specs::Closing::merged_byte_rule, format::specs::Entries::slot_at))]
fn merged_byte(es: [u8; 16], fs: [u8; 16], i: usize) -> u8
    requires { i < slot_bytes }
    ensures { result ≡ merged_byte_rule eight_inch es fs i }
{
    if takes_slot(es, fs, i) {
        return fs[i];
    }
    es[i]
}

// The slots after a close: as they are, where the FCB's are the same.
fn merge(es: [u8; 16], fs: [u8; 16]) -> [u8; 16]
    ensures { result ≡ merged_slots eight_inch es fs }
{
    if slots::slots_same(es, fs) {
        return es;
    }
    array::from_fn(|j| merged_byte(es, fs, j))
}

// Whether an FCB's end is later than a row's. One whose count is 0 has none.
#[tactic(auto, using(crate::specs::Merging::never_later, crate::specs::Merging::later_by))]
fn ends_later(row: &[u8], fcb: &[u8]) -> bool
    requires { (entry_bytes ≤ length row.now) × (entry_bytes ≤ length fcb.now) }
    ensures { result ≡ ends_later_rule row.now fcb.now }
{
    entries::count_of(fcb) != 0 && entries::end_of(row) < entries::end_of(fcb)
}

// A row takes the FCB's end where that is later, and else stays as it is.
fn later_end(row: &mut [u8], fcb: &[u8])
    requires { (entry_bytes ≤ length row.old) × (entry_bytes ≤ length fcb.now) }
    ensures { row.new ≡ later_end_rule row.old fcb.now }
{
    if !ends_later(row, fcb) {
        return;
    }
    row[12] = fcb[12];
    row[14] = fcb[14];
    row[15] = entries::count_of(fcb);
}

// The entry's row after a close.
#[tactic(auto, using(crate::specs::Merging::closed_row_law))]
pub fn closed_row(row: [u8; 32], fcb: &[u8]) -> [u8; 32]
    requires { length fcb.now ≡ fcb_bytes }
    ensures { result ≡ closed_row_rule eight_inch row fcb.now }
{
    let merged = merge(entries::slots(&row), entries::slots(fcb));
    let mut r = row;
    later_end(&mut r, fcb);
    lists::put(&mut r, 16, &merged);
    r
}

// The block that slot j takes becomes recorded; a number past the last block is none.
fn record_block(map: &mut [u16], es: [u8; 16], fs: [u8; 16], j: usize)
    requires { j < slot_count }
    ensures { map.new ≡ closed_note eight_inch es fs map.old j }
{
    if !takes_slot(es, fs, j) {
        return;
    }
    let b = usize::from(fs[j]);
    if b < map.len() {
        notes::set_note(map, b, notes::RECORDED);
    }
}

// The blocks that the entry takes become recorded: none, where the FCB's slots are the same.
pub fn record_blocks(map: &mut [u16], es: [u8; 16], fs: [u8; 16])
    ensures { map.new ≡ fold_below (closed_note eight_inch es fs) map.old slot_count }
{
    if slots::slots_same(es, fs) {
        return;
    }
    for j in 0..format::SLOTS {
        record_block(map, es, fs, j);
    }
}

// Whether a close is seen to leave a row as it is, as most do that a move begins with: the FCB's slots are the row's, and its end is no
// later.
#[tactic(auto, using(lists::specs::Tests::short_circuits), unfolding(crate::specs::Merging::close_keeps_rule))]
pub fn close_keeps(row: &[u8], fcb: &[u8]) -> bool
    requires { (entry_bytes ≤ length row.now) × (entry_bytes ≤ length fcb.now) }
    ensures { result ≡ close_keeps_rule row.now fcb.now }
{
    current::slots_own(row, fcb) && !ends_later(row, fcb)
}

// Whether some slot takes the FCB's block.
fn takes_any(es: [u8; 16], fs: [u8; 16]) -> bool
    ensures { result ≡ any_below (takes_slot_rule eight_inch es fs) slot_count }
{
    (0..format::SLOTS).any(|j| takes_slot(es, fs, j))
}

// Whether a close changes a row: exactly, for a stamp goes by it.
#[tactic(auto, using(lists::specs::Tests::or_right, lists::specs::Tests::or_first), unfolding(model::specs::Closing::close_changes_rule))]
pub fn close_changes(row: &[u8], fcb: &[u8]) -> bool
    requires { (entry_bytes ≤ length row.now) × (entry_bytes ≤ length fcb.now) }
    ensures { result ≡ close_changes_rule eight_inch row.now fcb.now }
{
    ends_later(row, fcb) || takes_any(entries::slots(row), entries::slots(fcb))
}
