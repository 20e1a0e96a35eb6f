// Blocks that become free: all that are pending, those that slots list, and those that are pending for some entries.
#![tactic(auto)]

ghost use Rattle.std.specs.Prelude.{◌≡◌, length};
ghost use Rattle.format.specs.Diskette.{eight_inch};
ghost use Rattle.format.specs.Notes.{settled_note_rule, freed_map, held_for_rule};
ghost use Rattle.freeing.specs.Freeing.{unlisted_slot, unlisted_map, unheld_note_rule, unheld_map, marks_pick};

// The note without what is pending.
#[tactic(auto, unfolding(format::specs::Notes::settled_note_rule, format::specs::Notes::is_pending))]
fn settled_note(n: u16) -> u16
    ensures { result ≡ settled_note_rule n }
{
    if usize::from(n) < notes::PENDING {
        return n;
    }
    notes::FREE
}

// Every pending note becomes free.
pub fn free_pending(map: &mut [u16])
    requires { length map.old ≡ eight_inch.blocks }
    ensures { map.new ≡ freed_map eight_inch map.old }
{
    for b in 0..format::BLOCKS {
        let note = settled_note(map[b]);
        notes::set_note(map, b, note);
    }
}

// Whether a note is pending for an entry whose mark is not 0.
fn held_for(n: u16, marks: &[u8]) -> bool
    requires { length marks.now ≡ eight_inch.entries }
    ensures { result ≡ held_for_rule (marks_pick marks.now) n }
{
    let Some(e) = notes::holder(n) else {
        return false;
    };
    marks[e] != 0
}

// The block that a slot lists becomes free; a slot of 0, or past the last block, lists none.
fn free_slot(map: &mut [u16], slot: u8)
    requires { length map.old ≡ eight_inch.blocks }
    ensures { map.new ≡ unlisted_slot map.old slot }
{
    if slot == 0 {
        return;
    }
    let b = usize::from(slot);
    if b < format::BLOCKS {
        notes::set_note(map, b, notes::FREE);
    }
}

// The blocks that the slots list become free.
pub fn free_slots(map: &mut [u16], slots: [u8; 16])
    requires { length map.old ≡ eight_inch.blocks }
    ensures { map.new ≡ unlisted_map eight_inch slots map.old }
{
    for slot in slots {
        free_slot(map, slot);
    }
}

// The note without what is pending for the picked entries.
#[tactic(auto, unfolding(crate::specs::Freeing::unheld_note_rule))]
fn unheld_note(n: u16, picked: &[u8]) -> u16
    requires { length picked.now ≡ eight_inch.entries }
    ensures { result ≡ unheld_note_rule (marks_pick picked.now) n }
{
    if held_for(n, picked) {
        return notes::FREE;
    }
    n
}

// The blocks that are pending for the picked entries, those whose mark is not 0, become free.
pub fn free_held(map: &mut [u16], picked: &[u8])
    requires { (length map.old ≡ eight_inch.blocks) × (length picked.now ≡ eight_inch.entries) }
    ensures { map.new ≡ unheld_map eight_inch (marks_pick picked.now) map.old }
{
    for b in 0..format::BLOCKS {
        let note = unheld_note(map[b], picked);
        notes::set_note(map, b, note);
    }
}
