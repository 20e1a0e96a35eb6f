// Where a record of an extent lies, and what a write of it leaves in the map and in the FCB.
#![tactic(auto)]

ghost use Rattle.std.specs.Prelude.{◌≡◌, ◌*◌, ◌≤◌, ◌<◌, length};
ghost use Rattle.format.specs.Diskette.{eight_inch, slot_count, extent_records};
ghost use Rattle.format.specs.Fcb.{fcb_bytes};
ghost use Rattle.model.specs.Target.{place_in, written_fcb, written_map};

// The disk record that holds record r of an extent, in block b.
#[tactic(auto, unfolding(model::specs::Target::place_in))]
pub fn place_in(b: usize, r: usize) -> usize
    requires { b < eight_inch.blocks }
    ensures { (result ≡ place_in eight_inch b r) × (result < eight_inch.per_block * eight_inch.blocks) }
{
    format::RECORDS_PER_BLOCK * b + r % format::RECORDS_PER_BLOCK
}

// A block that a slot of 0 takes is noted pending for its entry and slot.
pub fn note_block(map: &mut [u16], fcb: &[u8], t: usize, j: usize, b: usize)
    requires { (length map.old ≡ eight_inch.blocks) × (length fcb.now ≡ fcb_bytes) × (t < eight_inch.entries) × (j < slot_count) × (b < eight_inch.blocks) }
    ensures { map.new ≡ written_map eight_inch map.old fcb.now t j b }
{
    if fcb[16 + j] != 0 {
        return;
    }
    notes::set_note(map, b, notes::pending_note(t, j));
}

// The FCB after a write of record r: the block in its slot, the largest count, and cr. What its entry counts in its extent is handed in.
#[tactic(auto, unfolding(model::specs::Target::written_fcb, model::specs::Target::written_count, format::specs::Entries::with_slot))]
pub fn set_written(fcb: &mut [u8], count: u8, j: usize, b: usize, r: usize, cr: usize)
    requires { (length fcb.old ≡ fcb_bytes) × (j < slot_count) × (b < eight_inch.blocks) × (r < extent_records) × (cr ≤ extent_records) }
    ensures { fcb.new ≡ written_fcb eight_inch fcb.old count j b r cr }
{
    // The numbers fit: the casts lose nothing.
    let rc = entries::count_of(fcb).max(count).max((r + 1) as u8);
    fcb[16 + j] = b as u8;
    fcb[15] = rc;
    fcb[32] = cr as u8;
}
