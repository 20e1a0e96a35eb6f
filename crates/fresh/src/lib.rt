// The fresh map: the notes of a directory whose listed blocks are marked, with nothing pending.
#![tactic(auto)]

ghost use Rattle.std.specs.Prelude.{◌≡◌, ◌<◌, length};
ghost use Rattle.format.specs.Diskette.{eight_inch};
ghost use Rattle.format.specs.Entries.{Rows};
ghost use Rattle.facts.specs.Marks.{Marked, mark_count};
ghost use Rattle.format.specs.Notes.{fresh_note_rule, fresh_map};
ghost use Rattle.fresh.specs.Note.{told_note_rule};

// The fresh note of a block past the directory, which its mark tells.
#[tactic(auto, unfolding(crate::specs::Note::told_note_rule))]
pub fn told_note(mark: u8) -> u16
    ensures { result ≡ told_note_rule mark }
{
    if mark == 0 {
        return notes::FREE;
    }
    notes::RECORDED
}

// The fresh note of block b.
fn fresh_note(b: usize, marks: &[u8]) -> u16
    requires { (length marks.now ≡ mark_count) × (b < eight_inch.blocks) }
    ensures { (d : Rows) → Marked eight_inch d marks.now → result ≡ fresh_note_rule eight_inch d b }
{
    if b < format::AREA_BLOCKS {
        return notes::AREA;
    }
    told_note(marks[b])
}

// The fresh map of the directory whose listed blocks are marked.
pub fn make_fresh(map: &mut [u16], marks: &[u8])
    requires { (length map.old ≡ eight_inch.blocks) × (length marks.now ≡ mark_count) }
    ensures { (d : Rows) → Marked eight_inch d marks.now → map.new ≡ fresh_map eight_inch d }
{
    for b in 0..format::BLOCKS {
        notes::set_note(map, b, fresh_note(b, marks));
    }
}
