// The map against the directory: whether it is right.
#![tactic(auto)]

ghost use Rattle.std.specs.Prelude.{◌≡◌, not, cond, ◌<◌, eqb, length};
ghost use Rattle.format.specs.Diskette.{eight_inch, Long};
ghost use Rattle.format.specs.Entries.{entry_at};
ghost use Rattle.facts.specs.Marks.{Marked, mark_count};
ghost use Rattle.format.specs.Notes.{held_by_used_rule, note_right_rule, map_right};
ghost use Rattle.fresh.specs.Note.{told_note_rule};
ghost use Rattle.maps.specs.Told.{difference_count, area_right_rule};

// Whether a note is pending for a used entry.
#[tactic(auto, using(notes::specs::Held::holder_low))]
fn held_by_used(n: u16, image: &[u8]) -> bool
    requires { Long eight_inch image.now }
    ensures { result ≡ held_by_used_rule eight_inch (entry_at eight_inch image.now) n }
{
    let Some(e) = notes::holder(n) else {
        return false;
    };
    rows::row(image, e)[0] <= 15
}

// Whether block b has a note that is right.
#[tactic(auto, using(lists::specs::Tests::short_circuits, crate::specs::Told::right_area, crate::specs::Told::right_recorded, crate::specs::Told::right_spare))]
fn note_right(b: usize, n: u16, marks: &[u8], image: &[u8]) -> bool
    requires { (length marks.now ≡ mark_count) × Long eight_inch image.now × (b < eight_inch.blocks) }
    ensures { Marked eight_inch (entry_at eight_inch image.now) marks.now
        → result ≡ note_right_rule eight_inch (entry_at eight_inch image.now) b n }
{
    if b < format::AREA_BLOCKS {
        return n == notes::AREA;
    }
    if marks[b] != 0 {
        return n == notes::RECORDED;
    }
    if n == notes::FREE {
        return true;
    }
    held_by_used(n, image)
}

// Whether every note is right, asked note by note.
fn notes_right(map: &[u16], marks: &[u8], image: &[u8]) -> bool
    requires { (length map.now ≡ eight_inch.blocks) × (length marks.now ≡ mark_count) × Long eight_inch image.now }
    ensures { Marked eight_inch (entry_at eight_inch image.now) marks.now
        → result ≡ map_right eight_inch (entry_at eight_inch image.now) map.now }
{
    (0..format::BLOCKS).all(|b| note_right(b, map[b], marks, image))
}

// Whether the directory's blocks have its note.
fn area_right(map: &[u16]) -> bool
    requires { length map.now ≡ eight_inch.blocks }
    ensures { result ≡ area_right_rule eight_inch map.now }
{
    (0..format::AREA_BLOCKS).all(|b| map[b] == notes::AREA)
}

// 1 where a note past the directory is not the fresh one of a block with this mark, or 0.
fn difference(n: u16, mark: u8) -> u16
    ensures { result ≡ cond (not (eqb n (told_note_rule mark))) 1 0 }
{
    u16::from(n != fresh::told_note(mark))
}

// How many notes past the directory are not the fresh ones. No turn leaves the sum or branches, so that the notes are compared many at
// a time.
fn differences(map: &[u16], marks: &[u8]) -> u16
    requires { (length map.now ≡ eight_inch.blocks) × (length marks.now ≡ mark_count) }
    ensures { result ≡ difference_count eight_inch map.now marks.now }
{
    (format::AREA_BLOCKS..format::BLOCKS)
        .map(|b| difference(map[b], marks[b]))
        .sum()
}

// Whether the map is right for the image whose listed blocks are marked. Most maps are the fresh one: only where notes differ from it,
// as pending ones do, is each asked for by itself.
#[tactic(auto, using(crate::specs::Told::area_wrong, crate::specs::Told::same_right))]
pub fn map_right(map: &[u16], marks: &[u8], image: &[u8]) -> bool
    requires { (length map.now ≡ eight_inch.blocks) × (length marks.now ≡ mark_count) × Long eight_inch image.now }
    ensures { Marked eight_inch (entry_at eight_inch image.now) marks.now
        → result ≡ map_right eight_inch (entry_at eight_inch image.now) map.now }
{
    if !area_right(map) {
        return false;
    }
    if differences(map, marks) == 0 {
        return true;
    }
    notes_right(map, marks, image)
}
