// Entries erased: those that an FCB names become empty, and the blocks that they list, or that are pending for them, free.
#![tactic(auto)]

ghost use Rattle.std.specs.Prelude.{◌≡◌, true, ℕ, ◌≤◌, ◌<◌, length};
ghost use Rattle.format.specs.Diskette.{eight_inch, Long};
ghost use Rattle.format.specs.Entries.{entry_at, named};
ghost use Rattle.format.specs.Notes.{map_right, released_map};
ghost use Rattle.format.specs.Fcb.{fcb_bytes};
ghost use Rattle.model.specs.Calls.{changed_rows, erased_row};
ghost use Rattle.erasing.specs.Erasing.{Erased};

use format::ENTRIES;

// Empties an entry that the FCB names and frees the blocks that it lists; the answer is whether it did.
fn erase_entry(image: &mut [u8], map: &mut [u16], e: usize, user: u8, fcb: &[u8]) -> bool
    requires { Long eight_inch image.old × (length map.old ≡ eight_inch.blocks) × (e < eight_inch.entries) × (length fcb.now ≡ fcb_bytes) }
    ensures { Erased eight_inch (named true user fcb.now 1) image.old map.old e image.new map.new result }
{
    let r = rows::row(image, e);
    if !lookups::is_named(true, user, fcb, 1, r) {
        return false;
    }
    freeing::free_slots(map, entries::slots(r));
    let at = rows::entry_place(e);
    image[at] = 0xE5;
    true
}

// Empties the entries that the FCB names; the blocks that they list, and those that are pending for them, become free.
pub fn erase_entries(image: &mut [u8], map: &mut [u16], user: u8, fcb: &[u8])
    requires { Long eight_inch image.old × (length map.old ≡ eight_inch.blocks) × (length fcb.now ≡ fcb_bytes) × (user ≤ 15)
        × (map_right eight_inch (entry_at eight_inch image.old) map.old ≡ true) }
    ensures { (image.new ≡ changed_rows eight_inch (named true user fcb.now 1) erased_row image.old)
        × (map.new ≡ released_map eight_inch (entry_at eight_inch image.old)
        (λ (e : ℕ). named true user fcb.now 1 (entry_at eight_inch image.old e)) map.old) }
{
    let mut picked = [0u8; ENTRIES];
    for e in 0..ENTRIES {
        picked[e] = u8::from(erase_entry(image, map, e, user, fcb));
    }
    freeing::free_held(map, &picked);
}
