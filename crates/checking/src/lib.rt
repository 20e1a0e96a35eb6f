// Row 255, 1 of the table, which every call is asked: whether the disk is right.
#![tactic(auto)]

ghost use Rattle.std.specs.Prelude.{◌≡◌, true, length};
ghost use Rattle.format.specs.Diskette.{Bytes, eight_inch, Long};
ghost use Rattle.format.specs.Entries.{entry_at};
ghost use Rattle.facts.specs.Marks.{Marked};
ghost use Rattle.model.specs.Lent.{lend};
ghost use Rattle.model.specs.Table.{disk_right_rule};
ghost use Rattle.dates.specs.Label.{Labelled};
ghost use Rattle.chains.specs.Chain.{Indexed};
ghost use Rattle.consistent.specs.Held.{StillLent};

use consistent::Seen;
use model::Asked;

// Whether the image is consistent and, except for 13, the map right. Where they are, the marks tell which blocks are listed, the chain has
// the entries by their keys, and the label is found.
pub fn disk_right(asked: Asked, image: &[u8], map: &[u16], seen: &mut Seen) -> bool
    requires { Long eight_inch image.now × (length map.now ≡ eight_inch.blocks) }
    ensures still_lent { StillLent seen.old seen.new }
    ensures tells { ((fcb buffer : Bytes) → result ≡ disk_right_rule eight_inch (lend image.now map.now fcb buffer) asked)
        × (result ≡ true → Marked eight_inch (entry_at eight_inch image.now) seen.new.marks.now
        × Indexed eight_inch (entry_at eight_inch image.now) seen.new.chain.now
        × Labelled (entry_at eight_inch image.now) eight_inch.entries seen.new.label) }
{
    if !consistent::is_consistent(image, seen) {
        return false;
    }
    if asked.number != 13 {
        return maps::map_right(map, seen.marks, image);
    }
    true
}
