// The diskette: where disk records lie in the image, and copies of them.
#![tactic(auto)]

ghost use Rattle.std.specs.Prelude.{◌≡◌, ◌+◌, ◌*◌, ◌≤◌, ◌<◌, length};
ghost use Rattle.format.specs.Diskette.{eight_inch, skewed, offset_of, record_bytes, Long, image_bytes, record_at, with_record};

// The physical sector of a logical one, computed: each lies six on from the one before, around the track, and the second thirteen, which
// would fall on the first, one further. The published table says the same (`skewed-computed`). Only this function knows of the order.
#[tactic(auto, using(crate::specs::Eight::skewed_computed, crate::specs::Eight::skewed_high))]
fn physical(s: usize) -> usize
    requires { s < eight_inch.sectors }
    ensures { (result ≡ skewed s) × (1 ≤ result) × (result ≤ eight_inch.sectors) }
{
    6 * s % format::SECTORS + s / 13 + 1
}

// The place in the image of a disk record.
#[tactic(auto, unfolding(format::specs::Diskette::offset_of, format::specs::Diskette::sectors_before))]
pub fn offset(d: usize) -> usize
    requires { d < eight_inch.per_block * eight_inch.blocks }
    ensures { (result ≡ offset_of eight_inch d) × (result + record_bytes ≤ image_bytes eight_inch) }
{
    let track = format::RESERVED_TRACKS + d / format::SECTORS;
    let sector = physical(d % format::SECTORS);
    (format::SECTORS * track + sector - 1) * format::RECORD_BYTES
}

// Copies a disk record into the buffer.
#[tactic(auto, unfolding(format::specs::Diskette::record_at))]
pub fn read_record(image: &[u8], d: usize, buf: &mut [u8])
    requires { Long eight_inch image.now × (d < eight_inch.per_block * eight_inch.blocks) × (length buf.old ≡ record_bytes) }
    ensures { buf.new ≡ record_at eight_inch image.now d }
{
    let at = offset(d);
    lists::get(image, at, buf);
}

// Copies the buffer into a disk record.
#[tactic(auto, unfolding(format::specs::Diskette::with_record))]
pub fn write_record(image: &mut [u8], d: usize, buf: &[u8])
    requires { Long eight_inch image.old × (d < eight_inch.per_block * eight_inch.blocks) × (length buf.now ≡ record_bytes) }
    ensures { image.new ≡ with_record eight_inch image.old d buf.now }
{
    let at = offset(d);
    lists::put(image, at, buf);
}
