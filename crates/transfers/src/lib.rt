// One record read or written, in the extent that the FCB has come to.
#![tactic(auto)]

ghost use Rattle.std.specs.Prelude.{◌≡◌, ◌≤◌, ◌<◌, length};
ghost use Rattle.format.specs.Diskette.{Bytes, eight_inch, Long, record_bytes, slot_count, extent_records};
ghost use Rattle.format.specs.Entries.{entry_at, extent_of};
ghost use Rattle.format.specs.Fcb.{fcb_bytes};
ghost use Rattle.model.specs.Lent.{lend, AllLong};
ghost use Rattle.model.specs.Target.{have_read, have_written};

// Reading record r of the extent that the FCB has come to, in block b.
#[tactic(auto, unfolding(model::specs::Target::have_read))]
pub fn read_at(image: &[u8], fcb: &mut [u8], buffer: &mut [u8], b: usize, r: usize, cr: usize)
    requires { Long eight_inch image.now × (length fcb.old ≡ fcb_bytes) × (length buffer.old ≡ record_bytes) × (b < eight_inch.blocks)
        × (cr ≤ extent_records) }
    ensures { (map : Bytes) → lend image.now map fcb.new buffer.new
        ≡ have_read eight_inch b r cr (lend image.now map fcb.old buffer.old) }
{
    disk::read_record(image, placing::place_in(b, r), buffer);
    // The number fits: the cast loses nothing.
    fcb[32] = cr as u8;
}

// Writing record r of the extent that the FCB has come to, entry t's own, in slot j and block b.
#[tactic(auto, using(facts::specs::Counts::count_there_law), unfolding(model::specs::Target::have_written))]
pub fn write_at(
    image: &mut [u8],
    map: &mut [u16],
    fcb: &mut [u8],
    buffer: &[u8],
    t: usize,
    j: usize,
    b: usize,
    r: usize,
    cr: usize,
)
    requires { (t < eight_inch.entries) × (j < slot_count) × (b < eight_inch.blocks) × (r < extent_records) × (cr ≤ extent_records)
        × (extent_of fcb.old ≡ extent_of (entry_at eight_inch image.old t)) × AllLong eight_inch (lend image.old map.old fcb.old buffer.now) }
    ensures { lend image.new map.new fcb.new buffer.now
        ≡ have_written eight_inch t j b r cr (lend image.old map.old fcb.old buffer.now) }
{
    let count = entries::count_of(rows::row(image, t));
    disk::write_record(image, placing::place_in(b, r), buffer);
    placing::note_block(map, fcb, t, j, b);
    placing::set_written(fcb, count, j, b, r, cr);
}
