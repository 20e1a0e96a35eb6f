// Closing an entry: what call 16 and a move share, and call 16 itself.
#![tactic(auto)]

ghost use Rattle.std.specs.Prelude.{◌≡◌, ◌<◌, length};
ghost use Rattle.format.specs.Diskette.{Bytes, eight_inch, Long};
ghost use Rattle.format.specs.Entries.{entry_at};
ghost use Rattle.format.specs.Fcb.{fcb_bytes};
ghost use Rattle.model.specs.Lent.{lend, outcome};
ghost use Rattle.model.specs.Closing.{closed_map, closed_image, closed_fcb};
ghost use Rattle.table.specs.Own.{calling};
ghost use Rattle.table.specs.OwnStep.{own_step};
ghost use Rattle.chains.specs.Chain.{Findable};
ghost use Rattle.model.specs.declared.Asked.{Asked};

use model::{Answer, Code, Session};

// Entry e takes the FCB's blocks, which become recorded, and its end where that is later.
pub fn close_entry(image: &mut [u8], map: &mut [u16], e: usize, fcb: &[u8])
    requires { Long eight_inch image.old × (length fcb.now ≡ fcb_bytes) × (e < eight_inch.entries) }
    ensures { (image.new ≡ closed_image eight_inch image.old e fcb.now)
        × (map.new ≡ closed_map eight_inch (entry_at eight_inch image.old e) fcb.now map.old) }
{
    if merging::close_keeps(rows::row(image, e), fcb) {
        return;
    }
    let row = rows::copy_row(image, e);
    merging::record_blocks(map, entries::slots(&row), entries::slots(fcb));
    rows::store_row(image, e, merging::closed_row(row, fcb));
}

// f5' and f6' in the FCB are cleared.
#[tactic(auto, unfolding(model::specs::Closing::closed_fcb))]
fn clear_attributes(fcb: &mut [u8])
    requires { length fcb.old ≡ fcb_bytes }
    ensures { fcb.new ≡ closed_fcb fcb.old }
{
    fcb[5] %= 128;
    fcb[6] %= 128;
}

// Call 16, once the disk and the parameters are known to be right. The transfer buffer is not touched.
#[tactic(auto, using(crate::specs::Laws::close_low))]
pub fn close_file(
    image: &mut [u8],
    map: &mut [u16],
    fcb: &mut [u8],
    session: Session,
    chain: &[u8],
) -> Answer
    requires { Findable eight_inch image.old chain.now session.user fcb.old }
    ensures { (asked : Asked) (buffer : Bytes) → outcome result image.new map.new fcb.new buffer
        ≡ own_step eight_inch (calling 16 asked) (lend image.old map.old fcb.old buffer) session }
{
    let Some(e) = current::current_entry(image, map, chain, session.user, fcb) else {
        return answers::refuse(Code::Failed, session);
    };
    close_entry(image, map, e, fcb);
    clear_attributes(fcb);
    answers::done_at(e, session)
}
