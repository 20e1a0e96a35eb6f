// Calls 15, 22 and 35: a file is opened, made, and its size told.
#![tactic(auto)]

ghost use Rattle.std.specs.Prelude.{◌≡◌, false, ◌<◌, length};
ghost use Rattle.format.specs.Diskette.{Bytes, eight_inch, Long};
ghost use Rattle.format.specs.Entries.{entry_at, named};
ghost use Rattle.format.specs.Fcb.{fcb_bytes};
ghost use Rattle.model.specs.Calls.{larger_size_rule, file_size_rule};
ghost use Rattle.model.specs.Lent.{lend, outcome};
ghost use Rattle.table.specs.Own.{calling};
ghost use Rattle.table.specs.OwnStep.{own_step};
ghost use Rattle.chains.specs.Chain.{Findable};
ghost use Rattle.model.specs.declared.Asked.{Asked};

use format::ENTRIES;
use model::{Answer, Code, Session};

// 15: the FCB takes the entry of its name and of the extent that byte 12 gives.
pub fn open_file(image: &[u8], fcb: &mut [u8], session: Session, chain: &[u8]) -> Answer
    requires { Findable eight_inch image.now chain.now session.user fcb.old }
    ensures { (asked : Asked) (map buffer : Bytes) → outcome result image.now map fcb.new buffer
        ≡ own_step eight_inch (calling 15 asked) (lend image.now map fcb.old buffer) session }
{
    if !asking::asks_right(fcb) {
        return answers::refuse(Code::BadName, session);
    }
    let Some(e) = asking::find_asked(image, chain, session.user, fcb) else {
        return answers::refuse(Code::Failed, session);
    };
    entering::enter(fcb, rows::copy_row(image, e));
    answers::done_at(e, session)
}

// 22: the first empty entry becomes the new file's, and the FCB takes it.
pub fn make_file(image: &mut [u8], fcb: &mut [u8], session: Session, chain: &[u8]) -> Answer
    requires { Findable eight_inch image.old chain.now session.user fcb.old }
    ensures { (asked : Asked) (map buffer : Bytes) → outcome result image.new map fcb.new buffer
        ≡ own_step eight_inch (calling 22 asked) (lend image.old map fcb.old buffer) session }
{
    if !asking::asks_right(fcb) {
        return answers::refuse(Code::BadName, session);
    }
    let None = asking::find_asked(image, chain, session.user, fcb) else {
        return answers::refuse(Code::Exists, session);
    };
    let Some(e) = lookups::find_empty(image) else {
        return answers::refuse(Code::Failed, session);
    };
    let row = entering::made_row(session.user, fcb);
    rows::store_row(image, e, row);
    entering::copy_fields(fcb, row);
    answers::done_at(e, session)
}

// The larger of a size and that of an entry, where the entry is of the file.
#[tactic(auto, unfolding(model::specs::Calls::larger_size_rule))]
fn larger_size(image: &[u8], e: usize, user: u8, fcb: &[u8], size: usize) -> usize
    requires { Long eight_inch image.now × (e < eight_inch.entries) × (length fcb.now ≡ fcb_bytes) }
    ensures { result ≡ larger_size_rule (entry_at eight_inch image.now) (named false user fcb.now 1) size e }
{
    let r = rows::row(image, e);
    if !lookups::is_named(false, user, fcb, 1, r) {
        return size;
    }
    size.max(entries::end_of(r))
}

// The size of the file that the FCB names: the largest over its entries.
fn largest_size(image: &[u8], user: u8, fcb: &[u8]) -> usize
    requires { Long eight_inch image.now × (length fcb.now ≡ fcb_bytes) }
    ensures { result ≡ file_size_rule eight_inch (entry_at eight_inch image.now) (named false user fcb.now 1) }
{
    (0..ENTRIES).fold(0, |size, e| larger_size(image, e, user, fcb, size))
}

// 35: the size of the file that the FCB names, in r0 to r2.
pub fn file_size(image: &[u8], fcb: &mut [u8], session: Session) -> Answer
    requires { Long eight_inch image.now × (length fcb.old ≡ fcb_bytes) }
    ensures { (asked : Asked) (map buffer : Bytes) → outcome result image.now map fcb.new buffer
        ≡ own_step eight_inch (calling 35 asked) (lend image.now map fcb.old buffer) session }
{
    if !names::name_right(false, fcb, 1) {
        return answers::refuse(Code::BadName, session);
    }
    let Some(_) = lookups::find_named(image, false, session.user, fcb, 1) else {
        return answers::refuse(Code::Failed, session);
    };
    let size = largest_size(image, session.user, fcb);
    lists::put_three(fcb, 33, size);
    answers::done(0, session)
}
