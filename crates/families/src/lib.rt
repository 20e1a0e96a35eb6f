// Calls 19 and 23, which change every extent of the files that they name: these are deleted or renamed.
#![tactic(auto)]

ghost use Rattle.std.specs.Prelude.{◌≡◌, true, false, ◌≤◌, ◌<◌, length};
ghost use Rattle.lists.specs.Tests.{◌and◌};
ghost use Rattle.format.specs.Diskette.{Bytes, eight_inch, Long, entry_bytes};
ghost use Rattle.format.specs.Entries.{entry_at, named, read_only};
ghost use Rattle.format.specs.Notes.{map_right};
ghost use Rattle.format.specs.Fcb.{fcb_bytes};
ghost use Rattle.model.specs.Lent.{lend, outcome};
ghost use Rattle.model.specs.Table.{any_read_only_rule};
ghost use Rattle.model.specs.Entering.{renamed_row_rule};
ghost use Rattle.model.specs.Calls.{changed_row, changed_rows};
ghost use Rattle.table.specs.Own.{calling};
ghost use Rattle.table.specs.OwnStep.{own_step};
ghost use Rattle.model.specs.declared.Asked.{Asked};

use format::ENTRIES;
use model::{Answer, Code, Session};

// Whether a row is named by the FCB, and its t1' is set.
#[tactic(auto, using(lists::specs::Tests::and_first, lists::specs::Tests::and_fails_right))]
fn guards(wild: bool, user: u8, fcb: &[u8], r: &[u8]) -> bool
    requires { (length fcb.now ≡ fcb_bytes) × (entry_bytes ≤ length r.now) }
    ensures { result ≡ (named wild user fcb.now 1 r.now and read_only r.now) }
{
    entries::is_read_only(r) && lookups::is_named(wild, user, fcb, 1, r)
}

// Whether t1' is set in an entry that the FCB names.
fn any_read_only(image: &[u8], wild: bool, user: u8, fcb: &[u8]) -> bool
    requires { Long eight_inch image.now × (length fcb.now ≡ fcb_bytes) }
    ensures { (map buffer : Bytes) → result ≡ any_read_only_rule eight_inch (lend image.now map fcb.now buffer) wild user }
{
    (0..ENTRIES).any(|e| guards(wild, user, fcb, rows::row(image, e)))
}

// Gives an entry the new name, where it has the old one.
#[tactic(auto, unfolding(model::specs::Calls::changed_row))]
fn rename_entry(image: &mut [u8], e: usize, user: u8, fcb: &[u8])
    requires { Long eight_inch image.old × (e < eight_inch.entries) × (length fcb.now ≡ fcb_bytes) }
    ensures { image.new ≡ changed_row eight_inch (named false user fcb.now 1) (renamed_row_rule fcb.now) image.old e }
{
    if lookups::is_named(false, user, fcb, 1, rows::row(image, e)) {
        let r = rows::copy_row(image, e);
        rows::store_row(image, e, entering::renamed_row(fcb, r));
    }
}

// Gives every extent of the old name the new one.
fn rename_entries(image: &mut [u8], user: u8, fcb: &[u8])
    requires { Long eight_inch image.old × (length fcb.now ≡ fcb_bytes) }
    ensures { image.new ≡ changed_rows eight_inch (named false user fcb.now 1) (renamed_row_rule fcb.now) image.old }
{
    for e in 0..ENTRIES {
        rename_entry(image, e, user, fcb);
    }
}

// 23: every extent of the name in bytes 1 to 11 gets the name in bytes 17 to 27.
pub fn rename_file(image: &mut [u8], fcb: &[u8], session: Session) -> Answer
    requires { Long eight_inch image.old × (length fcb.now ≡ fcb_bytes) }
    ensures { (asked : Asked) (map buffer : Bytes) → outcome result image.new map fcb.now buffer
        ≡ own_step eight_inch (calling 23 asked) (lend image.old map fcb.now buffer) session }
{
    if !names::name_right(false, fcb, 1) || !names::name_right(false, fcb, 17) {
        return answers::refuse(Code::BadName, session);
    }
    let user = session.user;
    let Some(_) = lookups::find_named(image, false, user, fcb, 1) else {
        return answers::refuse(Code::Failed, session);
    };
    if any_read_only(image, false, user, fcb) {
        return answers::refuse(Code::ReadOnly, session);
    }
    let None = lookups::find_named(image, false, user, fcb, 17) else {
        return answers::refuse(Code::Exists, session);
    };
    rename_entries(image, user, fcb);
    answers::done(0, session)
}

// 19: every extent that the name matches becomes empty, and the blocks of all of them free.
pub fn delete_file(image: &mut [u8], map: &mut [u16], fcb: &[u8], session: Session) -> Answer
    requires { Long eight_inch image.old × (length map.old ≡ eight_inch.blocks) × (length fcb.now ≡ fcb_bytes) × (session.user ≤ 15)
        × (map_right eight_inch (entry_at eight_inch image.old) map.old ≡ true) }
    ensures { (asked : Asked) (buffer : Bytes) → outcome result image.new map.new fcb.now buffer
        ≡ own_step eight_inch (calling 19 asked) (lend image.old map.old fcb.now buffer) session }
{
    if !names::name_right(true, fcb, 1) {
        return answers::refuse(Code::BadName, session);
    }
    let user = session.user;
    let Some(_) = lookups::find_named(image, true, user, fcb, 1) else {
        return answers::refuse(Code::Failed, session);
    };
    if any_read_only(image, true, user, fcb) {
        return answers::refuse(Code::ReadOnly, session);
    }
    erasing::erase_entries(image, map, user, fcb);
    answers::done(0, session)
}
