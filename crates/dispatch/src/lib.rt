// The way from a call's kind to the call's own function, once the first three rows of the table have passed it, and a protected session is asked for
// no change of the disk.
#![tactic(auto)]

ghost use Rattle.std.specs.Prelude.{◌≡◌, true};
ghost use Rattle.format.specs.Diskette.{eight_inch};
ghost use Rattle.format.specs.Entries.{entry_at};
ghost use Rattle.model.specs.Kinds.{kind_of, is_call};
ghost use Rattle.model.specs.declared.Kind.TheVariants.{Quiet, Search};
ghost use Rattle.table.specs.Facts.{Fits, Ready};
ghost use Rattle.table.specs.Protection.{Unchanging};
ghost use Rattle.table.specs.OwnStep.{own_step, ready_step};
ghost use Rattle.chains.specs.Chain.{Indexed};
ghost use Rattle.records.specs.Held.{held, outcome_on, StillLent};

use model::{Answer, Asked, Code, Kind, Session};
use records::Buffers;

// The quiet calls, each by its number. They are handed different buffers, so they are named in a match and not in a table.
fn quiet_call(asked: Asked, lent: &mut Buffers, session: Session, chain: &[u8]) -> Answer
    requires { (kind_of asked.number ≡ Quiet) × Fits eight_inch (held lent.old) session
        × Indexed eight_inch (entry_at eight_inch lent.old.image.now) chain.now }
    ensures still_lent { StillLent lent.old lent.new }
    ensures comes_to { outcome_on lent.new result ≡ own_step eight_inch asked (held lent.old) session }
{
    let number = asked.number;
    match number {
        15 => files::open_file(&mut *lent.image, lent.fcb, session, chain),
        35 => files::file_size(&mut *lent.image, lent.fcb, session),
        36 => plain::random_record(lent.fcb, session),
        _ => plain::free_space(&mut *lent.map, lent.buffer, session),
    }
}

// The searches: 17 and 18.
fn search_call(asked: Asked, lent: &mut Buffers, session: Session) -> Answer
    requires { (kind_of asked.number ≡ Search) × Fits eight_inch (held lent.old) session }
    ensures still_lent { StillLent lent.old lent.new }
    ensures comes_to { outcome_on lent.new result ≡ own_step eight_inch asked (held lent.old) session }
{
    let number = asked.number;
    let image = &mut *lent.image;
    if number == 17 {
        let fcb = &mut *lent.fcb;
        return searching::search_first(image, fcb, lent.buffer, session);
    }
    searching::search_next(image, lent.buffer, session)
}

// Every call but 13, once the first three rows of the table have passed it; of a protected session, one that does not change the disk. Its kind is
// handed in. The kinds are all there are and their calls are handed different buffers: a match names them.
pub fn own_call(
    kind: Kind,
    asked: Asked,
    lent: &mut Buffers,
    session: Session,
    chain: &[u8],
) -> Answer
    requires { (kind ≡ kind_of asked.number) × (is_call asked.number ≡ true) × (asked.number ≡ 13 → ⊥)
        × Ready eight_inch asked (held lent.old) session
        × Indexed eight_inch (entry_at eight_inch lent.old.image.now) chain.now × Unchanging session asked.number }
    ensures still_lent { StillLent lent.old lent.new }
    ensures comes_to { outcome_on lent.new result ≡ ready_step eight_inch asked (held lent.old) session }
{
    match kind {
        Kind::Quiet => quiet_call(asked, lent, session, chain),
        Kind::Search => search_call(asked, lent, session),
        Kind::User => plain::user_number(asked, session),
        Kind::Settle => plain::free_blocks(lent.map, session),
        Kind::Close => closing::close_file(lent.image, lent.map, &mut *lent.fcb, session, chain),
        Kind::Delete => families::delete_file(lent.image, lent.map, &mut *lent.fcb, session),
        Kind::Create => files::make_file(lent.image, lent.fcb, session, chain),
        Kind::Rename => families::rename_file(lent.image, &mut *lent.fcb, session),
        Kind::Read | Kind::Write => records::record_call(asked, lent, session, chain),
        Kind::Unlisted => answers::refuse(Code::NotListed, session),
    }
}
