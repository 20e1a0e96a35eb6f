// The calls that look for no entry. Each is handed only what it reads or changes; what it promises holds whatever the other buffers
// are. A quiet call that no row of the table names promises what its rule tells, the others their own step.
#![tactic(auto)]

ghost use Rattle.std.specs.Prelude.{◌≡◌, length};
ghost use Rattle.format.specs.Diskette.{Bytes, eight_inch, record_bytes};
ghost use Rattle.format.specs.Entries.{entry_at};
ghost use Rattle.facts.specs.Marks.{Marked, mark_count};
ghost use Rattle.format.specs.Fcb.{fcb_bytes};
ghost use Rattle.model.specs.Lent.{lend, outcome};
ghost use Rattle.model.specs.Calls.{quietly, space};
ghost use Rattle.model.specs.Table.{position_right_rule};
ghost use Rattle.table.specs.Own.{calling};
ghost use Rattle.table.specs.OwnStep.{own_step};

use model::{Answer, Asked, Code, Session};

// 13: the map becomes the fresh map of the directory whose listed blocks are marked.
pub fn log_in(map: &mut [u16], marks: &[u8], session: Session) -> Answer
    requires { (length map.old ≡ eight_inch.blocks) × (length marks.now ≡ mark_count) }
    ensures { (asked : Asked) (image fcb buffer : Bytes) → Marked eight_inch (entry_at eight_inch image) marks.now
        → outcome result image map.new fcb buffer
        ≡ own_step eight_inch (calling 13 asked) (lend image map.old fcb buffer) session }
{
    fresh::make_fresh(map, marks);
    answers::done(0, session)
}

// 32: argument 255 returns the user, another sets it.
pub fn user_number(asked: Asked, session: Session) -> Answer
    ensures { (image map fcb buffer : Bytes) → outcome result image map fcb buffer
        ≡ own_step eight_inch (calling 32 asked) (lend image map fcb buffer) session }
{
    let argument = asked.argument;
    if argument == 255 {
        return answers::done(session.user, session);
    }
    if 15 < argument {
        return answers::refuse(Code::Failed, session);
    }
    answers::done(0, answers::set_user(session, argument))
}

// Whether ex, s2 and cr are in range.
#[tactic(auto, using(lists::specs::Tests::short_circuits), unfolding(model::specs::Table::position_right_rule))]
fn position_right(fcb: &[u8]) -> bool
    requires { length fcb.now ≡ fcb_bytes }
    ensures { result ≡ position_right_rule fcb.now }
{
    entries::extent_right(fcb) && fcb[32] <= 128
}

// 36: r0 to r2 become the record that the FCB stands at.
pub fn random_record(fcb: &mut [u8], session: Session) -> Answer
    requires { length fcb.old ≡ fcb_bytes }
    ensures { (asked : Asked) (image map buffer : Bytes) → outcome result image map fcb.new buffer
        ≡ own_step eight_inch (calling 36 asked) (lend image map fcb.old buffer) session }
{
    if !position_right(fcb) {
        return answers::refuse(Code::Failed, session);
    }
    let n = format::EXTENT_RECORDS * entries::extent(fcb) + usize::from(fcb[32]);
    lists::put_three(fcb, 33, n);
    answers::done(0, session)
}

// 46: the records of the free blocks into the buffer's first three bytes.
#[tactic(auto, unfolding(model::specs::Calls::space))]
pub fn free_space(map: &[u16], buffer: &mut [u8], session: Session) -> Answer
    requires { (length map.now ≡ eight_inch.blocks) × (length buffer.old ≡ record_bytes) }
    ensures { (image fcb : Bytes) → let l = lend image map.now fcb buffer.old in
        outcome result image map.now fcb buffer.new ≡ quietly (space eight_inch session l) session l }
{
    let n = format::RECORDS_PER_BLOCK * notes::free_count(map);
    lists::put_three(buffer, 0, n);
    answers::done(0, session)
}

// 98: every pending note becomes free.
pub fn free_blocks(map: &mut [u16], session: Session) -> Answer
    requires { length map.old ≡ eight_inch.blocks }
    ensures { (asked : Asked) (image fcb buffer : Bytes) → outcome result image map.new fcb buffer
        ≡ own_step eight_inch (calling 98 asked) (lend image map.old fcb buffer) session }
{
    freeing::free_pending(map);
    answers::done(0, session)
}
