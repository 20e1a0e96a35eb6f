// The demands once more, of `call` itself: functions above it that go by its contract, and by those of lifting and setting the protection, alone, and
// ask nothing of what they are handed.
#![tactic(auto)]

ghost use Rattle.std.specs.Prelude.{◌≡◌, ◌<◌, length};
ghost use Rattle.format.specs.Diskette.{eight_inch, extents, extent_records};
ghost use Rattle.format.specs.Fcb.{fcb_bytes};
ghost use Rattle.model.specs.Lent.{lend, outcome};
ghost use Rattle.model.specs.Step.{step};
ghost use Rattle.table.specs.Own.{calling};
ghost use Rattle.targets.specs.Target.{TargetOf};
ghost use Rattle.demands.specs.Runs.{disk_of};
ghost use Rattle.script.specs.Script.{request, acts_of};
ghost use Rattle.assured.specs.Demands.{log_in, writes_answer, target_set, Told, Framed, LoggedIn, Untouched, ReadsBack};

use model::{Answer, Asked, Session};
use targets::Target;

// What a run comes to: whether its first call was accepted, and the session that it left, which there is either way.
#[derive(Clone, Copy)]
pub struct Ran {
    pub accepted: bool,
    pub session: Session,
}

// What a write and a read after it come to: whether a write was accepted, and what the last call made answered, which there is either way.
#[derive(Clone, Copy)]
pub struct ReadBack {
    pub accepted: bool,
    pub answer: Answer,
}

// Demand 1, of the exported call itself: it is refused, by the first row of the table that holds and with nothing changed, or carried out.
// And of demand 3 what it says of one call: no byte changes but in the entries of the files that it names, in at most one empty entry,
// which became theirs, in the stamps beside these, and in the one record that it wrote; image and map keep their lengths.
pub fn one_call(
    asked: Asked,
    image: &mut [u8],
    map: &mut [u16],
    fcb: &mut [u8],
    buffer: &mut [u8],
    session: Session,
) -> Answer
    ensures { Told asked (lend image.old map.old fcb.old buffer.old) session
        (outcome result image.new map.new fcb.new buffer.new)
        × Framed asked (lend image.old map.old fcb.old buffer.old) session
        (outcome result image.new map.new fcb.new buffer.new) }
{
    benzokamuri::benzo_call(asked, image, map, fcb, buffer, session)
}

// Whether an answer is that of a write that was accepted.
#[tactic(auto, using(lists::specs::Tests::short_circuits), unfolding(crate::specs::Demands::writes_answer))]
fn wrote(number: u8, answer: Answer) -> bool
    ensures { result ≡ writes_answer number answer }
{
    calls::writes(number) && calls::accepted(number, answer)
}

// Demand 3, of `call` itself: a log-in, with whatever is asked besides its number, and, where it is accepted, any script, and nothing is lost.
pub fn log_in_and_run(
    asked: Asked,
    fcb: &mut [u8],
    buffer: &mut [u8],
    script: &[usize],
    fcbs: &mut [u8],
    buffers: &mut [u8],
    image: &mut [u8],
    map: &mut [u16],
    session: Session,
) -> Ran
    ensures { LoggedIn (disk_of image.old map.old session) (log_in asked fcb.old buffer.old)
        (acts_of script.now fcbs.old buffers.old)
        result.accepted (disk_of image.new map.new result.session) fcb.new buffer.new }
{
    let login = Asked {
        number: 13,
        ..asked
    };
    let answer = bdos::call(login, image, map, fcb, buffer, session);
    if !calls::accepted(13, answer) {
        return Ran {
            accepted: false,
            session: answer.session,
        };
    }
    Ran {
        accepted: true,
        session: script::run_script(script, fcbs, buffers, image, map, answer.session),
    }
}

// Request [12], of `call` itself: the protection is set, and then any script is made. Where that never lifts it, no byte of the image changes, and
// where it has no accepted 13 or 98 none of the map.
pub fn run_protected(
    script: &[usize],
    fcbs: &mut [u8],
    buffers: &mut [u8],
    image: &mut [u8],
    map: &mut [u16],
    session: Session,
) -> Session
    ensures { Untouched (disk_of image.old map.old session)
        (acts_of script.now fcbs.old buffers.old) (disk_of image.new map.new result) }
{
    let protected = benzokamuri::benzo_protect(session);
    script::run_script(script, fcbs, buffers, image, map, protected)
}

// The target of a record call; any, where the FCB has another length than 36, with which every call is refused.
fn target_of(number: u8, fcb: &[u8]) -> Target
    ensures { length fcb.now ≡ fcb_bytes → TargetOf number fcb.now result }
{
    if fcb.len() == format::FCB_BYTES {
        return targets::target_of(number, fcb);
    }
    Target {
        extent: 0,
        at: 0,
        after: 0,
    }
}

// Call 33 through an FCB, r0 to r2 set to the record of a target, with whatever is asked besides its number. Its FCB and its target are
// those of a write that was accepted.
fn read_again(
    asked: Asked,
    target: Target,
    image: &mut [u8],
    map: &mut [u16],
    fcb: &mut [u8],
    back: &mut [u8],
    session: Session,
) -> Answer
    requires { (length fcb.old ≡ fcb_bytes) × (target.extent < extents) × (target.at < extent_records) }
    ensures { outcome result image.new map.new fcb.new back.new
        ≡ step eight_inch (calling 33 asked) (lend image.old map.old (target_set fcb.old target.extent target.at)
        back.old) session }
{
    let at = format::EXTENT_RECORDS * target.extent + target.at;
    lists::put_three(fcb, 33, at);
    let read = Asked {
        number: 33,
        ..asked
    };
    bdos::call(read, image, map, fcb, back, session)
}

// Demand 2, of `call` itself: a call and, where it is a write and accepted, any script and call 33 for the record written, with whatever is
// asked besides its number. Where the script leaves the file alone, back has 128 bytes and the time asked with 33 is in
// BCD, 33 is accepted and gives the bytes that were written.
pub fn write_and_read(
    asked: Asked,
    again: Asked,
    script: &[usize],
    fcbs: &mut [u8],
    buffers: &mut [u8],
    image: &mut [u8],
    map: &mut [u16],
    fcb: &mut [u8],
    written: &mut [u8],
    back: &mut [u8],
    session: Session,
) -> ReadBack
    ensures { ReadsBack (disk_of image.old map.old session)
        (request asked fcb.old written.old) (acts_of script.now fcbs.old buffers.old)
        again back.old result image.new map.new fcb.new written.new back.new }
{
    let target = target_of(asked.number, fcb);
    let write = bdos::call(asked, image, map, fcb, written, session);
    if !wrote(asked.number, write) {
        return ReadBack {
            accepted: false,
            answer: write,
        };
    }
    let s = script::run_script(script, fcbs, buffers, image, map, write.session);
    ReadBack {
        accepted: true,
        answer: read_again(again, target, image, map, fcb, back, s),
    }
}
