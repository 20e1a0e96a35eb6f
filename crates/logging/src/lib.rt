// The picker's log written, by calls alone: one call as it is, and with the protection lifted for it; the write and the close; a log that is made first.
#![tactic(auto)]

ghost use Rattle.std.specs.Prelude.{◌≡◌};
ghost use Rattle.format.specs.Diskette.{eight_inch};
ghost use Rattle.demands.specs.Runs.{outcome_of};
ghost use Rattle.picking.specs.Picker.{notes, call_at, asking, lifted_call_rule, closed, written, made, begun};
ghost use Rattle.logging.specs.Held.{held, outcome_on, StillLent};

use model::{Answer, Asked, Session};
use picking::{Pick, Time, Wanted};

// The disk as it passes from call to call: image and map, which are the host's, and the session.
#[derive(Drop)]
pub struct Disk<'a> {
    pub image: &'a mut [u8],
    pub map: &'a mut [u16],
    pub session: Session,
}

// What is asked by a call at a time.
fn call_at(time: Time, number: u8) -> Asked
    ensures { result ≡ call_at time number }
{
    Asked {
        number,
        argument: 0,
        day: time.day,
        hour: time.hour,
        minute: time.minute,
    }
}

impl Disk<'_> {
    // One call.
    pub fn call(&mut self, time: Time, number: u8, fcb: &mut [u8], buffer: &mut [u8]) -> Answer
        ensures still_lent { StillLent self.old self.new }
        ensures session { self.new.session ≡ result.session }
        ensures comes_to { outcome_on self.new result fcb.new buffer.new
            ≡ outcome_of eight_inch (held self.old)
            (asking time number fcb.old buffer.old) }
    {
        let asked = call_at(time, number);
        let answer = bdos::call(asked, self.image, self.map, fcb, buffer, self.session);
        self.session = answer.session;
        answer
    }

    // One call with the protection lifted for it, which afterwards is what it was before.
    fn lifted_call(&mut self, time: Time, number: u8, fcb: &mut [u8], buffer: &mut [u8]) -> Answer
        ensures still_lent { StillLent self.old self.new }
        ensures session { self.new.session ≡ result.session }
        ensures comes_to { outcome_on self.new result fcb.new buffer.new
            ≡ lifted_call_rule eight_inch (held self.old)
            (asking time number fcb.old buffer.old) }
    {
        let before = self.session;
        self.session = daybook::unlock(before);
        let answer = self.call(time, number, fcb, buffer);
        let session = daybook::relock(before, answer.session);
        self.session = session;
        Answer { session, ..answer }
    }
}

// The log closed, through the FCB that the write handed back.
fn close_log(disk: &mut Disk, time: Time, fcb: [u8; 36]) -> Pick
    ensures still_lent { StillLent disk.old disk.new }
    ensures comes_to { notes result (held disk.new) ≡ closed eight_inch time (held disk.old) fcb }
{
    let mut f = fcb;
    let mut buffer = daybook::blank_record();
    let answer = disk.lifted_call(time, 16, &mut f, &mut buffer);
    daybook::close_told(answer)
}

// Record n of the log written, and the log closed.
pub fn write_log(disk: &mut Disk, wanted: Wanted, time: Time, fcb: [u8; 36], n: usize) -> Pick
    ensures still_lent { StillLent disk.old disk.new }
    ensures comes_to { notes result (held disk.new)
        ≡ written eight_inch time wanted (held disk.old) fcb n }
{
    let mut f = daybook::at_record(fcb, n);
    let mut buffer = daybook::log_record(wanted.year, wanted.day);
    let answer = disk.lifted_call(time, 34, &mut f, &mut buffer);
    if daybook::record_accepted(answer) {
        return close_log(disk, time, f);
    }
    daybook::write_trouble(answer)
}

// A new log, and its record 0.
fn make_log(disk: &mut Disk, wanted: Wanted, time: Time) -> Pick
    ensures still_lent { StillLent disk.old disk.new }
    ensures comes_to { notes result (held disk.new) ≡ made eight_inch time wanted (held disk.old) }
{
    let mut f = daybook::fcb_of(wanted.log);
    let mut buffer = daybook::blank_record();
    let answer = disk.lifted_call(time, 22, &mut f, &mut buffer);
    if daybook::entry_accepted(answer) {
        return write_log(disk, wanted, time, f, 0);
    }
    daybook::missing(Pick::DirectoryFull, answer)
}

// The log is missing: 46 first, so that a full disk leaves no empty log behind.
pub fn begin_log(disk: &mut Disk, wanted: Wanted, time: Time) -> Pick
    ensures still_lent { StillLent disk.old disk.new }
    ensures comes_to { notes result (held disk.new) ≡ begun eight_inch time wanted (held disk.old) }
{
    let mut f = daybook::fcb_of(wanted.log);
    let mut buffer = daybook::blank_record();
    let answer = disk.call(time, 46, &mut f, &mut buffer);
    if !daybook::entry_accepted(answer) {
        return daybook::other(answer);
    }
    if daybook::space_in(buffer) == 0 {
        return Pick::DiskFull;
    }
    make_log(disk, wanted, time)
}
