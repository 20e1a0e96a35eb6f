// The picker's log that is there: opened, searched record by record, and extended where no record has the year and day.
#![tactic(auto)]

ghost use Rattle.std.specs.Prelude.{◌≡◌};
ghost use Rattle.format.specs.Diskette.{eight_inch};
ghost use Rattle.demands.specs.Runs.{outcome_of};
ghost use Rattle.picking.specs.Picker.{notes, blank, reading, tells, searched, added, extended};
ghost use Rattle.logging.specs.Held.{held, StillLent};
ghost use Rattle.extending.specs.Laws.{searches};

use logging::Disk;
use picking::{Pick, Time, Wanted};

// A log with so many records is full.
const FULL_LOG: usize = 1024;

// Record r of the log read, through the FCB that the open handed back: whether it is there, and has the year and day.
fn look_at(disk: &mut Disk, wanted: Wanted, time: Time, fcb: [u8; 36], r: usize) -> bool
    ensures still_lent { StillLent disk.old disk.new }
    ensures comes_to { searches result (held disk.new)
        ≡ tells eight_inch time wanted (outcome_of eight_inch (held disk.old) (reading time fcb r blank)) }
{
    let mut f = daybook::at_record(fcb, r);
    let mut buffer = daybook::blank_record();
    let answer = disk.call(time, 33, &mut f, &mut buffer);
    daybook::tells_day(wanted.year, wanted.day, answer, buffer)
}

// Whether a record below n has the year and day: they are read one after the other, and none after one that has.
fn search(disk: &mut Disk, wanted: Wanted, time: Time, fcb: [u8; 36], n: usize) -> bool
    ensures still_lent { StillLent disk.old disk.new }
    ensures comes_to { searches result (held disk.new)
        ≡ searched eight_inch time wanted (held disk.old) fcb n }
{
    for r in 0..n {
        if look_at(disk, wanted, time, fcb, r) {
            return true;
        }
    }
    false
}

// The log, open, has n records: it is searched, and written where no record had the year and day.
fn search_and_add(disk: &mut Disk, wanted: Wanted, time: Time, fcb: [u8; 36], n: usize) -> Pick
    ensures still_lent { StillLent disk.old disk.new }
    ensures comes_to { notes result (held disk.new)
        ≡ added eight_inch time wanted (searched eight_inch time wanted (held disk.old) fcb n) fcb n }
{
    if search(disk, wanted, time, fcb, n) {
        return Pick::Again;
    }
    if FULL_LOG <= n {
        return Pick::LogFull;
    }
    logging::write_log(disk, wanted, time, fcb, n)
}

// The log has n records: it is opened, and searched.
pub fn extend_log(disk: &mut Disk, wanted: Wanted, time: Time, n: usize) -> Pick
    ensures still_lent { StillLent disk.old disk.new }
    ensures comes_to { notes result (held disk.new) ≡ extended eight_inch time wanted (held disk.old) n }
{
    let mut f = daybook::fcb_of(wanted.log);
    let mut buffer = daybook::blank_record();
    let answer = disk.call(time, 15, &mut f, &mut buffer);
    if daybook::entry_accepted(answer) {
        return search_and_add(disk, wanted, time, f, n);
    }
    daybook::missing(Pick::NoFirst, answer)
}
