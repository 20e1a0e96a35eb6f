// The word picker of document 02, [11]: the word of a day out of the book, handed out however often it is asked for, and the day logged once.
// It goes by the contract of the public call alone.
#![tactic(auto)]

ghost use Rattle.std.specs.Prelude.{◌≡◌};
ghost use Rattle.format.specs.Diskette.{eight_inch};
ghost use Rattle.model.specs.Lent.{Outcome};
ghost use Rattle.demands.specs.Runs.{left};
ghost use Rattle.picking.specs.Picker.{notes, picks, logged, worded, fetched, looked, picked};
ghost use Rattle.logging.specs.Held.{held, StillLent};
ghost use Rattle.picker.specs.Laws.{logged_apart};

use logging::Disk;
use picking::{Pick, Time, Told, Wanted};

// The day logged, by the size of the log.
fn log_day(disk: &mut Disk, wanted: Wanted, time: Time) -> Pick
    ensures still_lent { StillLent disk.old disk.new }
    ensures comes_to { notes result (held disk.new) ≡ logged eight_inch time wanted (held disk.old) }
{
    let mut f = daybook::fcb_of(wanted.log);
    let mut buffer = daybook::blank_record();
    let answer = disk.call(time, 35, &mut f, &mut buffer);
    if daybook::entry_accepted(answer) {
        return extending::extend_log(disk, wanted, time, daybook::size_in(f));
    }
    if daybook::is_code(255, 0, answer) {
        return logging::begin_log(disk, wanted, time);
    }
    daybook::other(answer)
}

// The day logged, unless book and log are one file.
fn log_apart(disk: &mut Disk, wanted: Wanted, time: Time) -> Pick
    ensures still_lent { StillLent disk.old disk.new }
    ensures comes_to { notes result (held disk.new)
        ≡ logged_apart eight_inch time wanted (held disk.old) }
{
    if daybook::one_file(wanted) {
        return Pick::OneFile;
    }
    log_day(disk, wanted, time)
}

// The word was read: it is handed out whatever becomes of the log.
fn hand_out(disk: &mut Disk, wanted: Wanted, time: Time) -> Told
    ensures still_lent { StillLent disk.old disk.new }
    ensures comes_to { (o : Outcome) → left o ≡ held disk.old
        → picks result o.lent.buffer (held disk.new) ≡ worded eight_inch time wanted o }
{
    Told {
        pick: log_apart(disk, wanted, time),
        given: true,
    }
}

// The day's record of the book read, through the FCB that the open handed back; where it is refused the bytes lent for the word stay.
fn fetch(disk: &mut Disk, wanted: Wanted, time: Time, fcb: [u8; 36], word: &mut [u8]) -> Told
    ensures still_lent { StillLent disk.old disk.new }
    ensures comes_to { picks result word.new (held disk.new)
        ≡ fetched eight_inch time wanted (held disk.old) fcb word.old }
{
    let mut f = daybook::at_record(fcb, usize::from(wanted.day));
    let answer = disk.call(time, 33, &mut f, word);
    if daybook::record_accepted(answer) {
        return hand_out(disk, wanted, time);
    }
    daybook::wordless(daybook::read_trouble(answer))
}

// The book opened, and the day's word fetched.
fn look_up(disk: &mut Disk, wanted: Wanted, time: Time, word: &mut [u8]) -> Told
    ensures still_lent { StillLent disk.old disk.new }
    ensures comes_to { picks result word.new (held disk.new)
        ≡ looked eight_inch time wanted (held disk.old) word.old }
{
    let mut f = daybook::fcb_of(wanted.book);
    let mut buffer = daybook::blank_record();
    let answer = disk.call(time, 15, &mut f, &mut buffer);
    if daybook::entry_accepted(answer) {
        return fetch(disk, wanted, time, f, word);
    }
    daybook::wordless(daybook::missing(Pick::NoBook, answer))
}

// A run of the picker, whatever it is handed.
pub fn pick(disk: &mut Disk, wanted: Wanted, time: Time, word: &mut [u8]) -> Told
    ensures still_lent { StillLent disk.old disk.new }
    ensures comes_to { picks result word.new (held disk.new)
        ≡ picked eight_inch time wanted (held disk.old) word.old }
{
    if daybook::day_over(wanted.day) {
        return daybook::wordless(Pick::DayOver);
    }
    look_up(disk, wanted, time, word)
}
