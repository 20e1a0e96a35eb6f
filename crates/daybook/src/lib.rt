// What the picker needs beside the calls: the FCB of a name, the log's records and numbers in bytes, what an answer comes to, and the protection put
// back as it was.
#![tactic(auto)]

ghost use Rattle.std.specs.Prelude.{◌≡◌, true, false, cond, ℕ, ◌<◌, ltb};
ghost use Rattle.lists.specs.Tests.{◌and◌};
ghost use Rattle.format.specs.Fcb.{random_of_rule};
ghost use Rattle.model.specs.Kinds.{kind_of, of_record};
ghost use Rattle.model.specs.Lent.{Lent};
ghost use Rattle.table.specs.Accepted.{accepted_answer};
ghost use Rattle.demands.specs.Reading.{at_record_rule};
ghost use Rattle.picking.specs.Numbers.{says_of};
ghost use Rattle.picking.specs.Picker.{fcb_of_rule, blank, digit, stamp_of_rule, log_record_rule, has_stamp_rule, one_file_rule};
ghost use Rattle.picking.specs.Picker.{space_in_rule, last_day, is_code, otherwise, write_trouble_rule, unlocked, relocked};
ghost use Rattle.daybook.specs.Said.{said, read_trouble_rule, close_told_rule};

use model::{Answer, Session};
use picking::{Pick, Told, Wanted};

const LAST_DAY: u16 = 365;

// What hosts are told of how a run ended: a number, and A and H where that is a refusal without a name of its own.
#[derive(Clone, Copy)]
pub struct Says {
    pub number: u8,
    pub a: u8,
    pub h: u8,
}

// ---- bytes
// The FCB of a name: drive 0, extent 0, all else 0.
pub fn fcb_of(name: [u8; 11]) -> [u8; 36]
    ensures { result ≡ fcb_of_rule name }
{
    let mut fcb = [0u8; 36];
    lists::put(&mut fcb, 1, &name);
    fcb
}

// The FCB with r0 to r2 set to a record.
pub fn at_record(fcb: [u8; 36], number: usize) -> [u8; 36]
    ensures { result ≡ at_record_rule fcb number }
{
    let mut at = fcb;
    lists::put_three(&mut at, 33, number);
    at
}

// A buffer whose bytes do not matter.
pub fn blank_record() -> [u8; 128]
    ensures { result ≡ blank }
{
    [0u8; 128]
}

// The digit of a number at a power of ten.
fn digit_at(n: u16, ten: u16) -> u8
    requires { 0 < ten }
    ensures { result ≡ digit n ten }
{
    // The number fits: the cast loses nothing.
    (48 + n / ten % 10) as u8
}

// Five digits of the year, a space, three digits of the day.
fn stamp_of(year: u16, day: u16) -> [u8; 9]
    ensures { result ≡ stamp_of_rule year day }
{
    [
        digit_at(year, 10000),
        digit_at(year, 1000),
        digit_at(year, 100),
        digit_at(year, 10),
        digit_at(year, 1),
        32,
        digit_at(day, 100),
        digit_at(day, 10),
        digit_at(day, 1),
    ]
}

// The record that logs a day: its stamp, CR, LF, and 1AH to the end.
pub fn log_record(year: u16, day: u16) -> [u8; 128]
    ensures { result ≡ log_record_rule year day }
{
    let stamp = stamp_of(year, day);
    let mut bytes = [26u8; 128];
    lists::put(&mut bytes, 0, &stamp);
    bytes[9] = 13;
    bytes[10] = 10;
    bytes
}

// Whether a record has the year and day: its first nine bytes are those.
pub fn has_stamp(year: u16, day: u16, bytes: [u8; 128]) -> bool
    ensures { result ≡ has_stamp_rule year day bytes }
{
    let wanted = stamp_of(year, day);
    bytes.starts_with(&wanted)
}

// Whether book and log are one file: their names are the same in the low seven bits.
pub fn one_file(wanted: Wanted) -> bool
    ensures { result ≡ one_file_rule wanted }
{
    let book = wanted.book;
    let log = wanted.log;
    book.iter().zip(log.iter()).all(|(b, l)| b % 128 == l % 128)
}

// The size that 35 put into r0 to r2.
pub fn size_in(fcb: [u8; 36]) -> usize
    ensures { result ≡ random_of_rule fcb }
{
    lists::three(&fcb, 33)
}

// The free records that 46 put into the buffer.
pub fn space_in(buffer: [u8; 128]) -> usize
    ensures { result ≡ space_in_rule buffer }
{
    lists::three(&buffer, 0)
}

// Whether a day is over the last of a year.
pub fn day_over(day: u16) -> bool
    ensures { result ≡ ltb last_day day }
{
    LAST_DAY < day
}

// ---- answers
// Whether the answer to a call that moves a record says that it was accepted.
pub fn record_accepted(answer: Answer) -> bool
    ensures { (number : ℕ) → of_record (kind_of number) ≡ true → result ≡ accepted_answer number answer }
{
    answer.h == 0 && answer.a == 0
}

// Whether that to any other call does.
pub fn entry_accepted(answer: Answer) -> bool
    ensures { (number : ℕ) → of_record (kind_of number) ≡ false → result ≡ accepted_answer number answer }
{
    answer.h == 0 && answer.a != 255
}

// Whether a log record that was read is there, and has the year and day.
pub fn tells_day(year: u16, day: u16, answer: Answer, bytes: [u8; 128]) -> bool
    ensures { result ≡ (accepted_answer 33 answer and has_stamp_rule year day bytes) }
{
    record_accepted(answer) && has_stamp(year, day, bytes)
}

// Whether A and H are these: they, and not codes, are what the calls' contracts speak of.
pub fn is_code(a: u8, h: u8, answer: Answer) -> bool
    ensures { (l : Lent) → result ≡ is_code a h (said answer l) }
{
    answer.a == a && answer.h == h
}

// A refusal that has no name of its own.
pub fn other(answer: Answer) -> Pick
    ensures { result ≡ Pick.Other answer.a answer.h }
{
    Pick::Other(answer.a, answer.h)
}

// What a refusal comes to of a call that answers 255, 0 where something is missing.
pub fn missing(pick: Pick, answer: Answer) -> Pick
    ensures { (l : Lent) → result ≡ cond (is_code 255 0 (said answer l)) pick (otherwise (said answer l)) }
{
    if is_code(255, 0, answer) {
        return pick;
    }
    other(answer)
}

// What a refused write of the log comes to.
pub fn write_trouble(answer: Answer) -> Pick
    ensures { (l : Lent) → result ≡ write_trouble_rule (said answer l) }
{
    if is_code(255, 3, answer) {
        return Pick::LogReadOnly;
    }
    if is_code(5, 0, answer) {
        return Pick::DirectoryFull;
    }
    if is_code(2, 0, answer) {
        return Pick::DiskFull;
    }
    other(answer)
}

// What a refused read of the book comes to: record or extent is not there, or another refusal.
pub fn read_trouble(answer: Answer) -> Pick
    ensures { (l : Lent) → result ≡ read_trouble_rule (said answer l) }
{
    if is_code(1, 0, answer) || is_code(4, 0, answer) {
        return Pick::NoWord;
    }
    other(answer)
}

// What the close of the log comes to.
pub fn close_told(answer: Answer) -> Pick
    ensures { result ≡ close_told_rule answer }
{
    if entry_accepted(answer) {
        return Pick::Logged;
    }
    other(answer)
}

// What a run that hands out no word tells.
pub fn wordless(pick: Pick) -> Told
    ensures { (result.pick ≡ pick) × (result.given ≡ false) }
{
    Told { pick, given: false }
}

// The number of how a run ended, with A and H.
pub fn says_of(pick: Pick) -> Says
    ensures { (result.number ≡ (says_of pick).number) × (result.a ≡ (says_of pick).a) × (result.h ≡ (says_of pick).h) }
{
    let named = Says {
        number: 0,
        a: 0,
        h: 0,
    };
    match pick {
        Pick::Logged => named,
        Pick::Again => Says { number: 1, ..named },
        Pick::DayOver => Says { number: 2, ..named },
        Pick::NoBook => Says { number: 3, ..named },
        Pick::NoWord => Says { number: 4, ..named },
        Pick::OneFile => Says { number: 5, ..named },
        Pick::NoFirst => Says { number: 6, ..named },
        Pick::LogFull => Says { number: 7, ..named },
        Pick::LogReadOnly => Says { number: 8, ..named },
        Pick::DirectoryFull => Says { number: 9, ..named },
        Pick::DiskFull => Says {
            number: 10,
            ..named
        },
        Pick::Other(a, h) => Says { number: 11, a, h },
    }
}

// ---- the protection
// The session with its protection lifted, for one call.
pub fn unlock(session: Session) -> Session
    ensures { result ≡ unlocked session }
{
    if protection::is_protected(session) {
        return protection::lift(session);
    }
    session
}

// The session that the call left, with the protection that there was before.
pub fn relock(before: Session, session: Session) -> Session
    ensures { result ≡ relocked before session }
{
    if protection::is_protected(before) {
        return protection::protect(session);
    }
    session
}
