// How a call ends: the session's changes, and the answer of a code.
#![tactic(auto)]

ghost use Rattle.std.specs.Prelude.{◌≡◌};
ghost use Rattle.model.specs.Calls.{entry_number};
ghost use Rattle.model.specs.Codes.{says_of};
ghost use Rattle.model.specs.Lent.{ended, searching, with_user, answer_of};
ghost use Rattle.model.specs.Step.{refused_session};

use model::{Answer, Code, Session};

// The session with its search ended: off, at place 0; the pattern stays.
fn end_search(s: Session) -> Session
    ensures { result ≡ ended s }
{
    Session {
        place: 0,
        on: 0,
        ..s
    }
}

// The session with a search that goes on from a place.
pub fn search_from(s: Session, pattern: [u8; 12], place: u16) -> Session
    ensures { result ≡ searching s pattern place }
{
    Session {
        pattern,
        place,
        on: 1,
        ..s
    }
}

pub fn set_user(s: Session, user: u8) -> Session
    ensures { result ≡ with_user s user }
{
    Session { user, ..s }
}

// A code's line: A, H, and whether a search is over with it, as document 01 has them: the third says nothing of the other two.
#[derive(Clone, Copy)]
struct Line(u8, u8, bool);

fn line_of(code: Code) -> Line
    ensures { (result.0 ≡ (says_of code).a) × (result.1 ≡ (says_of code).h) × (result.2 ≡ (says_of code).over) }
{
    match code {
        Code::Accepted(a) => Line(a, 0, false),
        Code::NotListed => Line(255, 255, false),
        Code::BadParameter => Line(255, 4, false),
        Code::BadDisk => Line(255, 1, false),
        Code::Protected => Line(255, 2, false),
        Code::BadRecord => Line(6, 0, false),
        Code::NotCurrent => Line(9, 0, false),
        Code::Failed => Line(255, 0, false),
        Code::BadName => Line(255, 9, false),
        Code::SearchOver => Line(255, 0, true),
        Code::ReadOnly => Line(255, 3, false),
        Code::Exists => Line(255, 8, false),
        Code::NoExtent => Line(4, 0, false),
        Code::NoRecord => Line(1, 0, false),
        Code::NoEntry => Line(5, 0, false),
        Code::DiskFull => Line(2, 0, false),
    }
}

// A refusal: the session stays, except that a search which found no entry, or no more, is over.
pub fn refuse(code: Code, session: Session) -> Answer
    ensures { result ≡ answer_of code (refused_session code session) }
{
    let Line(a, h, over) = line_of(code);
    if over {
        return Answer {
            a,
            h,
            session: end_search(session),
        };
    }
    Answer { a, h, session }
}

// A call accepted, with the session that it leaves: A is a, H is 0.
pub fn accept(a: u8, session: Session) -> Answer
    ensures { result ≡ answer_of (Code.Accepted a) session }
{
    Answer { a, h: 0, session }
}

// A call carried out, which ends a search.
pub fn done(a: u8, session: Session) -> Answer
    ensures { result ≡ answer_of (Code.Accepted a) (ended session) }
{
    accept(a, end_search(session))
}

// An entry's number, as A has it: its place in its record.
pub fn entry_number(e: usize) -> u8
    ensures { result ≡ entry_number e }
{
    // The number fits: the cast loses nothing.
    (e % format::ENTRIES_PER_RECORD) as u8
}

// A call carried out on an entry, which ends a search: A is the entry's number.
pub fn done_at(e: usize, session: Session) -> Answer
    ensures { result ≡ answer_of (Code.Accepted (entry_number e)) (ended session) }
{
    done(entry_number(e), session)
}
