// The write protection of document 02, [12], as a session has it: lifted and set, asked for, and the calls that it refuses by their kinds.
#![tactic(auto)]

ghost use Rattle.std.specs.Prelude.{◌≡◌, ℕ};
ghost use Rattle.lists.specs.Tests.{◌and◌};
ghost use Rattle.model.specs.Kinds.{kind_of, one_of};
ghost use Rattle.model.specs.Lent.{lift, protect, protected};
ghost use Rattle.model.specs.Table.{changers};

use model::{Kind, Session};

// The session with its protection lifted, until it is set again; all else stays. Lifting and setting are two, as hosts call them.
pub fn lift(s: Session) -> Session
    ensures { result ≡ lift s }
{
    Session { lifted: 1, ..s }
}

// The session with its protection set; all else stays.
pub fn protect(s: Session) -> Session
    ensures { result ≡ protect s }
{
    Session { lifted: 0, ..s }
}

// Whether a session is protected: 0 alone says so.
pub fn is_protected(s: Session) -> bool
    ensures { result ≡ protected s }
{
    s.lifted == 0
}

// Whether the calls of a kind change the disk.
fn kind_changes(kind: Kind) -> bool
    ensures { (number : ℕ) → kind_of number ≡ kind → result ≡ one_of number changers }
{
    matches!(
        kind,
        Kind::Close | Kind::Delete | Kind::Create | Kind::Rename | Kind::Write
    )
}

// Whether a session refuses the calls of a kind, whatever else they are handed: a protected one those that change the disk.
pub fn refuses(kind: Kind, session: Session) -> bool
    ensures { (number : ℕ) → kind_of number ≡ kind → result ≡ (protected session and one_of number changers) }
{
    is_protected(session) && kind_changes(kind)
}
