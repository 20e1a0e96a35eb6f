// The calls as code tells them apart: `model`'s list once more, by each of its columns. A match whose arms are single numbers and plain
// answers is one look-up; grouped arms, as of `matches!`, are chains of tests.
#![tactic(auto)]

ghost use Rattle.std.specs.Prelude.{◌≡◌, not};
ghost use Rattle.model.specs.declared.Kind.TheVariants.{Unlisted, Write};
ghost use Rattle.model.specs.Kinds.{kind_of, uses_fcb_rule, is_random_rule, same, of_record};
ghost use Rattle.table.specs.Accepted.{accepted_answer};

use model::{Answer, Kind};

// The kind of a number; one that is not there is of no call. Each arm is a single number, so that this is one look-up.
pub fn kind_of(number: u8) -> Kind
    ensures { result ≡ kind_of number }
{
    match number {
        13 => Kind::Settle,
        15 => Kind::Quiet,
        16 => Kind::Close,
        17 => Kind::Search,
        18 => Kind::Search,
        19 => Kind::Delete,
        20 => Kind::Read,
        21 => Kind::Write,
        22 => Kind::Create,
        23 => Kind::Rename,
        32 => Kind::User,
        33 => Kind::Read,
        34 => Kind::Write,
        35 => Kind::Quiet,
        36 => Kind::Quiet,
        46 => Kind::Quiet,
        98 => Kind::Settle,
        _ => Kind::Unlisted,
    }
}

// Whether a kind is a call's.
pub fn is_listed(kind: Kind) -> bool
    ensures { result ≡ not (same kind Unlisted) }
{
    kind != Kind::Unlisted
}

// Whether a call uses the FCB.
pub fn uses_fcb(number: u8) -> bool
    ensures { result ≡ uses_fcb_rule number }
{
    match number {
        15 => true,
        16 => true,
        17 => true,
        19 => true,
        20 => true,
        21 => true,
        22 => true,
        23 => true,
        33 => true,
        34 => true,
        35 => true,
        36 => true,
        _ => false,
    }
}

// Whether a call goes by the random record.
pub fn is_random(number: u8) -> bool
    ensures { result ≡ is_random_rule number }
{
    match number {
        33 => true,
        34 => true,
        _ => false,
    }
}

// Whether a call writes a record.
pub fn writes(number: u8) -> bool
    ensures { result ≡ same (kind_of number) Write }
{
    match number {
        21 => true,
        34 => true,
        _ => false,
    }
}

// Whether a call moves a record.
pub fn moves_record(number: u8) -> bool
    ensures { result ≡ of_record (kind_of number) }
{
    match number {
        20 => true,
        21 => true,
        33 => true,
        34 => true,
        _ => false,
    }
}

// Whether an answer to a call says that it was accepted.
#[tactic(auto, using(lists::specs::Tests::short_circuits), unfolding(table::specs::Accepted::accepted_answer))]
pub fn accepted(number: u8, answer: Answer) -> bool
    ensures { result ≡ accepted_answer number answer }
{
    if moves_record(number) {
        return answer.h == 0 && answer.a == 0;
    }
    answer.h == 0 && answer.a != 255
}
