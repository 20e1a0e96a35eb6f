// The entry point: one call, from its number to its answer. The first three rows of the table are decided here, in their order, and then the
// protection, but for a read's, which its own function asks for; then the call goes to that function, and its stamps are put.
#![tactic(auto)]

ghost use Rattle.std.specs.Prelude.{◌≡◌, true};
ghost use Rattle.format.specs.Diskette.{eight_inch};
ghost use Rattle.format.specs.Entries.{entry_at};
ghost use Rattle.model.specs.Kinds.{kind_of, is_call};
ghost use Rattle.model.specs.Lent.{lend, outcome};
ghost use Rattle.model.specs.Step.{step};
ghost use Rattle.dates.specs.Label.{Labelled};
ghost use Rattle.chains.specs.Chain.{Indexed};
ghost use Rattle.table.specs.Facts.{Ready};
ghost use Rattle.records.specs.Held.{held, outcome_on, StillLent};
ghost use Rattle.table.specs.Protection.{Unchanging};

use consistent::Seen;
use model::{Answer, Asked, Code, Kind, Session};
use records::Buffers;

// A call other than 13 that the first three rows have passed; of a protected session, one that does not change the disk. Its own function and, on a
// disk with date entries, its stamps, which are told from the state as it came and put once the call is done.
fn passed_call(
    kind: Kind,
    asked: Asked,
    lent: &mut Buffers,
    session: Session,
    chain: &[u8],
    label: Option<usize>,
) -> Answer
    requires { (kind ≡ kind_of asked.number) × (is_call asked.number ≡ true) × (asked.number ≡ 13 → ⊥)
        × Ready eight_inch asked (held lent.old) session
        × Unchanging session asked.number
        × Indexed eight_inch (entry_at eight_inch lent.old.image.now) chain.now
        × Labelled (entry_at eight_inch lent.old.image.now) eight_inch.entries label }
    ensures still_lent { StillLent lent.old lent.new }
    ensures comes_to { outcome_on lent.new result ≡ step eight_inch asked (held lent.old) session }
{
    let image = &mut *lent.image;
    let map = &mut *lent.map;
    let fcb = &mut *lent.fcb;
    let dated = dates::is_dated(image);
    let due = stamping::due(dated, kind, asked, image, map, fcb, session, chain, label);
    let answer = dispatch::own_call(kind, asked, lent, session, chain);
    if !dated {
        return answer;
    }
    stamps::put_accepted(lent.image, asked, answer, due);
    answer
}

// A call other than 13 that the first three rows have passed: a protected session refuses those that change the disk, and the others go on. Whether
// it refuses a read is told where the read is planned.
fn ready_call(
    kind: Kind,
    asked: Asked,
    lent: &mut Buffers,
    session: Session,
    chain: &[u8],
    label: Option<usize>,
) -> Answer
    requires { (kind ≡ kind_of asked.number) × (is_call asked.number ≡ true) × (asked.number ≡ 13 → ⊥)
        × Ready eight_inch asked (held lent.old) session
        × Indexed eight_inch (entry_at eight_inch lent.old.image.now) chain.now
        × Labelled (entry_at eight_inch lent.old.image.now) eight_inch.entries label }
    ensures still_lent { StillLent lent.old lent.new }
    ensures comes_to { outcome_on lent.new result ≡ step eight_inch asked (held lent.old) session }
{
    if protection::refuses(kind, session) {
        return answers::refuse(Code::Protected, session);
    }
    passed_call(kind, asked, lent, session, chain, label)
}

// One call, whatever it is handed: any number, lengths, bytes and session.
pub fn call(
    asked: Asked,
    image: &mut [u8],
    map: &mut [u16],
    fcb: &mut [u8],
    buffer: &mut [u8],
    session: Session,
) -> Answer
    ensures { outcome result image.new map.new fcb.new buffer.new
        ≡ step eight_inch asked (lend image.old map.old fcb.old buffer.old) session }
{
    let number = asked.number;
    let kind = calls::kind_of(number);
    if !calls::is_listed(kind) {
        return answers::refuse(Code::NotListed, session);
    }
    if !admission::parameters_right(asked, image, map, fcb, buffer, session) {
        return answers::refuse(Code::BadParameter, session);
    }
    let mut marks = [0u8; format::MARKS];
    let mut chain = [0u8; chains::CHAIN_BYTES];
    let mut seen = Seen {
        marks: &mut marks,
        chain: &mut chain,
        label: None,
        dates: 0,
    };
    if !checking::disk_right(asked, image, map, &mut seen) {
        return answers::refuse(Code::BadDisk, session);
    }
    if number == 13 {
        return plain::log_in(map, seen.marks, session);
    }
    let mut lent = Buffers {
        image,
        map,
        fcb,
        buffer,
    };
    let label = seen.label;
    ready_call(kind, asked, &mut lent, session, seen.chain, label)
}
