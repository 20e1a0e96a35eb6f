// The searches, calls 17 and 18. Each is handed only what it reads or changes; what it promises holds whatever the other buffers are.
#![tactic(auto)]

ghost use Rattle.std.specs.Prelude.{◌≡◌, length};
ghost use Rattle.format.specs.Diskette.{Bytes, eight_inch, record_bytes, Long};
ghost use Rattle.format.specs.Fcb.{fcb_bytes};
ghost use Rattle.model.specs.Lent.{lend, outcome};
ghost use Rattle.table.specs.Own.{calling};
ghost use Rattle.table.specs.OwnStep.{own_step};
ghost use Rattle.searching.specs.Searches.{pattern_right_rule, searched_from};
ghost use Rattle.model.specs.declared.Asked.{Asked};

use format::ENTRIES_PER_RECORD;
use model::{Answer, Code, Session};

// The first match from a place on: its directory record goes into the buffer, and the search goes on one past it. Without a match the
// search is over.
#[tactic(auto, using(hits::specs::Hits::hit_low))]
fn first_match(
    image: &[u8],
    pattern: [u8; 12],
    from: usize,
    buffer: &mut [u8],
    session: Session,
) -> Answer
    requires { Long eight_inch image.now × (length buffer.old ≡ record_bytes) }
    ensures { (map fcb : Bytes) → outcome result image.now map fcb buffer.new
        ≡ searched_from eight_inch session (lend image.now map fcb buffer.old) pattern from }
{
    let Some(e) = hits::find_hit(image, session.user, &pattern, from) else {
        return answers::refuse(Code::SearchOver, session);
    };
    disk::read_record(image, e / ENTRIES_PER_RECORD, buffer);
    // The number fits: the cast loses nothing.
    let next = answers::search_from(session, pattern, (e + 1) as u16);
    answers::accept(answers::entry_number(e), next)
}

// Whether an FCB's name and byte 12 may be searched for.
#[tactic(auto, using(lists::specs::Tests::short_circuits), unfolding(crate::specs::Searches::pattern_right_rule))]
fn pattern_right(fcb: &[u8]) -> bool
    requires { length fcb.now ≡ fcb_bytes }
    ensures { result ≡ pattern_right_rule fcb.now }
{
    names::name_right(true, fcb, 1) && (fcb[12] <= 31 || fcb[12] == 63)
}

// 17: the first entry that the FCB's name and byte 12 match.
pub fn search_first(image: &[u8], fcb: &[u8], buffer: &mut [u8], session: Session) -> Answer
    requires { Long eight_inch image.now × (length fcb.now ≡ fcb_bytes) × (length buffer.old ≡ record_bytes) }
    ensures { (asked : Asked) (map : Bytes) → outcome result image.now map fcb.now buffer.new
        ≡ own_step eight_inch (calling 17 asked) (lend image.now map fcb.now buffer.old) session }
{
    if !pattern_right(fcb) {
        return answers::refuse(Code::BadName, session);
    }
    let mut pattern = [0u8; 12];
    lists::get(fcb, 1, &mut pattern);
    first_match(image, pattern, 0, buffer, session)
}

// 18: the next entry that the session's pattern matches.
pub fn search_next(image: &[u8], buffer: &mut [u8], session: Session) -> Answer
    requires { Long eight_inch image.now × (length buffer.old ≡ record_bytes) }
    ensures { (asked : Asked) (map fcb : Bytes) → outcome result image.now map fcb buffer.new
        ≡ own_step eight_inch (calling 18 asked) (lend image.now map fcb buffer.old) session }
{
    if session.on == 0 {
        return answers::refuse(Code::Failed, session);
    }
    first_match(
        image,
        session.pattern,
        usize::from(session.place),
        buffer,
        session,
    )
}
