// The export for C and Rust hosts. Each slice is a pointer and a length there; include/benzokamuri.h says what a caller must know.
#![tactic(auto)]

ghost use Rattle.std.specs.Prelude.{◌≡◌};
ghost use Rattle.format.specs.Diskette.{eight_inch};
ghost use Rattle.model.specs.Lent.{lend, outcome, lift, protect};
ghost use Rattle.model.specs.Step.{step};
ghost use Rattle.demands.specs.Runs.{disk_of};
ghost use Rattle.picking.specs.Picker.{picked};
ghost use Rattle.benzokamuri.specs.Handed.{Handed};

use benzokamuri::Picked;
use model::{Answer, Asked, Session};
use picking::{Time, Wanted};

// One call, whatever it is handed.
#[unsafe(no_mangle)]
pub extern "C" fn benzo_call(
    asked: Asked,
    image: &mut [u8],
    map: &mut [u16],
    fcb: &mut [u8],
    buffer: &mut [u8],
    session: Session,
) -> Answer
    ensures { outcome result image.new map.new fcb.new buffer.new
        ≡ step eight_inch asked (lend image.old map.old fcb.old buffer.old) session }
{
    benzokamuri::benzo_call(asked, image, map, fcb, buffer, session)
}

// The session with its write protection lifted: no call lifts it.
#[unsafe(no_mangle)]
pub extern "C" fn benzo_lift(session: Session) -> Session
    ensures { result ≡ lift session }
{
    benzokamuri::benzo_lift(session)
}

// The session with its write protection set.
#[unsafe(no_mangle)]
pub extern "C" fn benzo_protect(session: Session) -> Session
    ensures { result ≡ protect session }
{
    benzokamuri::benzo_protect(session)
}

// The word of a day, and the day logged, whatever is handed.
#[unsafe(no_mangle)]
pub extern "C" fn benzo_pick(
    wanted: Wanted,
    time: Time,
    image: &mut [u8],
    map: &mut [u16],
    word: &mut [u8],
    session: Session,
) -> Picked
    ensures { Handed result word.new image.new map.new
        (picked eight_inch time wanted (disk_of image.old map.old session) word.old) }
{
    benzokamuri::benzo_pick(wanted, time, image, map, word, session)
}
