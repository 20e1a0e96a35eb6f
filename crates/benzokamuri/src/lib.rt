// The calls that hosts make, each with the contract that it is exported with: benzokamuri_c hands them on to C and Rust hosts.
#![tactic(auto)]

ghost use Rattle.std.specs.Prelude.{◌≡◌};
ghost use Rattle.format.specs.Diskette.{eight_inch};
ghost use Rattle.model.specs.Lent.{lend, outcome, lift, protect};
ghost use Rattle.model.specs.Step.{step};
ghost use Rattle.demands.specs.Runs.{disk_of};
ghost use Rattle.picking.specs.Picker.{picked};
ghost use Rattle.benzokamuri.specs.Handed.{Handed};

use logging::Disk;
use model::{Answer, Asked, Session};
use picking::{Time, Wanted};

// What a run of the picker tells: how it ended, by its number, and A and H of the refusal that has no number of its own; given is 1 where the word was
// handed out, else 0.
#[repr(C)]
#[derive(Clone, Copy)]
pub struct Picked {
    pub number: u8,
    pub given: u8,
    pub a: u8,
    pub h: u8,
    pub session: Session,
}

// One call, whatever it is handed.
pub fn benzo_call(
    asked: Asked,
    image: &mut [u8],
    map: &mut [u16],
    fcb: &mut [u8],
    buffer: &mut [u8],
    session: Session,
) -> Answer
    ensures { outcome result image.new map.new fcb.new buffer.new
        ≡ step eight_inch asked (lend image.old map.old fcb.old buffer.old) session }
{
    bdos::call(asked, image, map, fcb, buffer, session)
}

// The session with its write protection lifted: no call lifts it.
pub fn benzo_lift(session: Session) -> Session
    ensures { result ≡ lift session }
{
    protection::lift(session)
}

// The session with its write protection set.
pub fn benzo_protect(session: Session) -> Session
    ensures { result ≡ protect session }
{
    protection::protect(session)
}

// The word of a day, and the day logged, whatever is handed.
pub fn benzo_pick(
    wanted: Wanted,
    time: Time,
    image: &mut [u8],
    map: &mut [u16],
    word: &mut [u8],
    session: Session,
) -> Picked
    ensures { Handed result word.new image.new map.new
        (picked eight_inch time wanted (disk_of image.old map.old session) word.old) }
{
    let mut disk = Disk {
        image,
        map,
        session,
    };
    let told = picker::pick(&mut disk, wanted, time, word);
    let says = daybook::says_of(told.pick);
    Picked {
        number: says.number,
        given: u8::from(told.given),
        a: says.a,
        h: says.h,
        session: disk.session,
    }
}
