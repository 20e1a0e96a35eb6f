// Request [11], of the export itself: one run of the picker, and a second one, by its contract alone, which ask nothing of what they are handed.
#![tactic(auto)]

ghost use Rattle.demands.specs.Runs.{disk_of};
ghost use Rattle.twice.specs.Once.{PickedOnce};
ghost use Rattle.twice.specs.Twice.{PickedTwice};

use benzokamuri::Picked;
use model::Session;
use picking::{Time, Wanted};

// One run, and what the theorems say of it: the answer is the table's, the word is what 33 gives, and a run that answered 0 logged one record; any other
// changes no byte of image or map but access stamps of book and log.
pub fn pick_once(
    wanted: Wanted,
    time: Time,
    image: &mut [u8],
    map: &mut [u16],
    word: &mut [u8],
    session: Session,
) -> Picked
    ensures { PickedOnce wanted time (disk_of image.old map.old session) word.old
        result word.new image.new map.new }
{
    benzokamuri::benzo_pick(wanted, time, image, map, word, session)
}

// What two runs tell.
#[derive(Clone, Copy)]
pub struct Twice {
    pub first: Picked,
    pub second: Picked,
}

// A run of the picker and, on what it left, a second one. Where the first answered 0 or 1, the second's time is in BCD and `other` has 128 bytes, the
// second answers 1, with the same word, and changes no byte of image or map but access stamps of book and log.
pub fn pick_twice(
    wanted: Wanted,
    time: Time,
    again: Time,
    image: &mut [u8],
    map: &mut [u16],
    word: &mut [u8],
    other: &mut [u8],
    session: Session,
) -> Twice
    ensures { PickedTwice wanted time again (disk_of image.old map.old session) word.old other.old
        result word.new other.new image.new map.new }
{
    let first = benzokamuri::benzo_pick(wanted, time, image, map, word, session);
    let second = benzokamuri::benzo_pick(wanted, again, image, map, other, first.session);
    Twice { first, second }
}
