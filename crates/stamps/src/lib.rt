// The stamps beside the entries: where one lies, one that is put there, and those that a call makes, put one after the other.
#![tactic(auto)]

ghost use Rattle.std.specs.Prelude.{◌≡◌, ◌+◌, ◌≤◌};
ghost use Rattle.format.specs.Diskette.{eight_inch, Long, image_bytes};
ghost use Rattle.format.specs.Dates.{stamp_bytes, with_stamp};
ghost use Rattle.model.specs.Stamps.{time_stamp_rule, stamped_with};
ghost use Rattle.facts.specs.Beside.{Beside};
ghost use Rattle.stamps.specs.Place.{number_of, place_of};
ghost use Rattle.stamps.specs.Due.{stamps_at, beside_at, blank_at, BesideFound, due_stamps, Puttable, accepted_stamps};

use format::{ENTRIES_PER_RECORD, Found};
use model::{Answer, Asked};

// The stamps that are due, in the order in which they are put: an entry's update gets the time, both stamps of a new entry become zero,
// and an entry's create or access gets the time.
#[derive(Clone, Copy)]
pub struct Due {
    pub update: Found,
    pub new: Found,
    pub first: Found,
}

impl Due {
    // Nothing is due.
    pub const NONE: Self = Due {
        update: None,
        new: None,
        first: None,
    };
}

// The two stamps beside an entry, in their order: create or access, and update.
#[derive(Clone, Copy)]
enum Which {
    First,
    Update,
}

// The place in the image of a stamp beside an entry.
fn stamp_place(e: usize, which: Which) -> usize
    requires { Beside eight_inch e }
    ensures { (result ≡ place_of eight_inch e (number_of which)) × (result + stamp_bytes ≤ image_bytes eight_inch) }
{
    let dates = rows::entry_place(ENTRIES_PER_RECORD * (e / ENTRIES_PER_RECORD) + 3);
    let pair = dates + (1 + 10 * (e % ENTRIES_PER_RECORD));
    match which {
        Which::First => pair,
        Which::Update => pair + 4,
    }
}

// A stamp beside an entry is replaced.
fn put_stamp(image: &mut [u8], e: usize, which: Which, stamp: [u8; 4])
    requires { Long eight_inch image.old × Beside eight_inch e }
    ensures { image.new ≡ with_stamp eight_inch image.old e (number_of which) stamp }
{
    lists::put(image, stamp_place(e, which), &stamp);
}

// The time that is handed in, as a stamp.
#[tactic(auto, unfolding(model::specs::Stamps::time_stamp_rule))]
fn time_stamp(asked: Asked) -> [u8; 4]
    ensures { result ≡ time_stamp_rule asked }
{
    let [low, high] = asked.day.to_le_bytes();
    [low, high, asked.hour, asked.minute]
}

// A stamp of an entry, where there is one.
fn put_at(image: &mut [u8], entry: Found, which: Which, stamp: [u8; 4])
    requires { Long eight_inch image.old × BesideFound eight_inch entry }
    ensures { image.new ≡ stamped_with eight_inch (stamps_at (beside_at which stamp) entry) image.old }
{
    if let Some(e) = entry {
        put_stamp(image, e, which, stamp);
    }
}

// Both stamps of a new entry, where there is one, become zero.
fn put_blank(image: &mut [u8], entry: Found)
    requires { Long eight_inch image.old × BesideFound eight_inch entry }
    ensures { image.new ≡ stamped_with eight_inch (stamps_at blank_at entry) image.old }
{
    let zero = [0u8; 4];
    put_at(image, entry, Which::First, zero);
    put_at(image, entry, Which::Update, zero);
}

// The stamps that are due are put.
fn put_due(image: &mut [u8], asked: Asked, due: Due)
    requires { Long eight_inch image.old × Puttable eight_inch due }
    ensures { image.new ≡ stamped_with eight_inch (due_stamps asked due) image.old }
{
    let time = time_stamp(asked);
    put_at(image, due.update, Which::Update, time);
    put_blank(image, due.new);
    put_at(image, due.first, Which::First, time);
}

// They are put where the answer says that the call was accepted: a refusal stamps nothing.
pub fn put_accepted(image: &mut [u8], asked: Asked, answer: Answer, due: Due)
    requires { Long eight_inch image.old × Puttable eight_inch due }
    ensures { image.new ≡ stamped_with eight_inch (accepted_stamps asked answer due) image.old }
{
    if calls::accepted(asked.number, answer) {
        put_due(image, asked, due);
    }
}
