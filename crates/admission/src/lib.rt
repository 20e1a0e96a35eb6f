// What every call is asked for once its number is listed: lengths and parameters in range.
#![tactic(auto)]

ghost use Rattle.std.specs.Prelude.{◌≡◌};
ghost use Rattle.format.specs.Diskette.{eight_inch};
ghost use Rattle.model.specs.Lent.{lend};
ghost use Rattle.model.specs.Table.{time_right_rule, lengths_right_rule, parameters_right_rule};

use model::{Asked, Session};

// Whether each of the four buffers has its length.
#[tactic(auto, using(lists::specs::Tests::short_circuits), unfolding(model::specs::Table::lengths_right_rule, format::specs::Diskette::is_long))]
fn lengths_right(image: &[u8], map: &[u16], fcb: &[u8], buffer: &[u8]) -> bool
    ensures { result ≡ lengths_right_rule eight_inch (lend image.now map.now fcb.now buffer.now) }
{
    if image.len() != format::IMAGE_BYTES {
        return false;
    }
    if map.len() != format::BLOCKS {
        return false;
    }
    if fcb.len() != format::FCB_BYTES {
        return false;
    }
    buffer.len() == format::RECORD_BYTES
}

// Whether hour and minute of the time that came with the call are in BCD.
#[tactic(auto, unfolding(model::specs::Table::time_right_rule))]
fn time_right(asked: Asked) -> bool
    ensures { result ≡ time_right_rule asked }
{
    dates::time_right(asked.hour, asked.minute)
}

// Whether lengths, the session's user and place, the time, and byte 0 of an FCB that is used are in range.
#[tactic(auto, using(lists::specs::Tests::short_circuits, crate::specs::Parameters::fcb_length), unfolding(model::specs::Table::parameters_right_rule))]
pub fn parameters_right(
    asked: Asked,
    image: &[u8],
    map: &[u16],
    fcb: &[u8],
    buffer: &[u8],
    session: Session,
) -> bool
    ensures { result ≡ parameters_right_rule eight_inch (lend image.now map.now fcb.now buffer.now) asked session }
{
    if !lengths_right(image, map, fcb, buffer) {
        return false;
    }
    if 15 < session.user {
        return false;
    }
    if format::ENTRIES < usize::from(session.place) {
        return false;
    }
    if !time_right(asked) {
        return false;
    }
    if calls::uses_fcb(asked.number) {
        return fcb[0] <= 1;
    }
    true
}
