// What 15 and 22 ask for by an FCB: whether they can ask, and the entry that is meant.
#![tactic(auto)]

ghost use Rattle.std.specs.Prelude.{◌≡◌, false, ◌<◌, length};
ghost use Rattle.format.specs.Diskette.{Bytes, eight_inch};
ghost use Rattle.format.specs.Fcb.{fcb_bytes};
ghost use Rattle.model.specs.Lent.{lend};
ghost use Rattle.model.specs.Table.{asked_entry};
ghost use Rattle.chains.specs.Chain.{Findable};
ghost use Rattle.asking.specs.Asked.{asks_right_rule};

use format::Found;

// Whether 15 and 22 can ask for a file by the FCB: its name obeys the name rule, and byte 12 is an ex.
#[tactic(auto, using(crate::specs::Asked::asks_by))]
pub fn asks_right(fcb: &[u8]) -> bool
    requires { length fcb.now ≡ fcb_bytes }
    ensures { result ≡ asks_right_rule fcb.now }
{
    fcb[12] <= 31 && names::name_right(false, fcb, 1)
}

// The entry that 15 and 22 ask for: of the FCB's name, with ex = byte 12 and s2 0.
pub fn find_asked(image: &[u8], chain: &[u8], user: u8, fcb: &[u8]) -> Found
    requires { Findable eight_inch image.now chain.now user fcb.now }
    ensures { (map buffer : Bytes) → result ≡ asked_entry eight_inch (lend image.now map fcb.now buffer) user }
{
    chains::find_file(image, chain, user, fcb, 1, usize::from(fcb[12]))
}
