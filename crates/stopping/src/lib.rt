// Plans of reads that the write protection stops: those that would change an entry.
#![tactic(auto)]

ghost use Rattle.std.specs.Prelude.{◌≡◌, length};
ghost use Rattle.lists.specs.Tests.{◌and◌};
ghost use Rattle.format.specs.Diskette.{Bytes, eight_inch, Long};
ghost use Rattle.format.specs.Fcb.{fcb_bytes};
ghost use Rattle.model.specs.Lent.{lend, protected};
ghost use Rattle.table.specs.Protection.{plan_changes};
ghost use Rattle.rulings.specs.Bounds.{OnDisk};

use model::{Plan, Session};

// Whether a plan moves, and the close with which a move begins changes the entry.
fn move_changes(plan: Plan, image: &[u8], fcb: &[u8]) -> bool
    requires { Long eight_inch image.now × (length fcb.now ≡ fcb_bytes) × OnDisk eight_inch plan }
    ensures { (map buffer : Bytes) → result ≡ plan_changes eight_inch (lend image.now map fcb.now buffer) plan }
{
    match plan {
        Plan::Stay(_, _) => false,
        Plan::Move(e, _, _) | Plan::Make(e, _, _) => merging::close_changes(
            rows::row(image, e),
            fcb,
        ),
    }
}

// Whether a session stops a plan: a protected one that of a move that changes an entry.
#[tactic(auto, using(lists::specs::Tests::short_circuits))]
pub fn stops(session: Session, plan: Plan, image: &[u8], fcb: &[u8]) -> bool
    requires { Long eight_inch image.now × (length fcb.now ≡ fcb_bytes) × OnDisk eight_inch plan }
    ensures { (map buffer : Bytes)
        → result ≡ (protected session and plan_changes eight_inch (lend image.now map fcb.now buffer) plan) }
{
    protection::is_protected(session) && move_changes(plan, image, fcb)
}
