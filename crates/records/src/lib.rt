// The record calls carried out: the FCB comes to the target's extent, and a record is read or written there.
#![tactic(auto)]

ghost use Rattle.std.specs.Prelude.{◌≡◌, true, ◌≤◌, ◌<◌, length};
ghost use Rattle.format.specs.Diskette.{eight_inch, Long, record_bytes, extents, extent_records};
ghost use Rattle.format.specs.Entries.{entry_at, extent_of};
ghost use Rattle.format.specs.Consistent.{consistent};
ghost use Rattle.format.specs.Fcb.{fcb_bytes};
ghost use Rattle.model.specs.Lent.{AllLong};
ghost use Rattle.model.specs.Closing.{closed_image};
ghost use Rattle.model.specs.Target.{moved, made};
ghost use Rattle.model.specs.Kinds.{kind_of, same, of_record};
ghost use Rattle.model.specs.declared.Kind.TheVariants.{Write};
ghost use Rattle.chains.specs.Chain.{Findable};
ghost use Rattle.table.specs.Protection.{Unchanging};
ghost use Rattle.table.specs.OwnStep.{ready_step};
ghost use Rattle.table.specs.Plans.{entry_of};
ghost use Rattle.rulings.specs.Bounds.{OnDisk, OwnExtent};
ghost use Rattle.records.specs.Carry.{arrived, block_of, transferred};
ghost use Rattle.records.specs.Held.{held, outcome_on, StillLent};

use model::{Answer, Asked, Code, Plan, Session};
use targets::Target;

// The four buffers that a call is lent, as they pass from function to function. A field that is only read is handed on as `&mut` too where another
// is lent beside it: Rattle has no rule for a `&` there.
#[derive(Drop)]
pub struct Buffers<'a> {
    pub image: &'a mut [u8],
    pub map: &'a mut [u16],
    pub fcb: &'a mut [u8],
    pub buffer: &'a mut [u8],
}

// A move: the present extent, entry e, is closed, and the FCB takes entry t as it stands then, of its own extent.
#[tactic(auto, unfolding(model::specs::Target::moved))]
fn move_to(lent: &mut Buffers, e: usize, t: usize)
    requires { Long eight_inch lent.old.image.now × (length lent.old.fcb.now ≡ fcb_bytes) × (e < eight_inch.entries) × (t < eight_inch.entries) }
    ensures still_lent { StillLent lent.old lent.new }
    ensures comes_to { held lent.new
        ≡ moved eight_inch (extent_of (entry_at eight_inch (closed_image eight_inch lent.old.image.now e lent.old.fcb.now) t))
        (held lent.old) e t }
{
    closing::close_entry(lent.image, lent.map, e, &mut *lent.fcb);
    let row = rows::copy_row(&mut *lent.image, t);
    entering::enter(lent.fcb, row);
}

// A move into an extent that has no entry: the present extent is closed, and the FCB takes the entry that is made for it at t.
fn make_next(lent: &mut Buffers, e: usize, t: usize, extent: usize)
    requires { Long eight_inch lent.old.image.now × (length lent.old.fcb.now ≡ fcb_bytes) × (e < eight_inch.entries) × (t < eight_inch.entries)
        × (extent < extents) }
    ensures still_lent { StillLent lent.old lent.new }
    ensures comes_to { held lent.new ≡ made eight_inch extent (held lent.old) e t }
{
    closing::close_entry(lent.image, lent.map, e, &mut *lent.fcb);
    let row = entering::next_row(rows::copy_row(&mut *lent.image, e), extent);
    rows::store_row(lent.image, t, row);
    entering::enter(lent.fcb, row);
}

// The FCB comes to the target's extent, as the plan says: a match, since each kind of plan brings other entries.
fn arrive(lent: &mut Buffers, plan: Plan, extent: usize)
    requires { Long eight_inch lent.old.image.now × (length lent.old.fcb.now ≡ fcb_bytes) × (extent < extents) × OnDisk eight_inch plan
        × OwnExtent eight_inch lent.old.image.now lent.old.fcb.now extent plan }
    ensures still_lent { StillLent lent.old lent.new }
    ensures comes_to { held lent.new ≡ arrived eight_inch extent (held lent.old) plan }
{
    match plan {
        Plan::Stay(_, _) => {}
        Plan::Move(e, t, _) => move_to(lent, e, t),
        Plan::Make(e, t, _) => make_next(lent, e, t, extent),
    }
}

// The entry to which a plan brings the FCB.
fn entry_of(plan: Plan) -> usize
    ensures { result ≡ entry_of plan }
{
    match plan {
        Plan::Stay(e, _) => e,
        Plan::Move(_, t, _) | Plan::Make(_, t, _) => t,
    }
}

// The target's block.
fn block_of(plan: Plan) -> usize
    ensures { result ≡ block_of plan }
{
    match plan {
        Plan::Stay(_, b) | Plan::Move(_, _, b) | Plan::Make(_, _, b) => b,
    }
}

// The record read or written, with the FCB come to the target's extent.
fn transfer(number: u8, lent: &mut Buffers, plan: Plan, target: Target)
    requires { (target.at < extent_records) × (target.after ≤ extent_records) × OnDisk eight_inch plan
        × (extent_of lent.old.fcb.now ≡ extent_of (entry_at eight_inch lent.old.image.now (entry_of plan)))
        × AllLong eight_inch (held lent.old) }
    ensures still_lent { StillLent lent.old lent.new }
    ensures comes_to { held lent.new ≡ transferred eight_inch (same (kind_of number) Write) plan target (held lent.old) }
{
    let b = block_of(plan);
    if calls::writes(number) {
        let j = entries::slot_for(target.extent, target.at);
        let e = entry_of(plan);
        transfers::write_at(
            lent.image,
            lent.map,
            lent.fcb,
            &mut *lent.buffer,
            e,
            j,
            b,
            target.at,
            target.after,
        );
    } else {
        let image = &mut *lent.image;
        transfers::read_at(image, lent.fcb, lent.buffer, b, target.at, target.after);
    }
}

// A plan followed.
fn follow(number: u8, lent: &mut Buffers, plan: Plan, target: Target)
    requires { (target.extent < extents) × (target.at < extent_records) × (target.after ≤ extent_records) × OnDisk eight_inch plan
        × OwnExtent eight_inch lent.old.image.now lent.old.fcb.now target.extent plan × AllLong eight_inch (held lent.old) }
    ensures still_lent { StillLent lent.old lent.new }
    ensures comes_to { held lent.new
        ≡ transferred eight_inch (same (kind_of number) Write) plan target (arrived eight_inch target.extent (held lent.old) plan) }
{
    arrive(lent, plan, target.extent);
    transfer(number, lent, plan, target);
}

// The record calls, once the disk and the parameters are known to be right; of a protected session, those that read. These the protection refuses
// where they would succeed by a move that changes an entry.
pub fn record_call(asked: Asked, lent: &mut Buffers, session: Session, chain: &[u8]) -> Answer
    requires { (length lent.old.map.now ≡ eight_inch.blocks) × (length lent.old.buffer.now ≡ record_bytes)
        × (consistent eight_inch lent.old.image.now ≡ true)
        × (of_record (kind_of asked.number) ≡ true) × Unchanging session asked.number
        × Findable eight_inch lent.old.image.now chain.now session.user lent.old.fcb.now }
    ensures still_lent { StillLent lent.old lent.new }
    ensures comes_to { outcome_on lent.new result ≡ ready_step eight_inch asked (held lent.old) session }
{
    let number = asked.number;
    let image = &mut *lent.image;
    let map = &mut *lent.map;
    let fcb = &mut *lent.fcb;
    let target = targets::target_of(number, fcb);
    match rulings::rule(number, target, image, map, chain, fcb, session.user) {
        Err(code) => answers::refuse(code, session),
        Ok(plan) => {
            if stopping::stops(session, plan, image, fcb) {
                return answers::refuse(Code::Protected, session);
            }
            follow(number, lent, plan, target);
            answers::done(0, session)
        }
    }
}
