// The stamps that a call makes on a disk with date entries, told from the state as it came. They are due where the call is accepted, which its
// answer says; so no row of the table is decided here.
#![tactic(auto)]

ghost use Rattle.std.specs.Prelude.{◌≡◌, true, false, ◌<◌, Some};
ghost use Rattle.format.specs.Diskette.{Bytes, eight_inch};
ghost use Rattle.format.specs.Entries.{entry_at};
ghost use Rattle.format.specs.Dates.{asks};
ghost use Rattle.dates.specs.Label.{asks_bit};
ghost use Rattle.format.specs.Fcb.{current};
ghost use Rattle.model.specs.declared.Kind.TheVariants.{Quiet};
ghost use Rattle.model.specs.Kinds.{kind_of, of_record};
ghost use Rattle.model.specs.Lent.{lend};
ghost use Rattle.model.specs.Target.{stays};
ghost use Rattle.chains.specs.Chain.{Findable};
ghost use Rattle.table.specs.Own.{calling};
ghost use Rattle.facts.specs.Beside.{Beside};
ghost use Rattle.stamps.specs.Due.{Puttable};
ghost use Rattle.stamping.specs.Made.{Dues};
ghost use Rattle.stamping.specs.Dated.{Dated};
ghost use Rattle.stamping.specs.Due.{no_due, updated_if};

use format::Found;
use model::{Asked, Kind, Session};
use stamps::Due;

// The state as the call found it, on a disk with date entries: what is due is told from it.
#[derive(Clone, Copy)]
struct Before<'a> {
    asked: Asked,
    image: &'a [u8],
    map: &'a [u16],
    fcb: &'a [u8],
    session: Session,
    chain: &'a [u8],
    label: Option<usize>,
    ghost findable: { Findable eight_inch image.now chain.now session.user fcb.now },
    ghost dated: { Dated eight_inch image.now label },
}

impl<'a> Before<'a> {
    // Whether the label asks for the stamps of a bit.
    fn label_asks(&self, what: u8) -> bool
        requires { 0 < what }
        ensures { result ≡ asks eight_inch (entry_at eight_inch self.now.image.now) (asks_bit what) }
    {
        let Some(e) = self.label else {
            return false;
        };
        dates::asks(rows::row(self.image, e), what)
    }

    // The FCB's entry, where it is current.
    fn current_entry(&self) -> Found
        ensures { result ≡ current eight_inch (entry_at eight_inch self.now.image.now) self.now.map.now self.now.session.user self.now.fcb.now }
    {
        current::current_entry(
            self.image,
            self.map,
            self.chain,
            self.session.user,
            self.fcb,
        )
    }

    // 15: access of the entry opened, on a session whose protection is lifted.
    fn open_due(&self) -> Due
        ensures { Puttable eight_inch result × ((asked : Asked) (map buffer : Bytes)
            → Dues eight_inch (calling 15 asked) (lend self.now.image.now map self.now.fcb.now buffer) self.now.session result) }
    {
        if protection::is_protected(self.session) {
            return Due::NONE;
        }
        if !self.label_asks(dates::ACCESS) {
            return Due::NONE;
        }
        let first = asking::find_asked(self.image, self.chain, self.session.user, self.fcb);
        Due { first, ..Due::NONE }
    }

    // The quiet calls: only 15 stamps.
    fn quiet_due(&self) -> Due
        requires { kind_of self.now.asked.number ≡ Quiet }
        ensures { Puttable eight_inch result × ((map buffer : Bytes)
            → Dues eight_inch self.now.asked (lend self.now.image.now map self.now.fcb.now buffer) self.now.session result) }
    {
        if self.asked.number == 15 {
            return self.open_due();
        }
        Due::NONE
    }

    // The entry that a close stamps: e, where the label asks and the close changes it.
    fn updated(&self, e: usize) -> Found
        requires { e < eight_inch.entries }
        ensures { result ≡ updated_if eight_inch self.now.image.now self.now.fcb.now e }
    {
        if !self.label_asks(dates::UPDATE) {
            return None;
        }
        merging::close_changes(rows::row(self.image, e), self.fcb).then_some(e)
    }

    // 16: update of the entry closed.
    fn close_due(&self) -> Due
        ensures { Puttable eight_inch result × ((asked : Asked) (buffer : Bytes)
            → Dues eight_inch (calling 16 asked) (lend self.now.image.now self.now.map.now self.now.fcb.now buffer) self.now.session result) }
    {
        let Some(e) = self.current_entry() else {
            return Due::NONE;
        };
        let update = self.updated(e);
        Due {
            update,
            ..Due::NONE
        }
    }

    // 22: the stamps of the entry made, the first empty one: both become zero, and then create gets the time where the label asks.
    fn create_due(&self) -> Due
        ensures { Puttable eight_inch result × ((asked : Asked) (map fcb buffer : Bytes) (s : Session)
            → Dues eight_inch (calling 22 asked) (lend self.now.image.now map fcb buffer) s result) }
    {
        let new = lookups::find_empty(self.image);
        if self.label_asks(dates::CREATE) {
            return Due {
                new,
                first: new,
                ..Due::NONE
            };
        }
        Due { new, ..Due::NONE }
    }

    // A record call that moves from entry e to another extent: update of the entry that it closes; and the stamps of the entry that it makes,
    // where the target has none, become zero.
    fn move_due(&self, e: usize) -> Due
        requires { (of_record (kind_of self.now.asked.number) ≡ true) × (stays self.now.asked.number self.now.fcb.now ≡ false) × Beside eight_inch e }
        ensures { Puttable eight_inch result × ((map buffer : Bytes)
            → current eight_inch (entry_at eight_inch self.now.image.now) map self.now.session.user self.now.fcb.now ≡ Some e
            → Dues eight_inch self.now.asked (lend self.now.image.now map self.now.fcb.now buffer) self.now.session result) }
    {
        let target = targets::target_of(self.asked.number, self.fcb);
        let update = self.updated(e);
        let None = chains::find_file(
            self.image,
            self.chain,
            self.session.user,
            self.fcb,
            1,
            target.extent,
        ) else {
            return Due {
                update,
                ..Due::NONE
            };
        };
        let made = lookups::find_empty(self.image);
        Due {
            update,
            new: made,
            ..Due::NONE
        }
    }

    // The record calls: only a move stamps.
    fn record_due(&self) -> Due
        requires { of_record (kind_of self.now.asked.number) ≡ true }
        ensures { Puttable eight_inch result × ((buffer : Bytes)
            → Dues eight_inch self.now.asked (lend self.now.image.now self.now.map.now self.now.fcb.now buffer) self.now.session result) }
    {
        let target = targets::target_of(self.asked.number, self.fcb);
        if target.extent == entries::extent(self.fcb) {
            return Due::NONE;
        }
        let Some(e) = self.current_entry() else {
            return Due::NONE;
        };
        self.move_due(e)
    }

    // The stamps of a call by its kind; a match, which is held against the list of kinds.
    fn kind_due(&self, kind: Kind) -> Due
        requires { kind ≡ kind_of self.now.asked.number }
        ensures { Puttable eight_inch result × ((buffer : Bytes)
            → Dues eight_inch self.now.asked (lend self.now.image.now self.now.map.now self.now.fcb.now buffer) self.now.session result) }
    {
        match kind {
            Kind::Quiet => self.quiet_due(),
            Kind::Close => self.close_due(),
            Kind::Create => self.create_due(),
            Kind::Read | Kind::Write => self.record_due(),
            Kind::Search
            | Kind::User
            | Kind::Settle
            | Kind::Delete
            | Kind::Rename
            | Kind::Unlisted => Due::NONE,
        }
    }
}

// The stamps that a call makes where it is accepted, once the first three rows of the table have passed it; its kind is handed in. A disk
// without date entries gets none.
pub fn due(
    dated: bool,
    kind: Kind,
    asked: Asked,
    image: &[u8],
    map: &[u16],
    fcb: &[u8],
    session: Session,
    chain: &[u8],
    label: Option<usize>,
) -> Due
    requires { (kind ≡ kind_of asked.number) × Findable eight_inch image.now chain.now session.user fcb.now
        × (dated ≡ true → Dated eight_inch image.now label) }
    ensures { Puttable eight_inch result × ((buffer : Bytes) → dated ≡ true
        → Dues eight_inch asked (lend image.now map.now fcb.now buffer) session result)
        × (dated ≡ false → result ≡ no_due) }
{
    if !dated {
        return Due::NONE;
    }
    let before = Before {
        asked,
        image,
        map,
        fcb,
        session,
        chain,
        label,
    };
    before.kind_due(kind)
}
