// The slots of an FCB against an entry's: whether each is the entry's, or holds a block that is pending for it.
#![tactic(auto)]

ghost use Rattle.std.specs.Prelude.{◌≡◌, ◌≤◌, ◌<◌, length};
ghost use Rattle.format.specs.Diskette.{eight_inch, slot_count};
ghost use Rattle.format.specs.Fcb.{slot_fits_rule, slots_fit_rule};
ghost use Rattle.slots.specs.Slots.{slots_same_rule};

// Whether slot j of an FCB is entry e's, or holds a block that is pending for it where the entry has none.
#[tactic(auto, using(lists::specs::Tests::short_circuits), unfolding(format::specs::Fcb::slot_fits_rule, format::specs::Entries::slot_in))]
fn slot_fits(map: &[u16], e: usize, es: [u8; 16], fs: [u8; 16], j: usize) -> bool
    requires { (e < eight_inch.entries) × (j < slot_count) }
    ensures { result ≡ slot_fits_rule eight_inch map.now e es fs j }
{
    fs[j] == es[j]
        || (es[j] == 0 && notes::note_at(map, usize::from(fs[j])) == notes::pending_note(e, j))
}

// Whether sixteen slots are the same in both: the bits in which they differ are or-ed together. Both are lent, so that a compiler takes
// the sixteen at once.
pub fn same(es: &[u8], fs: &[u8]) -> bool
    requires { (slot_count ≤ length es.now) × (slot_count ≤ length fs.now) }
    ensures { result ≡ slots_same_rule es.now fs.now }
{
    let mut differ = 0;
    for j in 0..format::SLOTS {
        differ |= fs[j] ^ es[j];
    }
    differ == 0
}

// Whether every slot of an FCB is the entry's.
pub fn slots_same(es: [u8; 16], fs: [u8; 16]) -> bool
    ensures { result ≡ slots_same_rule es fs }
{
    same(&es, &fs)
}

// Whether every slot of an FCB fits entry e.
pub fn slots_fit(map: &[u16], e: usize, es: [u8; 16], fs: [u8; 16]) -> bool
    requires { e < eight_inch.entries }
    ensures { result ≡ slots_fit_rule eight_inch map.now e es fs }
{
    (0..format::SLOTS).all(|j| slot_fits(map, e, es, fs, j))
}
