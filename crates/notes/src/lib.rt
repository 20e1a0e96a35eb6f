// The map: one note a block, the free ones among them, and the one change of a note.
#![tactic(auto)]

ghost use Rattle.std.specs.Prelude.{◌≡◌, cond, ◌<◌, ◌≤◌, eqb, length};
ghost use Rattle.format.specs.Diskette.{eight_inch, slot_count};
ghost use Rattle.format.specs.Notes.{free_note, note_at_rule, pending_for, with_note, find_free, free_count_rule};
ghost use Rattle.notes.specs.Holder.{holder_of};

use format::Found;

// The numbers of notes. From PENDING on, each entry has PLACES of them, one for each of its slots.
pub const FREE: u16 = 0;

pub const AREA: u16 = 1;

pub const RECORDED: u16 = 2;

pub const PENDING: usize = 16;

const PLACES: usize = 16;

// The note of a block that is pending for slot j of entry e.
#[tactic(auto, unfolding(format::specs::Notes::pending_for))]
pub fn pending_note(e: usize, j: usize) -> u16
    requires { (e < eight_inch.entries) × (j < slot_count) }
    ensures { result ≡ pending_for e j }
{
    // The number fits: the cast loses nothing.
    (PENDING + PLACES * e + j) as u16
}

// The entry for which a note is pending.
pub fn holder(n: u16) -> Found
    ensures { result ≡ holder_of eight_inch n }
{
    let e = usize::from(n).checked_sub(PENDING)? / PLACES;
    (e < format::ENTRIES).then_some(e)
}

// The note of a block: 0 for a number past the last block.
pub fn note_at(map: &[u16], b: usize) -> u16
    ensures { result ≡ note_at_rule map.now b }
{
    map.get(b).copied().unwrap_or(0)
}

// The one change of a note: all others go through here.
#[tactic(auto, unfolding(format::specs::Notes::with_note))]
pub fn set_note(map: &mut [u16], b: usize, n: u16)
    requires { b < length map.old }
    ensures { map.new ≡ with_note map.old b n }
{
    map[b] = n;
}

// The first free block: the lowest, so that what was freed is handed out again.
pub fn first_free(map: &[u16]) -> Found
    requires { length map.now ≡ eight_inch.blocks }
    ensures { result ≡ find_free eight_inch map.now }
{
    (0..format::BLOCKS).find(|&b| map[b] == FREE)
}

// How many blocks are free.
pub fn free_count(map: &[u16]) -> usize
    requires { length map.now ≡ eight_inch.blocks }
    ensures { (result ≡ free_count_rule eight_inch map.now) × (result ≤ eight_inch.blocks) }
{
    let free: u16 = map.iter().map(|n| u16::from(*n == FREE)).sum();
    usize::from(free)
}
