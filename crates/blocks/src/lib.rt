// The blocks that the slots of a row list: their numbers are taken among the marks, and whether each was free is seen.
#![tactic(auto)]

ghost use Rattle.std.specs.Prelude.{◌≡◌, ◌+◌, ◌*◌, ◌≤◌, ◌<◌, get_or, length};
ghost use Rattle.format.specs.Diskette.{entry_bytes, slot_count};
ghost use Rattle.facts.specs.Marks.{mark_count};
ghost use Rattle.blocks.specs.Runs.{Taken, rest_zero};
ghost use Rattle.blocks.specs.BlockMarks.{mark_slots, slots_free};

// Takes the four numbers of a row from `at` on; the answer is the marks that they met or-ed together, so 0 where each was free.
fn take_four(marks: &mut [u8], r: &[u8], at: usize) -> u8
    requires { (length marks.old ≡ mark_count) × (at + 4 ≤ length r.now) }
    ensures { Taken marks.old r.now at 4 marks.new result }
{
    let mut met: u8 = 0;
    for j in 0..4 {
        met |= marks::take_number(marks, r[at + j]);
    }
    met
}

// The same, without a look at the marks where all four are 0, as most are.
fn take_any(marks: &mut [u8], r: &[u8], at: usize) -> u8
    requires { (length marks.old ≡ mark_count) × (get_or marks.old 0 0 ≡ 0) × (at + 4 ≤ length r.now) }
    ensures { Taken marks.old r.now at 4 marks.new result }
{
    if lanes::half(r, at) == 0 {
        return 0;
    }
    take_four(marks, r, at)
}

// Whether the slots after the first four list nothing, as those of most files do.
#[tactic(auto, using(crate::specs::Runs::rest_word, crate::specs::Runs::rest_decides))]
fn rest_is_zero(r: &[u8]) -> bool
    requires { entry_bytes ≤ length r.now }
    ensures { result ≡ rest_zero r.now }
{
    lanes::word(r, 20) == 0 && lanes::half(r, 28) == 0
}

// Whether each slot of a row may list what it lists; the numbers are taken on the way.
pub fn take_slots(marks: &mut [u8], r: &[u8]) -> bool
    requires { (length marks.old ≡ mark_count) × (get_or marks.old 0 0 ≡ 0) × (entry_bytes ≤ length r.now) }
    ensures { (result ≡ slots_free marks.old r.now) × (marks.new ≡ mark_slots marks.old r.now slot_count) }
{
    let mut met = take_four(marks, r, 16);
    if rest_is_zero(r) {
        return met == 0;
    }
    for k in 1..4 {
        met |= take_any(marks, r, 16 + 4 * k);
    }
    met == 0
}
