// A mark for each block number, by which one that is out of range or was listed before is seen when it comes.
#![tactic(auto)]

ghost use Rattle.std.specs.Prelude.{◌≡◌, get_or, length};
ghost use Rattle.format.specs.Diskette.{eight_inch};
ghost use Rattle.facts.specs.Marks.{mark_count};
ghost use Rattle.marks.specs.Numbers.{start_marks_rule, mark_number};

use format::{AREA_BLOCKS, BLOCKS, MARKS};

// Marks the numbers that are no block's past the directory: no slot may list them.
#[tactic(auto, unfolding(crate::specs::Numbers::start_marks_rule))]
pub fn start_marks(marks: &mut [u8])
    requires { length marks.old ≡ mark_count }
    ensures { marks.new ≡ start_marks_rule eight_inch marks.old }
{
    lists::fill(marks, 0, MARKS, 0);
    lists::fill(marks, 1, AREA_BLOCKS - 1, 1);
    lists::fill(marks, BLOCKS, MARKS - BLOCKS, 1);
}

// Takes the number's place among the marks; the answer is the mark that stood there, 0 where the number was free. A slot of 0 lists
// nothing: its mark is 0 and stays so, and no test is needed.
#[tactic(auto, unfolding(crate::specs::Numbers::mark_number))]
pub fn take_number(marks: &mut [u8], b: u8) -> u8
    requires { length marks.old ≡ mark_count }
    ensures { (result ≡ get_or marks.old b 0) × (marks.new ≡ mark_number marks.old b) }
{
    let at = usize::from(b);
    let old = marks[at];
    marks[at] = b;
    old
}
