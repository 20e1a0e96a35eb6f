// Whether an image is consistent, decided in one pass over the directory. Every call of the file system asks this first.
#![tactic(auto)]

ghost use Rattle.std.specs.Prelude.{◌≡◌, true, false, ℕ, ◌+◌, ◌*◌, ◌≤◌, ◌<◌, not, eqb, length, Some};
ghost use Rattle.std.specs.Option.{is_some};
ghost use Rattle.lists.specs.Tests.{◌and◌};
ghost use Rattle.lists.specs.Below.{all_below};
ghost use Rattle.format.specs.Diskette.{eight_inch, Long, record_bytes, entry_bytes, entries_per_record};
ghost use Rattle.format.specs.Entries.{entry_at, empty};
ghost use Rattle.format.specs.Dates.{label_right_rule};
ghost use Rattle.format.specs.Consistent.{consistent, consistent_rows};
ghost use Rattle.facts.specs.Marks.{Marked};
ghost use Rattle.rows.specs.Entries.{row_of};
ghost use Rattle.dates.specs.Label.{Labelled};
ghost use Rattle.chains.specs.Chain.{Indexed};
ghost use Rattle.consistent.specs.Dating.{next_dates};
ghost use Rattle.consistent.specs.Held.{StillLent};
ghost use Rattle.consistent.specs.Pass.{Passed, with_dates, with_label, aside_taken, aside_after};

use chains::CHAIN_BYTES;
use format::{DIRECTORY_RECORDS, ENTRIES_PER_RECORD, ENTRY_BYTES, MARKS};

// What a pass over the directory has seen: a mark for each block that is listed, and the entries by their keys, in the arrays that are lent for
// them; the label's entry, and how many date entries were met. Where the image is consistent, calls go by it. The arrays are lent and not part of
// the struct: their zeros would be one run, and for one that long the archive would call the C library.
#[derive(Drop)]
pub struct Seen<'a> {
    pub marks: &'a mut [u8; MARKS],
    pub chain: &'a mut [u8; CHAIN_BYTES],
    pub label: Option<usize>,
    pub dates: usize,
}

// Whether entry e, a right date entry, stands where the next one has to: in the fourth position of the first record without one. Then it is
// counted.
fn take_dates(e: usize, seen: &mut Seen) -> bool
    requires { (e < eight_inch.entries) × (entries_per_record * seen.old.dates ≤ e) }
    ensures still_lent { StillLent seen.old seen.new }
    ensures takes { (result ≡ eqb e (next_dates seen.old.dates))
        × (result ≡ true → seen.new ≡ with_dates seen.old (seen.old.dates + 1)) }
{
    if e != ENTRIES_PER_RECORD * seen.dates + 3 {
        return false;
    }
    seen.dates += 1;
    true
}

// Whether entry e, whose row r is no right date entry, is the first label, and right. Then it is noted down.
fn take_label(e: usize, r: &[u8], seen: &mut Seen) -> bool
    requires { (e < eight_inch.entries) × (entry_bytes ≤ length r.now) }
    ensures still_lent { StillLent seen.old seen.new }
    ensures takes { (result ≡ (not (is_some seen.old.label) and label_right_rule r.now))
        × (result ≡ true → seen.new ≡ with_label seen.old (Some e)) }
{
    if seen.label.is_some() {
        return false;
    }
    seen.label = Some(e);
    dates::label_right(r)
}

// Whether entry e passes as a date entry or a label; its row r is neither empty nor right as a file's.
fn take_aside(e: usize, r: &[u8], seen: &mut Seen) -> bool
    requires { (e < eight_inch.entries) × (entry_bytes ≤ length r.now) × (entries_per_record * seen.old.dates ≤ e) }
    ensures still_lent { StillLent seen.old seen.new }
    ensures takes { (result ≡ aside_taken e r.now seen.old)
        × (result ≡ true → seen.new ≡ aside_after e r.now seen.old) }
{
    if dates::dates_right(r) {
        return take_dates(e, seen);
    }
    take_label(e, r, seen)
}

// Whether entry e passes, after all before it have; r is its row. Most rows are empty or a file's, so these are told first.
fn take_entry(image: &[u8], e: usize, r: &[u8], seen: &mut Seen) -> bool
    requires { Long eight_inch image.now × (e < eight_inch.entries)
        × (entry_bytes ≤ length r.now) × (r.now ≡ entry_at eight_inch image.now e)
        × Passed eight_inch (entry_at eight_inch image.now) e seen.old }
    ensures still_lent { StillLent seen.old seen.new }
    ensures takes { (result ≡ true → Passed eight_inch (entry_at eight_inch image.now) (e + 1) seen.new)
        × (result ≡ false → consistent_rows eight_inch (entry_at eight_inch image.now) ≡ false) }
{
    if r[0] == 0xE5 {
        return true;
    }
    if !heads::row_right(r) {
        return take_aside(e, r, seen);
    }
    if !blocks::take_slots(seen.marks, r) {
        return false;
    }
    chains::take_key(image, e, r, seen.chain)
}

// The first of four rows that is tested. On a disk with date entries three empty rows are passed over at once.
fn first_tested(four: &[u8], dates: usize) -> usize
    requires { length four.now ≡ record_bytes }
    ensures { (all_below (λ (i : ℕ). empty (row_of four.now i)) result ≡ true) × (result ≤ entries_per_record) }
{
    if dates != 0 && rows::three_empty(four) {
        return 3;
    }
    0
}

// Whether the four entries of the directory's record d pass, after all before them have. A record's place is computed once for its four
// rows, and four empty ones are passed over at once.
fn take_record(image: &[u8], d: usize, seen: &mut Seen) -> bool
    requires { Long eight_inch image.now × (entries_per_record * d < eight_inch.entries)
        × Passed eight_inch (entry_at eight_inch image.now) (entries_per_record * d) seen.old }
    ensures still_lent { StillLent seen.old seen.new }
    ensures takes { (result ≡ true → Passed eight_inch (entry_at eight_inch image.now) (entries_per_record * d + entries_per_record) seen.new)
        × (result ≡ false → consistent_rows eight_inch (entry_at eight_inch image.now) ≡ false) }
{
    let four = rows::four_rows(image, d);
    if rows::all_empty(four) {
        return true;
    }
    for i in first_tested(four, seen.dates)..ENTRIES_PER_RECORD {
        let r = rows::row_at(four, i * ENTRY_BYTES);
        if !take_entry(image, ENTRIES_PER_RECORD * d + i, r, seen) {
            return false;
        }
    }
    true
}

// Whether the image is consistent. Where it is, the marks tell which blocks are listed, look-ups can go by the chains, and the label is
// found.
pub fn is_consistent(image: &[u8], seen: &mut Seen) -> bool
    requires { Long eight_inch image.now }
    ensures still_lent { StillLent seen.old seen.new }
    ensures tells { (result ≡ consistent eight_inch image.now)
        × (result ≡ true → Marked eight_inch (entry_at eight_inch image.now) seen.new.marks.now
        × Indexed eight_inch (entry_at eight_inch image.now) seen.new.chain.now
        × Labelled (entry_at eight_inch image.now) eight_inch.entries seen.new.label) }
{
    marks::start_marks(seen.marks);
    chains::start(seen.chain);
    seen.label = None;
    seen.dates = 0;
    for d in 0..DIRECTORY_RECORDS {
        if !take_record(image, d, seen) {
            return false;
        }
    }
    seen.dates == 0 || seen.dates == DIRECTORY_RECORDS
}
