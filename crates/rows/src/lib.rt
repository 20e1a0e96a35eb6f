// Directory entries as rows of the image: where they lie, and how they are taken out and stored.
#![tactic(auto)]

ghost use Rattle.std.specs.Prelude.{◌≡◌, ℕ, ◌+◌, ◌*◌, ◌≤◌, ◌<◌, length};
ghost use Rattle.lists.specs.Below.{all_below};
ghost use Rattle.lists.specs.Splice.{part};
ghost use Rattle.format.specs.Diskette.{eight_inch, Long, image_bytes, record_bytes, record_at, entry_bytes, entries_per_record};
ghost use Rattle.format.specs.Entries.{entry_place_rule, entry_at, with_entry, empty};
ghost use Rattle.rows.specs.Entries.{row_of};

use format::{ENTRIES_PER_RECORD, ENTRY_BYTES};

// All but the last of a record's rows.
pub const THREE_ROWS: usize = 3 * ENTRY_BYTES;

// The place of an entry in the image.
#[tactic(auto, unfolding(format::specs::Entries::entry_place_rule))]
pub fn entry_place(e: usize) -> usize
    requires { e < eight_inch.entries }
    ensures { (result ≡ entry_place_rule eight_inch e) × (result + entry_bytes ≤ image_bytes eight_inch) }
{
    disk::offset(e / ENTRIES_PER_RECORD) + e % ENTRIES_PER_RECORD * ENTRY_BYTES
}

// The row of an entry, as a part of the image.
pub fn row(image: &[u8], e: usize) -> &[u8]
    requires { Long eight_inch image.now × (e < eight_inch.entries) }
    ensures { (result.now ≡ entry_at eight_inch image.now e) × (length result.now ≡ entry_bytes) }
{
    let at = entry_place(e);
    let end = at + ENTRY_BYTES;
    &image[at..end]
}

// The rows of four entries: record d of the directory, as a part of the image. A loop over all entries takes the place of each record once.
pub fn four_rows(image: &[u8], d: usize) -> &[u8]
    requires { Long eight_inch image.now × (entries_per_record * d < eight_inch.entries) }
    ensures { (result.now ≡ record_at eight_inch image.now d) × (length result.now ≡ record_bytes) }
{
    let at = disk::offset(d);
    let end = at + format::RECORD_BYTES;
    &image[at..end]
}

// The row that begins at a place among four. A loop over them goes from place to place.
pub fn row_at(four: &[u8], at: usize) -> &[u8]
    requires { (length four.now ≡ record_bytes) × (at + entry_bytes ≤ record_bytes) }
    ensures { (result.now ≡ part four.now at entry_bytes) × (length result.now ≡ entry_bytes) }
{
    let end = at + ENTRY_BYTES;
    &four[at..end]
}

// Whether the first three of four rows are empty, as in most records of a directory with date entries that is not full.
pub fn three_empty(four: &[u8]) -> bool
    requires { length four.now ≡ record_bytes }
    ensures { result ≡ all_below (λ (i : ℕ). empty (row_of four.now i)) 3 }
{
    (0..3).all(|i| four[i * ENTRY_BYTES] == 0xE5)
}

// Whether all four are, as in most records of a directory without date entries. Two functions: a parameter would say less than their names.
pub fn all_empty(four: &[u8]) -> bool
    requires { length four.now ≡ record_bytes }
    ensures { result ≡ all_below (λ (i : ℕ). empty (row_of four.now i)) entries_per_record }
{
    three_empty(four) && four[THREE_ROWS] == 0xE5
}

// The row of an entry by value, for a caller that goes on to change the image.
#[tactic(auto, unfolding(format::specs::Entries::entry_at))]
pub fn copy_row(image: &[u8], e: usize) -> [u8; 32]
    requires { Long eight_inch image.now × (e < eight_inch.entries) }
    ensures { result ≡ entry_at eight_inch image.now e }
{
    let mut r = [0u8; 32];
    let at = entry_place(e);
    lists::get(image, at, &mut r);
    r
}

// Replaces an entry's row.
#[tactic(auto, unfolding(format::specs::Entries::with_entry))]
pub fn store_row(image: &mut [u8], e: usize, r: [u8; 32])
    requires { Long eight_inch image.old × (e < eight_inch.entries) }
    ensures { image.new ≡ with_entry eight_inch image.old e r }
{
    let at = entry_place(e);
    lists::put(image, at, &r);
}
