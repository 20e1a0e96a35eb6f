// What an entry says, and an FCB in the same bytes: its slots, its extent, its count, its end and its t1'.
#![tactic(auto)]

ghost use Rattle.std.specs.Prelude.{◌≡◌, ◌+◌, ◌≤◌, ◌<◌, length};
ghost use Rattle.format.specs.Diskette.{eight_inch, entry_bytes, extent_records, slot_count};
ghost use Rattle.format.specs.Consistent.{extent_right_rule};
ghost use Rattle.format.specs.Entries.{slots_of, extent_of, run_of, covers, count_of, end_of, slot_for_rule, read_only};

// The sixteen slots of a row or an FCB, into s. Where they are only compared, a compiler copies them so as one vector.
pub fn copy_slots(r: &[u8], s: &mut [u8])
    requires { (entry_bytes ≤ length r.now) × (length s.old ≡ slot_count) }
    ensures { s.new ≡ slots_of r.now }
{
    lists::get(r, 16, s);
}

// The sixteen slots of a row or an FCB.
pub fn slots(r: &[u8]) -> [u8; 16]
    requires { entry_bytes ≤ length r.now }
    ensures { result ≡ slots_of r.now }
{
    let mut s = [0u8; 16];
    copy_slots(r, &mut s);
    s
}

// The extent number of a row or an FCB, as its bytes give it: in range or not.
#[tactic(auto, unfolding(format::specs::Entries::extent_of))]
pub fn extent(r: &[u8]) -> usize
    requires { entry_bytes ≤ length r.now }
    ensures { (result ≡ extent_of r.now) × (result < 8416) }
{
    32 * usize::from(r[14]) + usize::from(r[12])
}

// The run of an extent: the extents that one entry covers. On this disk each is one by itself.
#[tactic(auto, using(facts::specs::Naming::run_own))]
fn run_of(ext: usize) -> usize
    ensures { result ≡ run_of eight_inch ext }
{
    ext
}

// Whether a row covers an extent.
#[tactic(auto, unfolding(format::specs::Entries::covers))]
pub fn covers_extent(r: &[u8], ext: usize) -> bool
    requires { entry_bytes ≤ length r.now }
    ensures { result ≡ covers eight_inch r.now ext }
{
    run_of(extent(r)) == run_of(ext)
}

// How many records a row or an FCB counts, in the extent that its ex and s2 give: rc, but 128 where rc is more.
#[tactic(auto, unfolding(format::specs::Entries::count_of))]
pub fn count_of(r: &[u8]) -> u8
    requires { entry_bytes ≤ length r.now }
    ensures { result ≡ count_of r.now }
{
    r[15].min(128)
}

// One past the last record that a row or an FCB counts: 128 × extent + its count.
#[tactic(auto, unfolding(format::specs::Entries::end_of))]
pub fn end_of(r: &[u8]) -> usize
    requires { entry_bytes ≤ length r.now }
    ensures { result ≡ end_of r.now }
{
    format::EXTENT_RECORDS * extent(r) + usize::from(count_of(r))
}

// The slot that holds record k of an extent.
#[tactic(auto, unfolding(format::specs::Entries::slot_for_rule))]
pub fn slot_for(ext: usize, k: usize) -> usize
    requires { k < extent_records }
    ensures { (result ≡ slot_for_rule eight_inch ext k) × (result < slot_count) }
{
    k / format::RECORDS_PER_BLOCK
}

// Whether ex and s2 are in range, in a row or an FCB.
pub fn extent_right(r: &[u8]) -> bool
    requires { entry_bytes ≤ length r.now }
    ensures { result ≡ extent_right_rule r.now }
{
    r[12] <= 31 && r[14] <= 63
}

// Whether a row's t1' is set: the file is read-only.
#[tactic(auto, unfolding(format::specs::Entries::read_only))]
pub fn is_read_only(r: &[u8]) -> bool
    requires { entry_bytes ≤ length r.now }
    ensures { result ≡ read_only r.now }
{
    128 <= r[9]
}
