// What the bytes of a diskette, its directory, its map and an FCB mean: the definitions are in specs/. Here stand what a look-up
// answers, and the 8-inch disk's sizes as code names them. (Lengths of arrays by value and the places of fields within a row or an FCB are
// written as numbers where they are used.)
#![tactic(auto)]

// The answer of a look-up: the number of an entry or a block, or that there is none.
pub type Found = Option<usize>;

// The image: tracks, sectors a track, and the first track that holds blocks.
pub const TRACKS: usize = 77;

pub const SECTORS: usize = 26;

pub const RESERVED_TRACKS: usize = 2;

pub const RECORD_BYTES: usize = 128;

pub const IMAGE_BYTES: usize = TRACKS * SECTORS * RECORD_BYTES;

// Blocks, and the directory in the first of them.
pub const RECORDS_PER_BLOCK: usize = 8;

pub const BLOCKS: usize = 243;

pub const AREA_BLOCKS: usize = 2;

// A mark for each number that a slot can hold.
pub const MARKS: usize = 256;

pub const ENTRIES: usize = 64;

pub const ENTRY_BYTES: usize = 32;

pub const ENTRIES_PER_RECORD: usize = 4;

// The records that the entries fill.
pub const DIRECTORY_RECORDS: usize = ENTRIES / ENTRIES_PER_RECORD;

// Entries and FCBs.
pub const SLOTS: usize = 16;

pub const NAME_BYTES: usize = 11;

pub const FCB_BYTES: usize = 36;

pub const EXTENT_RECORDS: usize = 128;

pub const EXTENTS: usize = 2048;
