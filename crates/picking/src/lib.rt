// The word picker of document 02, [11], as a definition made of calls, in specs/. Here stand the types in which a word is asked for and answered.
#![tactic(auto)]

// What is wanted: the word of a day of a year, out of a book, with a log; the names are those of an FCB, eleven bytes.
#[repr(C)]
#[derive(Clone, Copy)]
pub struct Wanted {
    pub year: u16,
    pub day: u16,
    pub book: [u8; 11],
    pub log: [u8; 11],
}

// The time at which it is wanted, as every call is handed it: the day, 1 January 1978 being 1, hour and minute in BCD.
#[repr(C)]
#[derive(Clone, Copy)]
pub struct Time {
    pub day: u16,
    pub hour: u8,
    pub minute: u8,
}

// How a run ends: the word picked and logged, picked again, or a trouble by its name; the last is any other refusal of a call, with its A and H.
// specs/Numbers.antt gives each its number.
#[derive(Clone, Copy)]
pub enum Pick {
    Logged,
    Again,
    DayOver,
    NoBook,
    NoWord,
    OneFile,
    NoFirst,
    LogFull,
    LogReadOnly,
    DirectoryFull,
    DiskFull,
    Other(u8, u8),
}

// What a run tells, and whether it handed out the word: that stands in the bytes lent for it, so there is no value beside the test.
#[derive(Clone, Copy)]
pub struct Told {
    pub pick: Pick,
    pub given: bool,
}
