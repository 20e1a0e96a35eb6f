// What the calls do, as definitions in specs/: the table of refusals, and the accepted effect of each call. Here stand the types in
// which a call is asked for and answered.
#![tactic(auto)]

// What is asked: the call's number and its argument; and the time: the day, 1 January 1978 being 1, hour and minute in BCD.
#[repr(C)]
#[derive(Clone, Copy)]
pub struct Asked {
    pub number: u8,
    pub argument: u8,
    pub day: u16,
    pub hour: u8,
    pub minute: u8,
}

// What passes from call to call: the user, a search with its pattern, its next place, and whether it is on (any but 0), and whether the
// write protection is lifted (any but 0).
#[repr(C)]
#[derive(Clone, Copy)]
pub struct Session {
    pub user: u8,
    pub pattern: [u8; 12],
    pub place: u16,
    pub on: u8,
    pub lifted: u8,
}

#[repr(C)]
#[derive(Clone, Copy)]
pub struct Answer {
    pub a: u8,
    pub h: u8,
    pub session: Session,
}

// What a call may change besides A, H and the search. `specs/Kinds.antt` lists the calls with their kinds.
#[derive(Clone, Copy, PartialEq, Eq)]
pub enum Kind {
    Unlisted,
    Quiet,
    Search,
    User,
    Settle,
    Close,
    Delete,
    Create,
    Rename,
    Read,
    Write,
}

// How a call ends. specs/Codes.antt gives document 01's A and H for each case.
#[derive(Clone, Copy)]
pub enum Code {
    Accepted(u8),
    NotListed,
    BadParameter,
    BadDisk,
    Protected,
    BadRecord,
    NotCurrent,
    Failed,
    BadName,
    SearchOver,
    ReadOnly,
    Exists,
    NoExtent,
    NoRecord,
    NoEntry,
    DiskFull,
}

// What a record call that the table passed works on: the FCB's entry, the target's entry where that is another or a new one, and
// the target's block.
#[derive(Clone, Copy)]
pub enum Plan {
    Stay(usize, usize),
    Move(usize, usize, usize),
    Make(usize, usize, usize),
}
