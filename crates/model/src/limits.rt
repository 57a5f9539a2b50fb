// The limits of specs/Limits as numbers of the machine, by the same names. Nothing has to be believed of them: what
// uses one is proved against the limit there.
pub const ROW_SIZE: usize = 11;

pub const MAX_VALUE: u32 = 65535;

pub const MAX_DIGITS: usize = 5;

pub const MAX_JOINS: u32 = 8;

pub const MAX_OWN: u32 = 255;

pub const MAX_LABEL: u32 = 255;

pub const MAX_FOLLOWED: u32 = 254;

pub const MAX_WAIT: u32 = 6000;

pub const MAX_BLOCKS: u32 = 128;

pub const MAX_BYTES: usize = 65536;

pub const MAX_ROWS: usize = 1024;

pub const DESK_ROWS: usize = 168;

pub const DESK_BLOCKS: u32 = 16;

pub const MAX_TOTAL: u32 = 2147483647;

pub const MAX_DEPTH: usize = 127;

pub const WORK_SIZE: usize = 16384;

pub const SUMMARY_SIZE: usize = 64;

pub const SUMMARY_WIDTH: usize = 8;

pub const NO_CHAIN: u32 = 4294967295;

pub const PRINTED_CUES: u32 = 1000;

// What follows from them: the numbers of all rows of the largest show, and of the rows that come with the desk.
pub const ROOM: usize = MAX_ROWS * ROW_SIZE;

pub const DESK_SIZE: usize = DESK_ROWS * ROW_SIZE;
