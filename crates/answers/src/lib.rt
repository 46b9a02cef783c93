// Every answer of the public calls by its name. What each says, and the order of the numbers, is the table of
// specs/Answers.antt. Both are made from answers.toml.
#![tactic(auto)]

pub const NO_POINTS: u32 = 1;

pub const LENGTHS: u32 = 2;

pub const TOO_MANY_POINTS: u32 = 3;

pub const POINT: u32 = 4;

pub const SETTING: u32 = 5;

pub const PERCENTILE: u32 = 6;

pub const WORK: u32 = 7;

pub const TOO_FEW_POINTS: u32 = 8;

pub const FACES: u32 = 9;

pub const LINE: u32 = 10;

pub const ROOM: u32 = 11;

pub const BAD_STL: u32 = 12;

pub const OUTPUT_TOO_SHORT: u32 = 13;

pub const NO_SUCH_POINT: u32 = 14;

pub const NONE_CLOSE: u32 = 15;

pub const ALL_TURNED_DOWN: u32 = 16;

pub const EQUAL_NUMBERS: u32 = 17;

pub const TURNED_PLAIN: u32 = 18;

pub const TALLY_FULL: u32 = 19;

pub const SEASON_PATCH: u32 = 20;

pub const TALLY_EMPTY: u32 = 21;

pub const FOREIGN_INDEX: u32 = 22;

pub const NO_ORDER: u32 = 23;

pub const TALLY: u32 = 24;
