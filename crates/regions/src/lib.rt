// Where everything that a call keeps stands in the two lent work slices. The map is in specs/, the proof that the
// regions fit and don't overlap in proofs/. Code takes the map's numbers for n points from here; a region that starts
// at 0 or at n needs none.
#![tactic(auto)]

// Where a region of the u32 slice starts, in times n.
pub const NEIGHBORS: usize = 4;

pub const USED: usize = 5;

pub const FRONTIER: usize = 6;

pub const LINKS: usize = 9;

pub const STARTS: usize = 10;

// How many buckets there may be: so many times n, and some more.
pub const BUCKETS: usize = 6;

pub const EXTRA: usize = 64;

// The order starts at so many times n, and as many words further.
pub const ORDER: usize = 16;

// Where a region of the u32 slice starts while a patch is put in order, in times n.
pub const CORNERS: usize = 3;

pub const HEADS: usize = 6;

pub const REACHED: usize = 7;

pub const TREE: usize = 8;

pub const PLACED: usize = 10;

// How far behind the first n numbers of the f32 slice the radii start.
pub const RADII: usize = 10;
