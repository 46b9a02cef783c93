// From coordinates to cells, and from cells to buckets.
ghost use Rattle.std.specs.Prelude.{◌≡◌, ◌+◌, ◌*◌, ◌%◌, ◌≤◌, ◌<◌, T};
ghost use Rattle.std.specs.Float.Ieee.{lt};
ghost use Rattle.std.specs.Float.Ieee.Scale.{finite};
ghost use Rattle.numbers.specs.Rounded.{f32};
ghost use Rattle.regions.specs.Inner.Regions.{bucket_room};
ghost use Rattle.spatial_hash.specs.Inner.Buckets.{slot, row_for, place_for, bucket_of, next_residue, Spanning};

use crate::{Hash, Span};
use vector::Point3f;

// One over the size of a cell, or 1 if that is no use as a scale.
pub fn scale_for(size: f32) -> f32
    ensures { T (lt (f32 0) result) × T (finite result) }
{
    let s = 1.0 / size;
    if s > 0.0 {
        if s <= 1e30 {
            return s;
        }
    }
    1.0
}

// How many cells on an axis have buckets of their own: as many as there is room for.
pub fn side_for(n: usize) -> usize
    requires { n ≤ 4096 }
    ensures { (0 < result) × (result ≤ 24) × (result * result * (result + 1) ≤ bucket_room n) }
{
    let room = regions::BUCKETS * n + regions::EXTRA;
    if 14400 <= room {
        return 24;
    }
    if 4352 <= room {
        return 16;
    }
    if 1872 <= room {
        return 12;
    }
    if 576 <= room {
        return 8;
    }
    3
}

// The number of the cell that a coordinate is in.
fn slot(scale: f32, least: f32, v: f32) -> u32
    ensures { result ≡ slot scale least v }
{
    cutting::cut((v - least) * scale)
}

// What is left of that number when it is divided by the side.
fn residue(side: usize, scale: f32, least: f32, v: f32) -> usize
    requires { 0 < side }
    ensures { (result ≡ slot scale least v % side) × (result < side) }
{
    (slot(scale, least, v) as usize) % side
}

// The row of buckets that a place is in.
pub fn row_of(hash: Hash, p: Point3f) -> usize
    requires { (0 < hash.side) × (hash.side ≤ 24) }
    ensures { (result ≡ row_for hash p) × (result < hash.side * hash.side) }
{
    let side = hash.side;
    let x = residue(side, hash.scale, hash.least.x, p.x);
    let y = residue(side, hash.scale, hash.least.y, p.y);
    x * side + y
}

// Which bucket of its row that is.
pub fn place_in_row(hash: Hash, p: Point3f) -> usize
    requires { 0 < hash.side }
    ensures { (result ≡ place_for hash p) × (result < hash.side) }
{
    residue(hash.side, hash.scale, hash.least.z, p.z)
}

// The bucket of a place. A row has one bucket more than it has remainders.
pub fn bucket_of(hash: Hash, p: Point3f) -> usize
    requires { (0 < hash.side) × (hash.side ≤ 24) }
    ensures { result ≡ bucket_of hash p }
{
    let row = row_of(hash, p);
    row * (hash.side + 1) + place_in_row(hash, p)
}

// The remainder after r.
pub fn next(side: usize, r: usize) -> usize
    requires { r < side }
    ensures { result ≡ next_residue side r }
{
    let t = r + 1;
    if t == side { 0 } else { t }
}

// The remainders of the numbers from a to b.
fn span_of(side: usize, a: u32, b: u32) -> Span
    requires { 0 < side }
    ensures { Spanning side a b result }
{
    let first = (a as usize) % side;
    if b < a {
        return Span { first, count: 0 };
    }
    let gap = (b - a) as usize;
    if gap < side {
        return Span {
            first,
            count: gap + 1,
        };
    }
    Span { first, count: side }
}

// The remainders of the cells between two coordinates.
pub fn span(hash: Hash, least: f32, lo: f32, hi: f32) -> Span
    requires { 0 < hash.side }
    ensures { Spanning hash.side (slot hash.scale least lo) (slot hash.scale least hi) result }
{
    let a = slot(hash.scale, least, lo);
    let b = slot(hash.scale, least, hi);
    span_of(hash.side, a, b)
}
