// The lines of the file: numbers, each ended by a comma or, at the end of its line, by a line feed.
ghost use Rattle.std.specs.Prelude.{◌≡◌, ◌≤◌, length, drop};
ghost use Rattle.cloud_lines.specs.Format.{field, triple, point_fields};
ghost use Rattle.numerals.specs.Inner.Answers.{taken_means, taken_end};

use numerals::{byte_is, number_at};

#[derive(Clone, Copy)]
pub struct Triple {
    pub x: f32,
    pub y: f32,
    pub z: f32,
}

#[derive(Clone, Copy)]
pub struct Point {
    pub position: Triple,
    pub normal: Triple,
}

// A number and the byte that ends it. Here and below the place behind what was read stands beside it.
pub fn field_at(s: &[u8], at: usize, end: u8) -> Option<(f32, usize)>
    ensures means { taken_means s.now result ≡ field end (drop at s.now) }
    ensures in_bounds { taken_end result ≤ length s.now }
{
    let (value, next) = number_at(s, at)?;
    if byte_is(s, next, end) {
        Some((value, next + 1))
    } else {
        None
    }
}

// The radius line.
pub fn radius_at(s: &[u8], at: usize) -> Option<(f32, usize)>
    ensures { taken_means s.now result ≡ field 10 (drop at s.now) }
{
    field_at(s, at, b'\n')
}

// Three numbers, of which the last is ended by the byte last.
pub fn triple_at(s: &[u8], at: usize, last: u8) -> Option<(Triple, usize)>
    ensures means { taken_means s.now result ≡ triple last (drop at s.now) }
    ensures in_bounds { taken_end result ≤ length s.now }
{
    let (x, second) = field_at(s, at, b',')?;
    let (y, third) = field_at(s, second, b',')?;
    let (z, next) = field_at(s, third, last)?;
    Some((Triple { x, y, z }, next))
}

// A point's line.
pub fn point_at(s: &[u8], at: usize) -> Option<(Point, usize)>
    ensures means { taken_means s.now result ≡ point_fields (drop at s.now) }
    ensures in_bounds { taken_end result ≤ length s.now }
{
    let (position, middle) = triple_at(s, at, b',')?;
    let (normal, next) = triple_at(s, middle, b'\n')?;
    Some((Point { position, normal }, next))
}
