// A reader of the points' lines: it holds the file's bytes and remembers how far it has read.
//
// `next_line` takes it apart, leaves the work to `step_at`, which takes a slice and a place, and hands it back moved
// on. `store_lines` carries one reader through all lines; a caller with plain slices uses that.
ghost use Rattle.std.specs.Prelude.{◌≡◌};
ghost use Rattle.cloud_lines.specs.Reading.{Stepped};
ghost use Rattle.cloud_lines.specs.Inner.Storing.{position_of, normal_of, placed, placed_of, StoredLines};

use crate::line::{Point, Triple, point_at};

#[derive(Clone, Copy)]
pub struct Reader<'a> {
    pub src: &'a [u8],
    pub at: usize,
}

// The point that was read and the place behind its line; or none, where the line is malformed, and the place as it was.
#[derive(Clone, Copy)]
pub struct Step {
    pub read: Option<Point>,
    pub at: usize,
}

// The reader, moved on, and what it read.
#[derive(Clone, Copy)]
pub struct Moved<'a> {
    pub reader: Reader<'a>,
    pub read: Option<Point>,
}

// The point's line at a place.
fn step_at(s: &[u8], at: usize) -> Step
    ensures { Stepped s.now at result.read result.at }
{
    match point_at(s, at) {
        Some((point, next)) => Step {
            read: Some(point),
            at: next,
        },
        None => Step { read: None, at },
    }
}

// The point's line at the reader's place.
pub fn next_line<'a>(r: Reader<'a>) -> Moved<'a>
    ensures { (result.reader.src ≡ r.entry.src)
        × Stepped r.entry.src.now r.entry.at result.read result.reader.at }
{
    let step = step_at(r.src, r.at);
    Moved {
        reader: Reader {
            src: r.src,
            at: step.at,
        },
        read: step.read,
    }
}

// What a reader at a place of the bytes reads.
pub fn line_of(src: &[u8], at: usize) -> Step
    ensures { Stepped src.now at result.read result.at }
{
    let m = next_line(Reader { src, at });
    Step {
        read: m.read,
        at: m.reader.at,
    }
}

// Three numbers at place 3k, where the slice has room for them.
fn put_triple(d: &mut [f32], k: usize, t: Triple)
    ensures { d.new ≡ placed k t d.old }
{
    if d.len() / 3 <= k {
        return;
    }
    let at = 3 * k;
    d[at] = t.x;
    d[at + 1] = t.y;
    d[at + 2] = t.z;
}

// The point of the k-th line, into both slices.
fn put_line(points: &mut [f32], normals: &mut [f32], k: usize, read: Option<Point>)
    ensures { (points.new ≡ placed_of position_of k read points.old)
        × (normals.new ≡ placed_of normal_of k read normals.old) }
{
    if let Some(point) = read {
        put_triple(points, k, point.position);
        put_triple(normals, k, point.normal);
    }
}

// So many lines from a place on into both slices, by one reader that is carried from line to line; the place behind
// them.
pub fn store_lines(
    src: &[u8],
    from: usize,
    count: usize,
    points: &mut [f32],
    normals: &mut [f32],
) -> usize
    ensures { StoredLines src.now from count result points.old normals.old
        points.new normals.new }
{
    let mut r = Reader { src, at: from };
    for k in 0..count {
        let m = next_line(r);
        r = m.reader;
        put_line(points, normals, k, m.read);
    }
    r.at
}
