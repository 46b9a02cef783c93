// Patches as binary STL, written into a lent slice of bytes and read back into a lent slice of coordinates.
//
// The format is `stl` and `corners` of crate `facets`, and what the calls answer is in specs/Answers.antt.
#![tactic(auto)]

ghost use Rattle.std.specs.Prelude.{◌≡◌};
ghost use Rattle.stl_file.specs.Answers.{Wrote, Got};

use facets::read::read_facets;
use facets::write::{names_points, put_file};

// The answer's number, 0 where the file was written; the detail, the first bad point at refusal 4; and the file's
// length.
#[repr(C)]
#[derive(Clone, Copy)]
pub struct StlWritten {
    pub answer: u32,
    pub detail: usize,
    pub length: usize,
}

// The answer's number, 0 where the file was read, and how many facets it has.
#[repr(C)]
#[derive(Clone, Copy)]
pub struct StlRead {
    pub answer: u32,
    pub detail: usize,
    pub faces: usize,
}

fn not_written(answer: u32, detail: usize) -> StlWritten
    ensures { result ≡ record { answer = answer; detail = detail; length = 0 } }
{
    StlWritten {
        answer,
        detail,
        length: 0,
    }
}

pub fn write_stl(points: &[f32], faces: &[u32], bytes: &mut [u8]) -> StlWritten
    ensures { Wrote points.now faces.now bytes.old result bytes.new }
{
    if points.len() % 3 != 0 {
        return not_written(answers::LENGTHS, 0);
    }
    if faces.len() % 3 != 0 {
        return not_written(answers::LENGTHS, 0);
    }
    let n = faces.len() / 3;
    if n > 1000000 {
        return not_written(answers::TOO_MANY_POINTS, 0);
    }
    if let Some(bad) = ranges::first_outside(points, 10000.0) {
        return not_written(answers::POINT, bad);
    }
    if !names_points(faces, points.len() / 3) {
        return not_written(answers::NO_SUCH_POINT, 0);
    }
    if bytes.len() < 84 + 50 * n {
        return not_written(answers::OUTPUT_TOO_SHORT, 0);
    }
    put_file(bytes, points, faces);
    StlWritten {
        answer: 0,
        detail: 0,
        length: 84 + 50 * n,
    }
}

fn not_read(answer: u32) -> StlRead
    ensures { result ≡ record { answer = answer; detail = 0; faces = 0 } }
{
    StlRead {
        answer,
        detail: 0,
        faces: 0,
    }
}

pub fn read_stl(bytes: &[u8], corners: &mut [f32]) -> StlRead
    ensures { Got bytes.now corners.old result corners.new }
{
    if bytes.len() < 84 {
        return not_read(answers::BAD_STL);
    }
    let n = words::word_at(bytes, 80) as usize;
    if bytes.len() != 84 + 50 * n {
        return not_read(answers::BAD_STL);
    }
    if corners.len() < 9 * n {
        return not_read(answers::OUTPUT_TOO_SHORT);
    }
    read_facets(bytes, corners, n);
    StlRead {
        answer: 0,
        detail: 0,
        faces: n,
    }
}
