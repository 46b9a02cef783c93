// Reads a cloud file: a line with the radius, then a line for each point, into two lent slices.
//
// What the file means is the definition `file` of specs/Format.antt, and what the reader answers `outcome` of
// specs/Answers.antt.
#![tactic(auto)]

mod point_lines;

ghost use Rattle.std.specs.Prelude.{◌≡◌, length, drop};
ghost use Rattle.cloud.specs.Format.{body, under};
ghost use Rattle.cloud.specs.Answers.{Outcome, outcome, outcome_of, read_of, Answered};

use crate::point_lines::{count_points, store_points};
use cloud_lines::line::radius_at;

// The answer's number, 0 where the file was accepted; the detail, the first malformed line from 1 at refusal 10; and
// what was read.
#[repr(C)]
#[derive(Clone, Copy)]
pub struct CloudRead {
    pub answer: u32,
    pub detail: usize,
    pub radius: f32,
    pub count: usize,
}

fn refused(answer: u32, detail: usize) -> CloudRead
    ensures { result ≡ read_of (Outcome.refused answer detail) }
{
    CloudRead {
        answer,
        detail,
        radius: 0.0,
        count: 0,
    }
}

// The points' lines, from a place on, under a radius that was read.
fn read_points(
    bytes: &[u8],
    from: usize,
    radius: f32,
    points: &mut [f32],
    normals: &mut [f32],
) -> CloudRead
    ensures { Answered
        (outcome_of (length points.old) (length normals.old)
        (under radius (body (drop from bytes.now)))) points.old normals.old result
        points.new normals.new }
{
    let count = match count_points(bytes, from) {
        Ok(count) => count,
        Err(malformed) => return refused(answers::LINE, malformed.line + 1),
    };
    if points.len() / 3 < count || normals.len() / 3 < count {
        return refused(answers::ROOM, 0);
    }
    store_points(bytes, from, count, points, normals);
    CloudRead {
        answer: 0,
        detail: 0,
        radius,
        count,
    }
}

pub fn read_cloud(bytes: &[u8], points: &mut [f32], normals: &mut [f32]) -> CloudRead
    ensures { Answered
        (outcome bytes.now (length points.old) (length normals.old))
        points.old normals.old result points.new normals.new }
{
    match radius_at(bytes, 0) {
        Some((radius, next)) => read_points(bytes, next, radius, points, normals),
        None => refused(answers::LINE, 1),
    }
}
