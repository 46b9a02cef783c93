// The candidates of a point, listed with their distances in the front of the two work slices.
ghost use Rattle.std.specs.Prelude.{◌≤◌, ◌<◌, length};
ghost use Rattle.plain.specs.Inner.Laid.{PointReady};
ghost use Rattle.plain.specs.Inner.Listed.{RadiusLimited, CandidatesListed, Adds};

use crate::PlainLimits;

// Lists the point j behind the `count` ones that are listed, if it is a candidate of i. The answer is how many there
// are then. Most points are too far by their squares.
fn add_candidate(
    points: &[f32],
    radius: f32,
    limits: PlainLimits,
    i: usize,
    j: usize,
    w: &mut [u32],
    lengths: &mut [f32],
    count: usize,
) -> usize
    requires { PointReady points.now i × RadiusLimited radius limits × (j < i) × (count ≤ j) × (i ≤ length w.old)
        × (i ≤ length lengths.old) }
    ensures { Adds points.now radius i j w.old lengths.old count
        w.new lengths.new result }
{
    let p = points::point_at(points, i);
    let q = points::point_at(points, j);
    let s = vector::distance_squared(p, q);
    if s > limits.square {
        return count;
    }
    let d = numbers::sqrt(s);
    if d <= limits.reach {
        w[count] = j as u32;
        lengths[count] = d;
        return count + 1;
    }
    count
}

// Lists the candidates of i below i.
pub fn list_candidates(
    points: &[f32],
    radius: f32,
    limits: PlainLimits,
    i: usize,
    w: &mut [u32],
    lengths: &mut [f32],
) -> usize
    requires { PointReady points.now i × RadiusLimited radius limits × (i ≤ length w.old)
        × (i ≤ length lengths.old) }
    ensures { CandidatesListed points.now radius i w.new lengths.new result }
{
    let mut count: usize = 0;
    for j in 0..i {
        count = add_candidate(points, radius, limits, i, j, w, lengths, count);
    }
    count
}
