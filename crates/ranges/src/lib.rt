// The ranges of the domain: of one value, of a percentile, and of a cloud's coordinates and normals.
#![tactic(auto)]

ghost use Rattle.std.specs.Prelude.{◌≡◌, ◌/◌, length};
ghost use Rattle.ranges.specs.Range.{inside, first_outside, percentile_inside, farthest, largest_finite};
ghost use Rattle.ranges.specs.Inner.Number.{some_below, first_there};

pub fn in_range(lo: f32, hi: f32, x: f32) -> bool
    ensures { result ≡ inside lo hi x }
{
    lo <= x && x <= hi
}

// The number of the first point, three values to a point, with a value outside -bound to bound.
pub fn first_outside(values: &[f32], bound: f32) -> Option<usize>
    ensures { result ≡ some_below (length values.now / 3) (first_outside bound values.now) }
{
    for at in 0..values.len() / 3 * 3 {
        if !in_range(-bound, bound, values[at]) {
            return Some(at / 3);
        }
    }
    None
}

// The first point with a coordinate or a normal's component outside the domain.
pub fn first_bad_point(points: &[f32], normals: &[f32]) -> Option<usize>
    ensures { result ≡ first_there
        (some_below (length points.now / 3) (first_outside farthest points.now))
        (some_below (length normals.now / 3) (first_outside largest_finite normals.now)) }
{
    let p = first_outside(points, 10000.0);
    let q = first_outside(normals, 3.4028235e38);
    match (p, q) {
        (Some(p), Some(q)) => Some(p.min(q)),
        (p, None) => p,
        (None, q) => q,
    }
}

pub fn percentile_ok(percentile: f32) -> bool
    ensures { result ≡ percentile_inside percentile }
{
    in_range(0.0, 1.0, percentile)
}
