// The nearest of a list of points, by a scan of their squares: few points need a root.
#![tactic(auto)]

ghost use Rattle.std.specs.Prelude.{◌≡◌, T};
ghost use Rattle.std.specs.Float.{binary32};
ghost use Rattle.std.specs.Float.Ieee.{fits};
ghost use Rattle.numbers.specs.Root.{root};
ghost use Rattle.bounds.specs.Inner.Within.{Limit};
ghost use Rattle.vector.specs.Vector.{distance};
ghost use Rattle.nearest.specs.Scan.{length_to};
ghost use Rattle.nearest.specs.Parts.{closer, scanned, Length, near_of_best, best_in, NumbersOfPoints, BestLimited};
ghost use Rattle.nearest.specs.Parts.{KeepsBest};
ghost use Rattle.nearest.specs.Least.{greater, lesser, square_to, nearer_number, next_least, TwoLeast, AllFinite};

use vector::Point3f;

// The nearest point so far, by its square. A square above the limit has a root above this one's, so that few points
// need a root.
#[derive(Clone, Copy)]
pub struct Best {
    pub square: f32,
    pub number: u32,
    pub limit: f32,
}

// The two least squares so far, and the number of the least one's point.
#[derive(Clone, Copy)]
struct Least {
    first: f32,
    second: f32,
    number: u32,
}

pub fn greater(a: f32, b: f32) -> f32
    ensures { result ≡ greater a b }
{
    if a < b { b } else { a }
}

pub fn lesser(a: f32, b: f32) -> f32
    ensures { result ≡ lesser a b }
{
    if a < b { a } else { b }
}

// A number such that each square above it has a root above the given square's. No rounding comes near to a part in a
// million, but where numbers are very small or large; there it is more, or a guess, which is tested.
pub fn limit_of(square: f32) -> f32
    requires { T (fits binary32 square) }
    ensures { Limit (root square) result }
{
    if 0.0 <= square && square <= 1.2676506e30 {
        return greater(square, 7.888609e-31) * 1.000001;
    }
    bounds::square_limit(numbers::sqrt(square))
}

// The nearer of two by their roots, the lower number on equality.
fn settled(best: Best, other: Best) -> Best
    requires { BestLimited best × BestLimited other }
    ensures { KeepsBest result (closer (near_of_best best) (root other.square) other.number) }
{
    let kept = numbers::sqrt(best.square);
    let distance = numbers::sqrt(other.square);
    if distance < kept {
        return other;
    }
    if kept < distance {
        return best;
    }
    if other.number < best.number {
        return other;
    }
    best
}

// The nearer of the best so far and a point, the lower number on equality.
fn closer(best: Best, p: Point3f, spot: Point3f, number: u32) -> Best
    requires { BestLimited best }
    ensures { KeepsBest result (closer (near_of_best best) (distance p spot) number) }
{
    let square = vector::distance_squared(p, spot);
    if best.limit < square {
        return best;
    }
    let limit = limit_of(square);
    let other = Best {
        square,
        number,
        limit,
    };
    if limit < best.square {
        return other;
    }
    settled(best, other)
}

// The nearest of the best so far and all points of a list.
fn scan(points: &[f32], spot: Point3f, order: &[u32], best: Best) -> Best
    requires best_limited { BestLimited best }
    requires numbers_of_points { NumbersOfPoints points.now order.now }
    ensures { KeepsBest result
        (scanned (length_to points.now spot) order.now (near_of_best best)) }
{
    let mut found = best;
    for number in order {
        let p = points::point_at(points, *number as usize);
        found = closer(found, p, spot, *number);
    }
    found
}

// The least one's number, after one more square.
fn nearer_number(least: Least, square: f32, number: u32) -> u32
    ensures { result ≡ nearer_number least square number }
{
    if square < least.first {
        number
    } else {
        least.number
    }
}

// The two least squares after one more. No branch has to be foretold.
fn next_least(least: Least, square: f32, number: u32) -> Least
    ensures { result ≡ next_least least square number }
{
    Least {
        first: lesser(square, least.first),
        second: lesser(least.second, greater(least.first, square)),
        number: nearer_number(least, square, number),
    }
}

// The two least squares of a list's points.
fn two_least(points: &[f32], spot: Point3f, order: &[u32]) -> Least
    requires numbers_of_points { NumbersOfPoints points.now order.now }
    requires all_finite { AllFinite points.now spot order.now }
    ensures { TwoLeast (square_to points.now spot) order.now result }
{
    let mut least = Least {
        first: 3.4028235e38,
        second: 3.4028235e38,
        number: 0,
    };
    for number in order {
        let p = points::point_at(points, *number as usize);
        let square = vector::distance_squared(p, spot);
        least = next_least(least, square, *number);
    }
    least
}

// Scans as `scan` does, the best one's square and limit lent where they stand, its number handed on. Where the least
// square is clearly below all others it settles who is nearest.
pub fn scan_leaf(
    points: &[f32],
    spot: Point3f,
    order: &[u32],
    near: u32,
    best: &mut [f32; 2],
) -> u32
    requires best_limited { BestLimited (best_in best.old near) × Length (root (best_in best.old near).square) }
    requires numbers_of_points { NumbersOfPoints points.now order.now × AllFinite points.now spot order.now }
    ensures { KeepsBest (best_in best.new result) (scanned (length_to points.now spot)
        order.now (near_of_best (best_in best.old near))) }
{
    let least = two_least(points, spot, order);
    let first = least.first;
    if best[1] < first {
        return near;
    }
    let limit = limit_of(first);
    if limit < least.second && limit < best[0] {
        *best = [first, limit];
        return least.number;
    }
    let old = Best {
        square: best[0],
        number: near,
        limit: best[1],
    };
    let found = scan(points, spot, order, old);
    *best = [found.square, found.limit];
    found.number
}
