// Whether three points make no seed, whichever of them comes first: lengths and areas are worked out once for all
// orders.
#![tactic(auto)]

ghost use Rattle.std.specs.Prelude.{◌≡◌, true, ◌*◌, ◌<◌, length, IfSome};
ghost use Rattle.quality.specs.Inner.Shape.{quality_of};
ghost use Rattle.decisions.specs.Decisions.{accepts};
ghost use Rattle.triangle.specs.Quality.{area};
ghost use Rattle.three_points.specs.Inner.Judged.{Seedless, RefusedBoth, RefusedAll, LimitsAtRadius};

use decisions::Scene;
use filters::Limits;
use vector::Point3f;

// What it takes to measure three points, where it takes 1 to refuse them.
const MEASURED: usize = 24;

// What it takes to tell that they are a sliver.
const SLIVER: usize = 2;

// What it takes to tell that their score is too low in every order.
const BOUNDED: usize = 8;

// Whether the settings accept a triangle with edges of lengths a, b and c at a radius. The bound is asked first, since
// it needs no angle.
fn is_accepted(s: Scene, radius: f32, a: f32, b: f32, c: f32, area: f32) -> bool
    ensures { result ≡ accepts s radius (quality_of a b c area) }
{
    let shape = quality::shape_of(a, b, c, area);
    if score_bounds::score_bound(shape) < s.quality_threshold {
        return false;
    }
    let q = quality::quality_of(a, b, c, shape);
    triangle::is_triangle_acceptable(
        q,
        radius,
        s.min_triangle_area,
        s.quality_threshold,
        s.max_edge_factor,
    )
}

// Whether they refuse it in both orders of the points after the first: a and c are the edges at that one.
fn are_refused(s: Scene, radius: f32, a: f32, b: f32, c: f32, area: f32) -> bool
    ensures { result ≡ true → RefusedBoth s radius a b c area }
{
    if is_accepted(s, radius, a, b, c, area) {
        return false;
    }
    !is_accepted(s, radius, c, b, a, area)
}

// Whether the score of three points with these edges is too low whichever of them comes first; told by the largest of
// their areas.
fn are_low(s: Scene, a: f32, b: f32, c: f32, p: Point3f, q: Point3f, t: Point3f) -> bool
    ensures { result ≡ true → RefusedAll s a b c (area p q t) (area q p t) (area t p q) }
{
    let x = area_bounds::cross_squared(p, q, t);
    let y = area_bounds::cross_squared(q, p, t);
    let z = area_bounds::cross_squared(t, p, q);
    let most = numbers::max(numbers::max(x, y), z);
    if !filters::are_at_most(x, y, z, most) {
        return false;
    }
    six_orders::is_low(s.quality_threshold, a, b, c, numbers::sqrt(most) * 0.5)
}

// What it took to tell that points i, j and k make no seed, whichever of them comes first; none if they may. Limits are
// asked first, since they need no root.
pub fn price_of(
    s: Scene,
    points: &[f32],
    radius: f32,
    limits: Limits,
    i: usize,
    j: usize,
    k: usize,
) -> Option<usize>
    requires { (length points.now ≡ 3 * s.n) × (i < s.n) × (j < s.n) × (k < s.n)
        × LimitsAtRadius s points.now radius limits }
    ensures { IfSome result (λ price. Seedless s points.now radius i j k) }
{
    let first = points::point_at(points, i);
    let second = points::point_at(points, j);
    let third = points::point_at(points, k);
    if filters::is_out_of_reach(s.quality_threshold, first, second, third) {
        return Some(1);
    }
    if filters::is_refused_throughout(limits, first, second, third) {
        return Some(1);
    }
    if filters::is_long_throughout(s, radius, first, second, third) {
        return Some(1);
    }
    if filters::is_sliver_throughout(limits, first, second, third) {
        return Some(SLIVER);
    }
    let a = vector::distance(second, first);
    let b = vector::distance(third, second);
    let c = vector::distance(first, third);
    if are_low(s, a, b, c, first, second, third) {
        return Some(BOUNDED);
    }
    if !are_refused(s, radius, a, b, c, triangle::area_of(first, second, third)) {
        return None;
    }
    if !are_refused(s, radius, a, c, b, triangle::area_of(second, first, third)) {
        return None;
    }
    if !are_refused(s, radius, c, a, b, triangle::area_of(third, first, second)) {
        return None;
    }
    Some(MEASURED)
}
