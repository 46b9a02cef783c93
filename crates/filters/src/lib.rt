// What is refused without measuring it: triangles by squares that are too small or too large, and radii at which every
// triangle is refused.
#![tactic(auto)]

ghost use Rattle.std.specs.Prelude.{◌≡◌, true, ◌&&◌};
ghost use Rattle.std.specs.Float.Ieee.{le};
ghost use Rattle.long_edges.specs.Inner.LongEdges.{Long};
ghost use Rattle.cosines.specs.Inner.Cosine.{Coordinates};
ghost use Rattle.sliver_filters.specs.Inner.SliversWithin.{LowEach};
ghost use Rattle.filters.specs.Inner.Refused.{Least, Limiting, Refused, RefusedThroughout, RefusesAll};
ghost use Rattle.filters.specs.Inner.Refused.{RefusedEach, Only, Sliver, SliverOf};

use bounds::Interval;
use decisions::Scene;
use sliver_filters::SliverFilter;
use vector::Point3f;

// Limits for squares, by which a triangle is refused: of twice the area a least and a largest, of a distance the
// largest, one for the aspect ratio, and those for slivers.
#[derive(Clone, Copy)]
pub struct Limits {
    pub small: f32,
    pub large: f32,
    pub far: f32,
    pub thin: f32,
    pub slivers: SliverFilter,
}

// An area below which every triangle is refused at a radius: the least one, or what is next to none where edges are
// limited at all.
fn least_area(s: Scene, radius: f32) -> f32
    ensures { Least s radius result }
{
    if radius * s.max_edge_factor < 1.0 / 0.0 {
        if s.min_triangle_area < 1e-10 {
            return 1e-10;
        }
    }
    s.min_triangle_area
}

// The limits at a radius.
pub fn limits_of(s: Scene, radius: f32) -> Limits
    ensures { Limiting s radius result }
{
    let small = area_bounds::area_limit(least_area(s, radius));
    let large = area_bounds::large_limit(radius, s.max_edge_factor);
    let far = bounds::square_limit(radius * 2.0);
    let thin = thin::thin_limit(score_bounds::aspect_limit(s.quality_threshold));
    let slivers = sliver_filters::sliver_filter_of(s.quality_threshold);
    Limits {
        small: small,
        large: large,
        far: far,
        thin: thin,
        slivers: slivers,
    }
}

// Whether the limits refuse the triangle of three points, of which both others are close to the first.
pub fn is_refused(l: Limits, p: Point3f, q: Point3f, t: Point3f) -> bool
    ensures { result ≡ true → Refused l p q t }
{
    let last = vector::distance_squared(q, t);
    if last > l.far {
        return true;
    }
    let cross = area_bounds::cross_squared(p, q, t);
    if cross <= l.small {
        return true;
    }
    if cross >= l.large {
        return true;
    }
    let first = vector::distance_squared(p, q);
    thin::is_thin(first, vector::distance_squared(p, t), last, cross, l.thin)
}

// Whether three numbers are at most x.
pub fn are_at_most(a: f32, b: f32, c: f32, x: f32) -> bool
    ensures { result ≡ (le a x && (le b x && le c x)) }
{
    a <= x && (b <= x && c <= x)
}

// Whether they are at least x.
fn are_at_least(a: f32, b: f32, c: f32, x: f32) -> bool
    ensures { result ≡ (le x a && (le x b && le x c)) }
{
    x <= a && (x <= b && x <= c)
}

// Whether the limits refuse the triangle of three points, whichever of them comes first. Its area depends on that, by
// rounding: the largest one has to be too thin.
pub fn is_refused_throughout(l: Limits, p: Point3f, q: Point3f, t: Point3f) -> bool
    ensures { result ≡ true → RefusedThroughout l p q t }
{
    let third = vector::distance_squared(q, t);
    if third > l.far {
        return true;
    }
    let a = area_bounds::cross_squared(p, q, t);
    let b = area_bounds::cross_squared(q, p, t);
    let c = area_bounds::cross_squared(t, p, q);
    if are_at_most(a, b, c, l.small) {
        return true;
    }
    if are_at_least(a, b, c, l.large) {
        return true;
    }
    let largest = numbers::max(numbers::max(a, b), c);
    let first = vector::distance_squared(p, q);
    thin::is_thin(
        first,
        vector::distance_squared(p, t),
        third,
        largest,
        l.thin,
    )
}

// Whether edges with squares x, y and z are too long with each of three squares of twice the area.
fn are_long(x: f32, y: f32, z: f32, a: f32, b: f32, c: f32, limit: f32) -> bool
    ensures { result ≡ true → Long limit x y z a × Long limit x y z b × Long limit x y z c }
{
    if !long_edges::is_long(x, y, z, a, limit) {
        return false;
    }
    if !long_edges::is_long(x, y, z, b, limit) {
        return false;
    }
    long_edges::is_long(x, y, z, c, limit)
}

// Whether the edges of three points are too long for their area at a radius, by squares alone, whichever of them comes
// first.
pub fn is_long_throughout(s: Scene, radius: f32, p: Point3f, q: Point3f, t: Point3f) -> bool
    ensures { result ≡ true → RefusedEach s radius p q t }
{
    let a = area_bounds::cross_squared(p, q, t);
    let b = area_bounds::cross_squared(q, p, t);
    let c = area_bounds::cross_squared(t, p, q);
    let first = vector::distance_squared(p, q);
    let second = vector::distance_squared(p, t);
    let third = vector::distance_squared(q, t);
    let limit = long_edges::long_limit(radius * s.max_edge_factor);
    are_long(first, second, third, a, b, c, limit)
}

// The interval of one number.
fn only(x: f32) -> Interval
    ensures { Only x result }
{
    Interval { lo: x, hi: x }
}

// Whether a point's first coordinate is a number. That all are f32 is known once one is read.
fn is_number(p: Point3f) -> bool
    ensures { Coordinates p }
{
    p.x <= p.x
}

// Whether three points' are.
fn are_numbers(p: Point3f, q: Point3f, t: Point3f) -> bool
    ensures { result ≡ true → Coordinates p × Coordinates q × Coordinates t }
{
    if !is_number(p) {
        return false;
    }
    if !is_number(q) {
        return false;
    }
    is_number(t)
}

// Whether three points are a sliver, whichever of them comes first; from the squares of their edges and of twice their
// areas.
fn is_sliver_of(l: Limits, pq: f32, pt: f32, qt: f32, x: f32, y: f32, z: f32) -> bool
    ensures { result ≡ true → SliverOf l pq pt qt x y z }
{
    if !are_at_most(pq, pt, qt, 67108864.0) {
        return false;
    }
    let most = numbers::max(numbers::max(x, y), z);
    if !are_at_most(x, y, z, most) {
        return false;
    }
    sliver_filters::is_sliver(l.slivers, only(pq), only(qt), only(pt), most)
}

// Whether the triangle of three points is a sliver, by squares alone, whichever of them comes first. Where the limit
// for the aspect ratio alone is no less, there is nothing left to tell.
pub fn is_sliver_throughout(l: Limits, p: Point3f, q: Point3f, t: Point3f) -> bool
    ensures { result ≡ true → Sliver l p q t }
{
    if l.slivers.thin <= l.thin {
        return false;
    }
    if !are_numbers(p, q, t) {
        return false;
    }
    let pq = vector::distance_squared(p, q);
    let pt = vector::distance_squared(p, t);
    let qt = vector::distance_squared(q, t);
    let x = area_bounds::cross_squared(p, q, t);
    let y = area_bounds::cross_squared(q, p, t);
    let z = area_bounds::cross_squared(t, p, q);
    is_sliver_of(l, pq, pt, qt, x, y, z)
}

// Whether three points are a sliver, asked with one of the three areas first: it is quicker where few are. Where no
// angle is small enough for the threshold it is not asked.
pub fn is_rare_sliver(l: Limits, p: Point3f, q: Point3f, t: Point3f) -> bool
    ensures { result ≡ true → Sliver l p q t }
{
    if !(0.0 < l.slivers.narrow) {
        return false;
    }
    if l.slivers.thin <= l.thin {
        return false;
    }
    if !are_numbers(p, q, t) {
        return false;
    }
    let pq = vector::distance_squared(p, q);
    let pt = vector::distance_squared(p, t);
    let qt = vector::distance_squared(q, t);
    let x = area_bounds::cross_squared(p, q, t);
    if !sliver_filters::is_sliver(l.slivers, only(pq), only(qt), only(pt), x) {
        return false;
    }
    let y = area_bounds::cross_squared(q, p, t);
    let z = area_bounds::cross_squared(t, p, q);
    is_sliver_of(l, pq, pt, qt, x, y, z)
}

// Whether the score of three points is below a threshold that none reaches, whichever of them comes first.
pub fn is_out_of_reach(threshold: f32, p: Point3f, q: Point3f, t: Point3f) -> bool
    ensures { result ≡ true → LowEach threshold p q t }
{
    if !euler::is_out_of_reach(threshold) {
        return false;
    }
    if !are_numbers(p, q, t) {
        return false;
    }
    let first = vector::distance_squared(p, q);
    let second = vector::distance_squared(p, t);
    let third = vector::distance_squared(q, t);
    if !are_at_most(first, second, third, 67108864.0) {
        return false;
    }
    euler::is_plain(only(first), only(third), only(second))
}

// Whether no triangle of points that are close to each other can be acceptable at a radius.
pub fn refuses_all(s: Scene, radius: f32) -> bool
    ensures { result ≡ true → RefusesAll s radius }
{
    if !(radius * 2.0 < 1.0 / 0.0) {
        return false;
    }
    area_bounds::is_too_long(radius, s.min_triangle_area, s.max_edge_factor)
}
