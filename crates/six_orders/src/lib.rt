// A bound of a triangle's score that holds in all six orders of its points, for the price of one. An order decides how
// sums and products are rounded, which two angles are measured and which one is left over.
#![tactic(auto)]

ghost use Rattle.std.specs.Prelude.{◌≡◌, true, not, T, IfSome};
ghost use Rattle.std.specs.Float.{binary32};
ghost use Rattle.std.specs.Float.Ieee.{fits, is_nan};
ghost use Rattle.std.specs.Float.Ieee.Positive.{positive};
ghost use Rattle.six_orders.specs.Inner.SixOrders.{AngleBound, AspectFrom, LowAspect, EdgeBound, AllBelow};
ghost use Rattle.six_orders.specs.Inner.SixOrders.{EdgeFrom, AllBelowFrom};

// Whether x is above zero, and not infinite.
fn is_positive(x: f32) -> bool
    ensures { result ≡ true → T (positive x) }
{
    0.0 < x && x < 1.0 / 0.0
}

// Whether three numbers are.
fn are_positive(x: f32, y: f32, z: f32) -> bool
    ensures { result ≡ true → T (positive x) × T (positive y) × T (positive z) }
{
    is_positive(x) && is_positive(y) && is_positive(z)
}

// Whether none of three is a not-a-number; no angle is above 4.
fn are_numbers(x: f32, y: f32, z: f32) -> bool
    ensures { result ≡ true → T (not (is_nan x)) × T (not (is_nan y)) × T (not (is_nan z)) }
{
    if !(x <= 4.0) {
        return false;
    }
    if !(y <= 4.0) {
        return false;
    }
    z <= 4.0
}

// Whether x and y are the same number above zero.
fn is_same(x: f32, y: f32) -> bool
    requires { T (fits binary32 x) × T (fits binary32 y) }
    ensures { result ≡ true → x ≡ y }
{
    0.0 < x && (x <= y && y <= x)
}

// What the least angle is at most in each order. Four orders measure the angle opposite to a, the other two those
// opposite to b and c. Where that can't be told it is not a number.
fn angle_bound(a: f32, b: f32, c: f32) -> f32
    ensures { AngleBound a b c result }
{
    if !is_same(2.0 * b * c, 2.0 * c * b) {
        return 0.0 / 0.0;
    }
    let x = quality::measure::angle(a, b, c);
    let y = quality::measure::angle(b, c, a);
    let z = quality::measure::angle(c, b, a);
    if !are_numbers(x, y, z) {
        return 0.0 / 0.0;
    }
    let forward = quality::measure::least(y, z, 3.1415927 - y - z);
    let backward = quality::measure::least(z, y, 3.1415927 - z - y);
    numbers::max(numbers::max(x, forward), backward)
}

// What the aspect ratio is at most in each order, with areas up to a largest one and edges that are not shorter, if that
// can be told: with the least of the sums and of the products.
fn aspect_bound(a: f32, b: f32, c: f32, area: f32) -> Option<f32>
    requires { T (positive a) × T (positive b) × T (positive c) }
    ensures { IfSome result (AspectFrom a b c area) }
{
    let half = quality::measure::least(a + b + c, a + c + b, b + c + a) * 0.5;
    let product = quality::measure::least(a * b * c, a * c * b, b * c * a);
    let fourfold = 4.0 * area;
    let inradius = area / half;
    let radius = product / fourfold;
    if !are_positive(half, product, fourfold) {
        return None;
    }
    if !are_positive(area, inradius, radius) {
        return None;
    }
    Some(inradius / radius)
}

// What the edge ratio is at least in each order.
fn edge_bound(a: f32, b: f32, c: f32) -> f32
    requires { T (positive a) × T (positive b) × T (positive c) }
    ensures { EdgeBound a b c result }
{
    let e = numbers::max(b, c) / a;
    if is_positive(e) {
        return e;
    }
    0.0 / 0.0
}

// What the edge ratio is at least in each order of edges that are not shorter, and of which one is not longer than s.
fn edge_from(a: f32, b: f32, c: f32, s: f32) -> f32
    ensures { EdgeFrom a b c s result }
{
    let e = numbers::max(numbers::max(a, b), c) / s;
    if is_positive(s) {
        if is_positive(e) {
            return e;
        }
    }
    0.0 / 0.0
}

// A bound of the aspect ratio in each order of edges that are not shorter, with areas up to a largest one, where scores
// can be told to be below a threshold by it.
fn low_aspect(threshold: f32, a: f32, b: f32, c: f32, area: f32) -> Option<f32>
    ensures { IfSome result (LowAspect threshold a b c area) }
{
    if !(0.0 < threshold) {
        return None;
    }
    if !are_positive(a, b, c) {
        return None;
    }
    let aspect = aspect_bound(a, b, c, area)?;
    if aspect <= 4.0 { Some(aspect) } else { None }
}

// Whether the score is below a threshold in each order, with each area up to a largest one. The bound is closest where
// a is the shortest edge.
fn is_low_by(threshold: f32, a: f32, b: f32, c: f32, area: f32) -> bool
    ensures { result ≡ true → AllBelow threshold area a b c }
{
    let Some(aspect) = low_aspect(threshold, a, b, c, area) else {
        return false;
    };
    quality::score(angle_bound(a, b, c), aspect, edge_bound(a, b, c)) < threshold
}

// Whether the score is below a threshold in each order, the shortest edge taken for a.
pub fn is_low(threshold: f32, a: f32, b: f32, c: f32, area: f32) -> bool
    ensures { result ≡ true → AllBelow threshold area a b c }
{
    if a <= b {
        if a <= c {
            return is_low_by(threshold, a, b, c, area);
        }
        return is_low_by(threshold, c, a, b, area);
    }
    if b <= c {
        return is_low_by(threshold, b, a, c, area);
    }
    is_low_by(threshold, c, a, b, area)
}

// Whether it is with all edges that are not shorter, of which one is not longer than s, and with least angles up to a
// largest one; with any, if that is not a number.
pub fn is_low_from(threshold: f32, a: f32, b: f32, c: f32, s: f32, angle: f32, area: f32) -> bool
    ensures { result ≡ true → AllBelowFrom threshold area angle a b c s }
{
    let Some(aspect) = low_aspect(threshold, a, b, c, area) else {
        return false;
    };
    quality::score(angle, aspect, edge_from(a, b, c, s)) < threshold
}
