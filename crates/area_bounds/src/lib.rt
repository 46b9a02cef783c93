// Bounds of a triangle's area, by which triangles that are too small or too large are known without measuring them.
#![tactic(auto)]

ghost use Rattle.std.specs.Prelude.{◌≡◌, true};
ghost use Rattle.area_bounds.specs.Inner.AreaBound.{cross_bound, area_bound, cross_squared, AreaLimit, TooLong};
ghost use Rattle.area_bounds.specs.Inner.AreaBound.{LargeLimit};

use vector::Point3f;

fn cross_bound(v: Point3f, w: Point3f) -> Point3f
    ensures { result ≡ cross_bound v w }
{
    Point3f {
        x: v.y * w.z + v.z * w.y,
        y: v.z * w.x + v.x * w.z,
        z: v.x * w.y + v.y * w.x,
    }
}

// What the area is at most, where v bounds an edge and w another.
pub fn area_bound(v: Point3f, w: Point3f) -> f32
    ensures { result ≡ area_bound v w }
{
    vector::magnitude(cross_bound(v, w)) * 0.5
}

// The square of twice the area.
pub fn cross_squared(p1: Point3f, p2: Point3f, p3: Point3f) -> f32
    ensures { result ≡ cross_squared p1 p2 p3 }
{
    vector::magnitude_squared(vector::cross(vector::difference(p2, p1), vector::difference(p3, p1)))
}

// A number that the square of twice the area exceeds if the area is not below the least one. -1 says nothing, and
// stands where the guess is no such number.
pub fn area_limit(least: f32) -> f32
    ensures { AreaLimit least result }
{
    let t = (2.0 * least) * (2.0 * least) * 0.999999;
    if numbers::sqrt(t) * 0.5 < least {
        return t;
    }
    -1.0
}

// Whether the edges of every triangle with the least area or more are too long for a radius.
pub fn is_too_long(radius: f32, least: f32, factor: f32) -> bool
    ensures { result ≡ true → TooLong radius least factor }
{
    if !(least >= 1e-10) {
        return false;
    }
    numbers::sqrt(least) > radius * factor
}

// A number that the square of twice the area is below unless the edges are too long for the radius. Where the guess is
// none it is not a number, and nothing is at least that.
pub fn large_limit(radius: f32, factor: f32) -> f32
    ensures { LargeLimit radius factor result }
{
    let side = radius * factor;
    let t = side * side * side * side * 4.0001 + 4.0001e-20;
    if radius * 2.0 < 1.0 / 0.0 {
        if t >= 0.0 {
            if is_too_long(radius, numbers::sqrt(t) * 0.5, factor) {
                return t;
            }
        }
    }
    0.0 / 0.0
}
