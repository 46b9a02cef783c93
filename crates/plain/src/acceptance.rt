// Whether a triangle is neither too thin nor too wide. A guess at the edge b, squared, bounds the edge, and the
// circumradius with it; most triangles are judged by that, without a root.
ghost use Rattle.std.specs.Prelude.{◌≡◌, true, T};
ghost use Rattle.std.specs.Float.{binary32};
ghost use Rattle.std.specs.Float.Ieee.{le, fits};
ghost use Rattle.numbers.specs.Rounded.{◌⊗◌};
ghost use Rattle.vector.specs.Vector.{difference, cross, magnitude, squared, distance};
ghost use Rattle.area_bounds.specs.Inner.AreaBound.{cross_squared};
ghost use Rattle.plain.specs.Plain.{sound};
ghost use Rattle.plain.specs.Inner.Listed.{RadiusLimited};
ghost use Rattle.plain.specs.Inner.Bounds.{NarrowTriangle, Wide, least_cross, largest_number};

use crate::PlainLimits;
use vector::Point3f;

// The square of the largest cross product that is too short, and the next number.
const THIN: f32 = 1.0000001e-12;

const LEAST: f32 = 1.0000002e-12;

// The largest number.
const LARGEST: f32 = 3.4028235e38;

// The length of the cross product of two edges.
fn normal_length(p1: Point3f, p2: Point3f, p3: Point3f) -> f32
    ensures { result ≡ magnitude (cross (difference p2 p1) (difference p3 p1)) }
{
    let v1 = vector::difference(p2, p1);
    let v2 = vector::difference(p3, p1);
    vector::magnitude(vector::cross(v1, v2))
}

// Whether the triangle is neither too thin nor too wide, by the roots.
fn is_sound_measured(p1: Point3f, p2: Point3f, p3: Point3f, radius: f32) -> bool
    ensures { result ≡ sound p1 p2 p3 radius }
{
    normal_length(p1, p2, p3) > 1e-6 && triangle::compute_circumradius(p1, p2, p3) <= radius * 1.5
}

// A little more than the root of x, or 0. Only that it is an f32 is promised of it.
fn guess_root(x: f32) -> f32
    ensures { T (fits binary32 result) }
{
    if x != x {
        return 0.0;
    }
    let b = f32::to_bits(x);
    if 0x7f80_0000 <= b {
        return 0.0;
    }
    f32::from_bits(b / 2 + 0x1fc0_0010)
}

// Whether the circumradius is known to be at most the widest, by a guess b above the edge whose square is `edge`. The
// product of the edges gives a guess z below the length of the cross product, whose square is s.
fn is_narrow(a: f32, b: f32, c: f32, edge: f32, s: f32, limits: PlainLimits) -> bool
    ensures { result ≡ true → NarrowTriangle (a ⊗ b ⊗ c) (a ⊗ b ⊗ c ⊗ limits.high) b edge s limits.widest }
{
    let x = a * b * c;
    let z = x * limits.high;
    let d = 4.0 * (z * 0.5);
    let w = limits.widest;
    z * z < s && (x < w * d && (edge < b * b && (0.0 < x && 0.0 < d)))
}

// Whether it is known to be above the widest, by a guess b below the edge and a guess z above the length. What is above
// 0 and not infinite needs no more care.
fn is_wide(a: f32, b: f32, c: f32, edge: f32, s: f32, limits: PlainLimits) -> bool
    ensures { result ≡ true
        → Wide (a ⊗ b ⊗ c) (a ⊗ b ⊗ c ⊗ limits.low) b edge s limits.widest limits.beyond }
{
    let x = a * b * c;
    let z = x * limits.low;
    let d = 4.0 * (z * 0.5);
    let e = limits.beyond;
    s < z * z
        && (e * d < x
            && (b * b < edge
                && (0.0 < x
                    && (0.0 < d
                        && (0.0 < e
                            && (x <= LARGEST
                                && (d <= LARGEST
                                    && (edge <= LARGEST
                                        && (e <= LARGEST && limits.widest < e)))))))))
}

// Whether it is neither, by a better guess at the edge than b, and by the roots where that is too rough.
fn is_sound_closer(
    p1: Point3f,
    p2: Point3f,
    p3: Point3f,
    a: f32,
    b: f32,
    c: f32,
    edge: f32,
    s: f32,
    radius: f32,
    limits: PlainLimits,
) -> bool
    requires { RadiusLimited radius limits × (a ≡ distance p1 p2) × (c ≡ distance p1 p3) × (edge ≡ squared p3 p2)
        × (s ≡ cross_squared p1 p2 p3) × T (le least_cross s) × T (le s largest_number) }
    ensures { result ≡ sound p1 p2 p3 radius }
{
    let h = (b + edge / b) * 0.5;
    let g = (h + edge / h) * 0.5;
    if is_narrow(a, g * 1.000001, c, edge, s, limits) {
        return true;
    }
    if is_wide(a, g * 0.999997, c, edge, s, limits) {
        return false;
    }
    is_sound_measured(p1, p2, p3, radius)
}

// Whether it is neither, by a rough guess at the edge first.
fn is_sound_long(
    p1: Point3f,
    p2: Point3f,
    p3: Point3f,
    a: f32,
    c: f32,
    s: f32,
    radius: f32,
    limits: PlainLimits,
) -> bool
    requires { RadiusLimited radius limits × (a ≡ distance p1 p2) × (c ≡ distance p1 p3) × (s ≡ cross_squared p1 p2 p3)
        × T (le least_cross s) × T (le s largest_number) }
    ensures { result ≡ sound p1 p2 p3 radius }
{
    let edge = vector::distance_squared(p3, p2);
    let b = guess_root(edge);
    if is_narrow(a, b, c, edge, s, limits) {
        return true;
    }
    if is_wide(a, b * 0.9427, c, edge, s, limits) {
        return false;
    }
    is_sound_closer(p1, p2, p3, a, b, c, edge, s, radius, limits)
}

// Whether the triangle is neither too thin nor too wide; a and c are the distances of p2 and p3 from p1.
pub fn is_sound(
    p1: Point3f,
    p2: Point3f,
    p3: Point3f,
    a: f32,
    c: f32,
    radius: f32,
    limits: PlainLimits,
) -> bool
    requires { RadiusLimited radius limits × (a ≡ distance p1 p2) × (c ≡ distance p1 p3) }
    ensures { result ≡ sound p1 p2 p3 radius }
{
    let s = area_bounds::cross_squared(p1, p2, p3);
    if LEAST <= s {
        if s <= LARGEST {
            return is_sound_long(p1, p2, p3, a, c, s, radius, limits);
        }
    }
    if s <= THIN {
        return false;
    }
    is_sound_measured(p1, p2, p3, radius)
}
