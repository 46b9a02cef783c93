// Whether a cloud's points lie in a box so flat that no three of them make a triangle that is large enough.
#![tactic(auto)]

ghost use Rattle.std.specs.Prelude.{◌≡◌, true, ℕ, ◌*◌, ◌<◌, ◌≤◌, length};
ghost use Rattle.points.specs.Points.{point_at};
ghost use Rattle.vector.specs.Inner.Axes.{axis_index};
ghost use Rattle.vector.specs.Inner.Numbers.{Finite};
ghost use Rattle.flatness.specs.Inner.Flat.{too_small, Flat, AxisFinite, Extent};

use decisions::Scene;
use vector::{Axis, Point3f};

// How far the n points reach on one axis. The difference is taken both ways, since a zero may have either sign.
fn extent_on(points: &[f32], axis: Axis, n: usize) -> f32
    requires { (0 < n) × (n ≤ 4096) × (3 * n ≤ length points.now) × AxisFinite points.now (axis_index axis) n }
    ensures { Extent points.now (axis_index axis) n result }
{
    let first = axis.index();
    let mut lo = points[first];
    let mut hi = points[first];
    for i in 1..n {
        lo = numbers::min(lo, points[3 * i + first]);
        hi = numbers::max(hi, points[3 * i + first]);
    }
    numbers::max(numbers::max(0.0, hi - lo), -(lo - hi))
}

// Whether two edges that v bounds make no triangle that is large enough: one next to no area never is, where edges are
// limited.
fn is_too_small(s: Scene, v: Point3f) -> bool
    ensures { result ≡ too_small s v }
{
    let most = area_bounds::area_bound(v, v);
    most < s.min_triangle_area || most < 1e-10
}

// Whether no triangle in the box around the points is large enough.
pub fn is_flat(s: Scene, points: &[f32]) -> bool
    requires { (0 < s.n) × (s.n ≤ 4096) × (length points.now ≡ 3 * s.n)
        × ((k : ℕ) → k < s.n → Finite (point_at points.now k)) }
    ensures { result ≡ true → Flat s points.now }
{
    let x = extent_on(points, Axis::X, s.n);
    let y = extent_on(points, Axis::Y, s.n);
    let z = extent_on(points, Axis::Z, s.n);
    let v = vector::point(x, y, z);
    is_too_small(s, v)
}
