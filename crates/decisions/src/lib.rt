// What the floats decide of points by their numbers: which are near enough to each other, which triangles are
// acceptable, and how good they are.
#![tactic(auto)]

ghost use Rattle.std.specs.Prelude.{◌≡◌, true, ◌*◌, ◌<◌, ◌+◌, length};
ghost use Rattle.quality.specs.Inner.Shape.{quality_of};
ghost use Rattle.patch.specs.Lay.{edge};
ghost use Rattle.decisions.specs.Decisions.{apart, is_close, quality_at, accepts, halfway, middle};
ghost use Rattle.decisions.specs.Inner.Completes.{completes};
ghost use Rattle.decisions.specs.Decisions.{pivotable};
ghost use Rattle.lists.specs.Inner.Found.{option_found};
ghost use Rattle.decisions.specs.Found.{at_least, area_at, accepted_score, ShapeRefused};

use grid::SpatialGrid;
use quality::{Shape, TriangleQuality};
use vector::Point3f;

// What the decisions go by: the number of points, the index and whether it is used, and the thresholds of the settings.
#[derive(Clone, Copy)]
pub struct Scene {
    pub n: usize,
    pub indexed: bool,
    pub grid: SpatialGrid,
    pub min_triangle_area: f32,
    pub quality_threshold: f32,
    pub max_edge_factor: f32,
}

// How far points i and j are from each other.
pub fn apart_at(points: &[f32], i: usize, j: usize) -> f32
    requires { (3 * i + 2 < length points.now) × (3 * j + 2 < length points.now) }
    ensures { result ≡ apart points.now i j }
{
    vector::distance(points::point_at(points, i), points::point_at(points, j))
}

// Whether points i and j are not farther apart than twice the radius.
pub fn is_close(points: &[f32], radius: f32, i: usize, j: usize) -> bool
    requires { (3 * i + 2 < length points.now) × (3 * j + 2 < length points.now) }
    ensures { result ≡ is_close points.now radius i j }
{
    !(apart_at(points, i, j) > radius * 2.0)
}

// The area of the triangle of points i, j and k.
fn area_at(points: &[f32], i: usize, j: usize, k: usize) -> f32
    requires { (3 * i + 2 < length points.now) × (3 * j + 2 < length points.now)
        × (3 * k + 2 < length points.now) }
    ensures { result ≡ area_at points.now i j k }
{
    triangle::area_of(
        points::point_at(points, i),
        points::point_at(points, j),
        points::point_at(points, k),
    )
}

// Whether the settings accept a triangle at a radius.
fn is_accepted(s: Scene, radius: f32, q: TriangleQuality) -> bool
    ensures { result ≡ accepts s radius q }
{
    triangle::is_triangle_acceptable(
        q,
        radius,
        s.min_triangle_area,
        s.quality_threshold,
        s.max_edge_factor,
    )
}

fn halfway_to(x: f32, y: f32) -> f32
    ensures { result ≡ halfway x y }
{
    (x + y) * 0.5
}

// The middle of two points.
pub fn middle_of(p: Point3f, q: Point3f) -> Point3f
    ensures { result ≡ middle p q }
{
    Point3f {
        x: halfway_to(p.x, q.x),
        y: halfway_to(p.y, q.y),
        z: halfway_to(p.z, q.z),
    }
}

// Whether the edge a, b is neither too long nor too short.
pub fn is_pivotable(points: &[f32], radius: f32, a: usize, b: usize) -> bool
    requires { (3 * a + 2 < length points.now) × (3 * b + 2 < length points.now) }
    ensures { result ≡ pivotable points.now radius (edge a b) }
{
    let d = apart_at(points, b, a);
    !(d > radius * 2.0) && !(d < 1e-10)
}

// The score of a triangle with edges of lengths a, b and c, if the settings accept it and the score is not below `top`.
// The bound is asked first, since it needs no angle.
pub fn score_from(s: Scene, radius: f32, a: f32, b: f32, c: f32, area: f32, top: f32) -> Option<f32>
    ensures { result ≡ option_found (at_least top (accepted_score s radius (quality_of a b c area))) }
{
    let shape = quality::shape_of(a, b, c, area);
    if score_bounds::score_bound(shape) < top {
        return None;
    }
    let q = quality::quality_of(a, b, c, shape);
    if !(q.quality_score >= top) {
        return None;
    }
    if !is_accepted(s, radius, q) {
        return None;
    }
    Some(q.quality_score)
}

// Whether the settings refuse every triangle of a shape at a radius, whatever its angles.
fn is_shape_refused(s: Scene, radius: f32, shape: Shape) -> bool
    ensures { result ≡ true → ShapeRefused s radius shape }
{
    score_bounds::score_bound(shape) < s.quality_threshold
        || shape.edge_ratio * numbers::sqrt(shape.area) > radius * s.max_edge_factor
}

// Whether the settings accept the triangle of points i, j and k, `to_i` and `to_j` being the lengths of two edges.
// The shape is asked first, since it needs no angle.
fn is_accepted_at(
    s: Scene,
    points: &[f32],
    radius: f32,
    i: usize,
    j: usize,
    k: usize,
    to_i: f32,
    to_j: f32,
) -> bool
    requires { (3 * i + 2 < length points.now) × (3 * j + 2 < length points.now)
        × (3 * k + 2 < length points.now) × (to_i ≡ apart points.now i k) × (to_j ≡ apart points.now j k) }
    ensures { result ≡ accepts s radius (quality_at points.now i j k) }
{
    let area = area_at(points, i, j, k);
    let side = apart_at(points, j, i);
    let shape = quality::shape_of(side, to_j, to_i, area);
    if is_shape_refused(s, radius, shape) {
        return false;
    }
    is_accepted(s, radius, quality::quality_of(side, to_j, to_i, shape))
}

// Whether k is near enough to i and j and makes an acceptable triangle with them.
pub fn is_completed(s: Scene, points: &[f32], radius: f32, i: usize, j: usize, k: usize) -> bool
    requires { (3 * i + 2 < length points.now) × (3 * j + 2 < length points.now)
        × (3 * k + 2 < length points.now) }
    ensures { result ≡ completes s points.now radius i j k }
{
    let to_i = apart_at(points, i, k);
    if to_i > radius * 2.0 {
        return false;
    }
    let to_j = apart_at(points, j, k);
    if to_j > radius * 2.0 {
        return false;
    }
    is_accepted_at(s, points, radius, i, j, k, to_i, to_j)
}
