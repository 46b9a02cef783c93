// The score of a point over an edge. Most points are turned down by squares, before any root is taken.
#![tactic(auto)]

ghost use Rattle.std.specs.Prelude.{◌≡◌};
ghost use Rattle.numbers.specs.Rounded.{◌⊗◌};
ghost use Rattle.numbers.specs.Root.{root};
ghost use Rattle.quality.specs.Measures.{half};
ghost use Rattle.lists.specs.Inner.Found.{option_found};
ghost use Rattle.decisions.specs.Found.{at_least};
ghost use Rattle.scores.specs.Inner.Over.{edge_side, score_near, score_over, Thinned};

use decisions::Scene;
use vector::Point3f;

// An edge: its ends, its length, and the square of that.
#[derive(Clone, Copy)]
pub struct Side {
    pub p: Point3f,
    pub q: Point3f,
    pub square: f32,
    pub length: f32,
}

// The edge between two points.
pub fn side_of(p: Point3f, q: Point3f) -> Side
    ensures { result ≡ edge_side p q }
{
    let square = vector::distance_squared(q, p);
    Side {
        p: p,
        q: q,
        square: square,
        length: numbers::sqrt(square),
    }
}

// A limit by which a triangle is too thin to reach a score.
pub fn thin_at(score: f32) -> f32
    ensures { Thinned score result }
{
    thin::thin_limit(score_bounds::aspect_limit(score))
}

// The score of a triangle, from the length of an edge, the squares of the other two and that of twice the area.
fn score_near(s: Scene, radius: f32, a: f32, b: f32, c: f32, cross: f32, top: f32) -> Option<f32>
    ensures { result ≡ option_found (at_least top (score_near s radius a (root b) (root c) (root cross ⊗ half))) }
{
    let to_p = numbers::sqrt(c);
    if !(to_p <= radius) {
        return None;
    }
    let to_q = numbers::sqrt(b);
    if !(to_q <= radius) {
        return None;
    }
    decisions::score_from(s, radius, a, to_q, to_p, numbers::sqrt(cross) * 0.5, top)
}

// The score of an edge with a point, if the point is near enough to both ends, the triangle is acceptable and the score
// is not below `top`.
// `thin` is a limit for triangles that don't reach `top`.
pub fn score_over(s: Scene, radius: f32, side: Side, t: Point3f, top: f32, thin: f32) -> Option<f32>
    requires { (side ≡ edge_side side.p side.q) × Thinned top thin }
    ensures { result ≡ option_found (at_least top (score_over s radius side.p side.q t)) }
{
    let to_p = vector::distance_squared(t, side.p);
    let to_q = vector::distance_squared(t, side.q);
    let cross = area_bounds::cross_squared(side.p, side.q, t);
    if thin::is_thin(side.square, to_q, to_p, cross, thin) {
        return None;
    }
    score_near(s, radius, side.length, to_q, to_p, cross, top)
}
