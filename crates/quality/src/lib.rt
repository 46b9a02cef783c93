// A triangle's quality, from the lengths of its edges and its area.
#![tactic(auto)]

pub mod measure;

ghost use Rattle.std.specs.Prelude.{◌≡◌};
ghost use Rattle.quality.specs.Measures.{radius_of, score};
ghost use Rattle.quality.specs.Inner.Shape.{shape_of, quality_of};

// Quality metrics for triangle evaluation.
#[repr(C)]
#[derive(Clone, Copy)]
pub struct TriangleQuality {
    pub aspect_ratio: f32,
    pub min_angle: f32,
    pub max_angle: f32,
    pub area: f32,
    pub edge_ratio: f32,
    pub quality_score: f32,
}

// The measures of a triangle without its angles.
#[derive(Clone, Copy)]
pub struct Shape {
    pub area: f32,
    pub aspect_ratio: f32,
    pub edge_ratio: f32,
}

// The circumradius.
pub fn radius_of(a: f32, b: f32, c: f32, area: f32) -> f32
    ensures { result ≡ radius_of a b c area }
{
    (a * b * c) / (4.0 * area)
}

pub fn score(min_angle: f32, aspect: f32, edge: f32) -> f32
    ensures { result ≡ score min_angle aspect edge }
{
    let angle_quality = numbers::min(min_angle / (3.1415927 / 6.0), 1.0);
    let edge_quality = numbers::min(3.0 / edge, 1.0);
    (angle_quality + aspect * 2.0 + edge_quality) / 3.0
}

// The shape of a triangle, from the lengths of its edges and its area.
pub fn shape_of(a: f32, b: f32, c: f32, area: f32) -> Shape
    ensures { result ≡ shape_of a b c area }
{
    if area < 1e-10 {
        return measure::flat(area);
    }
    measure::shape(a, b, c, area)
}

// The quality of a triangle, from the lengths of its edges and its shape.
pub fn quality_of(a: f32, b: f32, c: f32, shape: Shape) -> TriangleQuality
    requires { shape ≡ shape_of a b c shape.area }
    ensures { result ≡ quality_of a b c shape.area }
{
    if shape.area < 1e-10 {
        return measure::degenerate(shape.area);
    }
    measure::measures(a, b, c, shape)
}
