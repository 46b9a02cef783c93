// A triangle's measures, from the lengths of its edges and its area.
ghost use Rattle.std.specs.Prelude.{◌≡◌};
ghost use Rattle.quality.specs.Measures.{radius_of, angle, least, largest, aspect_ratio, edge_ratio, measures};
ghost use Rattle.quality.specs.Measures.{degenerate};
ghost use Rattle.quality.specs.Inner.Shape.{shape, flat_shape};

use crate::{Shape, TriangleQuality};

// The angle opposite to a.
pub fn angle(a: f32, b: f32, c: f32) -> f32
    ensures { result ≡ angle a b c }
{
    arc_cosine::acos(numbers::clamp((b * b + c * c - a * a) / (2.0 * b * c), -1.0, 1.0))
}

pub fn least(a: f32, b: f32, c: f32) -> f32
    ensures { result ≡ least a b c }
{
    numbers::min(numbers::min(a, b), c)
}

fn largest(a: f32, b: f32, c: f32) -> f32
    ensures { result ≡ largest a b c }
{
    numbers::max(numbers::max(a, b), c)
}

fn aspect_ratio(a: f32, b: f32, c: f32, area: f32, radius: f32) -> f32
    ensures { result ≡ aspect_ratio a b c area radius }
{
    if radius > 1e-10 {
        area / ((a + b + c) * 0.5) / radius
    } else {
        0.0
    }
}

fn edge_ratio(a: f32, b: f32, c: f32) -> f32
    ensures { result ≡ edge_ratio a b c }
{
    let shortest = least(a, b, c);
    if shortest > 1e-10 {
        largest(a, b, c) / shortest
    } else {
        1.0 / 0.0
    }
}

// The shape of a triangle that has an area.
pub fn shape(a: f32, b: f32, c: f32, area: f32) -> Shape
    ensures { result ≡ shape a b c area }
{
    Shape {
        area,
        aspect_ratio: aspect_ratio(a, b, c, area, crate::radius_of(a, b, c, area)),
        edge_ratio: edge_ratio(a, b, c),
    }
}

// The shape of one that has next to none.
pub fn flat(area: f32) -> Shape
    ensures { result ≡ flat_shape area }
{
    Shape {
        area,
        aspect_ratio: 0.0,
        edge_ratio: 1.0 / 0.0,
    }
}

// The measures of a triangle that has an area.
pub fn measures(a: f32, b: f32, c: f32, known: Shape) -> TriangleQuality
    requires { known ≡ shape a b c known.area }
    ensures { result ≡ measures a b c known.area (radius_of a b c known.area) }
{
    let angle_a = angle(a, b, c);
    let angle_b = angle(b, a, c);
    let angle_c = 3.1415927 - angle_a - angle_b;
    let min_angle = least(angle_a, angle_b, angle_c);
    TriangleQuality {
        aspect_ratio: known.aspect_ratio,
        min_angle,
        max_angle: largest(angle_a, angle_b, angle_c),
        area: known.area,
        edge_ratio: known.edge_ratio,
        quality_score: crate::score(min_angle, known.aspect_ratio, known.edge_ratio),
    }
}

// The measures of one that has next to none.
pub fn degenerate(area: f32) -> TriangleQuality
    ensures { result ≡ degenerate area }
{
    TriangleQuality {
        aspect_ratio: 0.0,
        min_angle: 0.0,
        max_angle: 3.1415927,
        area,
        edge_ratio: 1.0 / 0.0,
        quality_score: 0.0,
    }
}
