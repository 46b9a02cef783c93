// A triangle of three points in space: its circumradius, its quality, and whether that is acceptable.
#![tactic(auto)]

ghost use Rattle.std.specs.Prelude.{◌≡◌};
ghost use Rattle.triangle.specs.Quality.{area, circumradius, quality, acceptable};

use quality::TriangleQuality;
use vector::Point3f;

pub fn area_of(p1: Point3f, p2: Point3f, p3: Point3f) -> f32
    ensures { result ≡ area p1 p2 p3 }
{
    vector::magnitude(vector::cross(vector::difference(p2, p1), vector::difference(p3, p1))) * 0.5
}

pub fn compute_circumradius(p1: Point3f, p2: Point3f, p3: Point3f) -> f32
    ensures { result ≡ circumradius p1 p2 p3 }
{
    let area = area_of(p1, p2, p3);
    if area < 1e-10 {
        return 1.0 / 0.0;
    }
    quality::radius_of(
        vector::distance(p2, p1),
        vector::distance(p3, p2),
        vector::distance(p1, p3),
        area,
    )
}

// The lengths and the area serve the circumradius too.
pub fn compute_triangle_quality(p1: Point3f, p2: Point3f, p3: Point3f) -> TriangleQuality
    ensures { result ≡ quality p1 p2 p3 }
{
    let a = vector::distance(p2, p1);
    let b = vector::distance(p3, p2);
    let c = vector::distance(p1, p3);
    quality::quality_of(a, b, c, quality::shape_of(a, b, c, area_of(p1, p2, p3)))
}

pub fn is_triangle_acceptable(
    quality: TriangleQuality,
    radius: f32,
    min_triangle_area: f32,
    quality_threshold: f32,
    max_edge_factor: f32,
) -> bool
    ensures { result ≡ acceptable quality radius min_triangle_area quality_threshold max_edge_factor }
{
    if quality.area == 0.0 {
        return false;
    }
    if quality.area < min_triangle_area {
        return false;
    }
    if quality.quality_score < quality_threshold {
        return false;
    }
    if quality.edge_ratio * numbers::sqrt(quality.area) > radius * max_edge_factor {
        return false;
    }
    true
}
