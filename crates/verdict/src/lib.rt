// Why a triangle of three scanned points was turned down, or that it was not, with the number that was measured.
//
// What is answered is the definition `judged` of specs/Judged.antt; that the verdict is good exactly where the
// acceptance test accepts is the claim of specs/Claims.antt.
#![tactic(auto)]

pub mod numbered;
mod refusing;

ghost use Rattle.std.specs.Prelude.{◌≡◌};
ghost use Rattle.verdict.specs.Verdict.{stretch, verdict_of};
ghost use Rattle.verdict.specs.Judged.{judged};

use domain::Refusal;
use quality::TriangleQuality;
use settings::BallPivotingConfig;

// Each kind with what was measured: the score, the area, or the edge ratio times the root of the area.
#[derive(Clone, Copy)]
pub enum MeasuredKind {
    Good(f32),
    NoArea(f32),
    Small(f32),
    Poor(f32),
    Long(f32),
}

fn stretch(edge_ratio: f32, area: f32) -> f32
    ensures { result ≡ stretch edge_ratio area }
{
    edge_ratio * numbers::sqrt(area)
}

// The acceptance test's order, no area first.
pub fn verdict_of(
    quality: TriangleQuality,
    radius: f32,
    min_triangle_area: f32,
    quality_threshold: f32,
    max_edge_factor: f32,
) -> MeasuredKind
    ensures { result ≡ verdict_of quality radius min_triangle_area quality_threshold max_edge_factor }
{
    let area = quality.area;
    let score = quality.quality_score;
    if area == 0.0 {
        return MeasuredKind::NoArea(area);
    }
    if area < min_triangle_area {
        return MeasuredKind::Small(area);
    }
    if score < quality_threshold {
        return MeasuredKind::Poor(score);
    }
    let long = stretch(quality.edge_ratio, area);
    if long > radius * max_edge_factor {
        return MeasuredKind::Long(long);
    }
    MeasuredKind::Good(score)
}

// The triangle of the points i, j and k, measured in this order at the main radius, or why it is not.
pub fn judge_triangle(
    points: &[f32],
    normals: &[f32],
    settings: BallPivotingConfig,
    i: usize,
    j: usize,
    k: usize,
) -> Result<MeasuredKind, Refusal>
    ensures { result ≡ judged points.now normals.now settings i j k }
{
    refusing::refusal_of_judging(points, normals, settings, i, j, k)?;
    let first = points::point_at(points, i);
    let second = points::point_at(points, j);
    let third = points::point_at(points, k);
    Ok(verdict_of(
        triangle::compute_triangle_quality(first, second, third),
        settings.radius,
        settings.min_triangle_area,
        settings.quality_threshold,
        settings.max_edge_factor,
    ))
}
