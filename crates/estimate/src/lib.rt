// The radius estimate.
#![tactic(auto)]

mod nearest;
mod samples;

ghost use Rattle.std.specs.Prelude.{◌≡◌};
ghost use Rattle.estimate.specs.Estimate.{Estimated};
ghost use Rattle.estimate.specs.Inner.Outcome.{estimate_by};

use domain::Refusal;

// The answer's number, its detail, and the estimate, which is 0 at a refusal.
#[repr(C)]
#[derive(Clone, Copy)]
pub struct Estimate {
    pub answer: u32,
    pub detail: u32,
    pub radius: f32,
}

impl From<Result<f32, Refusal>> for Estimate {
    ghost from_gives = { λ outcome r. r ≡ estimate_by outcome };

    fn from(outcome: Result<f32, Refusal>) -> Estimate {
        match outcome {
            Ok(radius) => Estimate {
                answer: 0,
                detail: 0,
                radius,
            },
            Err(refusal) => Estimate {
                answer: refusal.answer,
                detail: refusal.detail,
                radius: 0.0,
            },
        }
    }
}

// The estimate, or why there is none.
fn try_estimate(
    points: &[f32],
    percentile: f32,
    work_u32: &mut [u32],
    work_f32: &mut [f32],
) -> Result<f32, Refusal>
    ensures { Estimated points.now percentile work_u32.old work_f32.old (estimate_by result)
        work_u32.new work_f32.new }
{
    domain::refusal_of_estimate(points, percentile, work_u32.len(), work_f32.len())?;
    let radius = samples::optimal_radius(points, points.len() / 3, percentile, work_u32, work_f32);
    clearing::clear(work_u32);
    clearing::clear(work_f32);
    Ok(radius)
}

// A radius that suits the cloud: 2.5 times the percentile of its points' least distances.
pub fn estimate_optimal_radius(
    points: &[f32],
    percentile: f32,
    work_u32: &mut [u32],
    work_f32: &mut [f32],
) -> Estimate
    ensures { Estimated points.now percentile work_u32.old work_f32.old result
        work_u32.new work_f32.new }
{
    Estimate::from(try_estimate(points, percentile, work_u32, work_f32))
}
