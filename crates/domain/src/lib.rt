// The domain: which clouds, settings and work slices are taken, and the refusal that each of the others gets.
#![tactic(auto)]

ghost use Rattle.std.specs.Prelude.{◌≡◌, ◌≤◌};
ghost use Rattle.domain.specs.Refusals.{refusal, first_refusal, size_checks, points_checks, input_checks, work_checks};
ghost use Rattle.domain.specs.Refusals.{estimate_refusal, reconstruct_refusal};
ghost use Rattle.domain.specs.Inner.Outcome.{result_of};

use settings::BallPivotingConfig;

// The number of a refusal and its detail.
#[repr(C)]
#[derive(Clone, Copy)]
pub struct Refusal {
    pub answer: u32,
    pub detail: u32,
}

// The refusal without a detail.
fn plainly(answer: u32) -> Refusal
    ensures { result ≡ refusal answer 0 }
{
    Refusal { answer, detail: 0 }
}

// 1, 2 and 3, of the lengths of the points' and the normals' slices.
fn refusal_of_lengths(points: usize, normals: usize) -> Result<(), Refusal>
    ensures { result ≡ result_of (first_refusal (size_checks points normals)) }
{
    if points == 0 {
        return Err(plainly(answers::NO_POINTS));
    }
    if points % 3 != 0 || normals != points {
        return Err(plainly(answers::LENGTHS));
    }
    if 4096 < points / 3 {
        return Err(plainly(answers::TOO_MANY_POINTS));
    }
    Ok(())
}

// 1 to 4, of a cloud without normals.
pub fn refusal_of_points(points: &[f32]) -> Result<(), Refusal>
    ensures { result ≡ result_of (first_refusal (points_checks points.now)) }
{
    refusal_of_lengths(points.len(), points.len())?;
    if let Some(first) = ranges::first_outside(points, 10000.0) {
        return Err(Refusal {
            answer: answers::POINT,
            detail: first as u32,
        });
    }
    Ok(())
}

// 1 to 5, of a cloud with its normals and the settings.
pub fn refusal_of_input(
    points: &[f32],
    normals: &[f32],
    settings: BallPivotingConfig,
) -> Result<(), Refusal>
    ensures { result ≡ result_of (first_refusal (input_checks points.now normals.now settings)) }
{
    refusal_of_lengths(points.len(), normals.len())?;
    if let Some(first) = ranges::first_bad_point(points, normals) {
        return Err(Refusal {
            answer: answers::POINT,
            detail: first as u32,
        });
    }
    if let Some(setting) = settings::first_bad_setting(settings) {
        return Err(Refusal {
            answer: answers::SETTING,
            detail: setting,
        });
    }
    Ok(())
}

// 7, of work slices for n points.
pub fn refusal_of_work(n: usize, words: usize, floats: usize) -> Result<(), Refusal>
    requires { n ≤ 4096 }
    ensures { result ≡ result_of (first_refusal (work_checks n words floats)) }
{
    if words < 24 * n + 64 || floats < 4 * n + 64 {
        return Err(plainly(answers::WORK));
    }
    Ok(())
}

// What the estimate's checks answer, for work slices of the given lengths.
pub fn refusal_of_estimate(
    points: &[f32],
    percentile: f32,
    words: usize,
    floats: usize,
) -> Result<(), Refusal>
    ensures { result ≡ result_of (estimate_refusal points.now percentile words floats) }
{
    refusal_of_points(points)?;
    if !ranges::percentile_ok(percentile) {
        return Err(plainly(answers::PERCENTILE));
    }
    refusal_of_work(points.len() / 3, words, floats)
}

// What the reconstruction's checks up to 7 answer.
pub fn refusal_of_reconstruct(
    points: &[f32],
    normals: &[f32],
    settings: BallPivotingConfig,
    words: usize,
    floats: usize,
) -> Result<(), Refusal>
    ensures { result ≡ result_of (reconstruct_refusal points.now normals.now settings words floats) }
{
    refusal_of_input(points, normals, settings)?;
    refusal_of_work(points.len() / 3, words, floats)
}
