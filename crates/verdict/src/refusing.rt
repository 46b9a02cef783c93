// The checks: 1 to 5 of the main call, then whether the three numbers name points, and whether they differ.
ghost use Rattle.std.specs.Prelude.{◌≡◌};
ghost use Rattle.domain.specs.Refusals.{first_refusal};
ghost use Rattle.domain.specs.Inner.Outcome.{result_of};
ghost use Rattle.verdict.specs.Judged.{number_checks, judge_refusal};

use domain::Refusal;
use settings::BallPivotingConfig;

// 14 where one of the numbers is none of n points, 17 where two are equal.
fn refusal_of_numbers(n: usize, i: usize, j: usize, k: usize) -> Result<(), Refusal>
    ensures { result ≡ result_of (first_refusal (number_checks n i j k)) }
{
    if n <= i || n <= j || n <= k {
        return Err(Refusal {
            answer: answers::NO_SUCH_POINT,
            detail: 0,
        });
    }
    if i == j || j == k || k == i {
        return Err(Refusal {
            answer: answers::EQUAL_NUMBERS,
            detail: 0,
        });
    }
    Ok(())
}

pub fn refusal_of_judging(
    points: &[f32],
    normals: &[f32],
    settings: BallPivotingConfig,
    i: usize,
    j: usize,
    k: usize,
) -> Result<(), Refusal>
    ensures { result ≡ result_of (judge_refusal points.now normals.now settings i j k) }
{
    domain::refusal_of_input(points, normals, settings)?;
    refusal_of_numbers(points.len() / 3, i, j, k)
}
