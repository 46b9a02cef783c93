// The main call: a cloud, its normals and the settings in; the patch's faces, counts and radii back.
#![tactic(auto)]

pub mod paths;

ghost use Rattle.ball_pivoting.specs.Outcome.{Reconstructs};

use ball_pivoting::Patch;
use settings::BallPivotingConfig;

// Lays a patch over a cloud.
pub fn reconstruct_with_normals(
    points: &[f32],
    normals: &[f32],
    settings: BallPivotingConfig,
    faces: &mut [u32],
    words: &mut [u32],
    floats: &mut [f32],
) -> Patch
    ensures { Reconstructs points.now normals.now settings faces.old
        words.old floats.old result faces.new words.new floats.new }
{
    let outcome = domain::refusal_of_reconstruct(
        points,
        normals,
        settings,
        words.len(),
        floats.len(),
    );
    if let Err(refusal) = outcome {
        return ball_pivoting::refuse(refusal.answer, refusal.detail);
    }
    let found = paths::find(points, settings, faces, words, floats);
    clearing::clear(words);
    clearing::clear(floats);
    ball_pivoting::deliver(found, faces)
}
