// The main call with the record of where each face came from, and the patch turned to face one way where that is asked
// for.
#![tactic(auto)]

ghost use Rattle.std.specs.Prelude.{◌≡◌, [], ◌/◌, ◌≤◌, length};
ghost use Rattle.radii.specs.Inner.Steps.{RadiiListed};
ghost use Rattle.plain.specs.Reached.{plain_reached};
ghost use Rattle.ball_pivoting.specs.Reconstruct.{point_count, plainly, reason_by};
ghost use Rattle.ball_pivoting.specs.Inner.Parts.{WorkReady, Finds};
ghost use Rattle.origins_outcome.specs.Outcome.{ReconstructsWithOrigins};
ghost use Rattle.origins_outcome.specs.Inner.Parts.{FindsFor};

use ball_pivoting::{Finding, Patch};
use radii::Radii;
use settings::BallPivotingConfig;

// How many plain faces there are: the path runs over a slice without room, and none is written.
fn count_plain(
    points: &[f32],
    settings: BallPivotingConfig,
    radii: Radii,
    faces: &mut [u32],
    words: &mut [u32],
    floats: &mut [f32],
) -> Finding
    requires { (length points.now / 3 ≤ 4096) × (length points.now / 3 ≤ length words.old)
        × (length points.now / 3 ≤ length floats.old) × RadiiListed [] radii }
    ensures { Finds
        (reason_by (point_count points.now) (plain_reached points.now settings.radius))
        (plainly settings points.now) [] [] [] result []
        × (faces.new ≡ faces.old) }
{
    let none: usize = 0;
    reconstruction::paths::find_plain(points, settings, radii, &mut faces[..none], words, floats)
}

// What is found over the cloud; of plain faces that were to be turned only the number.
fn find(
    points: &[f32],
    settings: BallPivotingConfig,
    turned: bool,
    faces: &mut [u32],
    words: &mut [u32],
    floats: &mut [f32],
) -> Finding
    requires { WorkReady settings points.now words.old floats.old }
    ensures { FindsFor turned settings points.now faces.old result faces.new }
{
    let known = surveying::survey(points, settings, words, floats);
    let scene = known.scene;
    let hash = known.hash;
    let radii = known.radii;
    if radii.count != 0 {
        let rule = settings.frontier_rule;
        return reconstruction::paths::find_pivoting(scene, points, radii, faces, words, hash, rule);
    }
    if turned {
        return count_plain(points, settings, radii, faces, words, floats);
    }
    reconstruction::paths::find_plain(points, settings, radii, faces, words, floats)
}

// Lays a patch over a cloud, and says where each face came from.
pub fn reconstruct_with_origins(
    points: &[f32],
    normals: &[f32],
    settings: BallPivotingConfig,
    turned: bool,
    faces: &mut [u32],
    origins: &mut [u32],
    words: &mut [u32],
    floats: &mut [f32],
) -> Patch
    ensures { ReconstructsWithOrigins points.now normals.now settings turned
        faces.old origins.old words.old floats.old result faces.new
        origins.new words.new floats.new }
{
    let outcome = domain::refusal_of_reconstruct(
        points,
        normals,
        settings,
        words.len(),
        floats.len(),
    );
    if let Err(refusal) = outcome {
        return ball_pivoting::refuse(refusal.answer, refusal.detail);
    }
    let found = find(points, settings, turned, faces, words, floats);
    clearing::clear(words);
    clearing::clear(floats);
    let patch = origins_outcome::deliver(found, turned, points.len() / 3, faces, origins, words);
    clearing::clear(words);
    patch
}
