// How wide the hash's cells are where points lie far apart: guesses, which decide nothing, and the hash built anew.
// With cells as wide as the radius a look farther than that goes through hundreds of rows there, and the remainders
// bring along points that are far away.
#![tactic(auto)]

ghost use Rattle.std.specs.Prelude.{◌<◌};
ghost use Rattle.laying.specs.Inner.Laying.{AllSearchable};

use decisions::Scene;
use radii::Radii;
use settings::BallPivotingConfig;
use spatial_hash::Hash;

// Below so many points each sample looks at all of them.
const FEW: usize = 200;

// So many points tell whether a cloud is sparse.
const ASKED: usize = 4;

// Whether few points lie within twice the radius of point i.
fn is_lonely(
    scene: Scene,
    points: &[f32],
    radius: f32,
    hash: Hash,
    words: &mut [u32],
    i: usize,
) -> bool
    requires { AllSearchable scene hash points.now words.old × (i < scene.n) }
    ensures { AllSearchable scene hash points.now words.new }
{
    let place = points::point_at(points, i);
    let reach = radius * 2.0;
    let found = spatial_hash::gather_within(
        points,
        words,
        scene.n,
        hash,
        place,
        reach * 1.01,
        reach * reach,
    );
    found <= 10
}

// Whether points are lonely wherever some are asked.
pub fn is_sparse(
    scene: Scene,
    points: &[f32],
    settings: BallPivotingConfig,
    hash: Hash,
    words: &mut [u32],
) -> bool
    requires { AllSearchable scene hash points.now words.old }
    ensures { AllSearchable scene hash points.now words.new }
{
    let n = scene.n;
    if n < FEW || !settings.adaptive_radius {
        return false;
    }
    let step = n / ASKED;
    for i in (step / 2..n).step_by(step) {
        if !is_lonely(scene, points, settings.radius, hash, words, i) {
            return false;
        }
    }
    true
}

// The size for the samples of a sparse cloud: twice as far as the cells of a sample's neighbours reach.
pub fn size_for_samples(settings: BallPivotingConfig) -> f32 {
    settings.radius * 6.0 + settings.radius * settings.spatial_cell_factor * 4.0
}

// The size for laying over a sparse cloud: by the middle one of the radii, if it is much larger than the settings'.
pub fn size_for_laying(radii: Radii, radius: f32) -> f32 {
    let middle = (radii.count / 2) as usize;
    if middle < 17 && radii.list[middle] > radius * 4.0 {
        return radii.list[middle] * 1.2;
    }
    radius * 4.8
}

// The hash, built anew if there is a size for its cells.
pub fn rehash(
    scene: Scene,
    points: &[f32],
    hash: Hash,
    words: &mut [u32],
    size: Option<f32>,
) -> Hash
    requires { AllSearchable scene hash points.now words.old }
    ensures { AllSearchable scene result points.now words.new }
{
    match size {
        Some(size) => spatial_hash::build(points, scene.n, size, words),
        None => hash,
    }
}
