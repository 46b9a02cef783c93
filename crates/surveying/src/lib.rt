// What is known of a cloud before a face is laid: its points indexed and hashed, and the radii.
#![tactic(auto)]

ghost use Rattle.std.specs.Prelude.{◌≡◌};
ghost use Rattle.laying.specs.Inner.Laying.{AllSearchable};
ghost use Rattle.radii.specs.Inner.Steps.{RadiiListed};
ghost use Rattle.ball_pivoting.specs.Reconstruct.{scene_of, radii_of};
ghost use Rattle.ball_pivoting.specs.Inner.Parts.{CloudSized, WorkReady};

use decisions::Scene;
use radii::Radii;
use settings::BallPivotingConfig;
use spatial_hash::Hash;

// The cloud's points, indexed and hashed.
#[derive(Clone, Copy)]
pub struct HashedCloud {
    pub scene: Scene,
    pub hash: Hash,
}

// The cloud's points, indexed and hashed, and the radii.
#[derive(Clone, Copy)]
pub struct Surveyed {
    pub scene: Scene,
    pub hash: Hash,
    pub radii: Radii,
}

// Indexes and hashes the cloud's points.
fn index_points(points: &[f32], settings: BallPivotingConfig, words: &mut [u32]) -> HashedCloud
    requires { CloudSized points.now words.old }
    ensures { (result.scene ≡ scene_of settings points.now)
        × AllSearchable result.scene result.hash points.now words.new }
{
    let n = points.len() / 3;
    let indexed = settings.use_spatial_index;
    let size = settings.radius * settings.spatial_cell_factor;
    let grid = grid::build_spatial_grid(points, n, size, words);
    let hash = spatial_hash::build(points, n, settings.radius * 1.2, words);
    let scene = Scene {
        n,
        indexed,
        grid,
        min_triangle_area: settings.min_triangle_area,
        quality_threshold: settings.quality_threshold,
        max_edge_factor: settings.max_edge_factor,
    };
    HashedCloud { scene, hash }
}

// What is known of the cloud before a face is laid. A sparse cloud is hashed again for the samples, and once more for
// the laying.
pub fn survey(
    points: &[f32],
    settings: BallPivotingConfig,
    words: &mut [u32],
    floats: &mut [f32],
) -> Surveyed
    requires { WorkReady settings points.now words.old floats.old }
    ensures { (result.scene ≡ scene_of settings points.now)
        × AllSearchable result.scene result.hash points.now words.new
        × RadiiListed (radii_of settings points.now) result.radii }
{
    let site = index_points(points, settings, words);
    let scene = site.scene;
    let narrow = site.hash;
    let sparse = cell_sizes::is_sparse(scene, points, settings, narrow, words);
    let wide_size = cell_sizes::size_for_samples(settings);
    let wide = cell_sizes::rehash(scene, points, narrow, words, sparse.then_some(wide_size));
    let radii = radii::compute_adaptive_radii(
        points, scene.n, settings, scene.grid, wide, words, floats,
    );
    let size = cell_sizes::size_for_laying(radii, settings.radius);
    let hash = cell_sizes::rehash(scene, points, wide, words, sparse.then_some(size));
    Surveyed { scene, hash, radii }
}
