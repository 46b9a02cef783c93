// The ball radii, chosen from the cloud's density.
#![tactic(auto)]

mod choice;
mod nearest;
mod samples;

ghost use Rattle.std.specs.Prelude.{◌≡◌, take, drop};
ghost use Rattle.regions.specs.Inner.Regions.{neighbors_at, used_at};
ghost use Rattle.radii.specs.Radii.{adaptive_radii};
ghost use Rattle.radii.specs.Inner.Steps.{RadiiReady, RadiiListed};

use grid::SpatialGrid;
use settings::BallPivotingConfig;
use spatial_hash::Hash;

// The radii in rising order, in the first `count` slots; the others are 0.
#[derive(Clone, Copy)]
pub struct Radii {
    pub list: [f32; 17],
    pub count: u32,
}

// The radii for n points that have been indexed and hashed.
pub fn compute_adaptive_radii(
    points: &[f32],
    n: usize,
    config: BallPivotingConfig,
    grid: SpatialGrid,
    hash: Hash,
    w: &mut [u32],
    f: &mut [f32],
) -> Radii
    requires { RadiiReady config grid hash points.now n w.old f.old }
    ensures { RadiiListed (adaptive_radii config grid points.now n) result
        × (take (neighbors_at n) w.new ≡ take (neighbors_at n) w.old)
        × (drop (used_at n) w.new ≡ drop (used_at n) w.old) }
{
    if !config.adaptive_radius {
        return Radii {
            list: [0.0; 17],
            count: 0,
        };
    }
    let count = samples::measure(points, n, config, grid, hash, w, f);
    if count == 0 {
        return Radii {
            list: [0.0; 17],
            count: 0,
        };
    }
    choice::choose(config, n, count, f)
}
