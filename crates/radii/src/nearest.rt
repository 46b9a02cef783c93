// The least distances of a sample: the roots of its neighbours' least squares.
ghost use Rattle.std.specs.Prelude.{◌≡◌, map, ◌+◌, ◌≤◌, ◌<◌, length, take, drop};
ghost use Rattle.numbers.specs.Root.{root};
ghost use Rattle.grid.specs.Inner.Index.{CellsIndexed};
ghost use Rattle.spatial_hash.specs.Inner.Near.{HashedAll};
ghost use Rattle.regions.specs.Inner.Regions.{neighbors_at, used_at, least_at, radii_at};
ghost use Rattle.radii.specs.Radii.{nearest_distances};
ghost use Rattle.radii.specs.Inner.Steps.{around_of};

use grid::SpatialGrid;
use neighbor_squares::{Around, Guess};
use settings::BallPivotingConfig;
use spatial_hash::Hash;
use vector::Point3f;

// The neighbours of a place at 3 × radius.
fn around_of(config: BallPivotingConfig, grid: SpatialGrid, place: Point3f) -> Around
    ensures { result ≡ around_of config grid place }
{
    let cell = grid::cell_of(grid, place);
    Around {
        indexed: config.use_spatial_index,
        range: cutting::ceil_cut(config.radius * 3.0 / grid.cell_size),
        cell,
    }
}

// Takes the root of each of the count numbers that start at `at`.
fn take_roots(f: &mut [f32], at: usize, count: usize)
    requires { at + count ≤ length f.old }
    ensures { (take count (drop at f.new) ≡ map root (take count (drop at f.old)))
        × (take at f.new ≡ take at f.old) }
{
    for x in f[at..at + count].iter_mut() {
        *x = numbers::sqrt(*x);
    }
}

// Until a sample has ten distances its tenth is none, so that the next one looks further.
fn clear_tenth(f: &mut [f32], n: usize)
    requires { (n ≤ 4096) × (radii_at n ≤ length f.old) }
    ensures { take (least_at n) f.new ≡ take (least_at n) f.old }
{
    f[n + 9] = 1.0 / 0.0;
}

// A guess at how far the cells of a place's neighbours reach.
fn reach_of(grid: SpatialGrid, around: Around) -> f32 {
    if around.indexed {
        let range = around.range;
        if range < 4096 {
            return (range as f32 + 1.0) * grid.cell_size * 1.001;
        }
    }
    1.0 / 0.0
}

// The least distances from point i to its other neighbours.
pub fn find_nearest(
    points: &[f32],
    n: usize,
    config: BallPivotingConfig,
    grid: SpatialGrid,
    hash: Hash,
    i: usize,
    guess: f32,
    w: &mut [u32],
    f: &mut [f32],
) -> usize
    requires { (i < n) × (radii_at n ≤ length f.old) × HashedAll hash points.now n w.old
        × CellsIndexed grid points.now n w.old }
    ensures { (take result (drop (least_at n) f.new)
        ≡ nearest_distances config grid points.now n i)
        × (result ≤ 10)
        × (take (least_at n) f.new ≡ take (least_at n) f.old)
        × (take (neighbors_at n) w.new ≡ take (neighbors_at n) w.old)
        × (drop (used_at n) w.new ≡ drop (used_at n) w.old) }
{
    let around = around_of(config, grid, points::point_at(points, i));
    let far = Guess {
        tenth: guess,
        last: reach_of(grid, around),
    };
    clear_tenth(f, n);
    let kept = neighbor_squares::find_squares(points, n, hash, grid, around, i, far, w, f);
    take_roots(f, n, kept);
    kept
}

// A guess for the next sample: a little more than the tenth distance of the last one, or than its guess if it had fewer
// than ten. It grows slowly, since a look too wide costs more than one too narrow.
pub fn guess_after(f: &[f32], n: usize, guess: f32) -> f32
    requires { (n ≤ 4096) × (radii_at n ≤ length f.now) }
{
    let next = f[n + 9] * 1.15;
    let most = guess * 1.2;
    if next > most {
        return most;
    }
    if next > 0.0 { next } else { guess }
}
