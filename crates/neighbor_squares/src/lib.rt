// The least squared distances from a point to its neighbours. Of the points those near by are looked at, through the
// spatial hash.
// How near is a guess, which decides nothing: squares above the limit that is looked within go no further, and those
// that are left count only if they are ten.
#![tactic(auto)]

ghost use Rattle.std.specs.Prelude.{◌≡◌, true, false, not, ◌&&◌, ℕ, ◌*◌, ◌≤◌, ◌<◌, eqb, length, take, drop};
ghost use Rattle.lists.specs.Members.{Below};
ghost use Rattle.grid.specs.Inner.Index.{CellsIndexed};
ghost use Rattle.sorting.specs.Inner.Rising.{Rising};
ghost use Rattle.points.specs.Points.{point_at};
ghost use Rattle.vector.specs.Inner.Numbers.{Finite};
ghost use Rattle.regions.specs.Inner.Regions.{neighbors_at, used_at, least_at, radii_at};
ghost use Rattle.neighbor_squares.specs.Inner.Squares.{is_neighbor_cell, within_limit, tenth_of, with_square};
ghost use Rattle.neighbor_squares.specs.Inner.Squares.{least_squares};
ghost use Rattle.neighbor_squares.specs.Inner.Squares.{Decided};
ghost use Rattle.neighbor_squares.specs.Inner.Squares.{Prepared, LookedForTen, SquaresFound};

use grid::{Cell, SpatialGrid};
use spatial_hash::Hash;

// Which points are neighbours: all, or, if they are indexed, those whose cell lies within the range of a cell.
#[derive(Clone, Copy)]
pub struct Around {
    pub indexed: bool,
    pub range: u32,
    pub cell: Cell,
}

// Below so many points a look at each is quicker than one near by.
const FEW: usize = 200;

// So often a look goes near by, each time further.
const LOOKS: usize = 4;

// Guesses at how far from a sample its tenth neighbour is, and the last one.
#[derive(Clone, Copy)]
pub struct Guess {
    pub tenth: f32,
    pub last: f32,
}

// Whether point j is another neighbour of point i.
fn is_other(w: &[u32], n: usize, around: Around, i: usize, j: usize) -> bool
    requires { (j < n) × (n ≤ 4096) × (neighbors_at n ≤ length w.now) }
    ensures { result ≡ (not (eqb j i) && is_neighbor_cell around w.now n j) }
{
    j != i && grid::search::is_near(w, n, around.indexed, around.range, around.cell, j)
}

// Looks at point j for the least squared distances from point i that are not above the limit, of which `kept` are in
// the region of the least distances.
// Most points are too far, which the square tells soonest.
fn look_at(
    points: &[f32],
    n: usize,
    around: Around,
    i: usize,
    j: usize,
    limit: f32,
    w: &[u32],
    f: &mut [f32],
    kept: usize,
) -> usize
    requires { (i < n) × (j < n) × (n ≤ 4096) × (3 * n ≤ length points.now) × (neighbors_at n ≤ length w.now)
        × (radii_at n ≤ length f.old) × (kept ≤ 10)
        × Rising (take kept (drop (least_at n) f.old)) }
    ensures { (take result (drop (least_at n) f.new)
        ≡ with_square (within_limit limit (is_neighbor_cell around w.now n) points.now i)
        points.now i
        j (take kept (drop (least_at n) f.old)))
        × (result ≤ 10)
        × (take (least_at n) f.new ≡ take (least_at n) f.old) }
{
    let p = points::point_at(points, j);
    let q = points::point_at(points, i);
    let s = vector::distance_squared(p, q);
    if !(s <= limit) {
        return kept;
    }
    if is_other(w, n, around, i, j) {
        return sorting::insert_least_rising(f, n, kept, 10, s);
    }
    kept
}

// The least squared distances from point i to the others among the `found` points that are listed, of those that are
// not above the limit.
fn least_squares(
    points: &[f32],
    n: usize,
    around: Around,
    i: usize,
    limit: f32,
    w: &[u32],
    found: usize,
    f: &mut [f32],
) -> usize
    requires { (i < n) × (n ≤ 4096) × (found ≤ n) × (3 * n ≤ length points.now) × (used_at n ≤ length w.now)
        × (radii_at n ≤ length f.old) × Below n (take found (drop (neighbors_at n) w.now))
        × ((j : ℕ) → j < n → Finite (point_at points.now j)) }
    ensures { (take result (drop (least_at n) f.new)
        ≡ least_squares (within_limit limit (is_neighbor_cell around w.now n) points.now i)
        points.now
        i (take found (drop (neighbors_at n) w.now)))
        × (result ≤ 10)
        × (take (least_at n) f.new ≡ take (least_at n) f.old) }
{
    let mut kept: usize = 0;
    for k in 0..found {
        kept = look_at(
            points,
            n,
            around,
            i,
            w[regions::NEIGHBORS * n + k] as usize,
            limit,
            w,
            f,
            kept,
        );
    }
    kept
}

// The least squared distances from point i to its other neighbours, if ten are not above the limit.
fn look_within(
    points: &[f32],
    n: usize,
    hash: Hash,
    around: Around,
    i: usize,
    limit: f32,
    w: &mut [u32],
    f: &mut [f32],
) -> usize
    requires { Prepared hash points.now n i w.old f.old }
    ensures { LookedForTen around points.now n i w.old w.new f.old
        f.new result }
{
    let place = points::point_at(points, i);
    let reach = numbers::sqrt(limit) * 1.01;
    let found = spatial_hash::gather_within(points, w, n, hash, place, reach, limit);
    least_squares(points, n, around, i, limit, w, found, f)
}

// Where there are ten squares the tenth, beyond which none counts, and no limit else.
fn tenth(f: &[f32], n: usize, kept: usize) -> f32
    requires { (n ≤ 4096) × (radii_at n ≤ length f.now) }
    ensures { result ≡ tenth_of f.now n kept }
{
    if kept == 10 { f[n + 9] } else { 1.0 / 0.0 }
}

// The limit to try next, the wider the fewer were found.
fn wider(kept: usize, limit: f32) -> f32
    requires { kept ≤ 10 }
{
    limit * 16.0 / (kept + 1) as f32
}

// The least squared distances from point i to its other neighbours, of all points.
fn look_everywhere(
    points: &[f32],
    n: usize,
    around: Around,
    i: usize,
    w: &[u32],
    f: &mut [f32],
) -> usize
    requires { (i < n) × (n ≤ 4096) × (3 * n ≤ length points.now) × (neighbors_at n ≤ length w.now)
        × (radii_at n ≤ length f.old)
        × ((j : ℕ) → j < n → Finite (point_at points.now j)) }
    ensures { Decided around points.now n i w.now f.new result
        × (result ≤ 10)
        × (take (least_at n) f.new ≡ take (least_at n) f.old) }
{
    let mut kept: usize = 0;
    for j in 0..n {
        kept = look_at(points, n, around, i, j, tenth(f, n, kept), w, f, kept);
    }
    kept
}

// The least squared distances from point i to its other neighbours, of the points within bounds that hold their cells.
fn look_in_range(
    points: &[f32],
    n: usize,
    hash: Hash,
    grid: SpatialGrid,
    around: Around,
    i: usize,
    reach: f32,
    w: &mut [u32],
    f: &mut [f32],
) -> usize
    requires { Prepared hash points.now n i w.old f.old × CellsIndexed grid points.now n w.old
        × (around.indexed ≡ true) }
    ensures { SquaresFound around points.now n i w.old w.new f.old
        f.new result }
{
    let place = points::point_at(points, i);
    let cell = around.cell;
    let bounds = cell_bounds::bounds_of(grid, cell, around.range, place, reach);
    let limit = cell_bounds::limit_of(bounds, place);
    let found = spatial_hash::gather(points, w, n, hash, bounds);
    least_squares(points, n, around, i, limit, w, found, f)
}

// Whether a look at each point is as quick as one within the bounds of the neighbours' cells.
fn is_wide(n: usize, hash: Hash, around: Around, reach: f32) -> bool
    ensures { result ≡ false → around.indexed ≡ true }
{
    n < FEW || !around.indexed || hash.side <= cutting::cut(reach * hash.scale * 2.0) as usize
}

// The least squared distances from point i to its other neighbours, however many they are.
fn look_further(
    points: &[f32],
    n: usize,
    hash: Hash,
    grid: SpatialGrid,
    around: Around,
    i: usize,
    reach: f32,
    w: &mut [u32],
    f: &mut [f32],
) -> usize
    requires { Prepared hash points.now n i w.old f.old × CellsIndexed grid points.now n w.old }
    ensures { SquaresFound around points.now n i w.old w.new f.old
        f.new result }
{
    if is_wide(n, hash, around, reach) {
        return look_everywhere(points, n, around, i, w, f);
    }
    look_in_range(points, n, hash, grid, around, i, reach, w, f)
}

// Whether to look near by: not where there are so few points that a look at each is quicker, and not where it would go
// as far as the neighbours' cells.
fn is_near_by(n: usize, limit: f32, reach: f32) -> bool {
    n >= FEW && limit < reach * reach
}

// The least squared distances from point i to its other neighbours.
pub fn find_squares(
    points: &[f32],
    n: usize,
    hash: Hash,
    grid: SpatialGrid,
    around: Around,
    i: usize,
    guess: Guess,
    w: &mut [u32],
    f: &mut [f32],
) -> usize
    requires { Prepared hash points.now n i w.old f.old × CellsIndexed grid points.now n w.old }
    ensures { SquaresFound around points.now n i w.old w.new f.old
        f.new result }
{
    let reach = guess.last;
    let mut limit = guess.tenth * guess.tenth;
    for _look in 0..LOOKS {
        if !is_near_by(n, limit, reach) {
            break;
        }
        let kept = look_within(points, n, hash, around, i, limit, w, f);
        if kept == 10 {
            return kept;
        }
        limit = wider(kept, limit);
    }
    look_further(points, n, hash, grid, around, i, reach, w, f)
}
