// The search for a pivot's point: the best of the candidates, which are looked at in any order.
ghost use Rattle.std.specs.Prelude.{◌≡◌, not, ◌&&◌, ◌||◌, ◌<◌, ◌≤◌, length};
ghost use Rattle.std.proofs.Math.Option.{none};
ghost use Rattle.std.specs.Float.Ieee.{lt};
ghost use Rattle.numbers.specs.Rounded.{f32};
ghost use Rattle.points.specs.Points.{point_at};
ghost use Rattle.grid.specs.Grid.{in_range};
ghost use Rattle.grid.specs.Inner.Index.{cell_in, Cells, CellsIndexed, earlier};
ghost use Rattle.spatial_hash.specs.Inner.Near.{Hashed};
ghost use Rattle.patch.specs.Lay.{edge};
ghost use Rattle.patch.specs.Search.{score_of, best_of};
ghost use Rattle.decisions.specs.Decisions.{floats_of};
ghost use Rattle.lists.specs.Inner.Found.{option_found, option_sought};
ghost use Rattle.decisions.specs.Found.{at_least};
ghost use Rattle.scores.specs.Inner.Over.{edge_side, Thinned};
ghost use Rattle.nearby.specs.Inner.Ready.{SceneHeld, NeighborsListed, SceneKept, used_in_scene, neighbors_listed};
ghost use Rattle.nearby.specs.Inner.Narrow.{cell_at};
ghost use Rattle.regions.specs.Inner.Regions.{neighbors_at};
ghost use Rattle.pivot.specs.Inner.Found.{MetPoint};
ghost use Rattle.pivot.specs.Inner.Best.{is_before_best, score_ahead, leader, score_in};

use decisions::Scene;
use nearby::Filter;
use scores::Side;
use spatial_hash::Hash;

// What points are held to over an edge a, b: the edge and its measures, the radius, and which are neighbours.
#[derive(Clone, Copy)]
pub struct Over {
    pub a: usize,
    pub b: usize,
    pub side: Side,
    pub radius: f32,
    pub filter: Filter,
}

// The score of point k over an edge, if it may be met and the score is not below `top`.
fn score_of(
    s: Scene,
    points: &[f32],
    w: &[u32],
    o: Over,
    k: usize,
    top: f32,
    thin: f32,
) -> Option<f32>
    requires { SceneHeld s points.now w.now × (k < s.n)
        × (o.side ≡ edge_side (point_at points.now o.a) (point_at points.now o.b)) × Thinned top thin }
    ensures { result
        ≡ option_found
        (at_least top (score_of (floats_of s points.now) o.radius (used_in_scene s w.now)
        (edge o.a o.b) k)) }
{
    if k == o.a {
        return None;
    }
    if k == o.b {
        return None;
    }
    if !nearby::is_unused(s, w, k) {
        return None;
    }
    let t = points::point_at(points, k);
    scores::score_over(s, o.radius, o.side, t, top, thin)
}

// Whether point k comes before the best one so far, if there is one.
fn is_before(s: Scene, w: &[u32], k: usize, best: Option<usize>) -> bool
    requires { MetPoint s best × (k < s.n) × (s.n ≤ 4096) × (neighbors_at s.n ≤ length w.now) }
    ensures { result ≡ is_before_best (earlier s.indexed (cell_in w.now s.n)) k (option_sought best) }
{
    match best {
        Some(j) => grid::order::comes_first(w, s.n, s.indexed, k, j),
        None => false,
    }
}

// Whether point k, a neighbour if its cell is near enough, becomes the best with a score that is not below `top`.
fn is_ahead(
    s: Scene,
    w: &[u32],
    f: Filter,
    k: usize,
    score: f32,
    top: f32,
    best: Option<usize>,
) -> bool
    requires { MetPoint s best × (k < s.n) × (s.n ≤ 4096) × (neighbors_at s.n ≤ length w.now) }
    ensures { result ≡ ((not s.indexed || in_range f.range f.cell (cell_in w.now s.n k))
        && (lt top score || is_before_best (earlier s.indexed (cell_in w.now s.n)) k (option_sought best))) }
{
    grid::search::is_near(w, s.n, s.indexed, f.range, f.cell, k)
        && (score > top || is_before(s, w, k, best))
}

// The score of point k if it becomes the best: if it is above `top`, or as high and k comes before the best so far.
fn score_ahead(
    s: Scene,
    points: &[f32],
    w: &[u32],
    o: Over,
    k: usize,
    top: f32,
    thin: f32,
    best: Option<usize>,
) -> Option<f32>
    requires { SceneHeld s points.now w.now × Cells s.grid points.now s.n w.now × (k < s.n)
        × (o.side ≡ edge_side (point_at points.now o.a) (point_at points.now o.b)) × Thinned top thin
        × MetPoint s best }
    ensures { result
        ≡ option_found (score_ahead (earlier s.indexed (cell_at s.grid points.now)) top (option_sought best) k
        (score_in s points.now o.radius (used_in_scene s w.now) o.filter (edge o.a o.b)
        k)) }
{
    let x = score_of(s, points, w, o, k, top, thin)?;
    if is_ahead(s, w, o.filter, k, x, top, best) {
        Some(x)
    } else {
        None
    }
}

// Of the listed points that are neighbours the one with the highest score above 0, the first in their order on
// equality.
fn best_of(
    s: Scene,
    points: &[f32],
    w: &[u32],
    count: usize,
    radius: f32,
    f: Filter,
    a: usize,
    b: usize,
) -> Option<usize>
    requires { SceneHeld s points.now w.now × Cells s.grid points.now s.n w.now
        × NeighborsListed s w.now count
        × (a < s.n) × (b < s.n) }
    ensures { result
        ≡ option_found (leader (earlier s.indexed (cell_at s.grid points.now))
        (score_in s points.now radius (used_in_scene s w.now) f (edge a b))
        (neighbors_listed s w.now count) (f32 0) none) }
{
    let p = points::point_at(points, a);
    let side = scores::side_of(p, points::point_at(points, b));
    let over = Over {
        a: a,
        b: b,
        side: side,
        radius: radius,
        filter: f,
    };
    let mut top = 0.0;
    let mut thin = scores::thin_at(0.0);
    let mut best = None;
    for m in 0..count {
        let k = nearby::listed_point(s, w, count, m);
        if let Some(x) = score_ahead(s, points, w, over, k, top, thin, best) {
            top = x;
            thin = scores::thin_at(x);
            best = Some(k);
        }
    }
    best
}

// The best point over the edge a, b.
pub fn find_best(
    s: Scene,
    points: &[f32],
    w: &mut [u32],
    radius: f32,
    a: usize,
    b: usize,
    hash: Hash,
) -> Option<usize>
    requires { SceneHeld s points.now w.old × CellsIndexed s.grid points.now s.n w.old
        × Hashed hash points.now s.n w.old × (a < s.n) × (b < s.n) }
    ensures { (result
        ≡ option_found (best_of (floats_of s points.now) radius (used_in_scene s w.old) (edge a b)
        ((floats_of s points.now).around radius (edge a b)) (f32 0) none))
        × SceneKept s w.old w.new }
{
    let p = points::point_at(points, a);
    let q = points::point_at(points, b);
    let place = decisions::middle_of(p, q);
    let f = nearby::filter_of(s, p, place, radius);
    let found = nearby::gather_both(s, points, w, f, q, radius * 1.001, hash);
    best_of(s, points, w, found, radius, f, a, b)
}
