// The points that a search has to look at: of the neighbours of a place those that are unused and near a point, or near
// two.
#![tactic(auto)]

ghost use Rattle.std.specs.Prelude.{◌≡◌, ◌<◌, ◌≤◌, length};
ghost use Rattle.grid.specs.Inner.Index.{Cells};
ghost use Rattle.vector.specs.Inner.Numbers.{Finite};
ghost use Rattle.spatial_hash.specs.Inner.Near.{Hashed};
ghost use Rattle.lists.specs.Lists.{unused};
ghost use Rattle.regions.specs.Inner.Regions.{words_length};
ghost use Rattle.nearby.specs.Inner.Ready.{SceneHeld, NeighborsListed, used_in_scene, nth};
ghost use Rattle.nearby.specs.Inner.Narrow.{passes_filter, Filters, Collected, Narrowed};

use decisions::Scene;
use grid::Cell;
use spatial_hash::Hash;
use vector::Point3f;

// What is looked for: at most a squared distance from a center, in the cells within a range of a cell.
#[derive(Clone, Copy)]
pub struct Filter {
    pub center: Point3f,
    pub limit: f32,
    pub cell: Cell,
    pub range: u32,
}

// Whether no face has point k yet.
pub fn is_unused(s: Scene, w: &[u32], k: usize) -> bool
    requires { (words_length s.n ≤ length w.now) × (s.n ≤ 4096) × (k < s.n) }
    ensures { result ≡ unused (used_in_scene s w.now) k }
{
    w[regions::USED * s.n + k] == 0
}

// The m-th of the `count` points that are listed.
pub fn listed_point(s: Scene, w: &[u32], count: usize, m: usize) -> usize
    requires { (s.n ≤ 4096) × (words_length s.n ≤ length w.now) × NeighborsListed s w.now count
        × (m < count) }
    ensures { (result ≡ nth s w.now m) × (result < s.n) }
{
    w[regions::NEIGHBORS * s.n + m] as usize
}

// Whether point k is as the filter asks.
fn passes(s: Scene, points: &[f32], w: &[u32], f: Filter, k: usize) -> bool
    requires { SceneHeld s points.now w.now × Cells s.grid points.now s.n w.now × (k < s.n) }
    ensures { result ≡ passes_filter s points.now (used_in_scene s w.now) f k }
{
    if !is_unused(s, w, k) {
        return false;
    }
    if vector::distance_squared(points::point_at(points, k), f.center) > f.limit {
        return false;
    }
    grid::search::is_near(w, s.n, s.indexed, f.range, f.cell, k)
}

// Leaves those of the listed points that pass, in the order of the neighbours, and returns how many they are.
pub fn narrow(s: Scene, points: &[f32], w: &mut [u32], f: Filter, found: usize) -> usize
    requires { SceneHeld s points.now w.old × Cells s.grid points.now s.n w.old
        × NeighborsListed s w.old found }
    ensures { Narrowed s points.now f w.old w.new found result }
{
    let at = regions::NEIGHBORS * s.n;
    let mut kept: usize = 0;
    for m in 0..found {
        let k = w[at + m] as usize;
        if passes(s, points, w, f, k) {
            grid::order::insert_point(w, s.n, s.indexed, at, kept, k);
            kept += 1;
        }
    }
    kept
}

// The filter for the neighbours of a place at a radius that are within the radius of a center.
pub fn filter_of(s: Scene, center: Point3f, place: Point3f, radius: f32) -> Filter
    ensures { Filters s center place radius result }
{
    let limit = bounds::square_limit(radius);
    let cell = grid::cell_of(s.grid, place);
    let range = cutting::ceil_cut(radius / s.grid.cell_size);
    Filter {
        center: center,
        limit: limit,
        cell: cell,
        range: range,
    }
}

// Lists points, all unused ones within the filter's limit among them, and returns how many they are. The reach is a
// guess at how far they are.
pub fn gather_near(
    s: Scene,
    points: &[f32],
    w: &mut [u32],
    f: Filter,
    reach: f32,
    hash: Hash,
) -> usize
    requires { Hashed hash points.now s.n w.old × Finite f.center }
    ensures { Collected s points.now f f.center w.old w.new result }
{
    spatial_hash::gather_within(points, w, s.n, hash, f.center, reach, f.limit)
}

// Lists points, all unused ones within the filter's limit of its center and of q among them, and returns how many they
// are.
pub fn gather_both(
    s: Scene,
    points: &[f32],
    w: &mut [u32],
    f: Filter,
    q: Point3f,
    reach: f32,
    hash: Hash,
) -> usize
    requires { Hashed hash points.now s.n w.old × Finite f.center }
    ensures { Collected s points.now f q w.old w.new result }
{
    let found = gather_near(s, points, w, f, reach, hash);
    sifting::keep_within(points, w, s.n, found, q, f.limit)
}
