// Whether some triple of the search for a seed comes to the quality test at a radius, where no point is used: asked
// after a search that found nothing, without its order and its filters.
#![tactic(auto)]

ghost use Rattle.std.specs.Prelude.{◌≡◌, ◌<◌};
ghost use Rattle.lists.specs.Lists.{any};
ghost use Rattle.decisions.specs.Decisions.{floats_of};
ghost use Rattle.nearby.specs.Inner.Ready.{NeighborsListed, neighbors_listed, SceneKept};
ghost use Rattle.reaching.specs.Reaching.{reaches};
ghost use Rattle.judged.specs.Inner.Triples.{is_beside, is_beside_both, has_third, FilterAround, Fresh, TellsFirst};

use decisions::Scene;
use nearby::Filter;
use spatial_hash::Hash;

// How many points the search tries as the first of a triple.
const TRIED: usize = 1000;

// Whether point k is another point than i, one of its neighbours, and close to it.
fn is_beside(
    s: Scene,
    points: &[f32],
    w: &[u32],
    radius: f32,
    f: Filter,
    i: usize,
    k: usize,
) -> bool
    requires { FilterAround s points.now w.now radius f i × (k < s.n) }
    ensures { result ≡ is_beside s points.now radius i k }
{
    i != k
        && (grid::search::is_near(w, s.n, s.indexed, f.range, f.cell, k)
            && decisions::is_close(points, radius, i, k))
}

// Whether it is another one than j, and close to it, besides.
fn is_beside_both(
    s: Scene,
    points: &[f32],
    w: &[u32],
    radius: f32,
    f: Filter,
    i: usize,
    j: usize,
    k: usize,
) -> bool
    requires { FilterAround s points.now w.now radius f i × (j < s.n) × (k < s.n) }
    ensures { result ≡ is_beside_both s points.now radius i j k }
{
    j != k
        && (is_beside(s, points, w, radius, f, i, k) && decisions::is_close(points, radius, j, k))
}

// Whether one of the listed points is.
fn find_third(
    s: Scene,
    points: &[f32],
    w: &[u32],
    count: usize,
    radius: f32,
    f: Filter,
    i: usize,
    j: usize,
) -> bool
    requires { FilterAround s points.now w.now radius f i × NeighborsListed s w.now count × (j < s.n) }
    ensures { result ≡ any (is_beside_both s points.now radius i j)
        (neighbors_listed s w.now count) }
{
    for m in 0..count {
        let k = nearby::listed_point(s, w, count, m);
        if is_beside_both(s, points, w, radius, f, i, j, k) {
            return true;
        }
    }
    false
}

// Whether point j is beside i and has such a third point.
fn has_third(
    s: Scene,
    points: &[f32],
    w: &[u32],
    count: usize,
    radius: f32,
    f: Filter,
    i: usize,
    j: usize,
) -> bool
    requires { FilterAround s points.now w.now radius f i × NeighborsListed s w.now count × (j < s.n) }
    ensures { result ≡ has_third s points.now radius (neighbors_listed s w.now count) i j }
{
    is_beside(s, points, w, radius, f, i, j) && find_third(s, points, w, count, radius, f, i, j)
}

// Whether one of the listed points does.
fn find_second(
    s: Scene,
    points: &[f32],
    w: &[u32],
    count: usize,
    radius: f32,
    f: Filter,
    i: usize,
) -> bool
    requires { FilterAround s points.now w.now radius f i × NeighborsListed s w.now count }
    ensures { result ≡ any (has_third s points.now radius (neighbors_listed s w.now count) i)
        (neighbors_listed s w.now count) }
{
    for m in 0..count {
        let j = nearby::listed_point(s, w, count, m);
        if has_third(s, points, w, count, radius, f, i, j) {
            return true;
        }
    }
    false
}

// Whether a triple that point i comes first in is judged. Whoever is not gathered is too far away.
fn is_first(s: Scene, points: &[f32], w: &mut [u32], radius: f32, hash: Hash, i: usize) -> bool
    requires { Fresh s hash points.now w.old × (i < s.n) × (i < 1000) }
    ensures { TellsFirst s points.now radius i result × SceneKept s w.old w.new }
{
    let place = points::point_at(points, i);
    let f = nearby::filter_of(s, place, place, radius * 2.0);
    let count = nearby::gather_near(s, points, w, f, radius * 2.002, hash);
    find_second(s, points, w, count, radius, f, i)
}

// Whether any triple is judged at a radius.
pub fn is_any_judged(s: Scene, points: &[f32], w: &mut [u32], radius: f32, hash: Hash) -> bool
    requires { Fresh s hash points.now w.old }
    ensures { result ≡ reaches (floats_of s points.now) s.n radius }
{
    for i in 0..s.n.min(TRIED) {
        if is_first(s, points, w, radius, hash, i) {
            return true;
        }
    }
    false
}
