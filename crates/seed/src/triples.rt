// The search for a seed: three loops, over i, j and k.
ghost use Rattle.std.specs.Prelude.{◌≡◌, true, drop, ◌*◌, ◌≤◌, ◌<◌, ◌+◌, None, length};
ghost use Rattle.std.proofs.Math.Option.{none};
ghost use Rattle.grid.specs.Inner.Index.{CellsIndexed};
ghost use Rattle.spatial_hash.specs.Inner.Near.{Hashed};
ghost use Rattle.patch.specs.Search.{is_second, is_third, third_of, second_of, first_of};
ghost use Rattle.lists.specs.Lists.{up_from};
ghost use Rattle.points.specs.Points.{point_at};
ghost use Rattle.decisions.specs.Decisions.{is_close, reach, floats_of};
ghost use Rattle.filters.specs.Inner.Refused.{Limiting};
ghost use Rattle.nearby.specs.Inner.Ready.{SceneHeld, NeighborsListed, used_in_scene, neighbors_listed, SceneKept};
ghost use Rattle.nearby.specs.Inner.Narrow.{Filters};
ghost use Rattle.known_radii.specs.declared.Upto.TheVariants.{Radius};
ghost use Rattle.known_radii.specs.Inner.Known.{NothingTo};
ghost use Rattle.seedless.specs.Inner.Parts.{with_second};
ghost use Rattle.lists.specs.Inner.Found.{option_found};
ghost use Rattle.seed.specs.Inner.Found.{KnownFrom};
ghost use Rattle.seed.specs.Inner.Seconds.{with_seconds, SecondsTried, SiteSearchable, SeedlessBefore, FirstTried};
ghost use Rattle.three_points.specs.Inner.Judged.{LimitsAtRadius};

use decisions::Scene;
use filters::Limits;
use nearby::Filter;
use seedless::{Checked, Site};

// Whether j may be the second point after i.
fn is_second(s: Scene, points: &[f32], w: &[u32], radius: f32, i: usize, j: usize) -> bool
    requires { SceneHeld s points.now w.now × (i < s.n) × (j < s.n) }
    ensures { result ≡ is_second (floats_of s points.now) radius (used_in_scene s w.now) i j }
{
    if i == j {
        return false;
    }
    if !nearby::is_unused(s, w, j) {
        return false;
    }
    decisions::is_close(points, radius, i, j)
}

// Whether k may be the third point after i and j.
fn is_third(
    s: Scene,
    points: &[f32],
    w: &[u32],
    radius: f32,
    limits: Limits,
    i: usize,
    j: usize,
    k: usize,
) -> bool
    requires { SceneHeld s points.now w.now × (i < s.n) × (j < s.n) × (k < s.n)
        × LimitsAtRadius s points.now radius limits × (is_close points.now radius i j ≡ true) }
    ensures { result ≡ is_third (floats_of s points.now) radius (used_in_scene s w.now) i j k }
{
    if i == k {
        return false;
    }
    if j == k {
        return false;
    }
    if !nearby::is_unused(s, w, k) {
        return false;
    }
    let third = points::point_at(points, k);
    let first = points::point_at(points, i);
    let second = points::point_at(points, j);
    if filters::is_refused(limits, first, second, third) {
        return false;
    }
    if filters::is_rare_sliver(limits, first, second, third) {
        return false;
    }
    decisions::is_completed(s, points, radius, i, j, k)
}

// The seed of i, j and the first third point among the listed neighbours.
fn find_third(
    p: Site,
    points: &[f32],
    w: &[u32],
    count: usize,
    i: usize,
    j: usize,
) -> Option<(usize, usize, usize)>
    requires { SceneHeld p.scene points.now w.now × NeighborsListed p.scene w.now count
        × (i < p.scene.n)
        × (j < p.scene.n) × LimitsAtRadius p.scene points.now p.radius p.limits
        × (is_close points.now p.radius i j ≡ true) }
    ensures { result
        ≡ option_found (third_of (floats_of p.scene points.now) p.radius
        (used_in_scene p.scene w.now) i j (neighbors_listed p.scene w.now count)) }
{
    let s = p.scene;
    let limits = p.limits;
    for m in 0..count {
        let k = nearby::listed_point(s, w, count, m);
        if is_third(s, points, w, p.radius, limits, i, j, k) {
            return Some((i, j, k));
        }
    }
    None
}

// What the point j gives as the second one: the seed with the first third point, or nothing.
fn try_second(
    p: Site,
    points: &[f32],
    w: &[u32],
    count: usize,
    i: usize,
    j: usize,
) -> Option<(usize, usize, usize)>
    requires { SceneHeld p.scene points.now w.now × NeighborsListed p.scene w.now count
        × (i < p.scene.n)
        × (j < p.scene.n) × LimitsAtRadius p.scene points.now p.radius p.limits }
    ensures { result
        ≡ option_found (with_second (floats_of p.scene points.now) p.radius
        (used_in_scene p.scene w.now) i (neighbors_listed p.scene w.now count) j) }
{
    if !is_second(p.scene, points, w, p.radius, i, j) {
        return None;
    }
    find_third(p, points, w, count, i, j)
}

// The seed of i and the first second point that has a third one, both among the listed neighbours; the second one from
// one place of the list on and before another.
fn find_second(
    p: Site,
    points: &[f32],
    w: &[u32],
    count: usize,
    i: usize,
    from: usize,
    to: usize,
) -> Option<(usize, usize, usize)>
    requires { SceneHeld p.scene points.now w.now × NeighborsListed p.scene w.now count
        × (i < p.scene.n)
        × LimitsAtRadius p.scene points.now p.radius p.limits × (to ≤ count) }
    ensures { result
        ≡ option_found (second_of (floats_of p.scene points.now) p.radius
        (used_in_scene p.scene w.now) i (neighbors_listed p.scene w.now count)
        (drop from (neighbors_listed p.scene w.now to))) }
{
    for m in from..to {
        let j = nearby::listed_point(p.scene, w, count, m);
        let found = try_second(p, points, w, count, i, j);
        if let Some(t) = found {
            return Some(t);
        }
    }
    None
}

// What the unused point i gives as the first one with the second points from one place on and before another.
fn try_seconds(
    p: Site,
    points: &[f32],
    w: &mut [u32],
    f: Filter,
    i: usize,
    from: usize,
    to: usize,
) -> Option<(usize, usize, usize)>
    requires { SiteSearchable p points.now w.old i
        × Filters p.scene (point_at points.now i) (point_at points.now i) (reach p.radius) f }
    ensures { SecondsTried p.scene points.now p.radius
        (used_in_scene p.scene w.old) f i
        from to result
        × SceneKept p.scene w.old w.new }
{
    let s = p.scene;
    let found = nearby::gather_near(s, points, w, f, p.radius * 2.002, p.hash);
    let count = nearby::narrow(s, points, w, f, found);
    find_second(p, points, w, count, i, from, to.min(count))
}

// What a first point gives, whether it is told that no two unused points after it or before point lo make a seed with
// it, and what is left of the budget.
#[derive(Clone, Copy)]
pub struct First {
    pub seed: Option<(usize, usize, usize)>,
    pub seedless: bool,
    pub budget: usize,
}

// What the unused point i gives as the first one, where the second points before a place give nothing: it is checked at
// once, and the others are searched if that doesn't tell.
fn try_rest(
    p: Site,
    points: &[f32],
    w: &mut [u32],
    f: Filter,
    lo: usize,
    i: usize,
    from: usize,
    budget: usize,
) -> First
    requires { SiteSearchable p points.now w.old i
        × Filters p.scene (point_at points.now i) (point_at points.now i) (reach p.radius) f
        × SeedlessBefore p points.now (used_in_scene p.scene w.old) lo i
        × (with_seconds p.scene points.now p.radius (used_in_scene p.scene w.old) f i 0 from ≡ none) }
    ensures { FirstTried p.scene points.now p.radius
        (used_in_scene p.scene w.old) lo i
        result.seed result.seedless
        × SceneKept p.scene w.old w.new }
{
    match seedless::check_at_once(p, points, w, lo, i, budget) {
        Ok(left) => First {
            seed: None,
            seedless: true,
            budget: left,
        },
        Err(left) => {
            let found = try_seconds(p, points, w, f, i, from, p.scene.n);
            First {
                seed: found,
                seedless: false,
                budget: left,
            }
        }
    }
}

// The filter for the points that may be a second one after point i.
fn filter_around(p: Site, points: &[f32], i: usize) -> Filter
    requires { (length points.now ≡ 3 * p.scene.n) × (i < p.scene.n) }
    ensures { Filters p.scene (point_at points.now i) (point_at points.now i) (reach p.radius) result }
{
    let place = points::point_at(points, i);
    nearby::filter_of(p.scene, place, place, p.radius * 2.0)
}

// What the unused point i gives as the first one. Where it has many neighbours, some of the second points are searched
// before it is checked at once.
fn try_first(p: Site, points: &[f32], w: &mut [u32], lo: usize, i: usize, budget: usize) -> First
    requires { SiteSearchable p points.now w.old i
        × SeedlessBefore p points.now (used_in_scene p.scene w.old) lo i }
    ensures { FirstTried p.scene points.now p.radius
        (used_in_scene p.scene w.old) lo i
        result.seed result.seedless
        × SceneKept p.scene w.old w.new }
{
    match seedless::check_first(p, points, w, lo, i, budget) {
        Checked::Told(left) => First {
            seed: None,
            seedless: true,
            budget: left,
        },
        Checked::Untold(left) => {
            let f = filter_around(p, points, i);
            let all = try_seconds(p, points, w, f, i, 0, p.scene.n);
            First {
                seed: all,
                seedless: false,
                budget: left,
            }
        }
        Checked::Later(seconds) => {
            let f = filter_around(p, points, i);
            let found = try_seconds(p, points, w, f, i, 0, seconds);
            if let Some(t) = found {
                return First {
                    seed: Some(t),
                    seedless: false,
                    budget: 0,
                };
            }
            try_rest(p, points, w, f, lo, i, seconds, budget)
        }
    }
}

// Where the points begin that are known with point i, which is the last of them if it is known.
fn known_from(lo: usize, i: usize, seedless: bool) -> usize
    requires { (lo ≤ i) × (i < 4096) }
    ensures { KnownFrom lo i seedless result }
{
    if seedless {
        return lo;
    }
    i + 1
}

// What is found, what is left of the budget, and whether it is known that no radius up to the largest has a seed.
#[derive(Clone, Copy)]
pub struct Tried {
    pub seed: Option<(usize, usize, usize)>,
    pub budget: usize,
    pub told: bool,
}

// Nothing is found.
fn nothing_more(budget: usize, told: bool) -> Tried
    ensures { (result.seed ≡ None) × (result.told ≡ told) }
{
    Tried {
        seed: None,
        budget: budget,
        told: told,
    }
}

// The first seed; only the first 1,000 unused points are tried as i. No three points make a seed of which one is from
// lo to i, whichever comes first. The largest radius may be asked on the way.
pub fn find_from(p: Site, points: &[f32], w: &mut [u32], largest: f32, asks: bool) -> Tried
    requires { SceneHeld p.scene points.now w.old
        × CellsIndexed p.scene.grid points.now p.scene.n w.old
        × Hashed p.hash points.now p.scene.n w.old × Limiting p.scene p.radius p.limits }
    ensures { (result.seed
        ≡ option_found (first_of (floats_of p.scene points.now) p.radius
        (used_in_scene p.scene w.old) (up_from 0 p.scene.n) 1000))
        × (result.told ≡ true
        → NothingTo p.scene points.now (used_in_scene p.scene w.old) (Radius largest))
        × SceneKept p.scene w.old w.new }
{
    let s = p.scene;
    let n = s.n;
    let mut left: usize = 1000;
    let mut asking = asks;
    let mut budget: usize = 0;
    let mut lo: usize = 0;
    for i in 0..n {
        if left == 0 {
            return nothing_more(budget, false);
        }
        if !nearby::is_unused(s, w, i) {
            continue;
        }
        let asked = known_radii::ask_early(p, points, w, largest, asking, i, budget);
        if known_radii::is_known_by(s, p.radius, largest, asked.told) {
            return nothing_more(0, true);
        }
        asking = asked.asks;
        let first = try_first(p, points, w, lo, i, budget);
        let found = first.seed;
        if let Some(t) = found {
            return Tried {
                seed: Some(t),
                budget: 0,
                told: false,
            };
        }
        budget = first.budget;
        lo = known_from(lo, i, first.seedless);
        left -= 1;
    }
    nothing_more(budget, false)
}
