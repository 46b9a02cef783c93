// Points no three of which make a seed, whichever of them comes first: each three are looked at once. What that may
// take comes from a work budget, to which each first point adds what a search in the definition's order takes there; so
// it never takes much more than that, whatever the cloud. A budget decides nothing but which of two searches with the
// same answer is made.
#![tactic(auto)]

ghost use Rattle.std.specs.Prelude.{◌≡◌, true, ◌*◌, ◌≤◌, ◌<◌, length, IfSome, IfOk};
ghost use Rattle.lists.specs.Lists.{unused};
ghost use Rattle.regions.specs.Inner.Regions.{words_length};
ghost use Rattle.points.specs.Points.{point_at};
ghost use Rattle.spatial_hash.specs.Inner.Near.{Hashed, NearPlace};
ghost use Rattle.filters.specs.Inner.Refused.{Limiting};
ghost use Rattle.nearby.specs.Inner.Ready.{SceneHeld, NeighborsListed, SceneKept, used_in_scene};
ghost use Rattle.three_points.specs.Inner.Judged.{LimitsAtRadius};
ghost use Rattle.seedless.specs.Inner.Seedless.{SeedlessFrom, SeedlessBetween, is_other, is_left};
ghost use Rattle.seedless.specs.Inner.Seedless.{PointsLeft, ListReordered, AllLeftSeedless, IfTold};

use decisions::Scene;
use filters::Limits;
use spatial_hash::Hash;

// Where seeds are looked for: the scene, the hash of its unused points, a radius, and the limits at that radius.
#[derive(Clone, Copy)]
pub struct Site {
    pub scene: Scene,
    pub hash: Hash,
    pub radius: f32,
    pub limits: Limits,
}

// How often a list is halved at most.
const HALVINGS: usize = 12;

// A first point with so many neighbours or more that the budget doesn't do for is checked at once, after some of its
// second points were searched.
const MANY: usize = 256;

// These are one in so many, and what they take may be used for the check.
const SHARE: usize = 128;

// Whether point k comes after point i or before point lo.
fn is_other(lo: usize, i: usize, k: usize) -> bool
    ensures { result ≡ is_other lo i k }
{
    i < k || k < lo
}

// Whether it is unused besides.
fn is_left(s: Scene, w: &[u32], lo: usize, i: usize, k: usize) -> bool
    requires { (s.n ≤ 4096) × (words_length s.n ≤ length w.now) × (k < s.n) }
    ensures { result ≡ is_left s lo i w.now k }
{
    is_other(lo, i, k) && nearby::is_unused(s, w, k)
}

// Leaves those of the listed points that are unused and come after point i or before point lo, in no order, and returns
// how many they are.
fn keep_left(s: Scene, w: &mut [u32], found: usize, lo: usize, i: usize) -> usize
    requires { (s.n ≤ 4096) × (words_length s.n ≤ length w.old) × NeighborsListed s w.old found }
    ensures { PointsLeft s lo i w.old w.new found result }
{
    let at = regions::NEIGHBORS * s.n;
    let mut kept: usize = 0;
    for m in 0..found {
        let k = w[at + m];
        if is_left(s, w, lo, i, k as usize) {
            w[at + kept] = k;
            kept += 1;
        }
    }
    kept
}

// How often a list of so many points is halved: a short one not at all.
fn halvings_of(count: usize) -> usize {
    if count <= seedless_pairs::SHORT {
        return 0;
    }
    HALVINGS
}

// Puts the listed points in an order in which those near each other stand near each other.
fn order_listed(s: Scene, points: &[f32], w: &mut [u32], count: usize)
    requires { SceneHeld s points.now w.old × NeighborsListed s w.old count }
    ensures { ListReordered s w.old w.new count }
{
    let at = regions::NEIGHBORS * s.n;
    listed_boxes::order(points, &mut w[at..at + count], halvings_of(count));
}

// Of the listed points, each taken with the one half the list on, how many are near each other.
fn count_near(s: Scene, points: &[f32], w: &[u32], count: usize, far: f32) -> usize
    requires { SceneHeld s points.now w.now × NeighborsListed s w.now count }
    ensures { result ≤ count }
{
    let half = count / 2;
    let mut near: usize = 0;
    for m in 0..half {
        let p = points::point_at(points, nearby::listed_point(s, w, count, m));
        let q = points::point_at(points, nearby::listed_point(s, w, count, half + m));
        if vector::distance_squared(p, q) <= far {
            near += 1;
        }
    }
    near
}

// What a budget holds once an amount is added, as far as that can be told.
fn added(budget: usize, amount: usize) -> usize {
    if budget > 0x1000_0000_0000 {
        return budget;
    }
    if amount > 0x1000_0000_0000 {
        return budget;
    }
    budget + amount
}

// What a search in the definition's order takes at a first point with so many neighbours, where so many of half as many
// pairs are near each other.
fn work_of(count: usize, near: usize) -> usize
    requires { (count ≤ 4096) × (near ≤ 4096) }
{
    count * (count + 16 * near)
}

// What a budget has to hold before a point with so many neighbours is looked at: more for the first, since each that
// follows costs less.
fn least_budget(count: usize, begun: bool) -> usize
    requires { count ≤ 4096 }
{
    if begun {
        return count * (6 * count);
    }
    count * (13 * count)
}

// Whether a budget will do for all of n points that are near each other, where so many have been searched: each of
// these has to be looked at once more, and each that follows adds more than it costs.
pub fn is_within_budget(n: usize, searched: usize, budget: usize) -> bool
    requires { (n ≤ 4096) × (searched ≤ 4096) }
{
    n * (n * (4 * searched + 9 + n / 64)) <= budget
}

// How many second points of a first one with so many neighbours are searched before it is checked at once, if it is.
fn seconds_before(count: usize) -> Option<usize> {
    if count < MANY {
        None
    } else {
        Some(count / SHARE)
    }
}

// What a check of a first point comes to: it makes no seed, or that is not told, each with what is left of the budget;
// or so many second points are to be searched before it is checked at once.
#[derive(Clone, Copy)]
pub enum Checked {
    Told(usize),
    Untold(usize),
    Later(usize),
}

// What is left of a budget once it is told that no two of the `found` points that are unused and come after point i or
// before point lo make a seed with it, if that was told.
fn search_found(
    p: Site,
    points: &[f32],
    w: &mut [u32],
    found: usize,
    lo: usize,
    i: usize,
    budget: usize,
) -> Option<usize>
    requires { SceneHeld p.scene points.now w.old × NeighborsListed p.scene w.old found
        × (i < p.scene.n)
        × LimitsAtRadius p.scene points.now p.radius p.limits }
    ensures { IfSome result (λ left. AllLeftSeedless p.scene points.now p.radius lo i w.old found)
        × SceneKept p.scene w.old w.new }
{
    let s = p.scene;
    let limits = p.limits;
    let count = keep_left(s, w, found, lo, i);
    order_listed(s, points, w, count);
    let all = seedless_pairs::range_of(s, points, w, 0, count);
    seedless_pairs::search_pairs(s, points, w, p.radius, limits, i, all, budget)
}

// How many points are listed, and what a search in the definition's order takes at a first point among them.
#[derive(Clone, Copy)]
struct Around {
    found: usize,
    work: usize,
}

// Lists the unused points that are near point i at a radius.
fn list_around(p: Site, points: &[f32], w: &mut [u32], i: usize, radius: f32, far: f32) -> Around
    requires { SceneHeld p.scene points.now w.old × Hashed p.hash points.now p.scene.n w.old
        × (i < p.scene.n) }
    ensures { NearPlace points.now p.scene.n (point_at points.now i) far w.old w.new result.found }
{
    let s = p.scene;
    let place = points::point_at(points, i);
    let found = spatial_hash::gather_within(points, w, s.n, p.hash, place, radius * 2.002, far);
    let near = count_near(s, points, w, found, far);
    let work = work_of(found, near);
    Around {
        found: found,
        work: work,
    }
}

// Whether no two unused points after point i or before point lo make a seed with it, if the budget does for it.
pub fn check_first(
    p: Site,
    points: &[f32],
    w: &mut [u32],
    lo: usize,
    i: usize,
    budget: usize,
) -> Checked
    requires { SceneHeld p.scene points.now w.old × Hashed p.hash points.now p.scene.n w.old
        × (i < p.scene.n) × Limiting p.scene p.radius p.limits }
    ensures { IfTold result
        (SeedlessFrom p.scene points.now p.radius (used_in_scene p.scene w.old) lo i)
        × SceneKept p.scene w.old w.new }
{
    let limits = p.limits;
    let around = list_around(p, points, w, i, p.radius, limits.far);
    if budget < least_budget(around.found, lo < i) {
        return match seconds_before(around.found) {
            Some(seconds) => Checked::Later(seconds),
            None => Checked::Untold(added(budget, around.work)),
        };
    }
    match search_found(p, points, w, around.found, lo, i, budget) {
        Some(rest) => Checked::Told(added(rest, around.work)),
        None => Checked::Untold(around.work),
    }
}

// What is left of the budget once it is told that no two unused points after point i or before point lo make a seed
// with it; else what the budget holds then. What its searched second points have taken may be used besides.
pub fn check_at_once(
    p: Site,
    points: &[f32],
    w: &mut [u32],
    lo: usize,
    i: usize,
    budget: usize,
) -> Result<usize, usize>
    requires { SceneHeld p.scene points.now w.old × Hashed p.hash points.now p.scene.n w.old
        × (i < p.scene.n) × Limiting p.scene p.radius p.limits }
    ensures { IfOk result
        (λ left. SeedlessFrom p.scene points.now p.radius (used_in_scene p.scene w.old) lo i)
        × SceneKept p.scene w.old w.new }
{
    let limits = p.limits;
    let around = list_around(p, points, w, i, p.radius, limits.far);
    let work = around.work;
    match search_found(
        p,
        points,
        w,
        around.found,
        lo,
        i,
        added(budget, work / SHARE),
    ) {
        Some(rest) => Ok(added(rest, work)),
        None => Err(added(budget, work)),
    }
}

// What is left of a budget once it is told that no two unused points after point i make a seed with it, if it is unused
// and that was told.
fn search_unused(p: Site, points: &[f32], w: &mut [u32], i: usize, budget: usize) -> Option<usize>
    requires { SceneHeld p.scene points.now w.old × Hashed p.hash points.now p.scene.n w.old
        × (i < p.scene.n) × Limiting p.scene p.radius p.limits }
    ensures { IfSome result (λ left. unused (used_in_scene p.scene w.old) i ≡ true
        → SeedlessFrom p.scene points.now p.radius (used_in_scene p.scene w.old) 0 i)
        × SceneKept p.scene w.old w.new }
{
    let s = p.scene;
    let limits = p.limits;
    if !nearby::is_unused(s, w, i) {
        return Some(budget);
    }
    let place = points::point_at(points, i);
    let found = spatial_hash::gather_within(
        points,
        w,
        s.n,
        p.hash,
        place,
        p.radius * 2.002,
        limits.far,
    );
    search_found(p, points, w, found, 0, i, budget)
}

// Whether what is left after a point will do for so many more, each of which costs less than the one before.
fn is_enough(before: usize, left: usize, more: usize) -> bool
    requires { more ≤ 4096 }
    ensures { result ≡ true → 0 < left }
{
    0 < left && (before <= left || before - left <= left / (more / 4 + 1))
}

// Where points begin that have not been searched yet, and the radius of that search, with its limit of squares.
#[derive(Clone, Copy)]
pub struct Search {
    pub from: usize,
    pub radius: f32,
    pub far: f32,
}

// What a budget holds after point i: what a search takes there is added, unless that was done or nothing is left.
fn raise_budget(
    p: Site,
    points: &[f32],
    w: &mut [u32],
    search: Search,
    i: usize,
    budget: usize,
) -> usize
    requires { SceneHeld p.scene points.now w.old × Hashed p.hash points.now p.scene.n w.old
        × (i < p.scene.n) }
    ensures { (0 < result → 0 < budget) × SceneKept p.scene w.old w.new }
{
    if i < search.from || budget == 0 {
        return budget;
    }
    let around = list_around(p, points, w, i, search.radius, search.far);
    added(budget, around.work)
}

// How many points are to be searched without adding to the budget, or up to the last.
fn points_left(from: usize, i: usize, n: usize) -> usize
    requires { (i < n) × (n ≤ 4096) }
    ensures { result ≤ 4096 }
{
    if i < from {
        if from < n {
            return from - i;
        }
    }
    n - i
}

// What is left of a budget once it is told that no two unused points after point i make a seed with it, if it is
// unused, that was told, and what is left will do for the points after it.
fn search_next(
    p: Site,
    points: &[f32],
    w: &mut [u32],
    search: Search,
    i: usize,
    budget: usize,
) -> Option<usize>
    requires { SceneHeld p.scene points.now w.old × Hashed p.hash points.now p.scene.n w.old
        × (i < p.scene.n) × Limiting p.scene p.radius p.limits }
    ensures { IfSome result (λ left. unused (used_in_scene p.scene w.old) i ≡ true
        → SeedlessFrom p.scene points.now p.radius (used_in_scene p.scene w.old) 0 i)
        × SceneKept p.scene w.old w.new }
{
    let remaining = search_unused(p, points, w, i, budget)?;
    let rest = raise_budget(p, points, w, search, i, remaining);
    if is_enough(budget, rest, points_left(search.from, i, p.scene.n)) {
        Some(rest)
    } else {
        None
    }
}

// Whether no three unused points make a seed at a radius, whichever of them comes first, if the budget does for it: the
// given one, and what a search at another radius takes.
pub fn is_exhausted(p: Site, points: &[f32], w: &mut [u32], search: Search, budget: usize) -> bool
    requires { SceneHeld p.scene points.now w.old × Hashed p.hash points.now p.scene.n w.old
        × Limiting p.scene p.radius p.limits }
    ensures { (result ≡ true → SeedlessBetween p.scene points.now p.radius
        (used_in_scene p.scene w.old) 0 p.scene.n)
        × SceneKept p.scene w.old w.new }
{
    let mut left = budget;
    for i in 0..p.scene.n {
        match search_next(p, points, w, search, i, left) {
            Some(rest) => left = rest,
            None => return false,
        }
    }
    true
}
