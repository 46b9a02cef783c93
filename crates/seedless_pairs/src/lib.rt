// Pairs of listed points that make no seed with a point, whichever of the three comes first. Where the boxes of two
// ranges of the list are refused with the point, all pairs of their points are; else both are halved, and short
// ones are gone through point by point. What that may take comes from a work budget.
#![tactic(auto)]

ghost use Rattle.std.specs.Prelude.{◌≡◌, true, ◌+◌, ◌≤◌, ◌<◌, IfSome};
ghost use Rattle.nearby.specs.Inner.Ready.{SceneHeld, NeighborsListed};
ghost use Rattle.three_points.specs.Inner.Judged.{LimitsAtRadius};
ghost use Rattle.seedless_pairs.specs.Inner.Pairs.{SeedlessAfter, PairsSeedless, Spans, Ranged};

use bounds::Bounds;
use decisions::Scene;
use filters::Limits;

// What it takes to ask of two boxes.
const BOXED: usize = 3;

// A list of so many points or fewer is gone through pair by pair.
pub const SHORT: usize = 64;

// Two ranges with so many points or fewer are gone through point by point.
const FEW: usize = 16;

// A range of the listed points, and a box that has them.
#[derive(Clone, Copy)]
pub struct Range {
    pub from: usize,
    pub to: usize,
    pub bounds: Bounds,
}

// The listed points from a place to another.
pub fn range_of(s: Scene, points: &[f32], w: &[u32], from: usize, to: usize) -> Range
    requires { SceneHeld s points.now w.now × (from ≤ to) × NeighborsListed s w.now to }
    ensures { Spans s points.now w.now from to result }
{
    let at = regions::NEIGHBORS * s.n;
    let bounds = listed_boxes::box_of(points, w, at + from, at + to);
    Range {
        from: from,
        to: to,
        bounds: bounds,
    }
}

// What is left of a budget once it is told that points i and j make no seed with any of the listed points from a place
// on, if that was told.
fn search_beside(
    s: Scene,
    points: &[f32],
    w: &[u32],
    count: usize,
    radius: f32,
    limits: Limits,
    i: usize,
    j: usize,
    from: usize,
    budget: usize,
) -> Option<usize>
    requires { SceneHeld s points.now w.now × NeighborsListed s w.now count × (i < s.n) × (j < s.n)
        × LimitsAtRadius s points.now radius limits }
    ensures { IfSome result (λ left. SeedlessAfter s points.now radius w.now count i j from) }
{
    let mut left = budget;
    for m in from..count {
        let k = nearby::listed_point(s, w, count, m);
        let price = three_points::price_of(s, points, radius, limits, i, j, k)?;
        if left <= price {
            return None;
        }
        left -= price;
    }
    Some(left)
}

// What is left of a budget once it is told that no point of a range makes a seed with the later points of another, if
// that was told.
fn search_each(
    s: Scene,
    points: &[f32],
    w: &[u32],
    radius: f32,
    limits: Limits,
    i: usize,
    first: Range,
    second: Range,
    budget: usize,
) -> Option<usize>
    requires { Ranged s points.now w.now radius limits i first second }
    ensures { IfSome result (λ left. PairsSeedless s points.now radius w.now i first second) }
{
    let mut left = budget;
    for m in first.from..first.to {
        let j = nearby::listed_point(s, w, first.to, m);
        let from = second.from.max(m + 1);
        left = search_beside(s, points, w, second.to, radius, limits, i, j, from, left)?;
    }
    Some(left)
}

// Whether ranges with so many points are halved.
fn are_halved(points: usize, asks: bool) -> bool
    ensures { result ≡ true → 16 < points }
{
    asks && FEW < points
}

// What is left of a budget once that is told of two ranges. Ranges whose boxes are refused are passed over; parts of
// ranges are asked only if that is wished for, since it costs more than it saves where none is refused.
pub fn search_ranges(
    s: Scene,
    points: &[f32],
    w: &[u32],
    radius: f32,
    limits: Limits,
    i: usize,
    first: Range,
    second: Range,
    asks: bool,
    budget: usize,
) -> Option<usize>
    requires { Ranged s points.now w.now radius limits i first second }
    ensures { IfSome result (λ left. PairsSeedless s points.now radius w.now i first second) }
{
    if second.to <= first.from {
        return Some(budget);
    }
    let x = first.to - first.from;
    let y = second.to - second.from;
    let price = BOXED + (x + y) / 4;
    if budget <= price {
        return None;
    }
    let rest = budget - price;
    let p = points::point_at(points, i);
    if box_filters::is_refused_within(s.quality_threshold, limits, p, first.bounds, second.bounds) {
        return Some(rest);
    }
    if !are_halved(x + y, asks) {
        return search_each(s, points, w, radius, limits, i, first, second, rest);
    }
    let j = first.from + x / 2;
    let k = second.from + y / 2;
    let a = range_of(s, points, w, first.from, j);
    let b = range_of(s, points, w, j, first.to);
    let c = range_of(s, points, w, second.from, k);
    let d = range_of(s, points, w, k, second.to);
    let ac = search_ranges(s, points, w, radius, limits, i, a, c, asks, rest)?;
    let ad = search_ranges(s, points, w, radius, limits, i, a, d, asks, ac)?;
    let bc = search_ranges(s, points, w, radius, limits, i, b, c, asks, ad)?;
    search_ranges(s, points, w, radius, limits, i, b, d, asks, bc)
}

// Whether the eight listed points from a place on are refused with the eight from another.
fn are_refused_at(
    s: Scene,
    points: &[f32],
    w: &[u32],
    count: usize,
    limits: Limits,
    i: usize,
    j: usize,
    k: usize,
) -> bool
    requires { SceneHeld s points.now w.now × NeighborsListed s w.now count × (i < s.n) × (j + 8 ≤ count)
        × (k + 8 ≤ count) }
{
    let first = range_of(s, points, w, j, j + 8);
    let second = range_of(s, points, w, k, k + 8);
    let p = points::point_at(points, i);
    box_filters::is_refused_within(s.quality_threshold, limits, p, first.bounds, second.bounds)
}

// Whether parts of a list are worth being asked: it is not short, and some of three short pairs are refused.
fn is_worth_asking(
    s: Scene,
    points: &[f32],
    w: &[u32],
    count: usize,
    limits: Limits,
    i: usize,
) -> bool
    requires { SceneHeld s points.now w.now × NeighborsListed s w.now count × (i < s.n) }
{
    if count <= SHORT {
        return false;
    }
    let quarter = count / 4;
    let half = quarter + quarter;
    let last = half + quarter;
    are_refused_at(s, points, w, count, limits, i, 0, half)
        || are_refused_at(s, points, w, count, limits, i, quarter, last)
        || are_refused_at(s, points, w, count, limits, i, 0, last)
}

// What is left of a budget once that is told of all pairs of a range, by parts of it where that is worth it.
pub fn search_pairs(
    s: Scene,
    points: &[f32],
    w: &[u32],
    radius: f32,
    limits: Limits,
    i: usize,
    all: Range,
    budget: usize,
) -> Option<usize>
    requires { Ranged s points.now w.now radius limits i all all }
    ensures { IfSome result (λ left. PairsSeedless s points.now radius w.now i all all) }
{
    let asks = is_worth_asking(s, points, w, all.to, limits, i);
    search_ranges(s, points, w, radius, limits, i, all, all, asks, budget)
}
