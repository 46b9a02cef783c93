// Tests that refuse every triangle of a point and of points in two boxes at once: what refuses a triangle by squares is
// asked at the ends of intervals that hold the squares.
#![tactic(auto)]

ghost use Rattle.std.specs.Prelude.{◌≡◌, true};
ghost use Rattle.intervals.specs.Inner.Enclosed.{differences_of, CrossSquares};
ghost use Rattle.box_filters.specs.Inner.LowBy.{AnglesWithin, LowBy};
ghost use Rattle.box_filters.specs.Inner.RefusedWithin.{EdgesOf, AreasOf, RefusedBy, Unreached};
ghost use Rattle.box_filters.specs.Inner.RefusedWithin.{RefusedWithin};

use bounds::{Bounds, Interval};
use filters::Limits;
use vector::Point3f;

// The squares of the lengths of three edges: of those between points of p and q, of p and t, and of q and t.
#[derive(Clone, Copy)]
pub struct Edges {
    pub pq: Interval,
    pub pt: Interval,
    pub qt: Interval,
}

// Those of the triangles with a point in each of three boxes.
pub fn edges_of(p: Bounds, q: Bounds, t: Bounds) -> Edges
    ensures { EdgesOf p q t result }
{
    let pq = intervals::magnitudes(intervals::differences(q, p));
    let pt = intervals::magnitudes(intervals::differences(t, p));
    let qt = intervals::magnitudes(intervals::differences(t, q));
    Edges {
        pq: pq,
        pt: pt,
        qt: qt,
    }
}

// The squares of twice the area of these triangles, whichever of their points comes first; x holds those with a point
// of p first.
pub fn areas_of(p: Bounds, q: Bounds, t: Bounds, x: Interval) -> Interval
    requires { CrossSquares (differences_of q p) (differences_of t p) x }
    ensures { AreasOf p q t result }
{
    let tq = intervals::differences(t, q);
    let y = intervals::cross_squares(intervals::differences(p, q), tq);
    let z = intervals::cross_squares(intervals::differences(p, t), intervals::differences(q, t));
    intervals::joined(x, intervals::joined(y, z))
}

// What the least angle is at most in each order, with the squares of one edge in i and of the others in j and k. Where
// the first one isn't much shorter it is not a number, which a score takes for an angle without a bound.
fn needle_angle(i: Interval, j: Interval, k: Interval) -> f32
    ensures { AnglesWithin i j k result }
{
    let short = numbers::min(j.lo, k.lo);
    let long = numbers::max(j.hi, k.hi);
    needle_angles::needle_angle(i.lo, i.hi, short, long).unwrap_or(0.0 / 0.0)
}

// What the least angle of all triangles with such edges is at most. Which edge is the shortest is a guess.
fn least_angle(e: Edges) -> f32
    ensures { AnglesWithin e.pq e.pt e.qt result }
{
    if e.pq.hi <= e.pt.hi {
        if e.pq.hi <= e.qt.hi {
            return needle_angle(e.pq, e.pt, e.qt);
        }
        return needle_angle(e.qt, e.pq, e.pt);
    }
    if e.pt.hi <= e.qt.hi {
        return needle_angle(e.pt, e.pq, e.qt);
    }
    needle_angle(e.qt, e.pq, e.pt)
}

// Whether the score of all triangles with such edges and areas is below a threshold in each order. No angle is
// measured: that of needles is known to be small. Where the threshold is 0 there is nothing to tell.
fn are_low(threshold: f32, e: Edges, area: f32) -> bool
    ensures { result ≡ true → LowBy threshold e area }
{
    if !(0.0 < threshold) {
        return false;
    }
    let angle = least_angle(e);
    let shortest = numbers::sqrt(numbers::min(numbers::min(e.pq.hi, e.pt.hi), e.qt.hi));
    let a = numbers::sqrt(e.pq.lo);
    let b = numbers::sqrt(e.pt.lo);
    let c = numbers::sqrt(e.qt.lo);
    six_orders::is_low_from(
        threshold,
        a,
        b,
        c,
        shortest,
        angle,
        numbers::sqrt(area) * 0.5,
    )
}

// Whether all triangles with such edges and areas are refused: by limits, as slivers, or by a score below a threshold.
// What costs more is asked later.
fn refuses(threshold: f32, l: Limits, e: Edges, area: Interval) -> bool
    ensures { result ≡ true → RefusedBy threshold l e area }
{
    if area.hi <= l.small {
        return true;
    }
    if area.lo >= l.large {
        return true;
    }
    if sliver_filters::is_thin_within(e.pq, e.pt, e.qt, area.hi, l.thin) {
        return true;
    }
    if sliver_filters::is_sliver(l.slivers, e.pq, e.qt, e.pt, area.hi) {
        return true;
    }
    are_low(threshold, e, area.hi)
}

// Whether a threshold is one that no score reaches with such edges.
fn is_unreached(threshold: f32, e: Edges) -> bool
    ensures { result ≡ true → Unreached threshold e }
{
    if !euler::is_out_of_reach(threshold) {
        return false;
    }
    euler::is_plain(e.pq, e.qt, e.pt)
}

// Whether every triangle of p, a point of q and a point of t is refused, whichever of them comes first: by limits, or
// by settings with a threshold that the limits are for. The areas with p first are the closest: what they don't refuse,
// all of them don't.
pub fn is_refused_within(threshold: f32, l: Limits, p: Point3f, q: Bounds, t: Bounds) -> bool
    ensures { result ≡ true → RefusedWithin threshold l p q t }
{
    let at = intervals::point_box(p);
    let e = edges_of(at, q, t);
    if e.qt.lo > l.far {
        return true;
    }
    if is_unreached(threshold, e) {
        return true;
    }
    if !filters::are_at_most(e.pq.hi, e.pt.hi, e.qt.hi, 3.4028235e38) {
        return false;
    }
    let own = intervals::cross_squares(
        intervals::differences(q, at),
        intervals::differences(t, at),
    );
    if !refuses(threshold, l, e, own) {
        return false;
    }
    let area = areas_of(at, q, t, own);
    refuses(threshold, l, e, area)
}
