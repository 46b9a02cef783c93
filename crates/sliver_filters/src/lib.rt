// Tests by squares that triangles are slivers or needles, whose score is too low in each order: for all triangles whose
// squares lie in intervals, before any root is taken or angle measured.
#![tactic(auto)]

ghost use Rattle.std.specs.Prelude.{◌≡◌, true};
ghost use Rattle.sliver_filters.specs.Inner.SliversWithin.{Filtering, ThinWithin, SliversWithin};

use bounds::Interval;
use needle_limits::NeedleLimits;

// Limits for squares: for the angles and the aspect ratio of slivers, and for the aspect ratios of needles.
#[derive(Clone, Copy)]
pub struct SliverFilter {
    pub narrow: f32,
    pub thin: f32,
    pub needles: NeedleLimits,
}

// Those of a threshold.
pub fn sliver_filter_of(threshold: f32) -> SliverFilter
    ensures { Filtering threshold result }
{
    let limits = slivers::sliver_limits(threshold);
    let narrow = cosines::narrow_limit(limits.cosine);
    let thin = thin::thin_limit(limits.aspect);
    let needles = needle_limits::needle_limits(threshold);
    SliverFilter {
        narrow: narrow,
        thin: thin,
        needles: needles,
    }
}

// Whether the aspect ratio is surely at most the bound that the limit is for: asked with the shortest edges and the
// largest cross product, which is raised to where the range of `is_thin` begins.
pub fn is_thin_within(a: Interval, b: Interval, c: Interval, cross: f32, limit: f32) -> bool
    ensures { result ≡ true → ThinWithin limit a b c cross }
{
    if !(a.hi <= 67108864.0) {
        return false;
    }
    if !(b.hi <= 67108864.0) {
        return false;
    }
    if !(c.hi <= 67108864.0) {
        return false;
    }
    let most = numbers::max(cross, 0.00000000000000000086736174);
    thin::is_thin(a.lo, b.lo, c.lo, most, limit)
}

// Whether triangles are slivers with P T as the longest edge: the angles at both its ends are small.
fn is_sliver_along(l: SliverFilter, a: Interval, b: Interval, c: Interval, cross: f32) -> bool
    ensures { result ≡ true → SliversWithin l a b c cross }
{
    if !cosines::is_narrow(a, c, b, cross, l.narrow) {
        return false;
    }
    if !cosines::is_narrow(c, b, a, cross, l.narrow) {
        return false;
    }
    is_thin_within(a, b, c, cross, l.thin)
}

// Whether triangles are needles with P Q as the short edge, and as thin as their class asks. That the others are at
// least 10 times as long is asked first, since few are.
fn is_needle_along(l: SliverFilter, a: Interval, b: Interval, c: Interval, cross: f32) -> bool
    ensures { result ≡ true → SliversWithin l a b c cross }
{
    if !(a.hi * 101.0 <= numbers::min(b.lo, c.lo)) {
        return false;
    }
    let others = intervals::joined(b, c);
    let Some(class) = needle_angles::needle_class(a.lo, a.hi, others.lo, others.hi) else {
        return false;
    };
    let limit = needle_limits::class_limit(l.needles, class);
    is_thin_within(a, b, c, cross, limit)
}

// Whether triangles are such needles. Which edge is the shortest is a guess.
fn is_needle(l: SliverFilter, a: Interval, b: Interval, c: Interval, cross: f32) -> bool
    ensures { result ≡ true → SliversWithin l a b c cross }
{
    if a.hi <= b.hi {
        if a.hi <= c.hi {
            return is_needle_along(l, a, b, c, cross);
        }
        return is_needle_along(l, c, b, a, cross);
    }
    if b.hi <= c.hi {
        return is_needle_along(l, b, c, a, cross);
    }
    is_needle_along(l, c, b, a, cross)
}

// Whether all triangles P Q T are slivers or needles; from intervals with the squares of P Q, Q T and P T, and one that
// the squares of the cross products at P, Q and T are not above. Which edge is the longest is a guess.
pub fn is_sliver(l: SliverFilter, a: Interval, b: Interval, c: Interval, cross: f32) -> bool
    ensures { result ≡ true → SliversWithin l a b c cross }
{
    if is_needle(l, a, b, c, cross) {
        return true;
    }
    if a.lo <= c.lo {
        if b.lo <= c.lo {
            return is_sliver_along(l, a, b, c, cross);
        }
        return is_sliver_along(l, a, c, b, cross);
    }
    if a.lo <= b.lo {
        return is_sliver_along(l, a, c, b, cross);
    }
    is_sliver_along(l, c, b, a, cross)
}
