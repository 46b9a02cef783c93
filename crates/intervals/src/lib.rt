// What is worked out from coordinates in boxes lies between what is worked out at the boxes' ends, each operation
// rounded alike: rounding keeps the order.
#![tactic(auto)]

mod axis;

ghost use Rattle.std.specs.Prelude.{◌≡◌, T};
ghost use Rattle.vector.specs.Inner.Numbers.{Finite};
ghost use Rattle.bounds.specs.Inner.Within.{within};
ghost use Rattle.intervals.specs.Inner.Enclosed.{Grown, Joined, differences_of, Magnitudes, Crosses};
ghost use Rattle.intervals.specs.Inner.Enclosed.{CrossSquares};

use bounds::{Bounds, Interval};
use vector::Point3f;

// The box of one point.
pub fn point_box(p: Point3f) -> Bounds
    ensures { Finite p → T (within result p) }
{
    Bounds { lo: p, hi: p }
}

// A box that has a point too.
pub fn with_point(b: Bounds, p: Point3f) -> Bounds
    ensures { Grown b p result }
{
    let lo = Point3f {
        x: axis::lesser(p.x, b.lo.x),
        y: axis::lesser(p.y, b.lo.y),
        z: axis::lesser(p.z, b.lo.z),
    };
    let hi = Point3f {
        x: axis::greater(p.x, b.hi.x),
        y: axis::greater(p.y, b.hi.y),
        z: axis::greater(p.z, b.hi.z),
    };
    Bounds { lo: lo, hi: hi }
}

// An interval that holds what either of two does.
pub fn joined(a: Interval, b: Interval) -> Interval
    ensures { Joined a b result }
{
    let lo = axis::lesser(a.lo, b.lo);
    let hi = axis::greater(a.hi, b.hi);
    Interval { lo: lo, hi: hi }
}

// The vectors from points of q to points of p: those between two ends.
pub fn differences(p: Bounds, q: Bounds) -> Bounds
    ensures { result ≡ differences_of p q }
{
    let lo = vector::difference(p.lo, q.hi);
    let hi = vector::difference(p.hi, q.lo);
    Bounds { lo: lo, hi: hi }
}

// The squares of the lengths of the vectors of a box.
pub fn magnitudes(v: Bounds) -> Interval
    ensures { Magnitudes v result }
{
    let x = axis::squares(v.lo.x, v.hi.x);
    let y = axis::squares(v.lo.y, v.hi.y);
    let z = axis::squares(v.lo.z, v.hi.z);
    Interval {
        lo: (x.lo + y.lo) + z.lo,
        hi: (x.hi + y.hi) + z.hi,
    }
}

// The cross products of the vectors of two boxes.
fn crosses(v: Bounds, w: Bounds) -> Bounds
    ensures { Crosses v w result }
{
    let x = axis::parts(
        v.lo.y, v.hi.y, w.lo.z, w.hi.z, v.lo.z, v.hi.z, w.lo.y, w.hi.y,
    );
    let y = axis::parts(
        v.lo.z, v.hi.z, w.lo.x, w.hi.x, v.lo.x, v.hi.x, w.lo.z, w.hi.z,
    );
    let z = axis::parts(
        v.lo.x, v.hi.x, w.lo.y, w.hi.y, v.lo.y, v.hi.y, w.lo.x, w.hi.x,
    );
    Bounds {
        lo: Point3f {
            x: x.lo,
            y: y.lo,
            z: z.lo,
        },
        hi: Point3f {
            x: x.hi,
            y: y.hi,
            z: z.hi,
        },
    }
}

// The squares of the lengths of their cross products.
pub fn cross_squares(v: Bounds, w: Bounds) -> Interval
    ensures { CrossSquares v w result }
{
    magnitudes(crosses(v, w))
}
