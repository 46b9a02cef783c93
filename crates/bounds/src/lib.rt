// Bounds that hold every place within a distance of another. How far they go is a guess, which is tested; where it is
// not far enough they have no end.
#![tactic(auto)]

mod cover;

ghost use Rattle.vector.specs.Inner.Numbers.{Finite};
ghost use Rattle.bounds.specs.Inner.Within.{Limit, Covers};

use vector::Point3f;

// The places between two corners, both included.
#[derive(Clone, Copy)]
pub struct Bounds {
    pub lo: Point3f,
    pub hi: Point3f,
}

// The coordinates between two, both included.
#[derive(Clone, Copy)]
pub struct Interval {
    pub lo: f32,
    pub hi: f32,
}

// A number such that each square above it has a root above r. It is a guess, which is tested; the sum is for radii
// whose square is lost to rounding.
pub fn square_limit(r: f32) -> f32
    ensures { Limit r result }
{
    let t = r * r * 1.000001 + 1e-44;
    if t >= 0.0 && numbers::sqrt(t) > r {
        return t;
    }
    1.0 / 0.0
}

// Bounds outside of which every squared distance from the place is above the limit. The reach is a guess at how far
// they have to go.
pub fn covering(place: Point3f, reach: f32, limit: f32) -> Bounds
    requires { Finite place }
    ensures { Covers place limit result }
{
    let x = cover::interval(place.x, reach, limit);
    let y = cover::interval(place.y, reach, limit);
    let z = cover::interval(place.z, reach, limit);
    Bounds {
        lo: Point3f {
            x: x.lo,
            y: y.lo,
            z: z.lo,
        },
        hi: Point3f {
            x: x.hi,
            y: y.hi,
            z: z.hi,
        },
    }
}
