// Bounds on one axis.
ghost use Rattle.std.specs.Prelude.{◌≡◌, T};
ghost use Rattle.std.specs.Float.Ieee.Scale.{finite};
ghost use Rattle.bounds.specs.Inner.Cover.{is_covering, CoversOn};

use crate::Interval;

// Whether the interval has the coordinate, and both of its ends are farther from it than the limit.
fn is_covering(v: f32, limit: f32, lo: f32, hi: f32) -> bool
    ensures { result ≡ is_covering v limit lo hi }
{
    lo <= v && (v <= hi && ((lo - v) * (lo - v) > limit && (hi - v) * (hi - v) > limit))
}

// As far as the reach on both sides, or without end if that is not far enough.
pub fn interval(v: f32, reach: f32, limit: f32) -> Interval
    requires { T (finite v) }
    ensures { CoversOn v limit result }
{
    let lo = v - reach;
    let hi = v + reach;
    if is_covering(v, limit, lo, hi) {
        return Interval { lo, hi };
    }
    Interval {
        lo: -1.0 / 0.0,
        hi: 1.0 / 0.0,
    }
}
