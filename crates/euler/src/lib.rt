// That no triangle's score reaches a threshold of 1.00001: by Euler's inequality an inradius is at most half of the
// circumradius, and rounding adds next to nothing.
#![tactic(auto)]

ghost use Rattle.std.specs.Prelude.{◌≡◌, true};
ghost use Rattle.euler.specs.Inner.OutOfReach.{is_out_of_reach, OutOfReach};

use bounds::Interval;

// Whether no score of a plain triangle reaches a threshold.
pub fn is_out_of_reach(threshold: f32) -> bool
    ensures { result ≡ is_out_of_reach threshold }
{
    threshold >= 1.00001
}

// Whether triangles are plain; from intervals with the squares of P Q, Q T and P T.
pub fn is_plain(a: Interval, b: Interval, c: Interval) -> bool
    ensures { result ≡ true → OutOfReach a b c }
{
    cosines::are_plain(a.lo, a.hi, c.lo, c.hi, b.lo, b.hi)
}
