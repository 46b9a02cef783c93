// Bounds of a triangle's score that its angles have no part in.
#![tactic(auto)]

ghost use Rattle.std.specs.Prelude.{◌≡◌};
ghost use Rattle.score_bounds.specs.Inner.Bound.{score_bound, AspectLimit};

use quality::Shape;

// What the score of a triangle is not above, whatever its angles: none is larger than pi.
pub fn score_bound(shape: Shape) -> f32
    ensures { result ≡ score_bound shape }
{
    quality::score(3.1415927, shape.aspect_ratio, shape.edge_ratio)
}

// An aspect ratio up to which no score reaches the threshold, of 4 at most. Where the guess is none it is not a number,
// and nothing is at most that.
pub fn aspect_limit(threshold: f32) -> f32
    ensures { AspectLimit threshold result }
{
    let t = numbers::min(threshold * 1.5 - 1.000002, 4.0);
    if quality::score(3.1415927, t, 1.0) < threshold {
        return t;
    }
    0.0 / 0.0
}
