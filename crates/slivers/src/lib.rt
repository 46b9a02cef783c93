// Bounds for slivers, threes of points that nearly lie on a line: two cosines and an aspect ratio with which no score
// reaches a threshold, so that they are refused with no angle measured.
#![tactic(auto)]

ghost use Rattle.slivers.specs.Inner.Slivers.{AngleLimit, Slivers};

// From which cosines on, and up to which aspect ratio, no score reaches a threshold.
#[derive(Clone, Copy)]
pub struct SliverLimits {
    pub cosine: f32,
    pub aspect: f32,
}

// An angle that no arc cosine of a number from `cosine` on exceeds. Where that can't be told it is not a number. The
// parts of the arc cosine, 2 (d + (R(z) s + c)), are bounded one by one: d by s, R(z) by 0.18 z / 0.82, c by s / 1024.
pub fn angle_limit(cosine: f32) -> f32
    ensures { AngleLimit cosine result }
{
    if !(0.5 <= cosine) {
        return 0.0 / 0.0;
    }
    if !(cosine < 1.0) {
        return 0.0 / 0.0;
    }
    let z = (1.0 - cosine) * 0.5;
    let s = numbers::sqrt(z);
    2.0 * (s + (z * 0.18 / 0.82 * s + s * 0.0009765625))
}

// Limits for a threshold. The edges' part of three times the score is at most 1, which leaves `share` to the other two:
// 6 / pi times the least angle and twice the aspect ratio, which is at most the square of an angle that bounds the two
// small ones; it is at least 0.00196 here, below which `thin` refuses nothing. A guess and a test: where it fails the
// cosine is not a number, and nothing is at least that.
pub fn sliver_limits(threshold: f32) -> SliverLimits
    ensures { Slivers threshold result.cosine result.aspect }
{
    let share = 3.0 * threshold - 1.0;
    let most = 1.99 * share / (1.91 + numbers::sqrt(3.65 + 8.8 * share));
    let aspect = numbers::max(1.1 * most * most, 0.00196);
    let angle = (0.995 * share - 2.0 * aspect) / 1.91;
    let square = angle * angle;
    let cosine = 1.0 - square * (0.5 - square / 24.0);
    let low = quality::score(angle_limit(cosine), aspect, 1.0) < threshold;
    if 0.0 < threshold && low {
        return SliverLimits { cosine, aspect };
    }
    SliverLimits {
        cosine: 0.0 / 0.0,
        aspect,
    }
}
