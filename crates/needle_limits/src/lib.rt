// Limits for needles, triangles with one edge much shorter than the other two: up to which aspect ratio the score of
// each class of them stays below a threshold, so that they are refused by squares, with no angle measured.
#![tactic(auto)]

ghost use Rattle.needle_limits.specs.Inner.Needles.{NeedleLimit, ClassLimits, ClassLimit};

use needle_angles::NeedleClass;

// Limits for `is_thin`, of the classes with edges 10, 16, 32, 64 and 128 times as long.
#[derive(Clone, Copy)]
pub struct NeedleLimits {
    pub times_10: f32,
    pub times_16: f32,
    pub times_32: f32,
    pub times_64: f32,
    pub times_128: f32,
}

// The limit of triangles with a least angle of at most `angle` and an edge ratio of at least `ratio`. Of three times
// the threshold these leave `share` to twice the aspect ratio. A guess and a test: where it fails the limit passes no
// triangle.
fn needle_limit(threshold: f32, angle: f32, ratio: f32) -> f32
    ensures { NeedleLimit threshold angle ratio result }
{
    let share = 3.0 * threshold - 1.9099 * angle - 3.0 / ratio;
    let aspect = numbers::min(0.4999 * share, 4.0);
    let low = quality::score(angle, aspect, ratio) < threshold;
    if 0.0 < threshold && low {
        return thin::thin_limit(aspect);
    }
    -1.0
}

// Those of a threshold.
pub fn needle_limits(threshold: f32) -> NeedleLimits
    ensures { ClassLimits threshold result }
{
    let times_10 = needle_limit(threshold, 0.21, 10.0);
    let times_16 = needle_limit(threshold, 0.13, 16.0);
    let times_32 = needle_limit(threshold, 0.07, 32.0);
    let times_64 = needle_limit(threshold, 0.05, 64.0);
    let times_128 = needle_limit(threshold, 0.04, 128.0);
    NeedleLimits {
        times_10: times_10,
        times_16: times_16,
        times_32: times_32,
        times_64: times_64,
        times_128: times_128,
    }
}

// The limit of a class.
pub fn class_limit(l: NeedleLimits, class: NeedleClass) -> f32
    ensures { ClassLimit l class result }
{
    match class {
        NeedleClass::Times10 => l.times_10,
        NeedleClass::Times16 => l.times_16,
        NeedleClass::Times32 => l.times_32,
        NeedleClass::Times64 => l.times_64,
        NeedleClass::Times128 => l.times_128,
    }
}
