// Needles: triangles with one edge much shorter than the other two. Their least angle is small, however the points are
// ordered, and this bounds it by the lengths alone: no angle is measured.
#![tactic(auto)]

ghost use Rattle.std.specs.Prelude.{◌≡◌, IfSome};
ghost use Rattle.needle_angles.specs.Inner.NeedleAngles.{NeedleAngle, OfClass, angle_of};

// A class of needles: how many times as long as the short edge the other two are at least.
#[derive(Clone, Copy)]
pub enum NeedleClass {
    Times10,
    Times16,
    Times32,
    Times64,
    Times128,
}

// The class of needles, from the squares of the lengths: one edge's from `least` to `most`, the other two edges' from
// `short` to `long`. None, with edges less than 10 or more than 8,192 times as long, where that can't be told.
pub fn needle_class(least: f32, most: f32, short: f32, long: f32) -> Option<NeedleClass>
    ensures { IfSome result (OfClass least most short long) }
{
    if !(0.00000000000090949470 <= least) {
        return None;
    }
    if !(most <= 67108864.0) {
        return None;
    }
    if !(long <= 67108864.0) {
        return None;
    }
    if !(long <= least * 67108864.0) {
        return None;
    }
    if most * 16385.0 <= short {
        return Some(NeedleClass::Times128);
    }
    if most * 4097.0 <= short {
        return Some(NeedleClass::Times64);
    }
    if most * 1025.0 <= short {
        return Some(NeedleClass::Times32);
    }
    if most * 257.0 <= short {
        return Some(NeedleClass::Times16);
    }
    if most * 101.0 <= short {
        return Some(NeedleClass::Times10);
    }
    None
}

// What the least angle is at most in each order, of a class. Two orders leave the angle over, with the rounding errors
// of two cosines and of their arc cosines, whose bounds are not close: so it is 0.05 where the true angle is a 64th.
#[tactic(auto, unfolding(crate::specs::Inner::NeedleAngles::angle_of))]
fn class_angle(class: NeedleClass) -> f32
    ensures { result ≡ angle_of class }
{
    match class {
        NeedleClass::Times10 => 0.21,
        NeedleClass::Times16 => 0.13,
        NeedleClass::Times32 => 0.07,
        NeedleClass::Times64 => 0.05,
        NeedleClass::Times128 => 0.04,
    }
}

// What the least angle is at most in each order, from the squares of the lengths, where that can be told.
pub fn needle_angle(least: f32, most: f32, short: f32, long: f32) -> Option<f32>
    ensures { IfSome result (NeedleAngle least most short long) }
{
    let class = needle_class(least, most, short, long)?;
    Some(class_angle(class))
}
