// Whole lent slices set to zeros.
#![tactic(auto)]

ghost use Rattle.std.specs.Prelude.{◌≡◌, length, replicate};
ghost use Rattle.numbers.specs.Rounded.{f32};

// A kind of number that has a zero.
pub trait Zero: Copy {
    ghost ZERO: { Self };

    const ZERO: Self;
}

impl Zero for u32 {
    ghost ZERO = { 0 };

    const ZERO: u32 = 0;
}

impl Zero for f32 {
    ghost ZERO = { f32 0 };

    const ZERO: f32 = 0.0;
}

// Sets every number to zero.
pub fn clear<T: Zero>(w: &mut [T])
    ensures { w.new ≡ replicate (length w.old) T.ZERO }
{
    for i in 0..w.len() {
        w[i] = T::ZERO;
    }
}
