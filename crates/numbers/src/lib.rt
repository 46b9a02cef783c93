// f32 arithmetic that the language lacks: the root, and the order of two. (The cut is in `cutting`, the arc cosine in
// `arc_cosine`; the definitions of all are here.)
#![tactic(auto)]

mod root;

ghost use Rattle.std.specs.Prelude.{◌≡◌};
ghost use Rattle.numbers.specs.Root.{root};
ghost use Rattle.numbers.specs.Order.{minimum, maximum, clamp};

// The square root, rounded once to the nearest f32.
pub fn sqrt(x: f32) -> f32
    ensures { result ≡ root x }
{
    if x != x {
        return x;
    }
    let b = f32::to_bits(x);
    if 0 < b && b < 0x7f80_0000 {
        return f32::from_bits(root::root_bits(b));
    }
    if b % 0x8000_0000 == 0 {
        return x;
    }
    if b == 0x7f80_0000 {
        return x;
    }
    0.0 / 0.0
}

// Rust's `a.min(b)`.
pub fn min(a: f32, b: f32) -> f32
    ensures { result ≡ minimum a b }
{
    if a != a {
        return b;
    }
    if b < a { b } else { a }
}

// Rust's `a.max(b)`.
pub fn max(a: f32, b: f32) -> f32
    ensures { result ≡ maximum a b }
{
    if a != a {
        return b;
    }
    if b > a { b } else { a }
}

// Rust's `v.clamp(lo, hi)`, for any bounds.
pub fn clamp(v: f32, lo: f32, hi: f32) -> f32
    ensures { result ≡ clamp v lo hi }
{
    let mut w = v;
    if w < lo {
        w = lo;
    }
    if w > hi {
        w = hi;
    }
    w
}
