// From an f32 to a whole number, as Rust's `as u32` cuts it.
#![tactic(auto)]

mod by_fields;

ghost use Rattle.std.specs.Prelude.{◌≡◌};
ghost use Rattle.numbers.specs.Cut.{cut, ceil};

// Rust's `x as u32`, by the fields of its bits. A not-a-number is asked for first: the language leaves its bits open.
pub fn cut(x: f32) -> u32
    ensures { result ≡ cut x }
{
    if x != x {
        return 0;
    }
    let b = f32::to_bits(x);
    by_fields::cut_fields(b >= 0x8000_0000, b / 0x80_0000 % 256, b % 0x80_0000)
}

// Rust's `x.ceil() as u32`.
pub fn ceil_cut(x: f32) -> u32
    ensures { result ≡ cut (ceil x) }
{
    let t = cut(x);
    if x >= 16777216.0 {
        return t;
    }
    if (t as f32) < x { t + 1 } else { t }
}
