// The pieces of the arc cosine.
ghost use Rattle.std.specs.Prelude.{◌≡◌};
ghost use Rattle.numbers.specs.Acos.{R, abs, high_part, acos_middle, acos_low, acos_high, acos_inside};

// v without its sign.
pub fn abs(v: f32) -> f32
    ensures { result ≡ abs v }
{
    if v < 0.0 { -v } else { v }
}

// musl's R.
fn ratio(z: f32) -> f32
    ensures { result ≡ R z }
{
    z * (1.6666586697e-01 + z * (-4.2743422091e-02 + z * -8.6563630030e-03))
        / (1.0 + z * -7.0662963390e-01)
}

// s with its low 12 bits cleared.
fn clear_low(s: f32) -> f32
    ensures { result ≡ high_part s }
{
    if s != s {
        return s;
    }
    let b = f32::to_bits(s);
    f32::from_bits(b - b % 4096)
}

// For |v| below 0.5.
pub fn acos_middle(v: f32) -> f32
    ensures { result ≡ acos_middle v }
{
    1.5707962513 - (v - (7.5497894159e-08 - v * ratio(v * v)))
}

// For v at most -0.5.
pub fn acos_low(v: f32) -> f32
    ensures { result ≡ acos_low v }
{
    let z = (1.0 + v) * 0.5;
    let s = numbers::sqrt(z);
    2.0 * (1.5707962513 - (s + (ratio(z) * s - 7.5497894159e-08)))
}

// For v at least 0.5.
pub fn acos_high(v: f32) -> f32
    ensures { result ≡ acos_high v }
{
    let z = (1.0 - v) * 0.5;
    let s = numbers::sqrt(z);
    let d = clear_low(s);
    let c = (z - d * d) / (s + d);
    2.0 * (d + (ratio(z) * s + c))
}

// For v neither 1 nor -1.
pub fn acos_inside(v: f32) -> f32
    ensures { result ≡ acos_inside v }
{
    let m = abs(v);
    if m > 1.0 {
        return 0.0 / 0.0;
    }
    if m <= 1.4901161e-08 {
        return 1.5707962513;
    }
    if m < 0.5 {
        return acos_middle(v);
    }
    if v <= -0.5 { acos_low(v) } else { acos_high(v) }
}
