// The square root of a positive f32, worked out over whole numbers: the significand is scaled to 47 or 48 bits,
// and the whole number nearest to its root is the result's significand.
ghost use Rattle.std.specs.Prelude.{◌≡◌, not, false, ◌+◌, ◌*◌, ◌/◌, ◌%◌, ◌^◌, ◌≤◌, ◌<◌, T};
ghost use Rattle.std.specs.Float.{binary32};
ghost use Rattle.std.specs.Float.Ieee.{of_bits, nan_bits};
ghost use Rattle.std.specs.Float.Ieee.Exact.{HasValue};
ghost use Rattle.numbers.specs.Root.{nearest_root, root};

// A number above zero: q * 2^(k + 23) units of 2^-298, q of 24 digits.
#[derive(Clone, Copy)]
struct Scaled {
    q: u32,
    k: u32,
}

// The low 32 bits of x's pattern, or 0 where x is no number below 2^53.
fn low_bits(x: f64) -> u64
    ensures { result < 2 ^ 32 }
{
    if x < 9007199254740992.0 {
        f64::to_bits(x) % 4294967296
    } else {
        0
    }
}

// A guess at the root of n: a polynomial and two of Heron's steps in f64. Nothing is promised of it.
fn guess(n: u64) -> u64
    requires { n < 2 ^ 48 }
    ensures { result < 2 ^ 32 }
{
    let v = n as f64;
    let s = 4349951.5329590365 + v * (6.270524081974803e-8 - v * 6.698355409067719e-23);
    let t = s + v / s;
    low_bits(0.25 * t + v / t + 4503599627370496.0)
}

// The largest s with s * s <= n, by halving.
fn floor_root(n: u64) -> u64
    requires { n < 2 ^ 48 }
    ensures { (result * result ≤ n) × (n < (result + 1) * (result + 1)) × (result < 2 ^ 24) }
{
    let mut lo: u64 = 0;
    let mut hi: u64 = 16777216;
    while lo + 1 < hi {
        let mid = (lo + hi) / 2;
        if mid * mid <= n {
            lo = mid;
        } else {
            hi = mid;
        }
    }
    lo
}

// The whole number nearest to the root of n: the guess where it is that number, else by halving.
fn nearest_root(n: u64) -> u64
    requires { (0 < n) × (n < 2 ^ 48) }
    ensures { result ≡ nearest_root n }
{
    let g = guess(n);
    let p = g * g;
    if p < n + g && n <= p + g {
        return g;
    }
    let s = floor_root(n);
    if s * s + s < n { s + 1 } else { s }
}

// The bit pattern of the root of q * 2^(k + 23) units of 2^-298. An odd k gives q one more place, so that an even power
// of two is left.
fn root_of(q: u32, k: u32) -> u32
    requires { (2 ^ 23 ≤ q) × (q < 2 ^ 24) × (k < 400) }
    ensures { result ≡ k / 2 * 8388608 + nearest_root (q * 2 ^ (23 + k % 2)) }
{
    let n = (q as u64) << (23 + k % 2);
    k / 2 * 8388608 + (nearest_root(n) as u32)
}

// The number with the pattern b. A subnormal's digits are moved up to be 24.
fn read_bits(b: u32) -> Scaled
    requires { (0 < b) × (b < 0x7f80_0000) }
    ensures { (2 ^ 23 ≤ result.q) × (result.q < 2 ^ 24) × (result.k < 400)
        × HasValue (of_bits binary32 b) false (result.q * 2 ^ (result.k + 23)) (2 ^ 298) }
{
    let e = b / 8388608;
    let t = b % 8388608;
    if e == 0 {
        let z = u32::leading_zeros(t) - 8;
        Scaled {
            q: t << z,
            k: 126 - z,
        }
    } else {
        Scaled {
            q: t + 8388608,
            k: e + 125,
        }
    }
}

// The bit pattern of the root of the number above zero with the pattern b.
pub fn root_bits(b: u32) -> u32
    requires { (0 < b) × (b < 0x7f80_0000) }
    ensures { (of_bits binary32 result ≡ root (of_bits binary32 b)) × T (not (nan_bits binary32 result)) }
{
    let x = read_bits(b);
    root_of(x.q, x.k)
}
