// The f32 of a decimal: the whole number that all its digits write, over a power of ten, rounded once to the nearest
// f32.
#![tactic(auto)]

ghost use Rattle.std.specs.Prelude.{◌≡◌, not, true, false, ◌≢◌, ◌+◌, ◌*◌, ◌%◌, ◌^◌, ◌≤◌, ◌<◌, T};
ghost use Rattle.std.specs.Float.{binary32};
ghost use Rattle.std.specs.Float.Ieee.{of_bits, nan_bits, round};
ghost use Rattle.std.specs.Float.Ieee.Nearest.{closest};
ghost use Rattle.decimals.specs.Decimal.{decimal};
ghost use Rattle.decimals.specs.Inner.Ready.{Decimal, Tenths};

// Whole numbers up to here are f32.
const EXACT: u64 = 16777216;

fn power_of_ten(places: usize) -> u32
    requires { places ≤ 6 }
    ensures { result ≡ 10 ^ places }
{
    match places {
        0 => 1,
        1 => 10,
        2 => 100,
        3 => 1000,
        4 => 10000,
        5 => 100000,
        _ => 1000000,
    }
}

// n / d to the nearest whole number, where that is no tie.
fn nearest_quotient(n: u64, d: u64) -> u64
    requires { (0 < d) × (d ≤ 1000000) × (n < 2 ^ 44) × (n % d * 2 ≢ d) }
    ensures { result ≡ closest n d }
{
    let q = n / d;
    if n % d * 2 < d { q } else { q + 1 }
}

// The bit pattern of m / d: doubled until it has 24 digits before the point, rounded to a whole number, with the
// exponent put before the digits.
fn doubled_bits(m: u64, d: u64) -> u32
    requires { (0 < m) × Tenths m d }
    ensures { (of_bits binary32 result ≡ round binary32 false m d) × T (not (nan_bits binary32 result)) }
{
    let least = d * 8388608;
    let mut n = m * 128;
    let mut h: u32 = 142;
    while n < least {
        n *= 2;
        h -= 1;
    }
    h * 8388608 + nearest_quotient(n, d) as u32
}

// A guess at the low bits of that pattern: the f64 quotient's, with 24 digits left. Nothing is promised of it.
fn guess(m: u64, d: u64) -> u32
    requires { (m < 2 ^ 37) × (d ≤ 1000000) }
{
    let v = m as f64 / d as f64;
    if v < 1048576.0 {
        let x = f64::to_bits(v);
        (x / 536870912 % 1073741824 + x / 268435456 % 2) as u32
    } else {
        0
    }
}

// Whether n / d has 24 digits before the point, or 25, and q is the nearest whole number.
fn is_nearest(n: u64, d: u64, q: u64) -> bool
    requires { (n < 2 ^ 60) × (d ≤ 1000000) × (q < 2 ^ 24) }
    ensures { result ≡ true → (8388608 * d ≤ n) × (q * d * 2 < n * 2 + d) × (n * 2 < q * d * 2 + d) }
{
    let p = q * d;
    p * 2 < n * 2 + d && n * 2 < p * 2 + d && d * 8388608 <= n
}

// The bit pattern of m / d, for a quotient from 16 on: the guess where it stands the test, else by doubling.
fn quotient_bits(m: u64, d: u64) -> u32
    requires { (0 < m) × Tenths m d }
    ensures { (of_bits binary32 result ≡ round binary32 false m d) × T (not (nan_bits binary32 result)) }
{
    let g = guess(m, d);
    let s = 22 - g / 8388608 % 16;
    let q = g % 8388608 + 8388608;
    if is_nearest(m << s, d, q as u64) {
        (149 - s) * 8388608 + q
    } else {
        doubled_bits(m, d)
    }
}

// The f32 nearest to m / d: where both are f32, a division rounds just so.
fn quotient(m: u64, d: u32) -> f32
    requires { Tenths m d }
    ensures { result ≡ round binary32 false m d }
{
    if m <= EXACT {
        m as f32 / d as f32
    } else {
        f32::from_bits(quotient_bits(m, d as u64))
    }
}

// The f32 that a number stands for: the one place that says how it is rounded.
pub fn decimal_value(negative: bool, units: u32, parts: u32, places: usize) -> f32
    requires { Decimal units parts places }
    ensures { result ≡ decimal negative units parts places }
{
    let ten = power_of_ten(places);
    let m = units as u64 * ten as u64 + parts as u64;
    let v = quotient(m, ten);
    if negative { -v } else { v }
}
