// Fractions of whole numbers in lowest terms.
#![tactic(auto)]

ghost use Rattle.std.specs.Prelude.{◌<◌, ◌≡◌};
ghost use Rattle.fractions.specs.Terms.{greatest_divisor, lowest};

#[repr(C)]
#[derive(Clone, Copy)]
pub struct Fraction {
    pub numerator: u64,
    pub denominator: u64,
}

// The greatest common divisor, by Euclid.
fn greatest_divisor(a: u64, b: u64) -> u64
    ensures { result ≡ greatest_divisor a b }
{
    let mut x = a;
    let mut y = b;
    while y != 0 {
        let rest = x % y;
        x = y;
        y = rest;
    }
    x
}

// The same fraction in lowest terms.
pub fn lowest(numerator: u64, denominator: u64) -> Fraction
    requires { 0 < denominator }
    ensures { result ≡ lowest numerator denominator }
{
    let divisor = greatest_divisor(numerator, denominator);
    Fraction {
        numerator: numerator / divisor,
        denominator: denominator / divisor,
    }
}
