// The grammar of the cloud file with no value worked out: the place behind a number, a field or a point's line, if it
// is well formed.
ghost use Rattle.std.specs.Prelude.{◌≡◌, Bool, ℕ, drop};
ghost use Rattle.numerals.specs.Format.{fraction, unsigned_number, number};
ghost use Rattle.cloud_lines.specs.Format.{field, triple, point_fields};
ghost use Rattle.cloud_lines.specs.Inner.Bare.{bare, skip_means};

use numerals::{behind_minus, byte_is, skip_digits};

// What follows a whole part.
fn skip_fraction(s: &[u8], at: usize) -> Option<usize>
    ensures { (negative : Bool) (units : ℕ)
        → skip_means s.now result ≡ bare (fraction negative units (drop at s.now)) }
{
    if byte_is(s, at, b'.') {
        skip_digits(s, at + 1, 6)
    } else {
        Some(at)
    }
}

// A number without its sign.
fn skip_magnitude(s: &[u8], at: usize) -> Option<usize>
    ensures { (negative : Bool)
        → skip_means s.now result ≡ bare (unsigned_number negative (drop at s.now)) }
{
    let end = skip_digits(s, at, 5)?;
    skip_fraction(s, end)
}

fn skip_number(s: &[u8], at: usize) -> Option<usize>
    ensures { skip_means s.now result ≡ bare (number (drop at s.now)) }
{
    skip_magnitude(s, behind_minus(s, at))
}

// A number and the byte that ends it.
fn skip_field(s: &[u8], at: usize, end: u8) -> Option<usize>
    ensures { skip_means s.now result ≡ bare (field end (drop at s.now)) }
{
    let next = skip_number(s, at)?;
    if byte_is(s, next, end) {
        Some(next + 1)
    } else {
        None
    }
}

// Three fields.
fn skip_triple(s: &[u8], at: usize, last: u8) -> Option<usize>
    ensures { skip_means s.now result ≡ bare (triple last (drop at s.now)) }
{
    let second = skip_field(s, at, b',')?;
    let third = skip_field(s, second, b',')?;
    skip_field(s, third, last)
}

// A point's line.
pub fn skip_point(s: &[u8], at: usize) -> Option<usize>
    ensures { skip_means s.now result ≡ bare (point_fields (drop at s.now)) }
{
    let middle = skip_triple(s, at, b',')?;
    skip_triple(s, middle, b'\n')
}
