// One number of the file: an optional minus, 1 to 5 digits, and optionally a point and 1 to 6 digits.
#![tactic(auto)]

ghost use Rattle.std.specs.Prelude.{◌≡◌, cond, ◌+◌, ◌-◌, ◌^◌, ◌<◌, take, drop};
ghost use Rattle.numerals.specs.Format.{starts_with, starts_digit, digits, few, digits_value, fraction};
ghost use Rattle.numerals.specs.Format.{unsigned_number, number};
ghost use Rattle.numerals.specs.Inner.Answers.{taken_means, skipped_digits};
ghost use Rattle.numerals.specs.Inner.Ready.{Digits};

use decimals::decimal_value;

// The first malformed line of a file, from 1.
#[derive(Clone, Copy)]
pub struct MalformedLine {
    pub line: usize,
}

pub fn byte_is(s: &[u8], at: usize, b: u8) -> bool
    ensures { result ≡ starts_with b (drop at s.now) }
{
    at < s.len() && s[at] == b
}

fn is_digit(s: &[u8], at: usize) -> bool
    ensures { result ≡ starts_digit (drop at s.now) }
{
    at < s.len() && s[at].is_ascii_digit()
}

// The place after the digits that start at a place.
pub fn digits_end(s: &[u8], at: usize) -> usize
    ensures { result ≡ at + digits (drop at s.now) }
{
    let mut i = at;
    while is_digit(s, i) {
        i += 1;
    }
    i
}

// Whether there are 1 to most digits.
pub fn is_few(count: usize, most: usize) -> bool
    ensures { result ≡ few count most }
{
    1 <= count && count <= most
}

// The place behind 1 to most digits that start at a place.
pub fn skip_digits(s: &[u8], at: usize, most: usize) -> Option<usize>
    ensures { result ≡ skipped_digits s.now at most }
{
    let end = digits_end(s, at);
    is_few(end - at, most).then_some(end)
}

// The whole number that the digits from at to end write.
pub fn whole_of(s: &[u8], at: usize, end: usize) -> u32
    requires { Digits s.now at end }
    ensures { (result ≡ digits_value 0 (take (end - at) (drop at s.now))) × (result < 10 ^ (end - at)) }
{
    let mut v = 0;
    for i in at..end {
        v = v * 10 + u32::from(s[i] - b'0');
    }
    v
}

// What follows a whole part: a point with digits, or nothing.
fn fraction_at(s: &[u8], at: usize, negative: bool, units: u32) -> Option<(f32, usize)>
    requires { units < 10 ^ 5 }
    ensures { taken_means s.now result ≡ fraction negative units (drop at s.now) }
{
    if byte_is(s, at, b'.') {
        let start = at + 1;
        let end = skip_digits(s, start, 6)?;
        let parts = whole_of(s, start, end);
        Some((decimal_value(negative, units, parts, end - start), end))
    } else {
        Some((decimal_value(negative, units, 0, 0), at))
    }
}

// A number without its sign.
fn magnitude_at(s: &[u8], at: usize, negative: bool) -> Option<(f32, usize)>
    ensures { taken_means s.now result ≡ unsigned_number negative (drop at s.now) }
{
    let end = skip_digits(s, at, 5)?;
    let units = whole_of(s, at, end);
    fraction_at(s, end, negative, units)
}

// The place behind a minus, or the place itself where there is none.
pub fn behind_minus(s: &[u8], at: usize) -> usize
    ensures { result ≡ cond (starts_with 45 (drop at s.now)) (at + 1) at }
{
    if byte_is(s, at, b'-') { at + 1 } else { at }
}

// The number that stands at a place of the bytes, with the place behind it, or none.
pub fn number_at(s: &[u8], at: usize) -> Option<(f32, usize)>
    ensures { taken_means s.now result ≡ number (drop at s.now) }
{
    magnitude_at(s, behind_minus(s, at), byte_is(s, at, b'-'))
}
