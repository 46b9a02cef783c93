// Intervals of one coordinate.
ghost use Rattle.std.specs.Prelude.{◌≡◌, not, T};
ghost use Rattle.std.specs.Float.Ieee.{is_nan};
ghost use Rattle.numbers.specs.Order.{minimum, maximum};
ghost use Rattle.intervals.specs.Inner.Enclosed.{Squares, Products, Parts};

use bounds::Interval;

// The lesser of two, unless the first is a not-a-number.
pub fn lesser(a: f32, b: f32) -> f32
    ensures { T (not (is_nan a)) → result ≡ minimum a b }
{
    if b < a { b } else { a }
}

// The greater of two, likewise.
pub fn greater(a: f32, b: f32) -> f32
    ensures { T (not (is_nan a)) → result ≡ maximum a b }
{
    if b > a { b } else { a }
}

// The squares of the numbers from lo to hi.
pub fn squares(lo: f32, hi: f32) -> Interval
    ensures { Squares lo hi result }
{
    let m = lesser(lesser(-lo, hi), 0.0);
    let most = greater(lo * lo, hi * hi);
    Interval {
        lo: m * m,
        hi: most,
    }
}

// The products of the numbers from a to b with those from c to d: the ends are among those of the ends.
fn products(a: f32, b: f32, c: f32, d: f32) -> Interval
    ensures { Products a b c d result }
{
    let least = lesser(lesser(a * c, a * d), lesser(b * c, b * d));
    let most = greater(greater(a * c, a * d), greater(b * c, b * d));
    Interval {
        lo: least,
        hi: most,
    }
}

// One coordinate of a cross product: such products less others.
pub fn parts(a: f32, b: f32, c: f32, d: f32, e: f32, f: f32, g: f32, h: f32) -> Interval
    ensures { Parts a b c d e f g h result }
{
    let first = products(a, b, c, d);
    let second = products(e, f, g, h);
    Interval {
        lo: first.lo - second.hi,
        hi: first.hi - second.lo,
    }
}
