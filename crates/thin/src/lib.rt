// A test by squares that a triangle's aspect ratio is at most a bound, before any root is taken.
#![tactic(auto)]

ghost use Rattle.std.specs.Prelude.{◌≡◌, true};
ghost use Rattle.thin.specs.Inner.Thin.{ThinLimit, ThinUpTo, square_between, is_plain_triangle, spread};

fn is_between(x: f32, lo: f32, hi: f32) -> bool
    ensures { result ≡ square_between x lo hi }
{
    lo <= x && x <= hi
}

// A limit for `is_thin`. -1 passes no triangle, and stands where the bound is out of the range that is proved.
pub fn thin_limit(aspect: f32) -> f32
    ensures { ThinLimit aspect result }
{
    if is_between(aspect, 0.001953125, 4.0) {
        return aspect * aspect * 0.24999619;
    }
    -1.0
}

// Whether nothing over- or underflows with these squares, but for the limit's last product in `is_thin`.
fn is_plain(a: f32, b: f32, c: f32, cross: f32) -> bool
    ensures { result ≡ is_plain_triangle a b c cross }
{
    is_between(a, 0.00000000000090949470, 67108864.0)
        && (is_between(b, 0.00000000000090949470, 67108864.0)
            && (is_between(c, 0.00000000000090949470, 67108864.0)
                && is_between(cross, 0.00000000000000000086736174, 1152921504606846976.0)))
}

// What the square of the edges' sum is at least, the product of two lengths being no less than the smaller square.
fn spread(a: f32, b: f32, c: f32) -> f32
    ensures { result ≡ spread a b c }
{
    (a + b + c) + 2.0 * (numbers::min(a, b) + numbers::min(b, c) + numbers::min(c, a))
}

// Whether the aspect ratio is surely at most the bound that the limit is for; from the squares of the edges' lengths
// and of the cross product's, or one that is not below it. Where the last product underflows it is below the square of
// `cross`, which does not.
pub fn is_thin(a: f32, b: f32, c: f32, cross: f32, limit: f32) -> bool
    ensures { result ≡ true → ThinUpTo limit a b c cross }
{
    if !(limit >= 0.00000095367432) {
        return false;
    }
    if !is_plain(a, b, c, cross) {
        return false;
    }
    cross * cross <= limit * spread(a, b, c) * (a * b * c)
}
