// A test by squares that the cosine of a triangle's angle is at least a bound, before any root is taken: for all
// triangles whose squares lie in intervals.
#![tactic(auto)]

ghost use Rattle.std.specs.Prelude.{◌≡◌, true};
ghost use Rattle.cosines.specs.Inner.Cosine.{is_plain_pair, are_plain, is_comparable, limit_at, is_short, is_small};
ghost use Rattle.cosines.specs.Inner.Cosine.{NarrowLimit, NarrowAngle, interval};

use bounds::Interval;

// A limit for `is_narrow`. 0 passes no triangle, and stands where the bound is out of the range that is proved.
pub fn narrow_limit(cosine: f32) -> f32
    ensures { NarrowLimit cosine result }
{
    if cosine >= 0.5 {
        if cosine <= 0.999969482421875 {
            return (1.0 - cosine - 0.0000095367431640625) * 0.96875;
        }
    }
    0.0
}

// Whether nothing over- or underflows with squares between these.
fn is_plain(lo: f32, hi: f32) -> bool
    ensures { result ≡ is_plain_pair lo hi }
{
    0.0000000000009094947 <= lo && hi <= 67108864.0
}

// Whether none of two squares is more than so many times the other.
fn is_near(al: f32, ah: f32, cl: f32, ch: f32, times: f32) -> bool
    ensures { result ≡ is_comparable al ah cl ch times }
{
    ah <= times * cl && ch <= times * al
}

// The limit for edges whose ratio is at most 4, 16, 64 or 256: the more unlike they are, the larger is the cosine's
// error by rounding.
fn limit_at(al: f32, ah: f32, cl: f32, ch: f32, limit: f32) -> f32
    ensures { result ≡ limit_at al ah cl ch limit }
{
    if is_near(al, ah, cl, ch, 16.0) {
        return limit;
    }
    if is_near(al, ah, cl, ch, 256.0) {
        return limit - 0.00002288818359375;
    }
    if is_near(al, ah, cl, ch, 4096.0) {
        return limit - 0.00011444091796875;
    }
    if is_near(al, ah, cl, ch, 65536.0) {
        return limit - 0.00048065185546875;
    }
    0.0
}

// Whether an edge is not the longest: its square is at most that of one of the others.
fn is_short(al: f32, cl: f32, bh: f32) -> bool
    ensures { result ≡ is_short al cl bh }
{
    bh <= al || bh <= cl
}

// Whether all three intervals are plain.
pub fn are_plain(al: f32, ah: f32, cl: f32, ch: f32, bl: f32, bh: f32) -> bool
    ensures { result ≡ are_plain al ah cl ch bl bh }
{
    is_plain(al, ah) && (is_plain(cl, ch) && is_plain(bl, bh))
}

// Whether the cross product is small against the edges.
fn is_small(al: f32, cl: f32, cross: f32, t: f32) -> bool
    ensures { result ≡ is_small al cl cross t }
{
    0.00000095367432 <= t && cross <= t * (al * cl)
}

// The test, by the ends of the intervals.
fn passes(al: f32, ah: f32, cl: f32, ch: f32, bl: f32, bh: f32, cross: f32, limit: f32) -> bool
    ensures { result ≡ true → NarrowAngle limit (interval al ah) (interval cl ch) (interval bl bh) cross }
{
    are_plain(al, ah, cl, ch, bl, bh)
        && (is_short(al, cl, bh) && is_small(al, cl, cross, limit_at(al, ah, cl, ch, limit)))
}

// Whether the cosine at a point P, of the edges to Q and T, is surely at least the bound that the limit is for; from
// intervals with the squares of P Q, P T and Q T, and one that the square of the cross product at P is not above.
pub fn is_narrow(a: Interval, c: Interval, b: Interval, cross: f32, limit: f32) -> bool
    ensures { result ≡ true → NarrowAngle limit a c b cross }
{
    passes(a.lo, a.hi, c.lo, c.hi, b.lo, b.hi, cross, limit)
}
