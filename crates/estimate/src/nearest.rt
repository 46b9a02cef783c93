// The least distance from a point to another. Squares are compared, and a root is taken only of the least; of the
// points those near by are looked at, through the spatial hash.
// How near is a guess, which decides nothing: a least square counts only if it is not above the limit that was looked
// within.
ghost use Rattle.std.specs.Prelude.{◌≡◌, false, ◌+◌, ◌*◌, ◌≤◌, ◌<◌, length, take, drop};
ghost use Rattle.std.specs.Float.{inf};
ghost use Rattle.lists.specs.Members.{Below};
ghost use Rattle.spatial_hash.specs.Inner.Near.{HashedAll};
ghost use Rattle.regions.specs.Inner.Regions.{neighbors_at, used_at};
ghost use Rattle.estimate.specs.Estimate.{least_distance};
ghost use Rattle.estimate.specs.Inner.Squares.{lesser_square, least_square, LookedWithin};

use spatial_hash::Hash;

// So often a look goes near by before one goes everywhere.
const LOOKS: usize = 6;

pub fn infinity() -> f32
    ensures { result ≡ inf false }
{
    1.0 / 0.0
}

// The lesser of s and the squared distance of point j from point i, if they are two.
fn lesser(points: &[f32], i: usize, j: usize, s: f32) -> f32
    requires { (3 * i + 2 < length points.now) × (3 * j + 2 < length points.now) }
    ensures { result ≡ lesser_square points.now i j s }
{
    if i == j {
        return s;
    }
    let e = vector::distance_squared(points::point_at(points, j), points::point_at(points, i));
    if e < s { e } else { s }
}

// The least squared distance from point i to another of the `found` points that are listed; infinity if there is none.
fn least_square(points: &[f32], n: usize, i: usize, w: &[u32], found: usize) -> f32
    requires { (i < n) × (n ≤ 4096) × (found ≤ n) × (3 * n ≤ length points.now) × (used_at n ≤ length w.now)
        × Below n (take found (drop (neighbors_at n) w.now)) }
    ensures { result
        ≡ least_square points.now i (inf false) (take found (drop (neighbors_at n) w.now)) }
{
    let mut s = infinity();
    for k in 0..found {
        s = lesser(points, i, w[regions::NEIGHBORS * n + k] as usize, s);
    }
    s
}

// The least squared distance from point i to another, if it is not above the limit.
fn look_within(points: &[f32], n: usize, hash: Hash, i: usize, limit: f32, w: &mut [u32]) -> f32
    requires { (i < n) × HashedAll hash points.now n w.old }
    ensures { LookedWithin hash points.now n i limit result w.new }
{
    let place = points::point_at(points, i);
    let reach = numbers::sqrt(limit) * 1.01;
    let found = spatial_hash::gather_within(points, w, n, hash, place, reach, limit);
    least_square(points, n, i, w, found)
}

// The limit to try next: the least square that was found beyond the last one, or a reach four times as far if none was.
fn wider(limit: f32, s: f32) -> f32 {
    if s < infinity() { s } else { limit * 16.0 }
}

// The least distance from point i to another, infinity if there is none. The last look goes everywhere.
pub fn least_distance(
    points: &[f32],
    n: usize,
    hash: Hash,
    i: usize,
    guess: f32,
    w: &mut [u32],
) -> f32
    requires { (i < n) × HashedAll hash points.now n w.old }
    ensures { (result ≡ least_distance points.now n i)
        × HashedAll hash points.now n w.new }
{
    let everywhere = infinity();
    let mut limit = guess * guess;
    for _look in 0..LOOKS {
        let s = look_within(points, n, hash, i, limit, w);
        if s <= limit {
            return numbers::sqrt(s);
        }
        limit = wider(limit, s);
    }
    let least = look_within(points, n, hash, i, everywhere, w);
    numbers::sqrt(least)
}

// A guess at how far apart neighbours are: the largest distance from the first point, by the root of n.
pub fn guess_spacing(points: &[f32], n: usize) -> f32
    requires { (n ≤ 4096) × (3 * n ≤ length points.now) }
{
    let mut far = 0.0;
    for i in 0..n {
        far = numbers::max(
            far,
            vector::distance_squared(points::point_at(points, i), points::point_at(points, 0)),
        );
    }
    numbers::sqrt(far / n as f32)
}

// A guess for the next sample: a little more than the distance of the last one, if it has one.
pub fn guess_after(guess: f32, d: f32) -> f32 {
    if d < infinity() && d > 0.0 {
        d * 1.5
    } else {
        guess
    }
}
