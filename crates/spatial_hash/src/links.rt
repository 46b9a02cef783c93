// Chaining the points into buckets. A bucket's word and a point's have the number of the next point plus 1, or 0;
// a point's that was taken out has a number beyond all others.
ghost use Rattle.std.specs.Prelude.{◌≡◌, ℕ, ◌+◌, ◌*◌, ◌≤◌, ◌<◌, length, take, get_or, set};
ghost use Rattle.points.specs.Points.{point_at};
ghost use Rattle.regions.specs.Inner.Regions.{links_at, starts_at, bucket_room, words_length};
ghost use Rattle.bucket_order.specs.Inner.Chains.{Chained};
ghost use Rattle.spatial_hash.specs.Inner.Buckets.{bucket_at, buckets, links_of, is_out};
ghost use Rattle.vector.specs.Inner.Numbers.{Finite};
ghost use Rattle.spatial_hash.specs.Inner.Near.{EmptyHash};

use super::cells;
use crate::Hash;
use vector::Point3f;

// The lesser of two coordinates, on each axis.
fn lower(a: Point3f, b: Point3f) -> Point3f
    requires { Finite a × Finite b }
    ensures { Finite result }
{
    Point3f {
        x: numbers::min(a.x, b.x),
        y: numbers::min(a.y, b.y),
        z: numbers::min(a.z, b.z),
    }
}

// The least coordinates of the points. That they are numbers is all that is promised.
pub fn least_corner(points: &[f32], n: usize) -> Point3f
    requires { (n ≤ 4096) × (3 * n ≤ length points.now) × ((i : ℕ) → i < n → Finite (point_at points.now i)) }
    ensures { Finite result }
{
    if n == 0 {
        return Point3f {
            x: 0.0,
            y: 0.0,
            z: 0.0,
        };
    }
    let mut least = points::point_at(points, 0);
    for i in 1..n {
        least = lower(least, points::point_at(points, i));
    }
    least
}

// Empties the buckets.
pub fn clear_heads(w: &mut [u32], n: usize, side: usize)
    requires { (n ≤ 4096) × (side ≤ 24) × (side * side * (side + 1) ≤ bucket_room n)
        × (words_length n ≤ length w.old) }
    ensures { ((b : ℕ) → b < side * side * (side + 1) → get_or w.new (starts_at n + b) 0 ≡ 0)
        × (take (links_at n) w.new ≡ take (links_at n) w.old) }
{
    let buckets = side * side * (side + 1);
    let starts = regions::STARTS * n;
    w[starts..starts + buckets].fill(0);
}

// Whether point k was taken out.
pub fn is_out(w: &[u32], n: usize, k: usize) -> bool
    requires { (n ≤ 4096) × (k < n) × (words_length n ≤ length w.now) }
    ensures { result ≡ is_out n (links_of n w.now) k }
{
    w[regions::LINKS * n + k] > n as u32
}

// Puts point j at the head of bucket b.
fn link_point(w: &mut [u32], n: usize, b: usize, j: usize)
    requires { (n ≤ 4096) × (j < n) × (b < bucket_room n) × (words_length n ≤ length w.old) }
    ensures { w.new ≡ set
        (set w.old (links_at n + j) (get_or w.old (starts_at n + b) 0)) (starts_at n + b) (j + 1) }
{
    w[regions::LINKS * n + j] = w[regions::STARTS * n + b];
    w[regions::STARTS * n + b] = (j + 1) as u32;
}

// Chains the points into empty buckets.
pub fn link_points(points: &[f32], w: &mut [u32], n: usize, hash: Hash)
    requires { EmptyHash hash points.now n w.old }
    ensures { Chained (bucket_at hash points.now) n (buckets hash) w.new n
        × (take (links_at n) w.new ≡ take (links_at n) w.old) }
{
    for j in 0..n {
        let b = cells::bucket_of(hash, points::point_at(points, j));
        link_point(w, n, b, j);
    }
}
