// The points near a place: a spatial hash over the cloud, in its regions of the u32 work slice. How its cells are sized
// is a guess that decides nothing;
// what is promised is that no point within the distance asked for is left out, but those that were removed.
// The points of a row of buckets, those with the same remainders on the first two axes, lie one after another, so that
// a walk goes from row to row and passes no empty bucket.
#![tactic(auto)]

mod cells;
mod links;
mod order;
mod walk;

ghost use Rattle.std.specs.Prelude.{◌*◌, ◌<◌};
ghost use Rattle.vector.specs.Inner.Numbers.{Finite};
ghost use Rattle.spatial_hash.specs.Inner.Near.{HashReady, HashLinked, Gathered, NearPlace, Built, Removed};

use bounds::Bounds;
use vector::Point3f;

// How a coordinate becomes the number of a cell, and how many of these numbers have buckets of their own on an axis.
#[derive(Clone, Copy)]
pub struct Hash {
    pub least: Point3f,
    pub scale: f32,
    pub side: usize,
}

// Remainders that follow one another, the side's last by 0.
#[derive(Clone, Copy)]
pub struct Span {
    pub first: usize,
    pub count: usize,
}

// Hashes n points. The size of the cells is a guess.
pub fn build(points: &[f32], n: usize, size: f32, w: &mut [u32]) -> Hash
    requires { HashReady points.now n w.old }
    ensures { Built result points.now n w.old w.new }
{
    let least = links::least_corner(points, n);
    let scale = cells::scale_for(size);
    let side = cells::side_for(n);
    let hash = Hash { least, scale, side };
    links::clear_heads(w, n, side);
    links::link_points(points, w, n, hash);
    order::order_points(points, w, n, hash);
    hash
}

// Writes the numbers of points into the region of the neighbours, those within the bounds that are not out among them,
// and returns how many they are.
pub fn gather(points: &[f32], w: &mut [u32], n: usize, hash: Hash, bounds: Bounds) -> usize
    requires { HashLinked hash points.now n w.old }
    ensures { Gathered points.now n bounds w.old w.new result }
{
    let xs = cells::span(hash, hash.least.x, bounds.lo.x, bounds.hi.x);
    let ys = cells::span(hash, hash.least.y, bounds.lo.y, bounds.hi.y);
    let zs = cells::span(hash, hash.least.z, bounds.lo.z, bounds.hi.z);
    walk::visit_planes(points, w, n, hash, xs, ys, zs)
}

// Gathers the points whose squared distance from a place is not above a limit. The reach is a guess at how far they
// are.
pub fn gather_within(
    points: &[f32],
    w: &mut [u32],
    n: usize,
    hash: Hash,
    place: Point3f,
    reach: f32,
    limit: f32,
) -> usize
    requires { HashLinked hash points.now n w.old × Finite place }
    ensures { NearPlace points.now n place limit w.old w.new result }
{
    let bounds = bounds::covering(place, reach, limit);
    let found = gather(points, w, n, hash, bounds);
    sifting::keep_within(points, w, n, found, place, limit)
}

// Takes point k out of its bucket, if it is still there.
pub fn remove(points: &[f32], w: &mut [u32], n: usize, hash: Hash, k: usize)
    requires { HashLinked hash points.now n w.old × (k < n) }
    ensures { Removed hash points.now n w.old w.new k }
{
    if links::is_out(w, n, k) {
        return;
    }
    let side = hash.side;
    let place = points::point_at(points, k);
    let row = regions::STARTS * n + cells::row_of(hash, place) * (side + 1);
    let own = row + cells::place_in_row(hash, place);
    bucket_order::leave_row(w, n, k, own, row + side);
    w[regions::LINKS * n + k] = (n + 1) as u32;
}
