// Walks through rows of buckets. Each appends the points there to the neighbours, of which there are `count`, and
// returns how many there are then.
// The coordinates are there for the contracts alone.
ghost use Rattle.std.specs.Prelude.{◌+◌, ◌-◌, ◌*◌, ◌≤◌, ◌<◌, length};
ghost use Rattle.regions.specs.Inner.Regions.{order_at, words_length};
ghost use Rattle.spatial_hash.specs.Inner.Buckets.{links_of, residues, row, row_of, plane_of, buckets_of_box};
ghost use Rattle.spatial_hash.specs.Inner.Buckets.{points_in};
ghost use Rattle.spatial_hash.specs.Inner.Buckets.{Appended};
ghost use Rattle.bucket_order.specs.Inner.Order.{reads};
ghost use Rattle.spatial_hash.specs.Inner.Near.{NeighborRoom};

use super::cells;
use crate::{Hash, Span};

// The points at some places of the order, one after another.
fn copy_points(w: &mut [u32], n: usize, from: usize, to: usize, count: usize) -> usize
    requires { (n ≤ 4096) × (words_length n ≤ length w.old) × (from ≤ to) × (to ≤ n) × (count + (to - from) ≤ n) }
    ensures { Appended n w.old w.new count result
        (reads w.old (order_at n + from) (to - from)) }
{
    let mut total = count;
    for i in from..to {
        w[regions::NEIGHBORS * n + total] = w[regions::ORDER * n + regions::EXTRA + i];
        total += 1;
    }
    total
}

// The points of the buckets of one row from one remainder to before another.
fn visit_run(
    points: &[f32],
    w: &mut [u32],
    n: usize,
    hash: Hash,
    at: usize,
    first: usize,
    end: usize,
    count: usize,
) -> usize
    requires { (at < hash.side * hash.side) × (first ≤ end) × (end ≤ hash.side)
        × NeighborRoom hash points.now n w.old count
        (points_in hash points.now n (links_of n w.old)
        (row (hash.side + 1) at (residues hash.side first (end - first)))) }
    ensures { Appended n w.old w.new count result
        (points_in hash points.now n (links_of n w.old)
        (row (hash.side + 1) at (residues hash.side first (end - first)))) }
{
    let side = hash.side;
    let starts = regions::STARTS * n + at * (side + 1);
    let from = w[starts + first] as usize;
    let to = w[starts + end] as usize;
    copy_points(w, n, from, to, count)
}

// The points of the buckets of one row: those with the same remainders on the first two axes.
fn visit_row(
    points: &[f32],
    w: &mut [u32],
    n: usize,
    hash: Hash,
    at: usize,
    zs: Span,
    count: usize,
) -> usize
    requires { (at < hash.side * hash.side) × (zs.first < hash.side) × (zs.count ≤ hash.side)
        × NeighborRoom hash points.now n w.old count
        (points_in hash points.now n (links_of n w.old) (row_of hash.side at zs)) }
    ensures { Appended n w.old w.new count result
        (points_in hash points.now n (links_of n w.old) (row_of hash.side at zs)) }
{
    let side = hash.side;
    let first = zs.first;
    let width = zs.count;
    let end = first + width;
    if end <= side {
        return visit_run(points, w, n, hash, at, first, end, count);
    }
    let total = visit_run(points, w, n, hash, at, first, side, count);
    visit_run(points, w, n, hash, at, 0, end - side, total)
}

// The points of the buckets of one plane: those with the same remainder on the first axis.
fn visit_plane(
    points: &[f32],
    w: &mut [u32],
    n: usize,
    hash: Hash,
    x: usize,
    ys: Span,
    zs: Span,
    count: usize,
) -> usize
    requires { (x < hash.side) × (ys.first < hash.side) × (zs.first < hash.side) × (zs.count ≤ hash.side)
        × NeighborRoom hash points.now n w.old count
        (points_in hash points.now n (links_of n w.old) (plane_of hash.side x ys zs)) }
    ensures { Appended n w.old w.new count result
        (points_in hash points.now n (links_of n w.old) (plane_of hash.side x ys zs)) }
{
    let mut total = count;
    let mut y = ys.first;
    for _done in 0..ys.count {
        total = visit_row(points, w, n, hash, x * hash.side + y, zs, total);
        y = cells::next(hash.side, y);
    }
    total
}

// The points of the buckets with a remainder from each of three spans.
pub fn visit_planes(
    points: &[f32],
    w: &mut [u32],
    n: usize,
    hash: Hash,
    xs: Span,
    ys: Span,
    zs: Span,
) -> usize
    requires { (xs.first < hash.side) × (ys.first < hash.side) × (zs.first < hash.side)
        × (zs.count ≤ hash.side)
        × NeighborRoom hash points.now n w.old 0
        (points_in hash points.now n (links_of n w.old) (buckets_of_box hash.side xs ys zs)) }
    ensures { Appended n w.old w.new 0 result
        (points_in hash points.now n (links_of n w.old) (buckets_of_box hash.side xs ys zs)) }
{
    let mut total: usize = 0;
    let mut x = xs.first;
    for _done in 0..xs.count {
        total = visit_plane(points, w, n, hash, x, ys, zs, total);
        x = cells::next(hash.side, x);
    }
    total
}
