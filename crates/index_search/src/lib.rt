// The nearest point of a cloud, by an index that is its own.
#![tactic(auto)]

ghost use Rattle.std.specs.Prelude.{◌≡◌, ◌/◌, ◌≤◌, ◌<◌, length};
ghost use Rattle.vector.specs.Inner.Numbers.{Finite};
ghost use Rattle.nearest.specs.Scan.{nearest};
ghost use Rattle.nearest.specs.Parts.{near_of_best};
ghost use Rattle.index_search.specs.Inner.Indexed.{OwnIndex, Width};

use nearest::Best;
use vector::Point3f;

// The width of the tree over n points.
pub fn width_of(n: usize) -> usize
    requires { (0 < n) × (n ≤ 4096) }
    ensures { Width n result × (result ≤ 4096) }
{
    let mut width: usize = 1;
    while 9 * width < n {
        width = 2 * width;
    }
    width
}

// The nearest point to a spot.
pub fn nearest_in(points: &[f32], index: &[u32], width: usize, spot: Point3f) -> Best
    requires { OwnIndex points.now index.now × Width (length points.now / 3) width × (width ≤ 4096)
        × Finite spot }
    ensures { near_of_best result ≡ nearest points.now (length points.now / 3) spot }
{
    let n = points.len() / 3;
    let square = vector::distance_squared(points::point_at(points, 0), spot);
    let mut best = [square, nearest::limit_of(square)];
    let place = [spot.x, spot.y, spot.z];
    let far = box_search::reach(index, n, spot);
    let number = box_search::search(
        points,
        &place,
        index,
        n,
        width,
        far,
        &index[..n],
        0,
        &mut best,
    );
    Best {
        square: best[0],
        number,
        limit: best[1],
    }
}
