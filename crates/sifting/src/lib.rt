// Of the points that are listed those near a place. Each is written where it would stay before it is asked, so that no
// branch has to be foretold.
#![tactic(auto)]

ghost use Rattle.std.specs.Prelude.{◌≡◌, ◌+◌, ◌*◌, ◌<◌, length};
ghost use Rattle.sifting.specs.Inner.Sift.{is_within, PointsListed, Sifted};

use vector::Point3f;

// Whether the squared distance of point k from a place is not above a limit.
fn is_within(points: &[f32], k: usize, place: Point3f, limit: f32) -> bool
    requires { 3 * k + 2 < length points.now }
    ensures { result ≡ is_within points.now place limit k }
{
    !(vector::distance_squared(points::point_at(points, k), place) > limit)
}

// Leaves those of the `found` points that are listed whose squared distance from a place is not above a limit, in their
// order, and returns how many they are.
pub fn keep_within(
    points: &[f32],
    w: &mut [u32],
    n: usize,
    found: usize,
    place: Point3f,
    limit: f32,
) -> usize
    requires { PointsListed points.now n w.old found }
    ensures { Sifted points.now n place limit w.old w.new found result }
{
    let at = regions::NEIGHBORS * n;
    let mut kept: usize = 0;
    for m in 0..found {
        let k = w[at + m];
        w[at + kept] = k;
        if is_within(points, k as usize, place, limit) {
            kept += 1;
        }
    }
    kept
}
