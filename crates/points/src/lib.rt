// A cloud's points in a slice of coordinates, three to a point.
#![tactic(auto)]

ghost use Rattle.std.specs.Prelude.{◌≡◌, ◌+◌, ◌*◌, ◌<◌, length};
ghost use Rattle.points.specs.Points.{point_at};

use vector::Point3f;

// Point number i, from 0.
pub fn point_at(points: &[f32], i: usize) -> Point3f
    requires { 3 * i + 2 < length points.now }
    ensures { result ≡ point_at points.now i }
{
    let at = 3 * i;
    Point3f {
        x: points[at],
        y: points[at + 1],
        z: points[at + 2],
    }
}
