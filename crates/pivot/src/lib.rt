// The search for the point that the ball meets over an edge.
#![tactic(auto)]

mod candidates;

ghost use Rattle.std.specs.Prelude.{◌≡◌, ◌<◌};
ghost use Rattle.grid.specs.Inner.Index.{CellsIndexed};
ghost use Rattle.spatial_hash.specs.Inner.Near.{Hashed};
ghost use Rattle.patch.specs.Lay.{edge};
ghost use Rattle.patch.specs.Search.{searching};
ghost use Rattle.decisions.specs.Decisions.{floats_of};
ghost use Rattle.nearby.specs.Inner.Ready.{SceneHeld, used_in_scene, SceneKept};
ghost use Rattle.lists.specs.Inner.Found.{option_found};

use decisions::Scene;
use spatial_hash::Hash;

// The unused point that makes the best acceptable triangle with the edge a, b.
pub fn try_ball_pivot(
    s: Scene,
    points: &[f32],
    w: &mut [u32],
    radius: f32,
    a: usize,
    b: usize,
    hash: Hash,
) -> Option<usize>
    requires { SceneHeld s points.now w.old × CellsIndexed s.grid points.now s.n w.old
        × Hashed hash points.now s.n w.old × (a < s.n) × (b < s.n) }
    ensures { (result
        ≡ option_found ((searching (floats_of s points.now) s.n).pivot_of radius
        (used_in_scene s w.old)
        (edge a b))) × SceneKept s w.old w.new }
{
    if !decisions::is_pivotable(points, radius, a, b) {
        return None;
    }
    candidates::find_best(s, points, w, radius, a, b, hash)
}
