// A box of the tree of a cloud: its coordinates, the axis where it is longest, and where it is written. The tree itself
// is defined in specs/, and crate `tree_build` builds it.
#![tactic(auto)]

ghost use Rattle.std.specs.Prelude.{◌≡◌, ◌+◌, ◌≤◌, ◌<◌, length};
ghost use Rattle.vector.specs.Inner.Axes.{axis_index};
ghost use Rattle.kd_tree.specs.Boxes.{plus_zero, box_corners, longest};
ghost use Rattle.kd_tree.specs.Inner.Written.{ListWritten};

use bounds::Bounds;
use vector::Axis;

// Minus zero as zero.
pub fn plus_zero(x: f32) -> f32
    ensures { result ≡ plus_zero x }
{
    if x == 0.0 {
        return 0.0;
    }
    x
}

// The axis where a box is longest, the earliest on a tie.
#[tactic(auto, unfolding(crate::specs::Boxes::longest))]
pub fn longest(b: Bounds) -> Axis
    ensures { axis_index result ≡ longest b }
{
    let x = b.hi.x - b.lo.x;
    let y = b.hi.y - b.lo.y;
    let z = b.hi.z - b.lo.z;
    if x < y {
        if y < z { Axis::Z } else { Axis::Y }
    } else if x < z {
        Axis::Z
    } else {
        Axis::X
    }
}

// A box's six coordinates, from `at` on.
pub fn put_box(boxes: &mut [f32], at: usize, b: Bounds)
    requires { at + 6 ≤ length boxes.old }
    ensures { ListWritten boxes.old boxes.new at (box_corners b) }
{
    boxes[at] = b.lo.x;
    boxes[at + 1] = b.lo.y;
    boxes[at + 2] = b.lo.z;
    boxes[at + 3] = b.hi.x;
    boxes[at + 4] = b.hi.y;
    boxes[at + 5] = b.hi.z;
}
