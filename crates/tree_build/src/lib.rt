// The tree of a cloud from its points' three orders, one along each axis: each part is bounded, and split until it is a
// leaf.
#![tactic(auto)]

ghost use Rattle.std.specs.Prelude.{length};
ghost use Rattle.kd_tree.specs.Inner.Written.{Splits};
ghost use Rattle.tree_build.specs.Inner.Ready.{SplitReady};

// Splits a list of point numbers, whose three orders are given, until eight or fewer are left in each part, and writes
// the boxes from `at` on; answers where they end. The orders are work.
pub fn split(
    points: &[f32],
    order: &mut [u32],
    x: &mut [u32],
    y: &mut [u32],
    z: &mut [u32],
    work: &mut [u32],
    boxes: &mut [f32],
    at: usize,
) -> usize
    requires { SplitReady points.now order.old x.old y.old z.old (length work.old)
        (length boxes.old) at }
    ensures { Splits points.now order.old order.new boxes.old
        boxes.new at result }
{
    let n = order.len();
    let axis = axis_orders::bound(points, x, y, z, boxes, at);
    if n <= 8 {
        return at + 6;
    }
    axis_orders::divide(points, axis, order, x, y, z, work);
    let half = n / 2;
    let next = split(
        points,
        &mut order[..half],
        &mut x[..half],
        &mut y[..half],
        &mut z[..half],
        work,
        boxes,
        at + 6,
    );
    split(
        points,
        &mut order[half..],
        &mut x[half..],
        &mut y[half..],
        &mut z[half..],
        work,
        boxes,
        next,
    )
}
