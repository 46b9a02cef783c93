// The numbers of all points as a k-d tree has them, and the boxes of its parts.
#![tactic(auto)]

ghost use Rattle.std.specs.Prelude.{◌≡◌, ◌≤◌, length};
ghost use Rattle.lists.specs.Lists.{up_from};
ghost use Rattle.vector.specs.Inner.Axes.{axis_index};
ghost use Rattle.axis_sort.specs.Axis.{precedes};
ghost use Rattle.axis_sort.specs.Sorted.{sorted_by};
ghost use Rattle.point_order.specs.Inner.Ordering.{PointOrderReady, OrderedAll};

use vector::Axis;

// All numbers in order along an axis: guessed, tested, and sorted where the guess fails.
fn order_along(
    points: &[f32],
    axis: Axis,
    list: &mut [u32],
    work: &mut [u32],
    keys: &mut [u32],
    counts: &mut [u32],
    floats: &mut [f32],
)
    requires { PointOrderReady points.now (length list.old) (length work.old) (length counts.old)
        (length floats.old) × (length list.old ≤ length keys.old) }
    ensures { list.new
        ≡ sorted_by (precedes points.now (axis_index axis)) (up_from 0 (length list.old)) }
{
    axis_guess::guess(points, axis, list, work, keys, counts);
    if axis_guess::rises(points, axis, list) {
        return;
    }
    filling::number_order(list);
    axis_sort::sort(points, axis, list, floats);
}

// The numbers of all points as the splits leave them, and the boxes at the front of the floats; answers where these
// end. The slices x, y and z are for the three orders; until these are there `order` has the guesses' keys.
fn order_all(
    points: &[f32],
    order: &mut [u32],
    x: &mut [u32],
    y: &mut [u32],
    z: &mut [u32],
    work: &mut [u32],
    counts: &mut [u32],
    floats: &mut [f32],
) -> usize
    requires { PointOrderReady points.now (length order.old) (length work.old) (length counts.old)
        (length floats.old)
        × (length x.old ≡ length order.old) × (length y.old ≡ length order.old)
        × (length z.old ≡ length order.old) }
    ensures { OrderedAll points.now order.new floats.new result }
{
    order_along(points, Axis::X, x, work, order, counts, floats);
    order_along(points, Axis::Y, y, work, order, counts, floats);
    order_along(points, Axis::Z, z, work, order, counts, floats);
    filling::number_order(order);
    tree_build::split(points, order, x, y, z, work, floats, 0)
}

// Orders all points with work slices that may be longer than it takes.
fn order_in(
    points: &[f32],
    order: &mut [u32],
    x: &mut [u32],
    y: &mut [u32],
    z: &mut [u32],
    work: &mut [u32],
    counts: &mut [u32],
    floats: &mut [f32],
) -> usize
    requires { PointOrderReady points.now (length order.old) (length work.old) (length counts.old)
        (length floats.old)
        × (length order.old ≤ length x.old) × (length order.old ≤ length y.old)
        × (length order.old ≤ length z.old) }
    ensures { OrderedAll points.now order.new floats.new result }
{
    let n = order.len();
    order_all(
        points,
        order,
        &mut x[..n],
        &mut y[..n],
        &mut z[..n],
        work,
        counts,
        floats,
    )
}

// Orders all points with slices of its own for the three orders, as two parts of one slice can't be lent at a time.
pub fn order_points(points: &[f32], order: &mut [u32], floats: &mut [f32]) -> usize
    requires { PointOrderReady points.now (length order.old) (length order.old) 2048 (length floats.old) }
    ensures { OrderedAll points.now order.new floats.new result }
{
    let mut x = [0u32; 4096];
    let mut y = [0u32; 4096];
    let mut z = [0u32; 4096];
    let mut work = [0u32; 4096];
    let mut counts = [0u32; 2048];
    order_in(
        points,
        order,
        &mut x,
        &mut y,
        &mut z,
        &mut work,
        &mut counts,
        floats,
    )
}
