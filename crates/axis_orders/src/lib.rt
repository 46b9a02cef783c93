// The orders of a part of a cloud, one along each axis: its box stands at their ends, and each is parted at the middle
// one of an order as it is, so none is sorted again.
#![tactic(auto)]

ghost use Rattle.std.specs.Prelude.{◌≡◌, ◌++◌, ◌+◌, ◌-◌, ◌≤◌, ◌<◌, length, take};
ghost use Rattle.vector.specs.Inner.Axes.{axis_index};
ghost use Rattle.kd_tree.specs.Boxes.{plus_zero};
ghost use Rattle.axis_sort.specs.Axis.{coordinate_of};
ghost use Rattle.axis_orders.specs.Inner.Parted.{is_before_pivot, parted_but, order_along, NumbersSifted};
ghost use Rattle.axis_orders.specs.Inner.Orders.{ends_box, Bounding, Dividing, Divided};

use bounds::Bounds;
use vector::Axis;

// Whether a number comes before another, whose coordinate is given, along an axis.
pub fn is_before(points: &[f32], axis: Axis, at: f32, pivot: u32, number: u32) -> bool
    ensures { result ≡ is_before_pivot points.now (axis_index axis) at pivot number }
{
    let x = axis_sort::coordinate(points, axis, number);
    if x == at {
        return number < pivot;
    }
    x < at
}

// Moves the numbers before a pivot to the front and puts the others into the work, both in their order; answers how
// many are in front. Each is written to both before it is asked, so that no branch has to be foretold.
fn sift(
    points: &[f32],
    axis: Axis,
    at: f32,
    pivot: u32,
    list: &mut [u32],
    work: &mut [u32],
) -> usize
    requires { length list.old ≤ length work.old }
    ensures { NumbersSifted (is_before_pivot points.now (axis_index axis) at pivot) list.old
        list.new
        work.new result }
{
    let mut kept: usize = 0;
    for i in 0..list.len() {
        let number = list[i];
        list[kept] = number;
        work[i - kept] = number;
        if is_before(points, axis, at, pivot, number) {
            kept += 1;
        }
    }
    kept
}

// Copies numbers into a list, from a place on.
pub fn put_from(list: &mut [u32], from: usize, work: &[u32])
    requires { (from ≤ length list.old) × (length list.old ≤ from + length work.now) }
    ensures { list.new
        ≡ take from list.old ++ take (length list.old - from) work.now }
{
    let count = list.len() - from;
    for i in 0..count {
        list[from + i] = work[i];
    }
}

// Parts an order at a pivot, unless it is the order along the pivot's axis: that one is in parts as it is.
fn part(
    points: &[f32],
    axis: Axis,
    at: f32,
    pivot: u32,
    own: Axis,
    list: &mut [u32],
    work: &mut [u32],
)
    requires { length list.old ≤ length work.old }
    ensures { list.new
        ≡ parted_but (axis_index own) (axis_index axis) (is_before_pivot points.now (axis_index axis) at pivot) list.old }
{
    if own == axis {
        return;
    }
    let kept = sift(points, axis, at, pivot, list, work);
    put_from(list, kept, work);
}

// The order along an axis.
fn put_along(axis: Axis, order: &mut [u32], x: &[u32], y: &[u32], z: &[u32])
    requires { (length x.now ≡ length order.old) × (length y.now ≡ length order.old)
        × (length z.now ≡ length order.old) }
    ensures { order.new ≡ order_along (axis_index axis) x.now y.now z.now }
{
    let along = match axis {
        Axis::X => x,
        Axis::Y => y,
        Axis::Z => z,
    };
    put_from(order, 0, along);
}

// Puts a part's numbers in order along an axis, and parts each of its orders at the middle one.
pub fn divide(
    points: &[f32],
    axis: Axis,
    order: &mut [u32],
    x: &mut [u32],
    y: &mut [u32],
    z: &mut [u32],
    work: &mut [u32],
)
    requires { Dividing points.now (axis_index axis) order.old x.old y.old z.old (length work.old) }
    ensures { Divided points.now (axis_index axis) order.old order.new x.new
        y.new z.new }
{
    put_along(axis, order, x, y, z);
    let pivot = order[order.len() / 2];
    let at = axis_sort::coordinate(points, axis, pivot);
    part(points, axis, at, pivot, Axis::X, x, work);
    part(points, axis, at, pivot, Axis::Y, y, work);
    part(points, axis, at, pivot, Axis::Z, z, work);
}

// A coordinate, minus zero as zero.
fn corner(points: &[f32], axis: Axis, number: u32) -> f32
    ensures { result ≡ plus_zero (coordinate_of points.now (axis_index axis) number) }
{
    kd_tree::plus_zero(axis_sort::coordinate(points, axis, number))
}

// The box at the ends of three orders.
fn box_of(points: &[f32], x: &[u32], y: &[u32], z: &[u32]) -> Bounds
    requires { (0 < length x.now) × (0 < length y.now) × (0 < length z.now) }
    ensures { result ≡ ends_box points.now x.now y.now z.now }
{
    let lo = vector::point(
        corner(points, Axis::X, x[0]),
        corner(points, Axis::Y, y[0]),
        corner(points, Axis::Z, z[0]),
    );
    let hi = vector::point(
        corner(points, Axis::X, x[x.len() - 1]),
        corner(points, Axis::Y, y[y.len() - 1]),
        corner(points, Axis::Z, z[z.len() - 1]),
    );
    Bounds { lo, hi }
}

// Writes the box of three orders from `at` on, and answers the axis where it is longest.
pub fn bound(points: &[f32], x: &[u32], y: &[u32], z: &[u32], boxes: &mut [f32], at: usize) -> Axis
    requires { (0 < length x.now) × (0 < length y.now) × (0 < length z.now) × (at + 6 ≤ length boxes.old) }
    ensures { Bounding (ends_box points.now x.now y.now z.now)
        boxes.old boxes.new at (axis_index result) }
{
    let b = box_of(points, x, y, z);
    kd_tree::put_box(boxes, at, b);
    kd_tree::longest(b)
}
