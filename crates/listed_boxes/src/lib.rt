// A list of points in an order in which those near each other stand near each other, and boxes of parts of it. The
// order is a guess: nothing is told of it but that the list has the same points.
#![tactic(auto)]

ghost use Rattle.std.specs.Prelude.{◌≤◌, ◌<◌, length};
ghost use Rattle.listed_boxes.specs.Inner.Boxes.{SameWords, RangeBoxed};

use bounds::Bounds;
use vector::Axis;

// A part with so many points or fewer is left as it is.
const FEW: usize = 8;

// A box that has no point.
fn nothing() -> Bounds {
    let most: f32 = 1.0 / 0.0;
    Bounds {
        lo: vector::point(most, most, most),
        hi: vector::point(-most, -most, -most),
    }
}

// A box that has the points of a list from a place to another.
pub fn box_of(points: &[f32], list: &[u32], from: usize, to: usize) -> Bounds
    requires { to ≤ length list.now }
    ensures { RangeBoxed points.now list.now from to result }
{
    let n = points.len() / 3;
    let mut b = nothing();
    for m in from..to {
        let k = list[m] as usize;
        if k < n {
            b = intervals::with_point(b, points::point_at(points, k));
        }
    }
    b
}

// The middle of a box along an axis.
fn middle(b: Bounds, axis: Axis) -> f32 {
    let ends = match axis {
        Axis::X => b.lo.x + b.hi.x,
        Axis::Y => b.lo.y + b.hi.y,
        Axis::Z => b.lo.z + b.hi.z,
    };
    ends * 0.5
}

// Moves the points of a list that lie below a coordinate to its front, and returns how many they are. Each is moved
// before it is asked, so that no branch has to be foretold.
fn move_below(points: &[f32], axis: Axis, at: f32, list: &mut [u32]) -> usize
    ensures { (result ≤ length list.old) × SameWords list.old list.new }
{
    let mut kept: usize = 0;
    for m in 0..list.len() {
        let k = list[m];
        list[m] = list[kept];
        list[kept] = k;
        if axis_sort::coordinate(points, axis, k) < at {
            kept += 1;
        }
    }
    kept
}

// Moves those below the middle of their box, along its longest axis, to the front, and returns how many they are.
fn halve(points: &[f32], list: &mut [u32]) -> usize
    ensures { (result ≤ length list.old) × SameWords list.old list.new }
{
    let b = box_of(points, list, 0, list.len());
    let axis = kd_tree::longest(b);
    move_below(points, axis, middle(b, axis), list)
}

// Puts a list in such an order: it is halved so many times, as long as a part has more than a few points.
pub fn order(points: &[f32], list: &mut [u32], depth: usize)
    ensures { SameWords list.old list.new }
{
    if list.len() <= FEW {
        return;
    }
    if depth == 0 {
        return;
    }
    let half = halve(points, list);
    order(points, &mut list[..half], depth - 1);
    order(points, &mut list[half..], depth - 1);
}
