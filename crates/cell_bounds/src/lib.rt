// Bounds outside of which no point's cell lies within a range of another, and how far from a place those inside are.
// How far they go is a guess, which is tested; an end that is not far enough is none.
#![tactic(auto)]

mod axis;

ghost use Rattle.vector.specs.Inner.Numbers.{Finite};
ghost use Rattle.cell_bounds.specs.Inner.CellBounds.{Holding, Reaching};

use bounds::Bounds;
use grid::{Cell, SpatialGrid};
use vector::Point3f;

// Bounds that hold every point whose cell lies within the range of a cell. The reach is a guess at how far from a place
// they have to go.
pub fn bounds_of(grid: SpatialGrid, cell: Cell, range: u32, place: Point3f, reach: f32) -> Bounds
    ensures { Holding grid cell range result }
{
    let size = grid.cell_size;
    let least = grid.bounds_min;
    let x = axis::interval(size, least.x, place.x, reach, range, cell.x);
    let y = axis::interval(size, least.y, place.y, reach, range, cell.y);
    let z = axis::interval(size, least.z, place.z, reach, range, cell.z);
    Bounds {
        lo: Point3f {
            x: x.lo,
            y: y.lo,
            z: z.lo,
        },
        hi: Point3f {
            x: x.hi,
            y: y.hi,
            z: z.hi,
        },
    }
}

// A squared distance from the place that no point within the bounds is above.
pub fn limit_of(bounds: Bounds, place: Point3f) -> f32
    requires { Finite place }
    ensures { Reaching bounds place result }
{
    let x = axis::farthest(place.x, bounds.lo.x, bounds.hi.x);
    let y = axis::farthest(place.y, bounds.lo.y, bounds.hi.y);
    let z = axis::farthest(place.z, bounds.lo.z, bounds.hi.z);
    (x + y) + z
}
