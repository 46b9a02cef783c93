// The spatial index. What it keeps stands in the u32 work slice, in the region of the cells: specs/Inner/Index.antt.
#![tactic(auto)]

pub mod cells;
pub mod order;
pub mod search;

ghost use Rattle.std.specs.Prelude.{◌≡◌, ◌*◌, ◌≤◌, length, drop};
ghost use Rattle.regions.specs.Inner.Regions.{neighbors_at, words_length};
ghost use Rattle.grid.specs.Grid.{bounds_min, grid_of, cell_of};
ghost use Rattle.grid.specs.Inner.Index.{CellsIndexed};

use vector::{Axis, Point3f};

// Cells are cubes of side cell_size, counted from the cloud's least coordinates.
#[derive(Clone, Copy)]
pub struct SpatialGrid {
    pub cell_size: f32,
    pub bounds_min: Point3f,
}

#[derive(Clone, Copy)]
pub struct Cell {
    pub x: u32,
    pub y: u32,
    pub z: u32,
}

// The least coordinate of n points on each axis.
pub fn bounds_min(points: &[f32], n: usize) -> Point3f
    requires { 3 * n ≤ length points.now }
    ensures { result ≡ bounds_min points.now n }
{
    let x = cells::least_from(points, Axis::X, n);
    let y = cells::least_from(points, Axis::Y, n);
    let z = cells::least_from(points, Axis::Z, n);
    Point3f { x, y, z }
}

// The cell of a place.
pub fn cell_of(grid: SpatialGrid, p: Point3f) -> Cell
    ensures { result ≡ cell_of grid p }
{
    let x = cells::cell_on(grid.cell_size, grid.bounds_min.x, p.x);
    let y = cells::cell_on(grid.cell_size, grid.bounds_min.y, p.y);
    let z = cells::cell_on(grid.cell_size, grid.bounds_min.z, p.z);
    Cell { x, y, z }
}

// Indexes n points: keeps the cell of each.
pub fn build_spatial_grid(points: &[f32], n: usize, cell_size: f32, w: &mut [u32]) -> SpatialGrid
    requires { (n ≤ 4096) × (3 * n ≤ length points.now) × (words_length n ≤ length w.old) }
    ensures { (result ≡ grid_of cell_size points.now n)
        × CellsIndexed result points.now n w.new
        × (drop (neighbors_at n) w.new ≡ drop (neighbors_at n) w.old) }
{
    let grid = SpatialGrid {
        cell_size,
        bounds_min: bounds_min(points, n),
    };
    cells::fill_cells(points, n, grid, w);
    grid
}
