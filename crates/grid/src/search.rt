// Which points are neighbours.
ghost use Rattle.std.specs.Prelude.{◌≡◌, not, ◌||◌, ◌≤◌, ◌<◌, length};
ghost use Rattle.regions.specs.Inner.Regions.{neighbors_at};
ghost use Rattle.grid.specs.Grid.{in_range};
ghost use Rattle.grid.specs.Inner.Index.{cell_in};

use super::cells;
use crate::Cell;

// Whether point j is a neighbour of the places in cell c.
pub fn is_near(w: &[u32], n: usize, indexed: bool, range: u32, c: Cell, j: usize) -> bool
    requires { (j < n) × (n ≤ 4096) × (neighbors_at n ≤ length w.now) }
    ensures { result ≡ (not indexed || in_range range c (cell_in w.now n j)) }
{
    !indexed || cells::is_in_range(range, c, cells::read_cell(w, n, j))
}
