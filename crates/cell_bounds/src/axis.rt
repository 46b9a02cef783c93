// Bounds on one axis.
ghost use Rattle.std.specs.Prelude.{◌≡◌, T};
ghost use Rattle.std.specs.Float.Ieee.Scale.{finite};
ghost use Rattle.cell_bounds.specs.Inner.Axis.{ordinary, usable, holds_place, LowerEnd, UpperEnd, HoldingOn};
ghost use Rattle.cell_bounds.specs.Inner.Axis.{ReachingOn};

use bounds::Interval;

// Whether a number is of a size that coordinates and cells have.
fn is_ordinary(x: f32) -> bool
    ensures { result ≡ ordinary x }
{
    -1000000.0 <= x && x <= 1000000.0
}

// Whether cells are sure to grow with the coordinates up to v.
fn is_usable(size: f32, least: f32, v: f32) -> bool
    ensures { result ≡ usable size least v }
{
    0.0 < size && (is_ordinary(size) && (is_ordinary(least) && is_ordinary(v)))
}

// A coordinate below which no cell is in range: v, if its own cell is not.
fn lower_end(size: f32, least: f32, v: f32, range: u32, cell: u32) -> f32
    ensures { LowerEnd size least range cell result }
{
    if is_usable(size, least, v) {
        let own = grid::cells::cell_on(size, least, v);
        if own as u64 + (range as u64) < cell as u64 {
            return v;
        }
    }
    -1.0 / 0.0
}

// A coordinate above which none is.
fn upper_end(size: f32, least: f32, v: f32, range: u32, cell: u32) -> f32
    ensures { UpperEnd size least range cell result }
{
    if is_usable(size, least, v) {
        let own = grid::cells::cell_on(size, least, v);
        if cell as u64 + (range as u64) < own as u64 {
            return v;
        }
    }
    1.0 / 0.0
}

// The coordinates whose cells are in range, and some more. The reach is a guess at how far from v they are.
pub fn interval(size: f32, least: f32, v: f32, reach: f32, range: u32, cell: u32) -> Interval
    ensures { HoldingOn size least range cell result }
{
    let lo = lower_end(size, least, v - reach, range, cell);
    let hi = upper_end(size, least, v + reach, range, cell);
    Interval { lo, hi }
}

// Whether two ordinary ends have v between them.
fn holds_place(v: f32, lo: f32, hi: f32) -> bool
    ensures { result ≡ holds_place v lo hi }
{
    is_ordinary(lo) && (is_ordinary(hi) && (lo <= v && v <= hi))
}

// The square of how far from v a coordinate between two ends is at most.
pub fn farthest(v: f32, lo: f32, hi: f32) -> f32
    requires { T (finite v) }
    ensures { ReachingOn v lo hi result }
{
    if holds_place(v, lo, hi) {
        return numbers::max((lo - v) * (lo - v), (hi - v) * (hi - v));
    }
    1.0 / 0.0
}
