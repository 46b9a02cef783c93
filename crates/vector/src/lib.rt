// Points and vectors of three f32, each operation rounded once.
#![tactic(auto)]

ghost use Rattle.std.specs.Prelude.{◌≡◌, ◌<◌};
ghost use Rattle.vector.specs.Inner.Axes.{axis_index};
ghost use Rattle.vector.specs.Vector.{point, difference, magnitude_squared, magnitude, cross, squared, distance};

// A point, or the vector between two.
#[repr(C)]
#[derive(Clone, Copy)]
pub struct Point3f {
    pub x: f32,
    pub y: f32,
    pub z: f32,
}

// An axis of space.
#[derive(Clone, Copy, PartialEq, Eq)]
pub enum Axis {
    X,
    Y,
    Z,
}

impl Axis {
    // Which of a point's three coordinates is the one along it.
    pub fn index(self) -> usize
        ensures number { result ≡ axis_index self }
        ensures below { result < 3 }
    {
        match self {
            Axis::X => 0,
            Axis::Y => 1,
            Axis::Z => 2,
        }
    }
}

// The point (x, y, z).
pub fn point(x: f32, y: f32, z: f32) -> Point3f
    ensures { result ≡ point x y z }
{
    Point3f { x, y, z }
}

// p - q
pub fn difference(p: Point3f, q: Point3f) -> Point3f
    ensures { result ≡ difference p q }
{
    Point3f {
        x: p.x - q.x,
        y: p.y - q.y,
        z: p.z - q.z,
    }
}

// The length of v, squared.
pub fn magnitude_squared(v: Point3f) -> f32
    ensures { result ≡ magnitude_squared v }
{
    (v.x * v.x + v.y * v.y) + v.z * v.z
}

pub fn magnitude(v: Point3f) -> f32
    ensures { result ≡ magnitude v }
{
    numbers::sqrt(magnitude_squared(v))
}

pub fn cross(v: Point3f, w: Point3f) -> Point3f
    ensures { result ≡ cross v w }
{
    Point3f {
        x: v.y * w.z - v.z * w.y,
        y: v.z * w.x - v.x * w.z,
        z: v.x * w.y - v.y * w.x,
    }
}

// The length of p - q, squared.
pub fn distance_squared(p: Point3f, q: Point3f) -> f32
    ensures { result ≡ squared p q }
{
    magnitude_squared(difference(p, q))
}

// The length of p - q.
pub fn distance(p: Point3f, q: Point3f) -> f32
    ensures { result ≡ distance p q }
{
    numbers::sqrt(distance_squared(p, q))
}
