// A file's bytes, facet by facet.
ghost use Rattle.std.specs.Prelude.{◌≡◌, ◌+◌, ◌*◌, ◌/◌, ◌≤◌, length};
ghost use Rattle.std.proofs.lemmas.List.Edits.{sets};
ghost use Rattle.std.specs.Float.{binary32};
ghost use Rattle.std.specs.Float.Ieee.{to_bits};
ghost use Rattle.words.specs.Chunks.{chunks};
ghost use Rattle.facets.specs.Format.{normal, vertex, facet, facet_of, corner_at, stl};
ghost use Rattle.facets.specs.Known.{all_below, NamesPoints};

use points::point_at;
use vector::Point3f;
use words::{put_word, put_zeros};

// The pattern of a float; of a not-a-number the one with no sign and the first bit.
fn bits_of(x: f32) -> u32
    ensures { result ≡ to_bits binary32 x }
{
    if x != x {
        return 0x7fc0_0000;
    }
    f32::to_bits(x)
}

// The cross product of q - p and r - p, divided by its length; zeros where that is 0.
fn normal(p: Point3f, q: Point3f, r: Point3f) -> Point3f
    ensures { result ≡ normal p q r }
{
    let v = vector::cross(vector::difference(q, p), vector::difference(r, p));
    let l = vector::magnitude(v);
    if l == 0.0 {
        return vector::point(0.0, 0.0, 0.0);
    }
    vector::point(v.x / l, v.y / l, v.z / l)
}

fn put_vertex(out: &mut [u8], at: usize, p: Point3f)
    requires { at + 12 ≤ length out.old }
    ensures { out.new ≡ sets out.old at (vertex p) }
{
    put_word(out, at, bits_of(p.x));
    put_word(out, at + 4, bits_of(p.y));
    put_word(out, at + 8, bits_of(p.z));
}

fn put_facet(out: &mut [u8], at: usize, p: Point3f, q: Point3f, r: Point3f)
    requires { at + 50 ≤ length out.old }
    ensures { out.new ≡ sets out.old at (facet p q r) }
{
    let n = normal(p, q, r);
    put_vertex(out, at, n);
    put_vertex(out, at + 12, p);
    put_vertex(out, at + 24, q);
    put_vertex(out, at + 36, r);
    out[at + 48] = 0;
    out[at + 49] = 0;
}

// The facets of the first n faces, behind header and count.
fn put_facets(out: &mut [u8], points: &[f32], faces: &[u32], n: usize)
    requires { (84 + 50 * n ≤ length out.old) × (3 * n ≤ length faces.now)
        × NamesPoints points.now faces.now }
    ensures { out.new
        ≡ sets out.old 84 (chunks (facet_of (corner_at points.now faces.now)) 0 n) }
{
    for i in 0..n {
        let k = 3 * i;
        let p = point_at(points, faces[k] as usize);
        let q = point_at(points, faces[k + 1] as usize);
        let r = point_at(points, faces[k + 2] as usize);
        put_facet(out, 84 + 50 * i, p, q, r);
    }
}

pub fn put_file(out: &mut [u8], points: &[f32], faces: &[u32])
    requires { (84 + 50 * (length faces.now / 3) ≤ length out.old) × (length faces.now / 3 ≤ 1000000)
        × NamesPoints points.now faces.now }
    ensures { out.new ≡ sets out.old 0 (stl points.now faces.now) }
{
    let n = faces.len() / 3;
    put_zeros(out, 80);
    put_word(out, 80, n as u32);
    put_facets(out, points, faces, n);
}

// Whether every number is below a bound.
pub fn names_points(faces: &[u32], bound: usize) -> bool
    ensures { result ≡ all_below bound faces.now }
{
    faces.iter().all(|f| (*f as usize) < bound)
}
