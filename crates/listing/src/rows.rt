// The lines of the listing.
ghost use Rattle.std.specs.Prelude.{◌+◌, ◌*◌, ◌≤◌, ◌<◌, ◌^◌, length};
ghost use Rattle.listing.specs.Listing.{counts_line, face_line, face_lines};
ghost use Rattle.listing.specs.Inner.Ready.{PutBytes};

use crate::ListingCounts;
use crate::put::put_field;

pub fn put_counts(out: &mut [u8], at: usize, counts: ListingCounts) -> usize
    requires { at < 2 ^ 61 }
    ensures { PutBytes (counts_line counts) out.old out.new at result × (result ≤ at + 105) }
{
    let a = put_field(out, at, counts.points as u64, b',');
    let b = put_field(out, a, counts.faces as u64, b',');
    let c = put_field(out, b, counts.seeds as u64, b',');
    let d = put_field(out, c, counts.looks as u64, b',');
    put_field(out, d, counts.pivots as u64, b'\n')
}

fn put_face(out: &mut [u8], at: usize, i: u32, a: u32, b: u32, c: u32) -> usize
    requires { at < 2 ^ 61 }
    ensures { PutBytes (face_line i a b c) out.old out.new at result × (result ≤ at + 84) }
{
    let p = put_field(out, at, i as u64, b',');
    let q = put_field(out, p, a as u64, b',');
    let r = put_field(out, q, b as u64, b',');
    put_field(out, r, c as u64, b'\n')
}

// The lines of the first n faces.
pub fn put_faces(out: &mut [u8], at: usize, faces: &[u32], n: u32) -> usize
    requires { (at < 2 ^ 32) × (3 * n ≤ length faces.now) }
    ensures { PutBytes (face_lines faces.now 0 n) out.old out.new at result }
{
    let mut next = at;
    for i in 0..n {
        let k = 3 * i as usize;
        next = put_face(out, next, i, faces[k], faces[k + 1], faces[k + 2]);
    }
    next
}
