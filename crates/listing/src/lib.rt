// Writes what the program prints into a lent buffer: the listing of a patch, or a refusal.
//
// The text is the definition `listing`, or `refusal`, of specs/Listing.antt. It is written whole or, where the buffer
// is too short, not at all.
#![tactic(auto)]

mod put;
mod rows;

ghost use Rattle.std.specs.Prelude.{◌≡◌, ◌*◌, ◌≤◌, length};
ghost use Rattle.listing.specs.Listing.{refusal_text, listing, listed, filled, written_length, listed_length};
ghost use Rattle.listing.specs.Inner.Ready.{PutBytes};

use crate::put::{put_field, put_text};
use crate::rows::{put_counts, put_faces};

// How many points a cloud has and faces its patch, and what was counted in laying it.
#[derive(Clone, Copy)]
pub struct ListingCounts {
    pub points: u32,
    pub faces: u32,
    pub seeds: u32,
    pub looks: u32,
    pub pivots: u32,
}

// As much of the listing as fits; the answer is its whole length.
fn put_listing(counts: ListingCounts, faces: &[u32], out: &mut [u8]) -> usize
    requires { 3 * counts.faces ≤ length faces.now }
    ensures { PutBytes (listing counts faces.now) out.old out.new 0 result }
{
    let n = counts.faces;
    let a = put_text(out, 0, b"points,faces,seeds,looks,pivots\n");
    let b = put_counts(out, a, counts);
    let c = put_text(out, b, b"face,a,b,c\n");
    put_faces(out, c, faces, n)
}

// The number of bytes written, or none where the listing does not fit or there are fewer faces than counted.
pub fn write_listing(counts: ListingCounts, faces: &[u32], out: &mut [u8]) -> Option<usize>
    ensures { (result ≡ listed_length counts faces.now out.old)
        × (out.new ≡ filled (listed counts faces.now) out.old) }
{
    if faces.len() / 3 < counts.faces as usize {
        return None;
    }
    let mut scratch = [0u8; 1];
    let n = put_listing(counts, faces, &mut scratch);
    if out.len() < n {
        return None;
    }
    Some(put_listing(counts, faces, out))
}

fn put_refusal(answer: u32, detail: usize, out: &mut [u8]) -> usize
    ensures { PutBytes (refusal_text answer detail) out.old out.new 0 result }
{
    let a = put_text(out, 0, b"refused,");
    let b = put_field(out, a, answer as u64, b',');
    put_field(out, b, detail as u64, b'\n')
}

// The number of bytes written, or none where the line does not fit.
pub fn write_refusal(answer: u32, detail: usize, out: &mut [u8]) -> Option<usize>
    ensures { (result ≡ written_length (refusal_text answer detail) out.old)
        × (out.new ≡ filled (refusal_text answer detail) out.old) }
{
    let mut scratch = [0u8; 1];
    let n = put_refusal(answer, detail, &mut scratch);
    if out.len() < n {
        return None;
    }
    Some(put_refusal(answer, detail, out))
}
