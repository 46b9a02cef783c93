// Reads faces from lines of a file: a,b,c of point numbers from 0. One pass looks at every line, and one stores the
// faces in front of a lent slice.
//
// What the bytes mean is the definition `face_file` of specs/Format.antt, and what the first pass tells of them
// `scan_of_lines` of specs/Inner/Answers.antt.
#![tactic(auto)]

mod line;

ghost use Rattle.std.specs.Prelude.{◌≡◌, ◌||◌};
ghost use Rattle.patch.specs.Lay.{face};
ghost use Rattle.face_lines.specs.Format.{face_file, outside, twice};
ghost use Rattle.face_lines.specs.Inner.Answers.{scan_of_lines, Readable, Stored};

pub use crate::line::FaceLine;
use crate::line::line_at;
use numerals::MalformedLine;

// What a pass over all lines found: the count of faces, whether some number is out of range, and whether some face has
// two equal numbers.
#[derive(Clone, Copy)]
pub struct FacesScanned {
    pub count: usize,
    pub outside: bool,
    pub twice: bool,
}

// Whether a number was out of range before, or one of these is, for n points.
pub fn is_outside(before: bool, n: usize, a: u32, b: u32, c: u32) -> bool
    ensures { result ≡ (before || outside n (face a b c)) }
{
    before || n <= a as usize || n <= b as usize || n <= c as usize
}

// Whether two numbers of a face were equal before, or two of these are.
pub fn is_twice(before: bool, a: u32, b: u32, c: u32) -> bool
    ensures { result ≡ (before || twice (face a b c)) }
{
    before || a == b || b == c || c == a
}

// One pass over all lines, for n points.
pub fn scan_faces(s: &[u8], n: usize) -> Result<FacesScanned, MalformedLine>
    ensures { result ≡ scan_of_lines n (face_file s.now) }
{
    let mut count = 0;
    let mut outside = false;
    let mut twice = false;
    let mut at = 0;
    while at < s.len() {
        let Some((FaceLine { a, b, c }, next)) = line_at(s, at) else {
            return Err(MalformedLine { line: count + 1 });
        };
        outside = is_outside(outside, n, a, b, c);
        twice = is_twice(twice, a, b, c);
        count += 1;
        at = next;
    }
    Ok(FacesScanned {
        count,
        outside,
        twice,
    })
}

// The faces go to the front of a slice, as many as fit; the rest of it stays.
pub fn store_faces(s: &[u8], words: &mut [u32])
    requires { Readable s.now }
    ensures { Stored s.now words.old words.new }
{
    let mut count = 0;
    let mut at = 0;
    while at < s.len() {
        let Some((FaceLine { a, b, c }, next)) = line_at(s, at) else {
            return;
        };
        laying_words::put_face(words, count, a, b, c);
        count += 1;
        at = next;
    }
}
