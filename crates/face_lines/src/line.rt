// One line of the file: three point numbers of 1 to 5 digits, parted by commas and ended by a line feed.
ghost use Rattle.std.specs.Prelude.{◌≡◌, drop};
ghost use Rattle.face_lines.specs.Format.{point_number, line};
ghost use Rattle.numerals.specs.Inner.Answers.{taken_means};
ghost use Rattle.face_lines.specs.Inner.Answers.{line_means};

use numerals::{byte_is, skip_digits, whole_of};

// The numbers of a face.
#[derive(Clone, Copy)]
pub struct FaceLine {
    pub a: u32,
    pub b: u32,
    pub c: u32,
}

// A number and the byte that ends it, with the place behind both.
fn number_at(s: &[u8], at: usize, end: u8) -> Option<(u32, usize)>
    ensures { taken_means s.now result ≡ point_number end (drop at s.now) }
{
    let stop = skip_digits(s, at, 5)?;
    if byte_is(s, stop, end) {
        Some((whole_of(s, at, stop), stop + 1))
    } else {
        None
    }
}

// A face's line, with the place behind it.
pub fn line_at(s: &[u8], at: usize) -> Option<(FaceLine, usize)>
    ensures { line_means s.now result ≡ line (drop at s.now) }
{
    let (a, second) = number_at(s, at, b',')?;
    let (b, third) = number_at(s, second, b',')?;
    let (c, next) = number_at(s, third, b'\n')?;
    Some((FaceLine { a, b, c }, next))
}
