// Reads a reader into a lent slice, as far as it goes. The programs `lay` and `stl` read their cloud files so, from
// standard input.
#![tactic(auto)]

ghost use Rattle.std.specs.Prelude.{◌≤◌, length, MatchResult};

use std::io;
use std::io::Read;

// A read failed, with this error, after so many bytes had been read.
#[derive(Clone, Copy)]
pub struct ReadFailed {
    pub length: usize,
    pub error: io::Error,
}

// How many bytes were read: all of them, or as many as the slice holds; a slice one byte longer than what is allowed
// tells what is longer.
//
// A proved loop has to end, and nothing says that the input does, so the turns are of a range that no run uses up.
pub fn read_all<R: Read>(reader: &mut R, input: &mut [u8]) -> Result<usize, ReadFailed>
    ensures { MatchResult result (λ n. n ≤ length input.new) (λ e. e.length ≤ length input.new) }
{
    let mut length = 0;
    for _ in 0..u64::MAX {
        let n = reader
            .read(&mut input[length..])
            .map_err(|error| ReadFailed { length, error })?;
        length += n;
        if n == 0 || input.len() <= length {
            break;
        }
    }
    Ok(length)
}
