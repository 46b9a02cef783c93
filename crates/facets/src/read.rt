// The corners of a file's facets.
ghost use Rattle.std.specs.Prelude.{◌≡◌, ◌+◌, ◌*◌, ◌≤◌, length};
ghost use Rattle.std.proofs.lemmas.List.Edits.{sets};
ghost use Rattle.numbers.specs.Rounded.{f32};
ghost use Rattle.words.specs.Chunks.{chunks};
ghost use Rattle.facets.specs.Format.{vertex_at, corners_of};

use words::word_at;

// The float with a pattern.
fn float_of(b: u32) -> f32
    ensures { result ≡ f32 b }
{
    if b % 0x8000_0000 > 0x7f80_0000 {
        return 0.0 / 0.0;
    }
    f32::from_bits(b)
}

// Three coordinates from a place of the file, to a place of the slice.
fn read_vertex(bytes: &[u8], at: usize, corners: &mut [f32], to: usize)
    requires { (at + 12 ≤ length bytes.now) × (to + 3 ≤ length corners.old) }
    ensures { corners.new ≡ sets corners.old to (vertex_at bytes.now at) }
{
    corners[to] = float_of(word_at(bytes, at));
    corners[to + 1] = float_of(word_at(bytes, at + 4));
    corners[to + 2] = float_of(word_at(bytes, at + 8));
}

pub fn read_facets(bytes: &[u8], corners: &mut [f32], n: usize)
    requires { (84 + 50 * n ≤ length bytes.now) × (9 * n ≤ length corners.old) }
    ensures { corners.new
        ≡ sets corners.old 0 (chunks (corners_of bytes.now) 0 n) }
{
    for i in 0..n {
        let at = 84 + 50 * i;
        let to = 9 * i;
        read_vertex(bytes, at + 12, corners, to);
        read_vertex(bytes, at + 24, corners, to + 3);
        read_vertex(bytes, at + 36, corners, to + 6);
    }
}
