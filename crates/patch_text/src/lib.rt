// Makes what the program prints of a cloud file: its bytes in, the listing of the patch or a refusal out, in lent
// slices.
//
// The text is the definition `file_text` of specs/Text.antt, for all bytes and all lengths of the slices; the program's
// is `printed`.
#![tactic(auto)]

ghost use Rattle.std.specs.Prelude.{length, ◌/◌};
ghost use Rattle.patch_text.specs.Text.{laid_text, file_text, Prints, PrintsFile};

use listing::ListingCounts;
use settings::BallPivotingConfig;

// The most bytes that a file may have.
pub const MOST_BYTES: usize = 65536;

// The patch over a cloud, or why there is none.
fn write_patch(
    points: &[f32],
    normals: &[f32],
    radius: f32,
    faces: &mut [u32],
    words: &mut [u32],
    floats: &mut [f32],
    out: &mut [u8],
) -> Option<usize>
    ensures { Prints (laid_text radius (length points.now / 3) points.now
        normals.now (length faces.old) (length words.old)
        (length floats.old)) out.old result out.new }
{
    let settings = BallPivotingConfig::new(radius);
    let patch = reconstruction::reconstruct_with_normals(
        points, normals, settings, faces, words, floats,
    );
    if patch.answer != 0 {
        return listing::write_refusal(patch.answer, patch.detail as usize, out);
    }
    let counts = ListingCounts {
        points: (points.len() / 3) as u32,
        faces: patch.faces,
        seeds: patch.seeds,
        looks: patch.looks,
        pivots: patch.pivots,
    };
    listing::write_listing(counts, &faces[..3 * patch.faces as usize], out)
}

// The number of bytes written, or none where the text does not fit.
pub fn lay_text(
    input: &[u8],
    points: &mut [f32],
    normals: &mut [f32],
    faces: &mut [u32],
    words: &mut [u32],
    floats: &mut [f32],
    out: &mut [u8],
) -> Option<usize>
    ensures { Prints
        (file_text input.now (length points.old) (length normals.old)
        (length faces.old) (length words.old) (length floats.old)) out.old
        result out.new }
{
    if MOST_BYTES < input.len() {
        return listing::write_refusal(answers::ROOM, 0, out);
    }
    let read = cloud::read_cloud(input, points, normals);
    if read.answer != 0 {
        return listing::write_refusal(read.answer, read.detail, out);
    }
    let n = 3 * read.count;
    write_patch(
        &points[..n],
        &normals[..n],
        read.radius,
        faces,
        words,
        floats,
        out,
    )
}

// The text of the program `lay`: slices for 512 points and 5,000 faces, and work for so many points. An output of
// 220,098 bytes holds whatever it is.
pub fn program_text(input: &[u8], out: &mut [u8]) -> Option<usize>
    ensures { PrintsFile input.now out.old result out.new }
{
    let mut points = [0.0f32; 1536];
    let mut normals = [0.0f32; 1536];
    let mut faces = [0u32; 15000];
    let mut words = [0u32; 12352];
    let mut floats = [0.0f32; 2112];
    lay_text(
        input,
        &mut points,
        &mut normals,
        &mut faces,
        &mut words,
        &mut floats,
        out,
    )
}
