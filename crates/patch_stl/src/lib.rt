// Makes what the program `stl` writes of a cloud file: the patch as binary STL, or a refusal's line, in a lent slice.
//
// It is the definition `file_output` of specs/Output.antt, for all bytes and all lengths of the slices.
#![tactic(auto)]

ghost use Rattle.std.specs.Prelude.{length, ◌≤◌};
ghost use Rattle.patch_stl.specs.Output.{longest_line, output_refused, written_output, laid_output, file_output};
ghost use Rattle.patch_stl.specs.Output.{Outputs};

use settings::BallPivotingConfig;

// The length of a refusal's line, in front of the output.
fn refuse(answer: u32, detail: usize, out: &mut [u8]) -> Result<usize, usize>
    requires { longest_line ≤ length out.old }
    ensures { Outputs (output_refused answer detail) out.old result out.new }
{
    Err(listing::write_refusal(answer, detail, out).unwrap())
}

fn write_faces(points: &[f32], faces: &[u32], out: &mut [u8]) -> Result<usize, usize>
    requires { longest_line ≤ length out.old }
    ensures { Outputs (written_output points.now faces.now (length out.old))
        out.old result out.new }
{
    let told = stl_file::write_stl(points, faces, out);
    if told.answer != 0 {
        return refuse(told.answer, told.detail, out);
    }
    Ok(told.length)
}

// The patch over a cloud, or why there is none.
fn write_patch(
    points: &[f32],
    normals: &[f32],
    radius: f32,
    faces: &mut [u32],
    words: &mut [u32],
    floats: &mut [f32],
    out: &mut [u8],
) -> Result<usize, usize>
    requires { longest_line ≤ length out.old }
    ensures { Outputs
        (laid_output radius points.now normals.now (length faces.old)
        (length words.old) (length floats.old) (length out.old)) out.old result
        out.new }
{
    let settings = BallPivotingConfig::new(radius);
    let patch = reconstruction::reconstruct_with_normals(
        points, normals, settings, faces, words, floats,
    );
    if patch.answer != 0 {
        return refuse(patch.answer, patch.detail as usize, out);
    }
    write_faces(points, &faces[..3 * patch.faces as usize], out)
}

// The length of the file, or of a refusal's line, in front of the output.
pub fn lay_stl(
    input: &[u8],
    points: &mut [f32],
    normals: &mut [f32],
    faces: &mut [u32],
    words: &mut [u32],
    floats: &mut [f32],
    out: &mut [u8],
) -> Result<usize, usize>
    requires { longest_line ≤ length out.old }
    ensures { Outputs
        (file_output input.now (length points.old) (length normals.old)
        (length faces.old) (length words.old) (length floats.old)
        (length out.old)) out.old result out.new }
{
    if patch_text::MOST_BYTES < input.len() {
        return refuse(answers::ROOM, 0, out);
    }
    let read = cloud::read_cloud(input, points, normals);
    if read.answer != 0 {
        return refuse(read.answer, read.detail, out);
    }
    let n = 3 * read.count;
    write_patch(
        &points[..n],
        &normals[..n],
        read.radius,
        faces,
        words,
        floats,
        out,
    )
}
