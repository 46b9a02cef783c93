// Lays a patch over the cloud file on standard input and writes it as binary STL to standard output; or why there is
// none to standard error, as `lay` prints it.
//
// What is written is made by `patch_stl::lay_stl`; here is only the reading and the writing. Whatever was read, a file
// goes to standard output and a refusal's line to standard error, each of them `output` of it, whole: `write_file` and
// `write_line` ask for that, and nothing else writes.
#![tactic(auto)]

ghost use Rattle.std.specs.Prelude.{◌≡◌, true, false};
ghost use Rattle.patch_stl.specs.Output.{output};

use std::io::Print;

// Writes the file that is made of an input. The input is not looked at; the contract is about it. A closed output is no
// error.
fn write_file(rt: &HostRuntime, input: &[u8], bytes: &[u8])
    requires { ((output input.now).refused ≡ false) × (bytes.now ≡ (output input.now).bytes) }
{
    let _ = rt.stdout().write_all(bytes);
}

fn write_line(rt: &HostRuntime, input: &[u8], bytes: &[u8])
    requires { ((output input.now).refused ≡ true) × (bytes.now ≡ (output input.now).bytes) }
{
    let _ = rt.stderr().write_all(bytes);
}

// Room for 512 points and 5,000 faces, work for so many points, and a file of 5,000 facets.
fn write_patch(rt: &HostRuntime, input: &[u8]) {
    let mut points = [0.0f32; 1536];
    let mut normals = [0.0f32; 1536];
    let mut faces = [0u32; 15000];
    let mut words = [0u32; 12352];
    let mut floats = [0.0f32; 2112];
    let mut out = [0u8; 250084];
    let told = patch_stl::lay_stl(
        input,
        &mut points,
        &mut normals,
        &mut faces,
        &mut words,
        &mut floats,
        &mut out,
    );
    match told {
        Ok(length) => write_file(rt, input, &out[..length]),
        Err(length) => write_line(rt, input, &out[..length]),
    }
}

// One byte more than a file may have, so that a longer one is noticed.
fn main(rt: HostRuntime) {
    let mut input = [0u8; 65537];
    if let Ok(length) = reading::read_all(&mut rt.stdin(), &mut input) {
        write_patch(&rt, &input[..length]);
    }
}
