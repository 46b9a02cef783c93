// Lays a patch over the cloud file on standard input and prints its listing, or why there is none.
//
// What is printed is made by `patch_text::program_text`; here is only the reading and the writing. Whatever was read,
// what is written is `printed` of it, whole: `write_text` asks for that, and nothing else writes.
#![tactic(auto)]

ghost use Rattle.std.specs.Prelude.{◌≡◌};
ghost use Rattle.patch_text.specs.Text.{printed};

use std::io::Print;

// Writes what is printed of a file. The file is not looked at; the contract is about it. A closed output is no error.
fn write_text(rt: &HostRuntime, input: &[u8], text: &[u8])
    requires { text.now ≡ printed input.now }
{
    let _ = rt.stdout().write_all(text);
}

// The buffer holds whatever is printed.
fn print_patch(rt: &HostRuntime, input: &[u8]) {
    let mut out = [0u8; 220098];
    let n = patch_text::program_text(input, &mut out).unwrap();
    write_text(rt, input, &out[..n]);
}

// One byte more than a file may have, so that a longer one is noticed.
fn main(rt: HostRuntime) {
    let mut input = [0u8; 65537];
    if let Ok(length) = reading::read_all(&mut rt.stdin(), &mut input) {
        print_patch(&rt, &input[..length]);
    }
}
