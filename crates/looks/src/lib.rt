// Which way the faces of a patch look, and the patch turned to face one way. A face's parent stands in a slice of
// origins, two numbers a face; a seed names itself.
#![tactic(auto)]

ghost use Rattle.std.specs.Prelude.{◌≡◌, List, ℕ, ◌+◌, ◌*◌, ◌≤◌, ◌<◌, length};
ghost use Rattle.std.proofs.lemmas.List.Edits.{sets};
ghost use Rattle.patch.specs.View.{flat};
ghost use Rattle.origins.specs.Sides.{looks_out, looks_in};
ghost use Rattle.tracing.specs.Inner.Read.{faces_from};
ghost use Rattle.origins.specs.Turned.{turned_from};
ghost use Rattle.looks.specs.Inner.Looks.{parent_in, HasSides, SidesWritten};

// The parent's number, or the face's own where there is none.
fn parent_of(origins: &[u32], face: usize) -> usize
    ensures { result ≡ parent_in origins.now face }
{
    if face < origins.len() / 2 {
        origins[2 * face] as usize
    } else {
        face
    }
}

// Whether a face looks out, where `sides` tells the side of the first faces: a seed looks out, any other face when its
// parent looks in.
#[cycle(told_in_told_out)]
fn told_out(origins: &[u32], sides: &[u32], face: usize) -> bool
    requires { HasSides origins.now sides.now (length sides.now) }
    ensures { result ≡ looks_out (parent_in origins.now) face }
{
    if face < sides.len() {
        return sides[face] == 0;
    }
    let parent = parent_of(origins, face);
    if face <= parent {
        return true;
    }
    told_in(origins, sides, parent)
}

// Whether a face looks in, likewise: a seed does not, any other face does when its parent looks out.
#[cycle(told_in_told_out)]
fn told_in(origins: &[u32], sides: &[u32], face: usize) -> bool
    requires { HasSides origins.now sides.now (length sides.now) }
    ensures { result ≡ looks_in (parent_in origins.now) face }
{
    if face < sides.len() {
        return sides[face] != 0;
    }
    let parent = parent_of(origins, face);
    if face <= parent {
        return false;
    }
    told_out(origins, sides, parent)
}

pub fn looks_out(origins: &[u32], face: usize) -> bool
    ensures { result ≡ looks_out (parent_in origins.now) face }
{
    told_out(origins, &[], face)
}

pub fn looks_in(origins: &[u32], face: usize) -> bool
    ensures { result ≡ looks_in (parent_in origins.now) face }
{
    told_in(origins, &[], face)
}

// One pass over the first n faces: each asks which way its parent looks, which is told already.
pub fn tell_sides(origins: &[u32], sides: &mut [u32], n: usize)
    requires { n ≤ length sides.old }
    ensures { SidesWritten origins.now sides.old sides.new n }
{
    for face in 0..n {
        sides[face] = u32::from(told_in(origins, &sides[..face], face));
    }
}

// Of the first n faces those that look in swap their first two points.
fn turn_told(sides: &[u32], faces: &mut [u32], n: usize)
    requires { (n ≤ length sides.now) × (3 * n ≤ length faces.old) }
    ensures { (origins : List ℕ) → HasSides origins sides.now n
        → faces.new ≡ sets faces.old 0
        (flat (turned_from (parent_in origins) 0 (faces_from faces.old 0 n))) }
{
    for k in 0..n {
        if sides[k] != 0 {
            faces.swap(3 * k, 3 * k + 1);
        }
    }
}

// Turns the first n faces, with room for a word of each.
pub fn turn(origins: &[u32], sides: &mut [u32], faces: &mut [u32], n: usize)
    requires { (n ≤ length sides.old) × (3 * n ≤ length faces.old) }
    ensures { faces.new ≡ sets faces.old 0
        (flat (turned_from (parent_in origins.now) 0 (faces_from faces.old 0 n))) }
{
    tell_sides(origins, sides, n);
    turn_told(sides, faces, n);
}
