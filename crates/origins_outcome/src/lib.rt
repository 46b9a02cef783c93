// What comes back of the main call with the record of where each face came from: the patch, turned to face one way if
// that is asked for, and the origins.
#![tactic(auto)]

ghost use Rattle.std.specs.Prelude.{◌≡◌, cond, ◌*◌, ◌≤◌, length, take};
ghost use Rattle.std.proofs.lemmas.List.Edits.{sets};
ghost use Rattle.patch.specs.View.{flat};
ghost use Rattle.origins.specs.Pass.{origins_from};
ghost use Rattle.origins.specs.Turned.{turned_from};
ghost use Rattle.tracing.specs.Inner.Read.{faces_from};
ghost use Rattle.looks.specs.Inner.Looks.{parent_in};
ghost use Rattle.origins_outcome.specs.Call.{over};
ghost use Rattle.origins_outcome.specs.Inner.Parts.{FindingHeld, DeliversWithOrigins};

use ball_pivoting::{Finding, Patch};

// Whether there are more faces than fit one of the slices.
fn is_over(count: usize, room: usize, places: usize) -> bool
    ensures { result ≡ over count room places }
{
    if room / 3 < count {
        return true;
    }
    places / 2 < count
}

// The faces of the multi-radius path fit: their origins are written, and they are turned where that is asked for.
fn write_laid(
    found: Finding,
    turned: bool,
    n: usize,
    faces: &mut [u32],
    origins: &mut [u32],
    words: &mut [u32],
)
    requires { (found.faces ≤ 10000) × (found.radii.count ≤ 17) × (found.faces ≤ n) × (n ≤ length words.old)
        × (3 * found.faces ≤ length faces.old) × (2 * found.faces ≤ length origins.old) }
    ensures { (origins.new ≡ sets origins.old 0
        (origins_from (take found.radii.count found.marks) 0 (take n words.old)
        (faces_from faces.old 0 found.faces)))
        × (faces.new ≡ cond turned
        (sets faces.old 0
        (flat (turned_from (parent_in origins.new) 0 (faces_from faces.old 0 found.faces))))
        faces.old) }
{
    let count = found.faces;
    let marks = found.marks;
    let radii = found.radii;
    let places = radii.count as usize;
    tracing::write_origins(faces, count, marks, places, &mut words[..n], origins);
    if turned {
        looks::turn(origins, words, faces, count);
    }
}

// What is found over n points comes back if it is some faces, they fit, and they can be turned if they are to be.
pub fn deliver(
    found: Finding,
    turned: bool,
    n: usize,
    faces: &mut [u32],
    origins: &mut [u32],
    words: &mut [u32],
) -> Patch
    requires { FindingHeld found n words.old }
    ensures { DeliversWithOrigins turned n found faces.old origins.old
        words.old result
        faces.new origins.new }
{
    let count = found.faces;
    if count == 0 {
        return ball_pivoting::refuse(found.reason, 0);
    }
    if is_over(count, faces.len(), origins.len()) {
        clearing::clear(faces);
        clearing::clear(origins);
        return ball_pivoting::refuse(answers::FACES, 0);
    }
    let radii = found.radii;
    if radii.count != 0 {
        write_laid(found, turned, n, faces, origins, words);
        return ball_pivoting::accept(found);
    }
    if turned {
        return ball_pivoting::refuse(answers::TURNED_PLAIN, 0);
    }
    tracing::write_plain_origins(count, origins);
    ball_pivoting::accept(found)
}
