// What comes back of what was found. The definition of the whole call and the one claim about it are in specs/; the
// call itself is in `reconstruction`.
#![tactic(auto)]

ghost use Rattle.std.specs.Prelude.{◌≡◌, ◌≤◌};
ghost use Rattle.ball_pivoting.specs.Reconstruct.{refused, reason_by};
ghost use Rattle.ball_pivoting.specs.Inner.Parts.{accepted_by, Delivers};

use radii::Radii;

// The answer's number and detail, 0 where the cloud is accepted; how many faces, seeds, looks and pivots there are; the
// radii.
#[repr(C)]
#[derive(Clone, Copy)]
pub struct Patch {
    pub answer: u32,
    pub detail: u32,
    pub faces: u32,
    pub seeds: u32,
    pub looks: u32,
    pub pivots: u32,
    pub radii_count: u32,
    pub radii: [f32; 17],
}

// What was found, before it is known whether it fits; what is answered if it is nothing; and how many faces there were
// after each radius.
#[derive(Clone, Copy)]
pub struct Finding {
    pub faces: usize,
    pub seeds: u32,
    pub looks: u32,
    pub pivots: u32,
    pub reason: u32,
    pub radii: Radii,
    pub marks: [usize; 17],
}

// A refusal: no counts and no radii.
pub fn refuse(answer: u32, detail: u32) -> Patch
    ensures { result ≡ refused answer detail }
{
    Patch {
        answer: answer,
        detail: detail,
        faces: 0,
        seeds: 0,
        looks: 0,
        pivots: 0,
        radii_count: 0,
        radii: [0.0; 17],
    }
}

// What was found and fits.
pub fn accept(found: Finding) -> Patch
    requires { found.faces ≤ 10000 }
    ensures { result ≡ accepted_by found }
{
    let radii = found.radii;
    let list = radii.list;
    Patch {
        answer: 0,
        detail: 0,
        faces: found.faces as u32,
        seeds: found.seeds,
        looks: found.looks,
        pivots: found.pivots,
        radii_count: radii.count,
        radii: list,
    }
}

// What is found comes back if it is some faces and they fit; the faces that fit stand in the slice already.
pub fn deliver(found: Finding, faces: &mut [u32]) -> Patch
    requires { found.faces ≤ 10000 }
    ensures { Delivers found faces.old result faces.new }
{
    let count = found.faces;
    if count == 0 {
        return refuse(found.reason, 0);
    }
    if faces.len() / 3 < count {
        clearing::clear(faces);
        return refuse(answers::FACES, 0);
    }
    accept(found)
}

// The answer where no triangle was found: there are too few points, or no triple was judged, or all that were judged
// were turned down.
pub fn reason_by(n: usize, judged: bool) -> u32
    ensures { result ≡ reason_by n judged }
{
    if n < 3 {
        return answers::TOO_FEW_POINTS;
    }
    if judged {
        return answers::ALL_TURNED_DOWN;
    }
    answers::NONE_CLOSE
}
