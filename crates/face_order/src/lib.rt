// Faces of another ball pivoter, as point numbers: could they be a patch of ours in shape, and in what order.
//
// The checks behind the first, and the order, are those of crate `patch_order`, which reads the faces from lines.
#![tactic(auto)]

ghost use Rattle.std.specs.Prelude.{◌≡◌, ℕ, ◌≤◌, ◌<◌, length, get_or};
ghost use Rattle.face_order.specs.Faces.{faces_of, seen_of, Ready, Judged, OrdersFaces};

use patch_order::Ordered;

// Whether some number is out of range, and whether some face has two equal numbers.
#[derive(Clone, Copy)]
pub struct FacesSeen {
    pub outside: bool,
    pub twice: bool,
}

// One pass over all faces, for n points.
fn look_at(faces: &[u32], n: usize) -> FacesSeen
    ensures { result ≡ seen_of n (faces_of faces.now) }
{
    let count = faces.len() / 3;
    let mut outside = false;
    let mut twice = false;
    for i in 0..count {
        let a = faces[3 * i];
        let b = faces[3 * i + 1];
        let c = faces[3 * i + 2];
        outside = face_lines::is_outside(outside, n, a, b, c);
        twice = face_lines::is_twice(twice, a, b, c);
    }
    FacesSeen {
        outside: outside,
        twice: twice,
    }
}

// Copies the numbers to the front of the words.
fn copy_numbers(faces: &[u32], words: &mut [u32])
    requires { length faces.now ≤ length words.old }
    ensures { (k : ℕ) → k < length faces.now
        → get_or words.new k 0 ≡ get_or faces.now k 0 }
{
    for k in 0..faces.len() {
        words[k] = faces[k];
    }
}

// Faces that have passed the checks so far: 13, 23 or their order. More than n - 2 faces have none, and are not copied.
fn order_checked(faces: &[u32], n: usize, order: &mut [u32], words: &mut [u32]) -> Ordered
    requires { Ready faces.now n (length words.old) }
    ensures { Judged (faces_of faces.now) order.old result order.new }
{
    let count = faces.len() / 3;
    if order.len() < count {
        return patch_order::refused(answers::OUTPUT_TOO_SHORT, 0);
    }
    if patch_order::is_too_many(n, count) {
        return patch_order::refused(answers::NO_ORDER, 0);
    }
    copy_numbers(faces, words);
    match ordering::order_faces(n, count, order, words) {
        Some(seeds) => Ordered {
            answer: 0,
            detail: 0,
            faces: count,
            seeds,
        },
        None => patch_order::refused(answers::NO_ORDER, 0),
    }
}

pub fn order_faces(
    faces: &[u32],
    point_count: usize,
    order: &mut [u32],
    words: &mut [u32],
    floats: &mut [f32],
) -> Ordered
    ensures { OrdersFaces faces.now point_count order.old words.old
        floats.old result order.new words.new floats.new }
{
    if faces.len() % 3 != 0 {
        return patch_order::refused(answers::LENGTHS, 0);
    }
    let seen = look_at(faces, point_count);
    let outcome = patch_order::refusal_of_faces(
        point_count,
        seen.outside,
        seen.twice,
        words.len(),
        floats.len(),
    );
    if let Err(refusal) = outcome {
        return patch_order::refused(refusal.answer, 0);
    }
    let ordered = order_checked(faces, point_count, order, words);
    clearing::clear(words);
    clearing::clear(floats);
    ordered
}
