// Where each face of a patch came from: one pass over the laid faces writes its parent's number and its radius's place.
#![tactic(auto)]

ghost use Rattle.std.specs.Prelude.{◌≡◌, ◌*◌, ◌≤◌, ◌<◌, max, length, get_or, set, take};
ghost use Rattle.std.proofs.lemmas.List.Edits.{sets};
ghost use Rattle.origins.specs.Pass.{parent_at, brought_after, place_of, origins_from};
ghost use Rattle.patch.specs.Lay.{face};
ghost use Rattle.tracing.specs.Inner.Read.{faces_from};
ghost use Rattle.tracing.specs.Plain.{plain_origins};

// The word of a point; 0 where there is none.
fn word_at(words: &[u32], point: u32) -> u32
    ensures { result ≡ get_or words.now point 0 }
{
    words.get(point as usize).copied().unwrap_or(0)
}

// Gives a point a word, if it has a place for one.
fn put_word(words: &mut [u32], point: u32, word: u32)
    ensures { words.new ≡ set words.old point word }
{
    let at = point as usize;
    if at < words.len() {
        words[at] = word;
    }
}

// The parent of face k, whose points are a, b and c; the points that it brings in get its number, plus 1.
fn trace_face(words: &mut [u32], k: u32, a: u32, b: u32, c: u32) -> u32
    requires { k ≤ 10000 }
    ensures { (result ≡ parent_at k words.old (face a b c))
        × (words.new ≡ brought_after k words.old (face a b c)) }
{
    let first = word_at(words, a);
    let word = k + 1;
    if first == 0 {
        put_word(words, a, word);
        put_word(words, b, word);
        put_word(words, c, word);
        return k;
    }
    let last = first.max(word_at(words, b));
    put_word(words, c, word);
    last - 1
}

// The place of face k's radius: how many of the radii were done with no more than k faces laid.
fn place_of(marks: [usize; 17], radii: usize, k: usize) -> u32
    requires { radii ≤ 17 }
    ensures { result ≡ place_of (take radii marks) k }
{
    marks[..radii].iter().filter(|mark| **mark <= k).count() as u32
}

// Parent and place of each of the first `count` faces, where `marks` has how many there were after each of the radii.
pub fn write_origins(
    faces: &[u32],
    count: usize,
    marks: [usize; 17],
    radii: usize,
    words: &mut [u32],
    origins: &mut [u32],
)
    requires { (count ≤ 10000) × (3 * count ≤ length faces.now) × (2 * count ≤ length origins.old)
        × (radii ≤ 17) }
    ensures { origins.new ≡ sets origins.old 0
        (origins_from (take radii marks) 0 words.old (faces_from faces.now 0 count)) }
{
    for k in 0..count {
        let parent = trace_face(
            words,
            k as u32,
            faces[3 * k],
            faces[3 * k + 1],
            faces[3 * k + 2],
        );
        let place = place_of(marks, radii, k);
        origins[2 * k] = parent;
        origins[2 * k + 1] = place;
    }
}

// A plain face has no parent and no radius: it names itself, and place 0.
pub fn write_plain_origins(count: usize, origins: &mut [u32])
    requires { (count ≤ 10000) × (2 * count ≤ length origins.old) }
    ensures { origins.new ≡ sets origins.old 0 (plain_origins count) }
{
    for k in 0..count {
        origins[2 * k] = k as u32;
        origins[2 * k + 1] = 0;
    }
}
