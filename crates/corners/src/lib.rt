// The corners of faces, three words a face in front of a lent slice: links from each corner to the one before it at the
// same point, and whether a face has a point.
#![tactic(auto)]

ghost use Rattle.std.specs.Prelude.{◌≡◌, ℕ, ◌+◌, ◌*◌, ◌≤◌, ◌<◌, length, get_or};
ghost use Rattle.patch.specs.Shape.{touches};
ghost use Rattle.regions.specs.Inner.Ordering.{heads_at, heads_end};
ghost use Rattle.corners.specs.Corners.{face_in, Links};

// Links the corners of `count` faces over n points, whose heads are zeros.
pub fn link_corners(n: usize, count: usize, words: &mut [u32])
    requires { (n ≤ 4096) × (count ≤ n) × (heads_end n ≤ length words.old)
        × ((s : ℕ) → s < 3 * count → get_or words.old s 0 < n)
        × ((x : ℕ) → x < n → get_or words.old (heads_at n + x) 0 ≡ 0) }
    ensures { Links n (3 * count) words.old words.new }
{
    for s in 0..3 * count {
        let x = words[s] as usize;
        words[regions::CORNERS * n + s] = words[regions::HEADS * n + x];
        words[regions::HEADS * n + x] = (s + 1) as u32;
    }
}

// Whether the face g has the point x.
pub fn has_point(words: &[u32], g: usize, x: u32) -> bool
    requires { 3 * g + 3 ≤ length words.now }
    ensures { result ≡ touches x (face_in words.now g) }
{
    if x == words[3 * g] {
        return true;
    }
    if x == words[3 * g + 1] {
        return true;
    }
    x == words[3 * g + 2]
}
