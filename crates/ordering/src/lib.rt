// Faces from another program: whether they could be a patch of ours in shape, and the greedy order.
#![tactic(auto)]

ghost use Rattle.std.specs.Prelude.{◌≡◌, List, ◌++◌, ◌⊎◌, ℕ, ◌+◌, ◌*◌, ◌≤◌, ◌<◌, length, get_or, take, drop};
ghost use Rattle.patch.specs.Lay.{Face};
ghost use Rattle.corners.specs.Corners.{Bound};
ghost use Rattle.regions.specs.Inner.Ordering.{placed_at, placed_end};
ghost use Rattle.ordering.specs.Inner.Ordering.{least_face, FacesInWords, FindsOrder, FacesOrdered};

// Sets the words from one place to another to zeros.
fn clear_part(words: &mut [u32], from: usize, to: usize)
    requires { (from ≤ to) × (to ≤ length words.old) }
    ensures zeros { (k : ℕ) → from ≤ k → k < to → get_or words.new k 0 ≡ 0 }
    ensures outside { (k : ℕ) → (k < from) ⊎ (to ≤ k)
        → get_or words.new k 0 ≡ get_or words.old k 0 }
{
    words[from..to].fill(0);
}

// The face that the least value tells.
fn face_of(count: usize, root: usize) -> usize
    ensures { result ≡ least_face count root }
{
    if root < count { root } else { root - count }
}

// Places the faces in greedy order, until one does not fit or an edge lies in three faces; where none does, how many
// of them share no edge with an earlier one.
fn place_all(n: usize, count: usize, words: &mut [u32]) -> Option<u32>
    requires { (n ≤ 4096) × (count ≤ n) × (placed_end n ≤ length words.old) × Bound n (3 * count) words.old }
    ensures { FindsOrder n count result words.old words.new }
{
    let mut seeds: u32 = 0;
    for k in 0..count {
        let root = words[regions::TREE * n + 1] as usize;
        let i = face_of(count, root);
        if count <= i {
            return None;
        }
        let shared = root < count;
        if !placing::place(n, count, words, i, shared) {
            return None;
        }
        seeds += u32::from(!shared);
        words[regions::PLACED * n + k] = i as u32;
    }
    Some(seeds)
}

// Copies the order out of the words.
fn copy_order(n: usize, count: usize, order: &mut [u32], words: &[u32])
    requires { (count ≤ n) × (count ≤ length order.old) × (placed_end n ≤ length words.now) }
    ensures { order.new ≡ take count (drop (placed_at n) words.now)
        ++ drop count order.old }
{
    let at = regions::PLACED * n;
    for j in 0..count {
        order[j] = words[at + j];
    }
}

// Decides whether `count` faces over n points, three words each in front of `words`, could be a patch of ours in shape.
// If so, `order` gets the greedy order in front, and the answer is how many faces share no edge with an earlier one.
// What `words` holds afterwards is free.
pub fn order_faces(n: usize, count: usize, order: &mut [u32], words: &mut [u32]) -> Option<u32>
    requires { (n ≤ 4096) × (count ≤ n) × (count ≤ length order.old) × (placed_end n ≤ length words.old)
        × ((s : ℕ) → s < 3 * count → get_or words.old s 0 < n) }
    ensures { (fs : List Face) → FacesInWords count fs words.old
        → FacesOrdered fs result order.old order.new }
{
    clear_part(words, regions::HEADS * n, regions::TREE * n);
    corners::link_corners(n, count, words);
    minima::plant(regions::TREE * n, count, words);
    let found = place_all(n, count, words)?;
    copy_order(n, count, order, words);
    Some(found)
}
