// Faces that are offered because an edge of theirs was placed: each face at an edge gets its value in a tree of minima,
// found by the links of the corners at one of the edge's points.
#![tactic(auto)]

ghost use Rattle.std.specs.Prelude.{true, ◌+◌, ◌*◌, ◌≤◌, ◌<◌, length};
ghost use Rattle.corners.specs.Corners.{Bound};
ghost use Rattle.regions.specs.Inner.Ordering.{tree_end};
ghost use Rattle.offers.specs.Inner.Offers.{Offered, OfferedAt, Meets};

// Offers the face g, if it is left and was not offered before.
fn offer(n: usize, count: usize, words: &mut [u32], g: usize)
    requires { (n ≤ 4096) × (count ≤ n) × (g < count) × (tree_end n ≤ length words.old) }
    ensures { Offered n count g true words.old words.new }
{
    let value = words[regions::TREE * n + count + g] as usize;
    if value == count + g {
        minima::renew(regions::TREE * n, count, words, g, g as u32);
    }
}

// Offers the face g if it has the point y; tells whether it has.
fn offer_with(n: usize, count: usize, words: &mut [u32], g: usize, y: u32) -> bool
    requires { (n ≤ 4096) × (count ≤ n) × (g < count) × (tree_end n ≤ length words.old) }
    ensures { OfferedAt n count g y result words.old words.new }
{
    if corners::has_point(words, g, y) {
        offer(n, count, words, g);
        return true;
    }
    false
}

// Offers every face that has the edge from x to y; answers how many have it.
pub fn offer_at(n: usize, count: usize, words: &mut [u32], x: usize, y: u32) -> usize
    requires { (n ≤ 4096) × (count ≤ n) × (x < n) × (tree_end n ≤ length words.old)
        × Bound n (3 * count) words.old }
    ensures { Meets n count x y result words.old words.new }
{
    let mut met: usize = 0;
    let mut next: usize = words[regions::HEADS * n + x] as usize;
    while 0 < next {
        let side = next - 1;
        met += usize::from(offer_with(n, count, words, side / 3, y));
        next = words[regions::CORNERS * n + side] as usize;
    }
    met
}
