// A face is placed: its points are reached, its value in the tree of minima goes, and every face at one of its new
// edges is offered.
#![tactic(auto)]

ghost use Rattle.std.specs.Prelude.{◌≡◌, ◌+◌, ◌*◌, ◌≤◌, ◌<◌, length, set};
ghost use Rattle.lists.specs.Lists.{bit};
ghost use Rattle.corners.specs.Corners.{Bound};
ghost use Rattle.regions.specs.Inner.Ordering.{reached_words_at, tree_end};
ghost use Rattle.placing.specs.Inner.Placing.{opens, fitting, Opens, Arounds, Places};

// The side from x to y of a face that is placed; ux and uy tell whether the points were reached before.
fn open_side(n: usize, count: usize, words: &mut [u32], x: u32, y: u32, ux: bool, uy: bool) -> bool
    requires { (n ≤ 4096) × (count ≤ n) × (x < n) × (y < n) × (tree_end n ≤ length words.old)
        × Bound n (3 * count) words.old }
    ensures { Opens n count x y (opens ux uy) result words.old words.new }
{
    if !ux {
        return offers::offer_at(n, count, words, x as usize, y) <= 2;
    }
    if !uy {
        return offers::offer_at(n, count, words, y as usize, x) <= 2;
    }
    true
}

// The three sides of a face that is placed.
fn open_sides(
    n: usize,
    count: usize,
    words: &mut [u32],
    a: u32,
    b: u32,
    c: u32,
    ua: bool,
    ub: bool,
    uc: bool,
) -> bool
    requires { (n ≤ 4096) × (count ≤ n) × (a < n) × (b < n) × (c < n) × (tree_end n ≤ length words.old)
        × Bound n (3 * count) words.old }
    ensures { Arounds n count a b c (opens ua ub) (opens ub uc) (opens uc ua) result words.old
        words.new }
{
    open_side(n, count, words, a, b, ua, ub)
        && open_side(n, count, words, b, c, ub, uc)
        && open_side(n, count, words, c, a, uc, ua)
}

// Three points are reached.
fn reach(n: usize, words: &mut [u32], a: usize, b: usize, c: usize)
    requires { (n ≤ 4096) × (a < n) × (b < n) × (c < n) × (tree_end n ≤ length words.old) }
    ensures { words.new
        ≡ set (set (set words.old (reached_words_at n + a) 1) (reached_words_at n + b) 1)
        (reached_words_at n + c) 1 }
{
    words[regions::REACHED * n + a] = 1;
    words[regions::REACHED * n + b] = 1;
    words[regions::REACHED * n + c] = 1;
}

// Whether a face fits of whose points these were reached: none, or two where it shares an edge.
fn may_place(ua: bool, ub: bool, uc: bool, shared: bool) -> bool
    ensures { result ≡ fitting (bit ua + bit ub + bit uc) shared }
{
    let reached = u32::from(ua) + u32::from(ub) + u32::from(uc);
    reached == 0 || shared && reached == 2
}

// Places the face i, which shares an edge with a placed one or not; answers whether it fits, and none of its edges lies
// in three faces.
pub fn place(n: usize, count: usize, words: &mut [u32], i: usize, shared: bool) -> bool
    requires { (n ≤ 4096) × (count ≤ n) × (i < count) × (tree_end n ≤ length words.old)
        × Bound n (3 * count) words.old }
    ensures { Places n count i shared result words.old words.new }
{
    let a = words[3 * i];
    let b = words[3 * i + 1];
    let c = words[3 * i + 2];
    let ua = words[regions::REACHED * n + a as usize] != 0;
    let ub = words[regions::REACHED * n + b as usize] != 0;
    let uc = words[regions::REACHED * n + c as usize] != 0;
    if !may_place(ua, ub, uc, shared) {
        return false;
    }
    minima::renew(regions::TREE * n, count, words, i, (2 * count) as u32);
    reach(n, words, a as usize, b as usize, c as usize);
    open_sides(n, count, words, a, b, c, ua, ub, uc)
}
