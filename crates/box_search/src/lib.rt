// The nearest of a list of points, by boxes that hold its halves: a part whose box is strictly farther than the best so
// far is left out.
#![tactic(auto)]

ghost use Rattle.std.specs.Prelude.{◌≡◌, not, ◌≤◌, ◌<◌, T, length, get_or};
ghost use Rattle.std.specs.Float.{binary32};
ghost use Rattle.std.specs.Float.Ieee.{nan_bits};
ghost use Rattle.nearest.specs.Scan.{length_to};
ghost use Rattle.nearest.specs.Parts.{scanned, near_of_best, best_in, KeepsBest};
ghost use Rattle.box_search.specs.Boxes.{float_at, side_gap, reach_of, boxes_below, spot_in, Six, SearchReady};

use vector::Point3f;

// How far the nearest number between lo and hi is from v, below zero where it is less.
fn gap(v: f32, lo: f32, hi: f32) -> f32
    ensures { result ≡ side_gap v lo hi }
{
    nearest::lesser(nearest::greater(lo, v), hi) - v
}

// The coordinate whose bits a word has.
fn word_at(words: &[u32], at: usize) -> f32
    requires { (at < length words.now) × T (not (nan_bits binary32 (get_or words.now at 0))) }
    ensures { result ≡ float_at words.now at }
{
    f32::from_bits(words[at])
}

// How far the spot is from the box at a place, squared.
pub fn reach(words: &[u32], at: usize, spot: Point3f) -> f32
    requires { Six words.now at }
    ensures { result ≡ reach_of words.now at spot }
{
    let x = gap(spot.x, word_at(words, at), word_at(words, at + 3));
    let y = gap(spot.y, word_at(words, at + 1), word_at(words, at + 4));
    let z = gap(spot.z, word_at(words, at + 2), word_at(words, at + 5));
    vector::magnitude_squared(vector::point(x, y, z))
}

// How many boxes a part of n points has.
fn boxes_below(width: usize, n: usize) -> usize
    requires { (width ≤ 4096) × (n ≤ 4096) }
    ensures { result ≡ boxes_below width n }
{
    if n <= 8 {
        return 1;
    }
    if 8 * width < n {
        return 2 * (n - 7 * width) - 1;
    }
    2 * width - 1
}

// What a scan of a list finds, but that parts whose box is farther than the best so far are left out, and of two halves
// the nearer one comes first. What all calls share is lent, since a call hands structs on through memory.
pub fn search(
    points: &[f32],
    spot: &[f32; 3],
    words: &[u32],
    at: usize,
    width: usize,
    far: f32,
    order: &[u32],
    near: u32,
    best: &mut [f32; 2],
) -> u32
    requires { SearchReady points.now (spot_in spot.now) words.now at width far order.now
        (best_in best.old near) }
    ensures { KeepsBest (best_in best.new result) (scanned
        (length_to points.now (spot_in spot.now)) order.now
        (near_of_best (best_in best.old near))) }
{
    if best[1] < far {
        return near;
    }
    let place = Point3f {
        x: spot[0],
        y: spot[1],
        z: spot[2],
    };
    let n = order.len();
    if n <= 8 {
        return nearest::scan_leaf(points, place, order, near, best);
    }
    let half = n / 2;
    let w = width / 2;
    let first = at + 6;
    let a = reach(words, first, place);
    let next = first + 6 * boxes_below(w, half);
    let b = reach(words, next, place);
    if b < a {
        let near = search(points, spot, words, next, w, b, &order[half..], near, best);
        if best[1] < a {
            return near;
        }
        return search(points, spot, words, first, w, a, &order[..half], near, best);
    }
    let near = search(points, spot, words, first, w, a, &order[..half], near, best);
    if best[1] < b {
        return near;
    }
    search(points, spot, words, next, w, b, &order[half..], near, best)
}
