// Entries of the frontier, used points and faces as words of the lent slices.
#![tactic(auto)]

mod heap;

ghost use Rattle.std.specs.Prelude.{◌≡◌, cond, [], ◌∷◌, replicate, ◌+◌, ◌*◌, ◌≤◌, ◌<◌};
ghost use Rattle.regions.specs.Inner.Regions.{used_at, frontier_at, used_in};
ghost use Rattle.patch.specs.Lay.{edge, face};
ghost use Rattle.laying_words.specs.Inner.Words.{flag, word_of, words_of, WordsSized, OnlyIn, Taken, Pushed};
ghost use Rattle.laying_words.specs.Inner.Words.{WordsMarked};
ghost use Rattle.laying_words.specs.Inner.Words.{WroteFace};

// What an entry has above its edge if the edge is processed.
pub const FLAG: u32 = 16777216;

// No point is used.
pub fn clear_used(w: &mut [u32], n: usize)
    requires { WordsSized n w.old }
    ensures w_after { used_in n w.new ≡ replicate n 0 }
    ensures only_in { OnlyIn (used_at n) (frontier_at n) w.old w.new }
{
    let at = regions::USED * n;
    w[at..at + n].fill(0);
}

// Takes an entry out of the `count` ones that wait from `first` on, as a heap does.
pub fn pop_frontier(w: &mut [u32], n: usize, first: usize, count: usize) -> u32
    requires { WordsSized n w.old × (0 < count) × (first + count ≤ 3 * n) }
    ensures { Taken n first count w.old w.new result }
{
    let at = regions::FRONTIER * n + first;
    heap::pop(&mut w[at..], count)
}

// The edge a, b goes to the end of the frontier, which is at `end`, with `mark` above it.
fn push_edge(w: &mut [u32], n: usize, end: usize, mark: u32, a: u32, b: u32)
    requires { WordsSized n w.old × (end + 1 ≤ 3 * n) × (mark ≤ flag) × (a < 4096) × (b < 4096) }
    ensures { Pushed n end (word_of mark (edge a b) ∷ []) w.old w.new }
{
    let i = regions::FRONTIER * n + end;
    w[i] = a * 4096 + b + mark;
}

// The three edges of the face a, b, k, of which none was processed; the first may be from now on.
pub fn add_triangle_edges_to_frontier(
    w: &mut [u32],
    n: usize,
    end: usize,
    processed: bool,
    a: u32,
    b: u32,
    k: u32,
)
    requires { WordsSized n w.old × (end + 3 ≤ 3 * n) × (a < 4096) × (b < 4096) × (k < 4096) }
    ensures { Pushed n end (words_of (cond processed flag 0) (face a b k)) w.old w.new }
{
    let mark = if processed { FLAG } else { 0 };
    push_edge(w, n, end, mark, a, b);
    push_edge(w, n, end + 1, 0, b, k);
    push_edge(w, n, end + 2, 0, k, a);
}

// Point k is used from now on.
pub fn mark_used(w: &mut [u32], n: usize, k: u32)
    requires { WordsSized n w.old × (k < n) }
    ensures { WordsMarked n (k ∷ []) w.old w.new }
{
    let i = regions::USED * n + k as usize;
    w[i] = 1;
}

// The three points of a seed are used from now on.
pub fn mark_seed(w: &mut [u32], n: usize, a: u32, b: u32, c: u32)
    requires { WordsSized n w.old × (a < n) × (b < n) × (c < n) }
    ensures { WordsMarked n (a ∷ b ∷ c ∷ []) w.old w.new }
{
    mark_used(w, n, a);
    mark_used(w, n, b);
    mark_used(w, n, c);
}

// The face a, b, k goes behind the `count` faces in the slice, if it fits there.
pub fn put_face(faces: &mut [u32], count: usize, a: u32, b: u32, k: u32)
    requires { count ≤ 10000 }
    ensures { WroteFace count (face a b k) faces.old faces.new }
{
    let i = 3 * count;
    if i + 3 <= faces.len() {
        faces[i] = a;
        faces[i + 1] = b;
        faces[i + 2] = k;
    }
}
