// The parts of a step of the laying: the counts of faces, seeds, entries, looks and pivots, and the lent slices.
#![tactic(auto)]

ghost use Rattle.std.proofs.Math.Option.{some};
ghost use Rattle.std.specs.Prelude.{◌≤◌, ◌<◌};
ghost use Rattle.regions.specs.Inner.Regions.{used_at, frontier_at, frontier_end};
ghost use Rattle.patch.specs.Lay.{edge, met, seeded, pivoted};
ghost use Rattle.patch.specs.Frontier.{heap_of, queue_of, pop_of};
ghost use Rattle.laying_words.specs.Inner.Words.{WordsSized, OnlyIn};
ghost use Rattle.laying_steps.specs.Inner.Work.{Takes, Begins, Clears, Pops, TellsEntry, Open, NoneProcessed};
ghost use Rattle.laying_steps.specs.Inner.Work.{Misses};
ghost use Rattle.laying_steps.specs.Inner.Work.{FrontierReady, FaceRoom};

// How many faces, seeds, looks and pivots there were, how many entries wait, and where the first of them stands.
#[derive(Clone, Copy)]
pub struct Counts {
    pub faces: usize,
    pub seeds: u32,
    pub first: usize,
    pub frontier: usize,
    pub looks: u32,
    pub pivots: u32,
}

// An entry's edge, by its points.
#[derive(Clone, Copy)]
pub struct Entry {
    pub a: u32,
    pub b: u32,
}

// An entry that was popped, and the counts then.
#[derive(Clone, Copy)]
pub struct Popped {
    pub entry: u32,
    pub counts: Counts,
}

// The laying begins: there is no face, and no point is used.
pub fn begin(w: &mut [u32], n: usize) -> Counts
    requires { WordsSized n w.old }
    ensures begins { Begins n result w.new }
    ensures only_in { OnlyIn (used_at n) (frontier_at n) w.old w.new }
{
    laying_words::clear_used(w, n);
    Counts {
        faces: 0,
        seeds: 0,
        first: 0,
        frontier: 0,
        looks: 0,
        pivots: 0,
    }
}

// A radius begins: no entry waits and no edge is processed.
pub fn clear(c: Counts) -> Counts
    ensures { Clears c result }
{
    let mut r = c;
    r.first = 0;
    r.frontier = 0;
    r
}

// A look begins under rule 1: an entry is popped from the heap.
fn pop_heap(w: &mut [u32], n: usize, c: Counts) -> Popped
    requires { FrontierReady n c w.old × (0 < c.frontier) }
    ensures pops { Pops heap_of n c w.old result.entry result.counts w.new }
    ensures only_in { OnlyIn (used_at n) (frontier_end n) w.old w.new }
{
    let count = c.frontier;
    let entry = laying_words::pop_frontier(w, n, c.first, count);
    let mut r = c;
    r.frontier = count - 1;
    r.looks = c.looks + 1;
    Popped {
        entry: entry,
        counts: r,
    }
}

// A look begins under rule 2: the entry that was pushed first is popped, and the others stay where they are.
fn pop_queue(w: &[u32], n: usize, c: Counts) -> Popped
    requires { FrontierReady n c w.now × (0 < c.frontier) }
    ensures { Pops queue_of n c w.now result.entry result.counts w.now }
{
    let front = c.first;
    let left = c.frontier - 1;
    let at = regions::FRONTIER * n + front;
    let mut r = c;
    r.first = front + 1;
    r.frontier = left;
    r.looks += 1;
    Popped {
        entry: w[at],
        counts: r,
    }
}

// A look begins: an entry is popped, by the rule.
pub fn pop(w: &mut [u32], n: usize, c: Counts, rule: u32) -> Popped
    requires { FrontierReady n c w.old × (0 < c.frontier) }
    ensures pops { Pops (pop_of rule) n c w.old result.entry result.counts w.new }
    ensures only_in { OnlyIn (used_at n) (frontier_end n) w.old w.new }
{
    if rule == 2 {
        return pop_queue(w, n, c);
    }
    pop_heap(w, n, c)
}

// What the word of an entry tells: its edge, unless that is processed.
pub fn read_entry(word: u32) -> Option<Entry>
    ensures { TellsEntry word result }
{
    if laying_words::FLAG <= word {
        return None;
    }
    Some(Entry {
        a: word / 4096,
        b: word % 4096,
    })
}

// A pivot is over that met no point.
pub fn miss(c: Counts) -> Counts
    requires { c.pivots ≤ 8192 }
    ensures { Misses c result }
{
    let mut r = c;
    r.pivots += 1;
    r
}

// The ball met the point k over the edge a, b: the face is laid, and from now on its first edge is processed.
pub fn lay_pivot(
    faces: &mut [u32],
    w: &mut [u32],
    n: usize,
    c: Counts,
    a: u32,
    b: u32,
    k: u32,
) -> Counts
    requires { FaceRoom n c w.old a b k }
    ensures takes { Takes n (Open (edge a b) k) (λ s. pivoted (edge a b) (met (edge a b) (some k) s)) c
        w.old faces.old result w.new faces.new }
    ensures only_in { OnlyIn (used_at n) (frontier_end n) w.old w.new }
{
    let count = c.faces;
    let waiting = c.frontier;
    laying_words::put_face(faces, count, a, b, k);
    laying_words::mark_used(w, n, k);
    laying_words::add_triangle_edges_to_frontier(w, n, c.first + waiting, true, a, b, k);
    let mut r = c;
    r.faces = count + 1;
    r.frontier = waiting + 3;
    r.pivots = c.pivots + 1;
    r
}

// The seed i, j, k is laid.
pub fn lay_seed(
    faces: &mut [u32],
    w: &mut [u32],
    n: usize,
    c: Counts,
    i: u32,
    j: u32,
    k: u32,
) -> Counts
    requires { FaceRoom n c w.old i j k }
    ensures takes { Takes n NoneProcessed (seeded (i, j, k)) c w.old faces.old result w.new
        faces.new }
    ensures only_in { OnlyIn (used_at n) (frontier_end n) w.old w.new }
{
    let count = c.faces;
    let waiting = c.frontier;
    laying_words::put_face(faces, count, i, j, k);
    laying_words::mark_seed(w, n, i, j, k);
    laying_words::add_triangle_edges_to_frontier(w, n, c.first + waiting, false, i, j, k);
    let mut r = c;
    r.faces = count + 1;
    r.seeds = c.seeds + 1;
    r.frontier = waiting + 3;
    r
}
