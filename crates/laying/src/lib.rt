// Ball pivoting over the lent slices: a look at an entry, the looks of one radius, and the radii in turn.
#![tactic(auto)]

ghost use Rattle.std.specs.Prelude.{◌≡◌, true, ◌*◌, ◌≤◌, ◌<◌, take, [], ◌∷◌};
ghost use Rattle.patch.specs.Lay.{edge, run, lay_one, patch, blank};
ghost use Rattle.origins.specs.Inner.Following.{marks_from};
ghost use Rattle.patch.specs.Frontier.{pop_of};
ghost use Rattle.patch.specs.Inner.Invariant.{Inv, Rest};
ghost use Rattle.std.proofs.Math.Option.{none};
ghost use Rattle.nearby.specs.Inner.Ready.{used_in_scene};
ghost use Rattle.laying_steps.specs.Inner.Work.{HoldsState};
ghost use Rattle.known_radii.specs.Inner.Known.{NothingTo};
ghost use Rattle.laying.specs.Inner.Laying.{AllSearchable, LayingSearchable, rules_of, pivot_over, look_under};
ghost use Rattle.laying.specs.Inner.Laying.{LaysState, EntryOpened};
ghost use Rattle.laying.specs.Inner.Laying.{Pivoting, BetweenLooks, BetweenRadii, Without};
ghost use Rattle.spatial_hash.specs.Inner.Near.{HashLinked};

use decisions::Scene;
use known_radii::Upto;
use laying_steps::Counts;
use seed::Told;
use spatial_hash::Hash;

// What one radius is laid by: the scene, the hash of its unused points, the radius, and the rule of popping.
#[derive(Clone, Copy)]
pub struct Pass {
    pub scene: Scene,
    pub hash: Hash,
    pub radius: f32,
    pub rule: u32,
}

// The ball is pivoted over the edge a, b; if it meets a point, their face is laid. Then the edge is processed.
fn pivot_over(
    p: Pass,
    points: &[f32],
    faces: &mut [u32],
    w: &mut [u32],
    c: Counts,
    a: u32,
    b: u32,
) -> Counts
    requires { Pivoting p.scene p.hash points.now c w.old faces.old (edge a b) }
    ensures { LaysState p.scene p.hash points.now (EntryOpened p.scene.n (edge a b))
        (pivot_over p.scene points.now p.radius (edge a b)) c w.old faces.old result
        w.new faces.new }
{
    let s = p.scene;
    let hash = p.hash;
    let found = pivot::try_ball_pivot(s, points, w, p.radius, a as usize, b as usize, hash);
    match found {
        Some(k) => {
            spatial_hash::remove(points, w, s.n, hash, k);
            laying_steps::lay_pivot(faces, w, s.n, c, a, b, k as u32)
        }
        None => laying_steps::miss(c),
    }
}

// One look: an entry is popped, and pivoted over unless its edge is processed.
fn look(p: Pass, points: &[f32], faces: &mut [u32], w: &mut [u32], c: Counts) -> Counts
    requires { BetweenLooks p.scene p.hash points.now c w.old faces.old × (0 < c.frontier) }
    ensures { LaysState p.scene p.hash points.now (Inv p.scene.n)
        (look_under p.rule p.scene points.now p.radius) c w.old faces.old result
        w.new faces.new }
{
    let top = laying_steps::pop(w, p.scene.n, c, p.rule);
    let left = top.counts;
    match laying_steps::read_entry(top.entry) {
        Some(edge) => pivot_over(p, points, faces, w, left, edge.a, edge.b),
        None => left,
    }
}

// Looks until no entry waits.
fn run(p: Pass, points: &[f32], faces: &mut [u32], w: &mut [u32], start: Counts) -> Counts
    requires { BetweenLooks p.scene p.hash points.now start w.old faces.old }
    ensures { LaysState p.scene p.hash points.now (Inv p.scene.n)
        (run (rules_of p.scene points.now) (pop_of p.rule) p.radius (3 * p.scene.n)) start
        w.old faces.old result w.new faces.new }
{
    let mut c = start;
    while 0 < c.frontier {
        c = look(p, points, faces, w, c);
    }
    c
}

// The points of a seed leave the hash.
fn remove_three(points: &[f32], w: &mut [u32], n: usize, hash: Hash, i: usize, j: usize, k: usize)
    requires { HashLinked hash points.now n w.old × (i < n) × (j < n) × (k < n) }
    ensures { Without hash points.now n (i ∷ j ∷ k ∷ []) w.old w.new }
{
    spatial_hash::remove(points, w, n, hash, i);
    spatial_hash::remove(points, w, n, hash, j);
    spatial_hash::remove(points, w, n, hash, k);
}

// The counts after a radius, and what is known of radii then.
#[derive(Clone, Copy)]
pub struct Laid {
    pub counts: Counts,
    pub upto: Upto,
}

// One radius: from its seed, if there is one.
fn lay_one(
    p: Pass,
    points: &[f32],
    faces: &mut [u32],
    w: &mut [u32],
    before: Counts,
    t: Told,
) -> Laid
    requires { BetweenRadii p.scene p.hash points.now before w.old faces.old
        × (t.known ≡ true → (rules_of p.scene points.now).seed_of p.radius (used_in_scene p.scene w.old)
        ≡ none)
        × NothingTo p.scene points.now (used_in_scene p.scene w.old) t.upto }
    ensures { LaysState p.scene p.hash points.now (Rest p.scene.n)
        (lay_one (rules_of p.scene points.now) (pop_of p.rule) p.scene.n p.radius) before
        w.old faces.old result.counts w.new faces.new
        × NothingTo p.scene points.now (used_in_scene p.scene w.new) result.upto }
{
    let s = p.scene;
    let hash = p.hash;
    let c = laying_steps::clear(before);
    let search = seed::find_seed_triangle(s, points, w, p.radius, hash, t);
    let seed = search.seed;
    match seed {
        Some((i, j, k)) => {
            remove_three(points, w, s.n, hash, i, j, k);
            let first = laying_steps::lay_seed(faces, w, s.n, c, i as u32, j as u32, k as u32);
            let last = run(p, points, faces, w, first);
            Laid {
                counts: last,
                upto: Upto::Unknown,
            }
        }
        None => Laid {
            counts: c,
            upto: search.upto,
        },
    }
}

// The last of the first `count` radii, which is the largest.
fn last_of(radii: [f32; 17], count: usize) -> f32
    requires { count ≤ 17 }
{
    if count == 0 {
        return 0.0;
    }
    radii[count - 1]
}

// The counts at the end, and how many faces there were after each radius.
#[derive(Clone, Copy)]
pub struct Course {
    pub counts: Counts,
    pub marks: [usize; 17],
}

// Lays the patch: the first `count` radii in turn.
pub fn advanced_ball_pivoting(
    s: Scene,
    points: &[f32],
    radii: [f32; 17],
    count: usize,
    faces: &mut [u32],
    w: &mut [u32],
    hash: Hash,
    rule: u32,
) -> Course
    requires { AllSearchable s hash points.now w.old × (count ≤ 17) }
    ensures { HoldsState s.n faces.old
        (patch (rules_of s points.now) (pop_of rule) s.n (take count radii)) result.counts w.new
        faces.new
        × LayingSearchable s hash points.now w.new
        × (take count result.marks
        ≡ marks_from (rules_of s points.now) (pop_of rule) s.n (take count radii) (blank s.n)) }
{
    let flat = flatness::is_flat(s, points);
    let largest = last_of(radii, count);
    let mut c = laying_steps::begin(w, s.n);
    let mut marks: [usize; 17] = [0; 17];
    let mut upto = Upto::Unknown;
    for i in 0..count {
        let radius = radii[i];
        let known = known_radii::is_known(s, flat, radius, upto);
        let pass = Pass {
            scene: s,
            hash: hash,
            radius: radius,
            rule: rule,
        };
        let told = Told {
            known: known,
            upto: upto,
            largest: largest,
        };
        let laid = lay_one(pass, points, faces, w, c, told);
        c = laid.counts;
        marks[i] = c.faces;
        upto = laid.upto;
    }
    Course {
        counts: c,
        marks: marks,
    }
}
