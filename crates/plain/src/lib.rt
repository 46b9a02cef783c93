// The plain path: faces among near points, where there are no radii to pivot at.
#![tactic(auto)]

mod acceptance;
mod near;

ghost use Rattle.std.specs.Prelude.{◌≡◌, cond, [], ◌∷◌, ◌+◌, ◌/◌, ◌≤◌, ◌<◌, length, take, drop, get_or};
ghost use Rattle.points.specs.Points.{point_at};
ghost use Rattle.lists.specs.Lists.{up_from};
ghost use Rattle.vector.specs.Vector.{distance};
ghost use Rattle.patch.specs.Lay.{face};
ghost use Rattle.patch.specs.View.{written};
ghost use Rattle.plain.specs.Plain.{candidates, valid, faces_over, faces_at, plain_faces};
ghost use Rattle.plain.specs.Inner.Laid.{PointReady, LaysFaces};
ghost use Rattle.plain.specs.Inner.Listed.{RadiusLimited, CandidatesListed};
ghost use Rattle.plain.specs.Reached.{paired, plain_reached};

const MAX_TRIANGLES: usize = 10000;

// What the points of a face are held to: a candidate is no farther than the reach, and none of the squares above
// `square` is that of one; the circumradius is at most the widest. The others are guesses: something beyond the widest,
// and what a product of edges is multiplied by for a cross product whose circumradius is a little above or below the
// widest.
#[derive(Clone, Copy)]
pub struct PlainLimits {
    pub reach: f32,
    pub square: f32,
    pub widest: f32,
    pub beyond: f32,
    pub low: f32,
    pub high: f32,
}

// The count of faces, and whether three points came to the cross product test; the latter is told only while fewer than
// the limit are laid.
#[derive(Clone, Copy)]
pub struct Triangulated {
    pub faces: usize,
    pub judged: bool,
}

fn limits_of(radius: f32) -> PlainLimits
    ensures { RadiusLimited radius result }
{
    let reach = radius * 2.0;
    let widest = radius * 1.5;
    PlainLimits {
        reach: reach,
        square: bounds::square_limit(reach),
        widest: widest,
        beyond: widest * 1.00001,
        low: 0.49999 / widest,
        high: 0.50001 / widest,
    }
}

// Lays the face i, a, b if the three form one and fewer than the limit are laid; la and lb are the distances of a and b
// from i.
// The answer is the count of faces, here and below.
fn try_face(
    points: &[f32],
    radius: f32,
    limits: PlainLimits,
    i: usize,
    a: usize,
    b: usize,
    la: f32,
    lb: f32,
    faces: &mut [u32],
    count: usize,
) -> usize
    requires { PointReady points.now i × RadiusLimited radius limits × (a < i) × (b < i) × (count ≤ 10000)
        × (la ≡ distance (point_at points.now i) (point_at points.now a))
        × (lb ≡ distance (point_at points.now i) (point_at points.now b)) }
    ensures { LaysFaces (cond (valid points.now radius i a b) (face i a b ∷ []) [])
        faces.old
        count faces.new result }
{
    if MAX_TRIANGLES <= count {
        return count;
    }
    let p1 = points::point_at(points, i);
    let p2 = points::point_at(points, a);
    let p3 = points::point_at(points, b);
    if !acceptance::is_sound(p1, p2, p3, la, lb, radius, limits) {
        return count;
    }
    laying_words::put_face(faces, count, i as u32, a as u32, b as u32);
    count + 1
}

// The faces i, a, b for the candidate a that is listed at `at` and every b that is listed after it.
fn faces_over(
    points: &[f32],
    radius: f32,
    limits: PlainLimits,
    i: usize,
    w: &[u32],
    lengths: &[f32],
    listed: usize,
    at: usize,
    faces: &mut [u32],
    count: usize,
) -> usize
    requires { RadiusLimited radius limits × CandidatesListed points.now radius i w.now lengths.now listed
        × (at < listed)
        × (count ≤ 10000) }
    ensures { LaysFaces
        (faces_over points.now radius i (get_or w.now at 0)
        (drop (at + 1) (take listed w.now))) faces.old count faces.new result }
{
    if MAX_TRIANGLES <= count {
        return count;
    }
    let a = w[at] as usize;
    let la = lengths[at];
    let mut laid = count;
    for k in at + 1..listed {
        laid = try_face(
            points,
            radius,
            limits,
            i,
            a,
            w[k] as usize,
            la,
            lengths[k],
            faces,
            laid,
        );
    }
    laid
}

// The faces i, a, b for every two of the listed candidates.
fn faces_among(
    points: &[f32],
    radius: f32,
    limits: PlainLimits,
    i: usize,
    w: &[u32],
    lengths: &[f32],
    listed: usize,
    faces: &mut [u32],
    count: usize,
) -> usize
    requires { RadiusLimited radius limits × CandidatesListed points.now radius i w.now lengths.now listed
        × (count ≤ 10000) }
    ensures { LaysFaces (faces_at points.now radius i (take listed w.now))
        faces.old
        count faces.new result }
{
    let mut laid = count;
    for at in 0..listed {
        laid = faces_over(
            points, radius, limits, i, w, lengths, listed, at, faces, laid,
        );
    }
    laid
}

// The faces i, a, b for every a and b below i.
fn faces_at(
    points: &[f32],
    radius: f32,
    limits: PlainLimits,
    i: usize,
    w: &mut [u32],
    lengths: &mut [f32],
    faces: &mut [u32],
    count: usize,
) -> Triangulated
    requires { PointReady points.now i × RadiusLimited radius limits × (i ≤ length w.old)
        × (i ≤ length lengths.old)
        × (count ≤ 10000) }
    ensures { LaysFaces
        (faces_at points.now radius i (candidates points.now radius i (up_from 0 i)))
        faces.old count faces.new result.faces
        × (count < 10000 → result.judged ≡ paired points.now radius i) }
{
    if MAX_TRIANGLES <= count {
        return Triangulated {
            faces: count,
            judged: true,
        };
    }
    let listed = near::list_candidates(points, radius, limits, i, w, lengths);
    let laid = faces_among(points, radius, limits, i, w, lengths, listed, faces, count);
    Triangulated {
        faces: laid,
        judged: 1 < listed,
    }
}

// Faces go to the front of the slice as far as they fit; all of them, up to the limit, are counted. Where there are
// none, it is told whether any triple was judged.
// The front of the two work slices is used.
pub fn simple_triangulate(
    points: &[f32],
    radius: f32,
    w: &mut [u32],
    lengths: &mut [f32],
    faces: &mut [u32],
) -> Triangulated
    requires { (length points.now / 3 ≤ 4096) × (length points.now / 3 ≤ length w.old)
        × (length points.now / 3 ≤ length lengths.old) }
    ensures { (result.faces ≡ length (plain_faces points.now radius))
        × (faces.new ≡ written (plain_faces points.now radius) faces.old)
        × (result.faces ≡ 0 → result.judged ≡ plain_reached points.now radius) }
{
    let n = points.len() / 3;
    let limits = limits_of(radius);
    let mut laid: usize = 0;
    let mut judged = false;
    for i in 0..n {
        let step = faces_at(points, radius, limits, i, w, lengths, faces, laid);
        laid = step.faces;
        judged |= step.judged;
    }
    Triangulated {
        faces: laid,
        judged: judged,
    }
}
