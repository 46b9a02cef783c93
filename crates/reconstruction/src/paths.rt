// The two paths: pivoting at the radii, or faces among near points where there are none.
ghost use Rattle.std.specs.Prelude.{◌≡◌, [], ◌-◌, ◌/◌, ◌≤◌, ◌<◌, length, take, get_or};
ghost use Rattle.std.specs.Float.{nan};
ghost use Rattle.patch.specs.Lay.{patch, blank};
ghost use Rattle.patch.specs.Frontier.{pop_of};
ghost use Rattle.laying.specs.Inner.Laying.{AllSearchable, rules_of};
ghost use Rattle.radii.specs.Inner.Steps.{RadiiListed};
ghost use Rattle.decisions.specs.Decisions.{floats_of};
ghost use Rattle.plain.specs.Reached.{plain_reached};
ghost use Rattle.reaching.specs.Reaching.{reaches};
ghost use Rattle.judged.specs.Inner.Triples.{Fresh};
ghost use Rattle.ball_pivoting.specs.Reconstruct.{point_count, radii_of, laid, plainly, found, reason_by, reason};
ghost use Rattle.origins.specs.Inner.Following.{marks_from};
ghost use Rattle.ball_pivoting.specs.Inner.Parts.{WorkReady, marks_of, Finds};

use ball_pivoting::Finding;
use decisions::Scene;
use radii::Radii;
use settings::BallPivotingConfig;
use spatial_hash::Hash;

// The answer after a laying. It is asked only where no face was laid, and at the largest radius, which decides for all.
fn reason_after(
    scene: Scene,
    points: &[f32],
    words: &mut [u32],
    hash: Hash,
    largest: f32,
    laid: usize,
) -> u32
    requires { laid ≡ 0 → Fresh scene hash points.now words.old }
    ensures { laid ≡ 0
        → result ≡ reason_by scene.n (reaches (floats_of scene points.now) scene.n largest) }
{
    if laid > 0 {
        return 0;
    }
    let any = judged::is_any_judged(scene, points, words, largest, hash);
    ball_pivoting::reason_by(scene.n, any)
}

// There are no radii.
pub fn find_plain(
    points: &[f32],
    settings: BallPivotingConfig,
    radii: Radii,
    faces: &mut [u32],
    words: &mut [u32],
    floats: &mut [f32],
) -> Finding
    requires { (length points.now / 3 ≤ 4096) × (length points.now / 3 ≤ length words.old)
        × (length points.now / 3 ≤ length floats.old) × RadiiListed [] radii }
    ensures { Finds
        (reason_by (point_count points.now) (plain_reached points.now settings.radius))
        (plainly settings points.now) [] [] faces.old result faces.new }
{
    let laid = plain::simple_triangulate(points, settings.radius, words, floats, faces);
    let reason = ball_pivoting::reason_by(points.len() / 3, laid.judged);
    Finding {
        faces: laid.faces,
        seeds: 0,
        looks: 0,
        pivots: 0,
        reason: reason,
        radii: radii,
        marks: [0; 17],
    }
}

// All radii in turn.
pub fn find_pivoting(
    scene: Scene,
    points: &[f32],
    radii: Radii,
    faces: &mut [u32],
    words: &mut [u32],
    hash: Hash,
    rule: u32,
) -> Finding
    requires { AllSearchable scene hash points.now words.old
        × RadiiListed (take radii.count radii.list) radii
        × (0 < radii.count) }
    ensures { Finds
        (reason_by scene.n
        (reaches (floats_of scene points.now) scene.n (get_or radii.list (radii.count - 1) nan)))
        (laid (patch (rules_of scene points.now) (pop_of rule) scene.n (take radii.count radii.list)))
        (take radii.count radii.list)
        (marks_from (rules_of scene points.now) (pop_of rule) scene.n (take radii.count radii.list)
        (blank scene.n))
        faces.old result faces.new }
{
    let list = radii.list;
    let count = radii.count as usize;
    let course = laying::advanced_ball_pivoting(
        scene, points, list, count, faces, words, hash, rule,
    );
    let counts = course.counts;
    let marks = course.marks;
    let reason = reason_after(scene, points, words, hash, list[count - 1], counts.faces);
    Finding {
        faces: counts.faces,
        seeds: counts.seeds,
        looks: counts.looks,
        pivots: counts.pivots,
        reason: reason,
        radii: radii,
        marks: marks,
    }
}

// What is found over the cloud, with the settings.
pub fn find(
    points: &[f32],
    settings: BallPivotingConfig,
    faces: &mut [u32],
    words: &mut [u32],
    floats: &mut [f32],
) -> Finding
    requires { WorkReady settings points.now words.old floats.old }
    ensures { Finds (reason settings points.now) (found settings points.now)
        (radii_of settings points.now) (marks_of settings points.now) faces.old result
        faces.new }
{
    let known = surveying::survey(points, settings, words, floats);
    let scene = known.scene;
    let hash = known.hash;
    let radii = known.radii;
    if radii.count == 0 {
        return find_plain(points, settings, radii, faces, words, floats);
    }
    find_pivoting(
        scene,
        points,
        radii,
        faces,
        words,
        hash,
        settings.frontier_rule,
    )
}
