// The functions that C and Rust call. Each promises what the function that it calls does.
#![tactic(auto)]

ghost use Rattle.std.specs.Prelude.{◌≡◌, length};
ghost use Rattle.numbers.specs.Root.{root};
ghost use Rattle.numbers.specs.Order.{minimum, maximum, clamp};
ghost use Rattle.numbers.specs.Cut.{cut, ceil};
ghost use Rattle.numbers.specs.Acos.{acos};
ghost use Rattle.vector.specs.Vector.{point, distance};
ghost use Rattle.triangle.specs.Quality.{circumradius, quality, acceptable};
ghost use Rattle.settings.specs.Settings.{defaults};
ghost use Rattle.estimate.specs.Estimate.{Estimated};
ghost use Rattle.cloud.specs.Answers.{Answered, outcome};
ghost use Rattle.ball_pivoting.specs.Outcome.{Reconstructs};
ghost use Rattle.origins_outcome.specs.Outcome.{ReconstructsWithOrigins};
ghost use Rattle.coverage.specs.Coverage.{Marked};
ghost use Rattle.stl_file.specs.Answers.{Wrote, Got};
ghost use Rattle.patch_order.specs.Ordering.{OrdersPatch};
ghost use Rattle.face_order.specs.Faces.{OrdersFaces};
ghost use Rattle.release.specs.Release.{version, layout};
ghost use Rattle.tally.specs.Tallies.{added_to};
ghost use Rattle.figures.specs.Working.{figures_of};
ghost use Rattle.verdict.specs.Judged.{judged};
ghost use Rattle.verdict.specs.Numbered.{verdict_numbers};
ghost use Rattle.point_index.specs.Index.{Builds, Tells};
ghost use Rattle.nearest_points.specs.Found.{Nears, Searches};
ghost use Rattle.nearest_distances.specs.Measured.{Measures};

use ball_pivoting::Patch;
use cloud::CloudRead;
use estimate::Estimate;
use figures::Figures;
use nearest_points::{Nearest, Searched};
use patch_order::Ordered;
use point_index::{Belongs, Indexed};
use quality::TriangleQuality;
use settings::BallPivotingConfig;
use stl_file::{StlRead, StlWritten};
use tally::{SeasonPatch, Tally};
use verdict::numbered::Verdict;

#[unsafe(no_mangle)]
pub extern "C" fn yb_version() -> u32
    ensures { result ≡ version }
{
    release::version()
}

#[unsafe(no_mangle)]
pub extern "C" fn yb_layout() -> u32
    ensures { result ≡ layout }
{
    release::layout()
}

// Its name tells the version and the layout, so that they can be read without running anything.
#[unsafe(no_mangle)]
pub extern "C" fn yb_release_4000_1298813845() -> u32
    ensures { result ≡ version }
{
    release::version()
}

#[unsafe(no_mangle)]
pub extern "C" fn yb_sqrt(x: f32) -> f32
    ensures { result ≡ root x }
{
    numbers::sqrt(x)
}

#[unsafe(no_mangle)]
pub extern "C" fn yb_acos(v: f32) -> f32
    ensures { result ≡ acos v }
{
    arc_cosine::acos(v)
}

#[unsafe(no_mangle)]
pub extern "C" fn yb_cut(x: f32) -> u32
    ensures { result ≡ cut x }
{
    cutting::cut(x)
}

#[unsafe(no_mangle)]
pub extern "C" fn yb_ceil_cut(x: f32) -> u32
    ensures { result ≡ cut (ceil x) }
{
    cutting::ceil_cut(x)
}

#[unsafe(no_mangle)]
pub extern "C" fn yb_min(a: f32, b: f32) -> f32
    ensures { result ≡ minimum a b }
{
    numbers::min(a, b)
}

#[unsafe(no_mangle)]
pub extern "C" fn yb_max(a: f32, b: f32) -> f32
    ensures { result ≡ maximum a b }
{
    numbers::max(a, b)
}

#[unsafe(no_mangle)]
pub extern "C" fn yb_clamp(v: f32, lo: f32, hi: f32) -> f32
    ensures { result ≡ clamp v lo hi }
{
    numbers::clamp(v, lo, hi)
}

#[unsafe(no_mangle)]
pub extern "C" fn yb_distance(x1: f32, y1: f32, z1: f32, x2: f32, y2: f32, z2: f32) -> f32
    ensures { result ≡ distance (point x1 y1 z1) (point x2 y2 z2) }
{
    vector::distance(vector::point(x1, y1, z1), vector::point(x2, y2, z2))
}

#[unsafe(no_mangle)]
pub extern "C" fn yb_compute_circumradius(
    x1: f32,
    y1: f32,
    z1: f32,
    x2: f32,
    y2: f32,
    z2: f32,
    x3: f32,
    y3: f32,
    z3: f32,
) -> f32
    ensures { result ≡ circumradius (point x1 y1 z1) (point x2 y2 z2) (point x3 y3 z3) }
{
    triangle::compute_circumradius(
        vector::point(x1, y1, z1),
        vector::point(x2, y2, z2),
        vector::point(x3, y3, z3),
    )
}

#[unsafe(no_mangle)]
pub extern "C" fn yb_compute_triangle_quality(
    x1: f32,
    y1: f32,
    z1: f32,
    x2: f32,
    y2: f32,
    z2: f32,
    x3: f32,
    y3: f32,
    z3: f32,
) -> TriangleQuality
    ensures { result ≡ quality (point x1 y1 z1) (point x2 y2 z2) (point x3 y3 z3) }
{
    triangle::compute_triangle_quality(
        vector::point(x1, y1, z1),
        vector::point(x2, y2, z2),
        vector::point(x3, y3, z3),
    )
}

#[unsafe(no_mangle)]
pub extern "C" fn yb_is_triangle_acceptable(
    quality: TriangleQuality,
    radius: f32,
    min_triangle_area: f32,
    quality_threshold: f32,
    max_edge_factor: f32,
) -> bool
    ensures { result ≡ acceptable quality radius min_triangle_area quality_threshold max_edge_factor }
{
    triangle::is_triangle_acceptable(
        quality,
        radius,
        min_triangle_area,
        quality_threshold,
        max_edge_factor,
    )
}

#[unsafe(no_mangle)]
pub extern "C" fn yb_default_config(radius: f32) -> BallPivotingConfig
    ensures { result ≡ defaults radius }
{
    BallPivotingConfig::new(radius)
}

#[unsafe(no_mangle)]
pub extern "C" fn yb_estimate_optimal_radius(
    points: &[f32],
    percentile: f32,
    work_u32: &mut [u32],
    work_f32: &mut [f32],
) -> Estimate
    ensures { Estimated points.now percentile work_u32.old work_f32.old result
        work_u32.new work_f32.new }
{
    estimate::estimate_optimal_radius(points, percentile, work_u32, work_f32)
}

#[unsafe(no_mangle)]
pub extern "C" fn yb_reconstruct_with_normals(
    points: &[f32],
    normals: &[f32],
    settings: BallPivotingConfig,
    faces: &mut [u32],
    words: &mut [u32],
    floats: &mut [f32],
) -> Patch
    ensures { Reconstructs points.now normals.now settings faces.old
        words.old floats.old result faces.new words.new floats.new }
{
    reconstruction::reconstruct_with_normals(points, normals, settings, faces, words, floats)
}

#[unsafe(no_mangle)]
pub extern "C" fn yb_reconstruct_with_origins(
    points: &[f32],
    normals: &[f32],
    settings: BallPivotingConfig,
    turned: bool,
    faces: &mut [u32],
    origins: &mut [u32],
    words: &mut [u32],
    floats: &mut [f32],
) -> Patch
    ensures { ReconstructsWithOrigins points.now normals.now settings turned
        faces.old origins.old words.old floats.old result faces.new
        origins.new words.new floats.new }
{
    reconstruction_with_origins::reconstruct_with_origins(
        points, normals, settings, turned, faces, origins, words, floats,
    )
}

#[unsafe(no_mangle)]
pub extern "C" fn yb_read_cloud(bytes: &[u8], points: &mut [f32], normals: &mut [f32]) -> CloudRead
    ensures { Answered
        (outcome bytes.now (length points.old) (length normals.old))
        points.old normals.old result points.new normals.new }
{
    cloud::read_cloud(bytes, points, normals)
}

#[unsafe(no_mangle)]
pub extern "C" fn yb_mark_reached(faces: &[u32], reached: &mut [u32]) -> usize
    ensures { Marked faces.now reached.old result reached.new }
{
    coverage::mark_reached(faces, reached)
}

#[unsafe(no_mangle)]
pub extern "C" fn yb_write_stl(points: &[f32], faces: &[u32], bytes: &mut [u8]) -> StlWritten
    ensures { Wrote points.now faces.now bytes.old result bytes.new }
{
    stl_file::write_stl(points, faces, bytes)
}

#[unsafe(no_mangle)]
pub extern "C" fn yb_read_stl(bytes: &[u8], corners: &mut [f32]) -> StlRead
    ensures { Got bytes.now corners.old result corners.new }
{
    stl_file::read_stl(bytes, corners)
}

#[unsafe(no_mangle)]
pub extern "C" fn yb_judge_triangle(
    points: &[f32],
    normals: &[f32],
    settings: BallPivotingConfig,
    i: usize,
    j: usize,
    k: usize,
) -> Verdict
    ensures { result ≡ verdict_numbers (judged points.now normals.now settings i j k) }
{
    verdict::numbered::numbered(verdict::judge_triangle(points, normals, settings, i, j, k))
}

#[unsafe(no_mangle)]
pub extern "C" fn yb_order_patch(
    bytes: &[u8],
    point_count: usize,
    order: &mut [u32],
    words: &mut [u32],
    floats: &mut [f32],
) -> Ordered
    ensures { OrdersPatch bytes.now point_count order.old words.old
        floats.old result order.new words.new floats.new }
{
    patch_order::order_patch(bytes, point_count, order, words, floats)
}

// The order of faces that stand in a slice.
#[unsafe(no_mangle)]
pub extern "C" fn yb_order_faces(
    faces: &[u32],
    point_count: usize,
    order: &mut [u32],
    words: &mut [u32],
    floats: &mut [f32],
) -> Ordered
    ensures { OrdersFaces faces.now point_count order.old words.old
        floats.old result order.new words.new floats.new }
{
    face_order::order_faces(faces, point_count, order, words, floats)
}

// Adds a patch to a lent tally, where it is.
#[unsafe(no_mangle)]
pub extern "C" fn yb_tally_add(tally: &mut Tally, patch: SeasonPatch) -> u32
    ensures { (result ≡ (added_to tally.old patch).answer)
        × (tally.new ≡ (added_to tally.old patch).tally) }
{
    match tally::added(*tally, patch) {
        Ok(next) => {
            *tally = next;
            0
        }
        Err(answer) => answer,
    }
}

#[unsafe(no_mangle)]
pub extern "C" fn yb_tally_figures(tally: &Tally) -> Figures
    ensures { result ≡ figures_of tally.now }
{
    figures::figures_of(*tally)
}

#[unsafe(no_mangle)]
pub extern "C" fn yb_build_index(
    points: &[f32],
    index: &mut [u32],
    words: &mut [u32],
    floats: &mut [f32],
) -> Indexed
    ensures { Builds points.now index.old words.old floats.old result
        index.new words.new floats.new }
{
    point_index::build_index(points, index, words, floats)
}

#[unsafe(no_mangle)]
pub extern "C" fn yb_index_belongs(
    points: &[f32],
    index: &[u32],
    words: &mut [u32],
    floats: &mut [f32],
) -> Belongs
    ensures { Tells points.now index.now words.old floats.old result
        words.new floats.new }
{
    point_index::index_belongs(points, index, words, floats)
}

#[unsafe(no_mangle)]
pub extern "C" fn yb_nearest_point(
    points: &[f32],
    x: f32,
    y: f32,
    z: f32,
    index: &[u32],
    words: &mut [u32],
    floats: &mut [f32],
) -> Nearest
    ensures { Nears points.now x y z index.now words.old floats.old
        result words.new floats.new }
{
    nearest_points::nearest_point(points, x, y, z, index, words, floats)
}

#[unsafe(no_mangle)]
pub extern "C" fn yb_nearest_points(
    points: &[f32],
    spots: &[f32],
    index: &[u32],
    found: &mut [u32],
    words: &mut [u32],
    floats: &mut [f32],
) -> Searched
    ensures { Searches points.now spots.now index.now found.old
        words.old floats.old result found.new words.new floats.new }
{
    nearest_points::nearest_points(points, spots, index, found, words, floats)
}

#[unsafe(no_mangle)]
pub extern "C" fn yb_nearest_distances(
    points: &[f32],
    spots: &[f32],
    index: &[u32],
    found: &mut [u32],
    distances: &mut [f32],
    words: &mut [u32],
    floats: &mut [f32],
) -> Searched
    ensures { Measures points.now spots.now index.now found.old
        distances.old words.old floats.old result found.new
        distances.new words.new floats.new }
{
    nearest_distances::nearest_distances(points, spots, index, found, distances, words, floats)
}
