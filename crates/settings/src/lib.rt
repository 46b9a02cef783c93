// The settings of a reconstruction: the defaults, and the first that is outside its range.
#![tactic(auto)]

ghost use Rattle.std.specs.Prelude.{◌≡◌};
ghost use Rattle.ranges.specs.Inner.Number.{some_number};
ghost use Rattle.settings.specs.Settings.{list_inside, first_failing, rule_known, last_tests, first_bad_setting};
ghost use Rattle.settings.specs.Settings.{defaults};

// What a reconstruction is told. Of each array only as many slots as its count says are read.
#[repr(C)]
#[derive(Clone, Copy)]
pub struct BallPivotingConfig {
    pub radius: f32,
    pub additional_radii: [f32; 8],
    pub additional_count: u32,
    pub adaptive_radius: bool,
    pub adaptive_percentiles: [f32; 8],
    pub percentile_count: u32,
    pub quality_threshold: f32,
    pub max_edge_factor: f32,
    pub min_triangle_area: f32,
    pub use_spatial_index: bool,
    pub spatial_cell_factor: f32,
    pub frontier_rule: u32,
}

impl BallPivotingConfig {
    // The settings of `ball_pivoting_from_normals`.
    pub fn new(radius: f32) -> Self
        ensures { result ≡ defaults radius }
    {
        BallPivotingConfig {
            radius: radius,
            additional_radii: [0.05, 0.15, 0.2, 0.0, 0.0, 0.0, 0.0, 0.0],
            additional_count: 3,
            adaptive_radius: true,
            adaptive_percentiles: [0.25, 0.5, 0.75, 0.9, 0.0, 0.0, 0.0, 0.0],
            percentile_count: 4,
            quality_threshold: 0.1,
            max_edge_factor: 3.0,
            min_triangle_area: 1e-8,
            use_spatial_index: true,
            spatial_cell_factor: 2.0,
            frontier_rule: 1,
        }
    }
}

// At most eight values, each of them in range.
fn all_in_range(lo: f32, hi: f32, xs: [f32; 8], count: u32) -> bool
    ensures { result ≡ list_inside lo hi xs count }
{
    if 8 < count {
        return false;
    }
    for k in 0..count as usize {
        if !ranges::in_range(lo, hi, xs[k]) {
            return false;
        }
    }
    true
}

// Whether a number names a rule.
fn is_rule(rule: u32) -> bool
    ensures { result ≡ rule_known rule }
{
    rule == 1 || rule == 2
}

// The last five of the settings' tests: the number of the first that fails.
fn first_bad_threshold(quality: f32, edge: f32, area: f32, cell: f32, rule: u32) -> Option<u32>
    ensures { result ≡ some_number (first_failing 4 (last_tests quality edge area cell rule)) }
{
    if !ranges::in_range(0.0, 1000000.0, quality) {
        return Some(4);
    }
    if !ranges::in_range(0.0, 1000000.0, edge) {
        return Some(5);
    }
    if !ranges::in_range(0.0, 1000000.0, area) {
        return Some(6);
    }
    if !ranges::in_range(0.5, 16.0, cell) {
        return Some(7);
    }
    if !is_rule(rule) {
        return Some(8);
    }
    None
}

// The number of the first setting outside its range.
pub fn first_bad_setting(s: BallPivotingConfig) -> Option<u32>
    ensures { result ≡ some_number (first_bad_setting s) }
{
    if !ranges::in_range(0.001, 1000.0, s.radius) {
        return Some(1);
    }
    let radii = s.additional_radii;
    if !all_in_range(0.001, 1000.0, radii, s.additional_count) {
        return Some(2);
    }
    let percentiles = s.adaptive_percentiles;
    if !all_in_range(0.0, 1.0, percentiles, s.percentile_count) {
        return Some(3);
    }
    first_bad_threshold(
        s.quality_threshold,
        s.max_edge_factor,
        s.min_triangle_area,
        s.spatial_cell_factor,
        s.frontier_rule,
    )
}
