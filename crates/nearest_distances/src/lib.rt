// The points of a cloud that are nearest to many spots, and how far they are, by the cloud's index.
//
// The search is that of crate `nearest_points`. Each distance is worked out once more from the number that it found.
#![tactic(auto)]

ghost use Rattle.std.specs.Prelude.{◌≡◌, ℕ, ◌/◌, ◌≤◌, ◌<◌, length, get_or};
ghost use Rattle.nearest_points.specs.Found.{number_at};
ghost use Rattle.nearest_distances.specs.Measured.{distances_in, Measures};

use nearest_points::Searched;

// The distance of each spot from the point that was found for it.
fn measure(points: &[f32], spots: &[f32], found: &[u32], distances: &mut [f32])
    requires room { (0 < length points.now / 3) × (length spots.now / 3 ≤ length found.now)
        × (length spots.now / 3 ≤ length distances.old) }
    requires found_nearest { (i : ℕ) → i < length spots.now / 3
        → get_or found.now i 0 ≡ number_at points.now spots.now i }
    ensures { distances.new
        ≡ distances_in points.now spots.now distances.old }
{
    for i in 0..spots.len() / 3 {
        let p = points::point_at(points, found[i] as usize);
        let spot = points::point_at(spots, i);
        distances[i] = vector::distance(p, spot);
    }
}

// The nearest point to each of many spots, and its distance: both go to the spot's place in their slices.
pub fn nearest_distances(
    points: &[f32],
    spots: &[f32],
    index: &[u32],
    found: &mut [u32],
    distances: &mut [f32],
    words: &mut [u32],
    floats: &mut [f32],
) -> Searched
    ensures { Measures points.now spots.now index.now found.old
        distances.old words.old floats.old result found.new
        distances.new words.new floats.new }
{
    // Where the distances have no room the numbers get none either, and the search says so in its place.
    let room = found.len().min(distances.len());
    let searched = nearest_points::nearest_points(
        points,
        spots,
        index,
        &mut found[..room],
        words,
        floats,
    );
    if searched.answer == 0 {
        measure(points, spots, found, distances);
    }
    searched
}
