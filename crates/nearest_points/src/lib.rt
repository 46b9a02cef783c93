// The point of a cloud that is nearest to a spot, and those nearest to many spots, by the cloud's index.
#![tactic(auto)]

ghost use Rattle.std.specs.Prelude.{◌≡◌, ◌/◌, ◌≤◌, length};
ghost use Rattle.ranges.specs.Range.{farthest};
ghost use Rattle.domain.specs.Inner.Accepted.{ValuesWithin};
ghost use Rattle.index_search.specs.Inner.Indexed.{OwnIndex, Width};
ghost use Rattle.nearest_points.specs.Found.{answer_of, nearest_of, search_refusal, numbers_in, Searches, Nears};
ghost use Rattle.nearest_points.specs.Inner.Outcome.{search_result, searched};

// The answer's number, its detail, and the nearest point with its distance, both 0 at a refusal.
#[repr(C)]
#[derive(Clone, Copy)]
pub struct Nearest {
    pub answer: u32,
    pub detail: u32,
    pub point: u32,
    pub distance: f32,
}

// The answer's number and its detail.
#[repr(C)]
#[derive(Clone, Copy)]
pub struct Searched {
    pub answer: u32,
    pub detail: usize,
}

fn answer_of(answer: u32, detail: usize) -> Searched
    ensures { result ≡ answer_of answer detail }
{
    Searched {
        answer: answer,
        detail: detail,
    }
}

fn nearest_of(answer: u32, detail: u32, point: u32, distance: f32) -> Nearest
    ensures { result ≡ nearest_of answer detail point distance }
{
    Nearest {
        answer: answer,
        detail: detail,
        point: point,
        distance: distance,
    }
}

impl From<Result<(), Searched>> for Searched {
    ghost from_gives = { λ outcome r. r ≡ searched outcome };

    fn from(outcome: Result<(), Searched>) -> Searched {
        match outcome {
            Ok(()) => answer_of(0, 0),
            Err(refusal) => refusal,
        }
    }
}

// What the checks up to 7 answer, for slices of the given lengths.
fn refusal_of_search(
    points: &[f32],
    spots: &[f32],
    index: usize,
    words: usize,
    floats: usize,
) -> Result<(), Searched>
    ensures { result ≡ search_result (search_refusal points.now spots.now index words floats) }
{
    if points.len() == 0 {
        return Err(answer_of(answers::NO_POINTS, 0));
    }
    if points.len() % 3 != 0 || spots.len() % 3 != 0 {
        return Err(answer_of(answers::LENGTHS, 0));
    }
    let n = points.len() / 3;
    if 4096 < n {
        return Err(answer_of(answers::TOO_MANY_POINTS, 0));
    }
    if let Some(point) = ranges::first_outside(points, 10000.0) {
        return Err(answer_of(answers::POINT, point));
    }
    if let Some(spot) = ranges::first_outside(spots, 10000.0) {
        return Err(answer_of(answers::POINT, n + spot));
    }
    if words < 24 * n + 64 || floats < 4 * n + 64 || index < 8 * n + 64 {
        return Err(answer_of(answers::WORK, 0));
    }
    Ok(())
}

// The number of the nearest point for each spot.
fn fill(points: &[f32], spots: &[f32], index: &[u32], width: usize, found: &mut [u32])
    requires own_index { OwnIndex points.now index.now × Width (length points.now / 3) width × (width ≤ 4096) }
    requires values_within { ValuesWithin farthest spots.now × (length spots.now / 3 ≤ length found.old) }
    ensures { found.new ≡ numbers_in points.now spots.now found.old }
{
    for i in 0..spots.len() / 3 {
        let spot = points::point_at(spots, i);
        let best = index_search::nearest_in(points, index, width, spot);
        found[i] = best.number;
    }
}

// The nearest point to one spot: what is told of a list with that spot alone.
pub fn nearest_point(
    points: &[f32],
    x: f32,
    y: f32,
    z: f32,
    index: &[u32],
    words: &mut [u32],
    floats: &mut [f32],
) -> Nearest
    ensures { Nears points.now x y z index.now words.old floats.old
        result words.new floats.new }
{
    let spot = [x, y, z];
    let outcome = refusal_of_search(points, &spot, index.len(), words.len(), floats.len());
    if let Err(refusal) = outcome {
        return nearest_of(refusal.answer, refusal.detail as u32, 0, 0.0);
    }
    let own = point_index::matches(points, index, words, floats);
    clearing::clear(words);
    clearing::clear(floats);
    if !own {
        return nearest_of(answers::FOREIGN_INDEX, 0, 0, 0.0);
    }
    let width = index_search::width_of(points.len() / 3);
    let best = index_search::nearest_in(points, index, width, vector::point(x, y, z));
    let distance = numbers::sqrt(best.square);
    nearest_of(0, 0, best.number, distance)
}

// The nearest point to each of many spots: its number goes to the spot's place in the found slice.
fn try_points(
    points: &[f32],
    spots: &[f32],
    index: &[u32],
    found: &mut [u32],
    words: &mut [u32],
    floats: &mut [f32],
) -> Result<(), Searched>
    ensures { Searches points.now spots.now index.now found.old
        words.old floats.old (searched result) found.new words.new floats.new }
{
    refusal_of_search(points, spots, index.len(), words.len(), floats.len())?;
    let own = point_index::matches(points, index, words, floats);
    clearing::clear(words);
    clearing::clear(floats);
    if found.len() < spots.len() / 3 {
        return Err(answer_of(answers::OUTPUT_TOO_SHORT, 0));
    }
    if !own {
        return Err(answer_of(answers::FOREIGN_INDEX, 0));
    }
    let width = index_search::width_of(points.len() / 3);
    fill(points, spots, index, width, found);
    Ok(())
}

// The same, as C has it.
pub fn nearest_points(
    points: &[f32],
    spots: &[f32],
    index: &[u32],
    found: &mut [u32],
    words: &mut [u32],
    floats: &mut [f32],
) -> Searched
    ensures { Searches points.now spots.now index.now found.old
        words.old floats.old result found.new words.new floats.new }
{
    Searched::from(try_points(points, spots, index, found, words, floats))
}
