// An index beside a cloud's points, by which the nearest point is found at once: the k-d tree of the cloud, as numbers
// in a lent slice.
#![tactic(auto)]

ghost use Rattle.std.specs.Prelude.{◌≡◌, ◌++◌, ◌/◌, ◌≤◌, length, drop};
ghost use Rattle.kd_tree.specs.Tree.{index_size, built, belongs};
ghost use Rattle.domain.specs.Inner.Outcome.{result_of};
ghost use Rattle.point_index.specs.Index.{index_refusal, Fits, Builds, Tells};
ghost use Rattle.point_index.specs.Inner.Outcome.{indexed, belonging};

use domain::Refusal;

// The answer's number and its detail.
#[repr(C)]
#[derive(Clone, Copy)]
pub struct Indexed {
    pub answer: u32,
    pub detail: u32,
}

// The answer's number, its detail, and whether the index is the cloud's, which is no at a refusal.
#[repr(C)]
#[derive(Clone, Copy)]
pub struct Belongs {
    pub answer: u32,
    pub detail: u32,
    pub belongs: bool,
}

impl From<Result<(), Refusal>> for Indexed {
    ghost from_gives = { λ outcome r. r ≡ indexed outcome };

    fn from(outcome: Result<(), Refusal>) -> Indexed {
        match outcome {
            Ok(()) => Indexed {
                answer: 0,
                detail: 0,
            },
            Err(refusal) => Indexed {
                answer: refusal.answer,
                detail: refusal.detail,
            },
        }
    }
}

impl From<Result<bool, Refusal>> for Belongs {
    ghost from_gives = { λ outcome r. r ≡ belonging outcome };

    fn from(outcome: Result<bool, Refusal>) -> Belongs {
        match outcome {
            Ok(belongs) => Belongs {
                answer: 0,
                detail: 0,
                belongs,
            },
            Err(refusal) => Belongs {
                answer: refusal.answer,
                detail: refusal.detail,
                belongs: false,
            },
        }
    }
}

// What the checks answer, for slices of the given lengths.
pub fn refusal_of_index(
    points: &[f32],
    index: usize,
    words: usize,
    floats: usize,
) -> Result<(), Refusal>
    ensures { result ≡ result_of (index_refusal points.now index words floats) }
{
    domain::refusal_of_points(points)?;
    let n = points.len() / 3;
    domain::refusal_of_work(n, words, floats)?;
    if index < 8 * n + 64 {
        return Err(Refusal {
            answer: answers::WORK,
            detail: 0,
        });
    }
    Ok(())
}

// The index of an accepted cloud.
pub fn build(points: &[f32], index: &mut [u32], floats: &mut [f32])
    requires { Fits points.now (length index.old) (length floats.old) }
    ensures { index.new ≡ built points.now
        ++ drop (index_size (length points.now / 3)) index.old }
{
    let n = points.len() / 3;
    let end = point_order::order_points(points, &mut index[..n], floats);
    filling::put_bits(&floats[..end], index, n);
    filling::clear_between(index, n + end, 8 * n + 64);
}

// Whether an index is an accepted cloud's: it is built afresh in the work slice.
pub fn matches(points: &[f32], index: &[u32], words: &mut [u32], floats: &mut [f32]) -> bool
    requires { Fits points.now (length index.now) (length floats.old)
        × (index_size (length points.now / 3) ≤ length words.old) }
    ensures { result ≡ belongs points.now index.now }
{
    build(points, words, floats);
    filling::same_front(index, words, 8 * (points.len() / 3) + 64)
}

// Builds the index of a cloud in a lent slice, or says why it does not.
fn try_build(
    points: &[f32],
    index: &mut [u32],
    words: &mut [u32],
    floats: &mut [f32],
) -> Result<(), Refusal>
    ensures { Builds points.now index.old words.old floats.old (indexed result)
        index.new words.new floats.new }
{
    refusal_of_index(points, index.len(), words.len(), floats.len())?;
    build(points, index, floats);
    clearing::clear(words);
    clearing::clear(floats);
    Ok(())
}

// Builds the index of a cloud in a lent slice.
pub fn build_index(
    points: &[f32],
    index: &mut [u32],
    words: &mut [u32],
    floats: &mut [f32],
) -> Indexed
    ensures { Builds points.now index.old words.old floats.old result
        index.new words.new floats.new }
{
    Indexed::from(try_build(points, index, words, floats))
}

// Whether an index is a cloud's, or why that is not told.
fn try_belongs(
    points: &[f32],
    index: &[u32],
    words: &mut [u32],
    floats: &mut [f32],
) -> Result<bool, Refusal>
    ensures { Tells points.now index.now words.old floats.old (belonging result)
        words.new floats.new }
{
    refusal_of_index(points, index.len(), words.len(), floats.len())?;
    let same = matches(points, index, words, floats);
    clearing::clear(words);
    clearing::clear(floats);
    Ok(same)
}

// Tells whether an index is a cloud's: building it afresh gives the same numbers.
pub fn index_belongs(
    points: &[f32],
    index: &[u32],
    words: &mut [u32],
    floats: &mut [f32],
) -> Belongs
    ensures { Tells points.now index.now words.old floats.old result
        words.new floats.new }
{
    Belongs::from(try_belongs(points, index, words, floats))
}
