// Faces of another ball pivoter, as lines of a file: could they be a patch of ours in shape, and in what order.
//
// What the call answers and leaves is `OrdersPatch` of specs/Ordering.antt; the order is `greedy` of crate `orders`.
#![tactic(auto)]

ghost use Rattle.std.specs.Prelude.{◌≡◌, length};
ghost use Rattle.domain.specs.Refusals.{first_refusal};
ghost use Rattle.domain.specs.Inner.Outcome.{result_of};
ghost use Rattle.patch_order.specs.Ordering.{first_checks, refused_with, OrdersPatch};
ghost use Rattle.patch_order.specs.Inner.Ready.{too_many, Checked, OrderJudged};

use domain::Refusal;

// The answer's number, 0 where an order was found; the detail, the first malformed line from 1 at refusal 10; how many
// faces there are, and how many of them share no edge with an earlier one in the order.
#[repr(C)]
#[derive(Clone, Copy)]
pub struct Ordered {
    pub answer: u32,
    pub detail: usize,
    pub faces: usize,
    pub seeds: u32,
}

pub fn refused(answer: u32, detail: usize) -> Ordered
    ensures { result ≡ refused_with answer detail }
{
    Ordered {
        answer,
        detail,
        faces: 0,
        seeds: 0,
    }
}

// 3, 14, 17 and 7, of faces that name n points.
pub fn refusal_of_faces(
    n: usize,
    outside: bool,
    twice: bool,
    words: usize,
    floats: usize,
) -> Result<(), Refusal>
    ensures { result ≡ result_of (first_refusal (first_checks n outside twice words floats)) }
{
    if 4096 < n {
        return Err(Refusal {
            answer: answers::TOO_MANY_POINTS,
            detail: 0,
        });
    }
    if outside {
        return Err(Refusal {
            answer: answers::NO_SUCH_POINT,
            detail: 0,
        });
    }
    if twice {
        return Err(Refusal {
            answer: answers::EQUAL_NUMBERS,
            detail: 0,
        });
    }
    domain::refusal_of_work(n, words, floats)
}

// Whether there are faces, and more than n - 2.
pub fn is_too_many(n: usize, count: usize) -> bool
    ensures { result ≡ too_many n count }
{
    if count == 0 {
        return false;
    }
    if n < 2 {
        return true;
    }
    n - 2 < count
}

// The faces of a file that has passed the checks so far: 13, 23 or their order. More than n - 2 faces have none, and
// are not stored.
fn order_lines(
    bytes: &[u8],
    n: usize,
    count: usize,
    order: &mut [u32],
    words: &mut [u32],
) -> Ordered
    requires { Checked bytes.now n count (length words.old) }
    ensures { OrderJudged bytes.now order.old result order.new }
{
    if order.len() < count {
        return refused(answers::OUTPUT_TOO_SHORT, 0);
    }
    if is_too_many(n, count) {
        return refused(answers::NO_ORDER, 0);
    }
    face_lines::store_faces(bytes, words);
    match ordering::order_faces(n, count, order, words) {
        Some(seeds) => Ordered {
            answer: 0,
            detail: 0,
            faces: count,
            seeds,
        },
        None => refused(answers::NO_ORDER, 0),
    }
}

pub fn order_patch(
    bytes: &[u8],
    point_count: usize,
    order: &mut [u32],
    words: &mut [u32],
    floats: &mut [f32],
) -> Ordered
    ensures { OrdersPatch bytes.now point_count order.old words.old
        floats.old result order.new words.new floats.new }
{
    let seen = match face_lines::scan_faces(bytes, point_count) {
        Ok(seen) => seen,
        Err(malformed) => return refused(answers::LINE, malformed.line),
    };
    let outcome = refusal_of_faces(
        point_count,
        seen.outside,
        seen.twice,
        words.len(),
        floats.len(),
    );
    if let Err(refusal) = outcome {
        return refused(refusal.answer, 0);
    }
    let ordered = order_lines(bytes, point_count, seen.count, order, words);
    clearing::clear(words);
    clearing::clear(floats);
    ordered
}
