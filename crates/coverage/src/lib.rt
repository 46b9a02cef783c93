// Which points of a cloud the faces of its patch reach, as marks in a lent slice, and how many.
#![tactic(auto)]

ghost use Rattle.std.specs.Prelude.{◌≡◌, ◌+◌, eqb, set};
ghost use Rattle.coverage.specs.Coverage.{Marked};
ghost use Rattle.lists.specs.Lists.{bit, count};

// Marks a point, if it has an entry; tells whether it was not marked before.
fn mark_point(reached: &mut [u32], point: usize) -> bool
    ensures { (reached.new ≡ set reached.old point 1)
        × (count (eqb 1) reached.new ≡ bit result + count (eqb 1) reached.old) }
{
    if point < reached.len() && reached[point] != 1 {
        reached[point] = 1;
        return true;
    }
    false
}

// `reached` has an entry for each point: it gets 1 where a face has the point, else 0. Numbers beyond the entries are
// skipped.
pub fn mark_reached(faces: &[u32], reached: &mut [u32]) -> usize
    ensures { Marked faces.now reached.old result reached.new }
{
    clearing::clear(reached);
    let mut total: usize = 0;
    for point in faces {
        total += usize::from(mark_point(reached, *point as usize));
    }
    total
}
