// Filling parts of a slice, and comparing the fronts of two.
#![tactic(auto)]

ghost use Rattle.std.specs.Prelude.{◌≡◌, map, ◌+◌, ◌-◌, ◌≤◌, length, take, replicate};
ghost use Rattle.std.specs.Float.{binary32};
ghost use Rattle.std.specs.Float.Ieee.{to_bits};
ghost use Rattle.lists.specs.Lists.{up_from};
ghost use Rattle.kd_tree.specs.Tree.{same_numbers};
ghost use Rattle.filling.specs.Inner.Put.{PutList};

// The numbers from 0 on.
pub fn number_order(order: &mut [u32])
    requires { length order.old ≤ 4096 }
    ensures { order.new ≡ up_from 0 (length order.old) }
{
    for i in 0..order.len() {
        order[i] = i as u32;
    }
}

// The bits of the floats, from `at` on.
pub fn put_bits(floats: &[f32], index: &mut [u32], at: usize)
    requires { at + length floats.now ≤ length index.old }
    ensures { PutList index.old index.new at
        (map (to_bits binary32) floats.now) }
{
    for i in 0..floats.len() {
        index[at + i] = axis_sort::bits_of(floats[i]);
    }
}

// Zeros from `at` up to `end`.
pub fn clear_between(index: &mut [u32], at: usize, end: usize)
    requires { (at ≤ end) × (end ≤ length index.old) }
    ensures { PutList index.old index.new at (replicate (end - at) 0) }
{
    index[at..end].fill(0);
}

// Whether the first numbers of two slices are the same.
pub fn same_front(a: &[u32], b: &[u32], size: usize) -> bool
    requires { (size ≤ length a.now) × (size ≤ length b.now) }
    ensures { result ≡ same_numbers (take size a.now) (take size b.now) }
{
    a[..size] == b[..size]
}
