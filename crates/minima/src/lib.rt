// A tree of minima in a part of a lent slice: the least value of all elements stands at its root.
#![tactic(auto)]

ghost use Rattle.std.specs.Prelude.{◌≡◌, ◌⊎◌, ℕ, ◌+◌, ◌*◌, ◌≤◌, ◌<◌, length, get_or};
ghost use Rattle.minima.specs.Inner.Minima.{Nodes, leaf, Renewed, Planted};

// Gives the element the value, and every node over it the least of that and of the node beside.
pub fn renew(base: usize, count: usize, words: &mut [u32], element: usize, value: u32)
    requires { (element < count) × (base + 2 * count ≤ length words.old) }
    ensures { Renewed base count element value words.old words.new }
{
    words[base + count + element] = value;
    let mut k: usize = count + element;
    let mut v: u32 = value;
    while 1 < k {
        let up = k / 2;
        v = v.min(words[base + (4 * up + 1 - k)]);
        words[base + up] = v;
        k = up;
    }
}

// Gives every element g the value count + g.
fn set_leaves(base: usize, count: usize, words: &mut [u32])
    requires { (count ≤ 4096) × (base + 2 * count ≤ length words.old) }
    ensures values { (g : ℕ) → g < count → leaf base count words.new g ≡ count + g }
    ensures kept { (k : ℕ) → (k < base + count) ⊎ (base + 2 * count ≤ k)
        → get_or words.new k 0 ≡ get_or words.old k 0 }
{
    for g in 0..count {
        words[base + count + g] = (count + g) as u32;
    }
}

// Gives every node over two others the least of them, the last first.
fn set_nodes(base: usize, count: usize, words: &mut [u32])
    requires { base + 2 * count ≤ length words.old }
    ensures nodes { Nodes base count words.new }
    ensures kept { (k : ℕ) → (k < base) ⊎ (base + count ≤ k)
        → get_or words.new k 0 ≡ get_or words.old k 0 }
{
    for k in (1..count).rev() {
        words[base + k] = words[base + 2 * k].min(words[base + 2 * k + 1]);
    }
}

// Makes the tree: every element g has the value count + g.
pub fn plant(base: usize, count: usize, words: &mut [u32])
    requires { (count ≤ 4096) × (base + 2 * count ≤ length words.old) }
    ensures { Planted base count words.old words.new }
{
    set_leaves(base, count, words);
    set_nodes(base, count, words);
}
