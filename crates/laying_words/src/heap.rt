// The pop of a heap whose priorities are all equal, in front of a lent slice.
ghost use Rattle.std.specs.Prelude.{◌≡◌, ◌-◌, ◌≤◌, ◌<◌, length, get_or, take, drop};
ghost use Rattle.patch.specs.Frontier.{sift, after_pop};

// Puts v into the gap at the top of the first m entries.
fn sift_down(w: &mut [u32], m: usize, v: u32)
    requires { (0 < m) × (m ≤ length w.old) }
    ensures { (take m w.new ≡ sift 0 m (take m w.old) 0 v)
        × (drop m w.new ≡ drop m w.old) }
{
    let mut p: usize = 0;
    while p + p + 2 < m {
        w[p] = w[p + p + 2];
        p = p + p + 2;
    }
    if p + p + 1 < m {
        w[p] = w[p + p + 1];
        w[p + p + 1] = v;
    } else {
        w[p] = v;
    }
}

// Takes entry 0 of the first m entries out; m - 1 are left.
pub fn pop(w: &mut [u32], m: usize) -> u32
    requires { (0 < m) × (m ≤ length w.old) }
    ensures { (result ≡ get_or w.old 0 0)
        × (take (m - 1) w.new ≡ after_pop 0 (take m w.old))
        × (drop m w.new ≡ drop m w.old) }
{
    let top = w[0];
    let left = m - 1;
    if 0 < left {
        let v = w[left];
        sift_down(w, left, v);
    }
    top
}
