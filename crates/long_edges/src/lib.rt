// A test by squares that a triangle's edges are too long for a radius: the edge ratio times the root of the area,
// before any root is taken.
#![tactic(auto)]

ghost use Rattle.std.specs.Prelude.{◌≡◌, true};
ghost use Rattle.long_edges.specs.Inner.LongEdges.{edge_between, is_plain_triple, is_beyond, LongLimit, Long};

fn is_between(x: f32, lo: f32, hi: f32) -> bool
    ensures { result ≡ edge_between x lo hi }
{
    lo <= x && x <= hi
}

// A limit for `is_long`, of edges up to a bound. Where the bound is out of the range that is proved it is not a number,
// and nothing is above that.
pub fn long_limit(edge: f32) -> f32
    ensures { LongLimit edge result }
{
    if is_between(edge, 0.0009765625, 65536.0) {
        return edge * edge * (edge * edge) * 4.0001;
    }
    0.0 / 0.0
}

// Whether nothing over- or underflows with these squares.
fn is_plain(a: f32, b: f32, c: f32) -> bool
    ensures { result ≡ is_plain_triple a b c }
{
    is_between(a, 0.00000000000090949470, 67108864.0)
        && (is_between(b, 0.00000000000090949470, 67108864.0)
            && is_between(c, 0.00000000000090949470, 67108864.0))
}

// Whether a limit is passed by the squares of the shortest edge, of the longest one and of twice the area.
fn is_beyond(short: f32, long: f32, cross: f32, limit: f32) -> bool
    ensures { result ≡ is_beyond short long cross limit }
{
    is_between(long, 0.000000014901161, 67108864.0)
        && (is_between(cross, 0.00000000000000000086736174, 1152921504606846976.0)
            && limit * (short * short) < long * long * cross)
}

// Whether the edges are surely too long for the bound that the limit is for; from the squares of the edges' lengths and
// of the cross product's.
pub fn is_long(a: f32, b: f32, c: f32, cross: f32, limit: f32) -> bool
    ensures { result ≡ true → Long limit a b c cross }
{
    let short = numbers::min(numbers::min(a, b), c);
    let long = numbers::max(numbers::max(a, b), c);
    if !is_beyond(short, long, cross, limit) {
        return false;
    }
    is_plain(a, b, c)
}
