// The arc cosine, as musl's `acosf` has it.
#![tactic(auto)]

mod arc;

ghost use Rattle.std.specs.Prelude.{◌≡◌};
ghost use Rattle.numbers.specs.Acos.{acos};

// Arc cosine, as musl's `acosf` has it.
pub fn acos(v: f32) -> f32
    ensures { result ≡ acos v }
{
    if v != v {
        return v;
    }
    if v == 1.0 {
        return 0.0;
    }
    if v == -1.0 {
        return 2.0 * 1.5707962513;
    }
    arc::acos_inside(v)
}
