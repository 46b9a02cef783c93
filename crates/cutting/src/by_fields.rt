// Cutting by the fields of an f32's bits: a branch for each line of the list in specs/CutFields.antt.
ghost use Rattle.std.specs.Prelude.{◌≡◌, ◌<◌, ◌^◌};
ghost use Rattle.cutting.specs.CutFields.{cut_fields};

pub fn cut_fields(negative: bool, exponent: u32, fraction: u32) -> u32
    requires { fraction < 2 ^ 23 }
    ensures { result ≡ cut_fields negative exponent fraction }
{
    if exponent == 0 {
        return 0;
    }
    if exponent < 127 {
        return 0;
    }
    if negative {
        return 0;
    }
    if exponent < 150 {
        return (8388608 + fraction) >> (150 - exponent);
    }
    if exponent < 159 {
        return (8388608 + fraction) << (exponent - 150);
    }
    if exponent < 255 {
        return 4294967295;
    }
    if 0 < fraction {
        return 0;
    }
    4294967295
}
