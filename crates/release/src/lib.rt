// What the library says of itself, so that who was built for another one can tell.
#![tactic(auto)]

ghost use Rattle.std.specs.Prelude.{◌≡◌};
ghost use Rattle.release.specs.Release.{version, layout};

pub fn version() -> u32
    ensures { result ≡ version }
{
    4000
}

pub fn layout() -> u32
    ensures { result ≡ layout }
{
    1298813845
}
