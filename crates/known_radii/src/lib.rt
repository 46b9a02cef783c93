// Radii that are known to have no seed: in a flat cloud, or since a larger one has none.
#![tactic(auto)]

ghost use Rattle.std.specs.Prelude.{◌≡◌, true, false, ◌<◌};
ghost use Rattle.spatial_hash.specs.Inner.Near.{Hashed};
ghost use Rattle.nearby.specs.Inner.Ready.{SceneHeld, used_in_scene, SceneKept};
ghost use Rattle.known_radii.specs.declared.Upto.TheVariants.{Radius};
ghost use Rattle.known_radii.specs.Inner.Known.{RadiusKnown, Number, Growing, NothingTo, Silent};

use decisions::Scene;
use seedless::{Search, Site};

// What is known of radii: one up to which none has a seed, or one at which the largest was asked in vain after a
// search.
#[derive(Clone, Copy)]
pub enum Upto {
    Radius(f32),
    InVain(f32),
    Unknown,
}

// Whether a radius is known to have no seed: in a flat cloud each at which edges are limited, else each up to another
// one.
pub fn is_known(s: Scene, flat: bool, radius: f32, upto: Upto) -> bool
    ensures { result ≡ true → RadiusKnown s flat radius upto }
{
    if flat {
        if radius * s.max_edge_factor < 1.0 / 0.0 {
            return true;
        }
    }
    match upto {
        Upto::Radius(x) => radius <= x && 0.0 <= radius,
        _ => false,
    }
}

// Whether a number is neither below 0 nor beyond all measure.
fn is_number(x: f32) -> bool
    ensures { result ≡ true → Number x }
{
    0.0 <= x && x <= 1e30
}

// Whether what is accepted at a smaller radius is accepted at this one.
fn is_growing(s: Scene, radius: f32) -> bool
    ensures { result ≡ true → Growing s radius }
{
    is_number(s.max_edge_factor) && is_number(radius)
}

// What is known where the largest radius was asked in vain after a search at this one.
fn in_vain(radius: f32) -> Upto
    ensures { Silent result }
{
    if -radius < 0.0 {
        return Upto::InVain(radius);
    }
    Upto::Unknown
}

// Whether the largest radius was asked in vain after a search at more than half of this one: the same would be asked
// again.
fn is_too_soon(radius: f32, note: Upto) -> bool
    ensures { result ≡ true → Silent note }
{
    match note {
        Upto::InVain(x) => radius < x * 2.0,
        _ => false,
    }
}

// Whether it is known that no radius up to the largest has a seed, as far as the budget does for it: no three unused
// points make one there, and what is accepted at a radius is accepted at every larger one. Points from another one on
// have not been searched yet.
fn is_seedless_to(
    p: Site,
    points: &[f32],
    w: &mut [u32],
    largest: f32,
    from: usize,
    budget: usize,
) -> bool
    requires { SceneHeld p.scene points.now w.old × Hashed p.hash points.now p.scene.n w.old }
    ensures { (result ≡ true
        → NothingTo p.scene points.now (used_in_scene p.scene w.old) (Radius largest))
        × SceneKept p.scene w.old w.new }
{
    let s = p.scene;
    if !is_growing(s, largest) {
        return false;
    }
    let hash = p.hash;
    let limits = filters::limits_of(s, largest);
    let wide = Site {
        scene: s,
        hash: hash,
        radius: largest,
        limits: limits,
    };
    let narrow = p.limits;
    let search = Search {
        from: from,
        radius: p.radius,
        far: narrow.far,
    };
    seedless::is_exhausted(wide, points, w, search, budget)
}

// Whether the largest radius is worth being asked while a search at another one goes on.
pub fn is_worth_asking(radius: f32, largest: f32, note: Upto) -> bool {
    !is_too_soon(radius, note) && radius < largest
}

// Whether the largest radius is still to be asked, and whether it is known that no radius up to it has a seed.
#[derive(Clone, Copy)]
pub struct Asked {
    pub asks: bool,
    pub told: bool,
}

// The largest radius is asked before a search comes to point i, once the budget does for it: so that three points which
// make no seed there are not looked at at both radii.
pub fn ask_early(
    p: Site,
    points: &[f32],
    w: &mut [u32],
    largest: f32,
    asks: bool,
    i: usize,
    budget: usize,
) -> Asked
    requires { SceneHeld p.scene points.now w.old × Hashed p.hash points.now p.scene.n w.old
        × (i < p.scene.n) }
    ensures { (result.told ≡ true
        → NothingTo p.scene points.now (used_in_scene p.scene w.old) (Radius largest))
        × SceneKept p.scene w.old w.new }
{
    if !asks {
        return Asked {
            asks: false,
            told: false,
        };
    }
    let s = p.scene;
    if !seedless::is_within_budget(s.n, i, budget) {
        return Asked {
            asks: true,
            told: false,
        };
    }
    let told = is_seedless_to(p, points, w, largest, i, budget);
    Asked {
        asks: false,
        told: told,
    }
}

// Whether a radius has no seed since the largest has told so.
pub fn is_known_by(s: Scene, radius: f32, largest: f32, told: bool) -> bool
    ensures { result ≡ true → (told ≡ true) × RadiusKnown s false radius (Radius largest) }
{
    told && is_known(s, false, radius, Upto::Radius(largest))
}

// The largest radius, if it is known that no radius up to it has a seed, as far as the budget does for it; else that it
// was asked in vain after a search at this radius.
fn ask_at(p: Site, points: &[f32], w: &mut [u32], largest: f32, budget: usize) -> Upto
    requires { SceneHeld p.scene points.now w.old × Hashed p.hash points.now p.scene.n w.old }
    ensures { NothingTo p.scene points.now (used_in_scene p.scene w.old) result
        × SceneKept p.scene w.old w.new }
{
    let s = p.scene;
    if is_seedless_to(p, points, w, largest, s.n, budget) {
        return Upto::Radius(largest);
    }
    in_vain(p.radius)
}

// What is known of radii after a search at one of them. If the search was in vain the largest radius is asked, unless
// it has told before, with what that search has left of the budget.
pub fn known_to(
    p: Site,
    points: &[f32],
    w: &mut [u32],
    largest: f32,
    note: Upto,
    told: bool,
    budget: usize,
) -> Upto
    requires { SceneHeld p.scene points.now w.old × Hashed p.hash points.now p.scene.n w.old
        × (told ≡ true → NothingTo p.scene points.now (used_in_scene p.scene w.old) (Radius largest)) }
    ensures { NothingTo p.scene points.now (used_in_scene p.scene w.old) result
        × SceneKept p.scene w.old w.new }
{
    if told {
        return Upto::Radius(largest);
    }
    if budget == 0 {
        return Upto::Unknown;
    }
    if is_too_soon(p.radius, note) {
        return note;
    }
    if p.radius < largest {
        return ask_at(p, points, w, largest, budget);
    }
    Upto::Unknown
}
