// The search for a seed triangle.
#![tactic(auto)]

mod triples;

ghost use Rattle.std.specs.Prelude.{◌≡◌, true};
ghost use Rattle.grid.specs.Inner.Index.{CellsIndexed};
ghost use Rattle.spatial_hash.specs.Inner.Near.{Hashed};
ghost use Rattle.patch.specs.Search.{searching};
ghost use Rattle.decisions.specs.Decisions.{floats_of};
ghost use Rattle.nearby.specs.Inner.Ready.{SceneHeld, used_in_scene, SceneKept};
ghost use Rattle.std.proofs.Math.Option.{none};
ghost use Rattle.known_radii.specs.Inner.Known.{NothingTo};
ghost use Rattle.lists.specs.Inner.Found.{option_found};
ghost use Rattle.seed.specs.Inner.Found.{WithArea};

use decisions::Scene;
use known_radii::Upto;
use seedless::Site;
use spatial_hash::Hash;

// What is found, and what is known of radii then.
#[derive(Clone, Copy)]
pub struct SeedSearch {
    pub seed: Option<(usize, usize, usize)>,
    pub upto: Upto,
}

// What is known before a search: whether there is no seed at its radius, what is known of radii, and the largest radius
// that will be searched.
#[derive(Clone, Copy)]
pub struct Told {
    pub known: bool,
    pub upto: Upto,
    pub largest: f32,
}

// The first triangle of unused points at a radius that is acceptable, in the order of their numbers and neighbours; it
// is never without area. It may be known that there is none.
pub fn find_seed_triangle(
    s: Scene,
    points: &[f32],
    w: &mut [u32],
    radius: f32,
    hash: Hash,
    t: Told,
) -> SeedSearch
    requires { SceneHeld s points.now w.old × CellsIndexed s.grid points.now s.n w.old
        × Hashed hash points.now s.n w.old
        × (t.known ≡ true → (searching (floats_of s points.now) s.n).seed_of radius (used_in_scene s w.old) ≡ none)
        × NothingTo s points.now (used_in_scene s w.old) t.upto }
    ensures { (result.seed
        ≡ option_found ((searching (floats_of s points.now) s.n).seed_of radius
        (used_in_scene s w.old)))
        × SceneKept s w.old w.new
        × WithArea points.now result.seed
        × NothingTo s points.now (used_in_scene s w.old) result.upto }
{
    if t.known {
        return SeedSearch {
            seed: None,
            upto: t.upto,
        };
    }
    if filters::refuses_all(s, radius) {
        return SeedSearch {
            seed: None,
            upto: Upto::Unknown,
        };
    }
    let limits = filters::limits_of(s, radius);
    let site = Site {
        scene: s,
        hash: hash,
        radius: radius,
        limits: limits,
    };
    let asks = known_radii::is_worth_asking(radius, t.largest, t.upto);
    let tried = triples::find_from(site, points, w, t.largest, asks);
    let upto = known_radii::known_to(site, points, w, t.largest, t.upto, tried.told, tried.budget);
    let seed = tried.seed;
    SeedSearch {
        seed: seed,
        upto: upto,
    }
}
