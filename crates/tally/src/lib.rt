// Exact sums over a season: those of its patches, to which one more is added.
#![tactic(auto)]

pub mod checks;

ghost use Rattle.std.specs.Prelude.{◌≡◌, OnErr};
ghost use Rattle.tally.specs.Tallies.{better, better_patch, worst_of, summed, added_to};
ghost use Rattle.tally.specs.Checks.{TallyRoom, Enterable};
ghost use Rattle.tally.specs.Inner.Outcome.{tally_result};

use checks::wide;

// What is entered of a patch: the number that its caller gave, and its counts.
#[repr(C)]
#[derive(Clone, Copy)]
pub struct SeasonPatch {
    pub number: u32,
    pub scanned: u32,
    pub covered: u32,
    pub faces: u32,
}

// The sums over all patches entered, and the best and the worst covered one.
#[repr(C)]
#[derive(Clone, Copy)]
pub struct Tally {
    pub patches: u64,
    pub faces: u64,
    pub face_squares: u64,
    pub scanned: u64,
    pub covered: u64,
    pub best: SeasonPatch,
    pub worst: SeasonPatch,
}

// Whether more of a's points are covered than of b's.
fn is_better(a: SeasonPatch, b: SeasonPatch) -> bool
    ensures { result ≡ better a b }
{
    wide(b.covered) * wide(a.scanned) < wide(a.covered) * wide(b.scanned)
}

// The better covered of the two, the one held on equality.
fn best_of(held: SeasonPatch, patch: SeasonPatch) -> SeasonPatch
    ensures { result ≡ better_patch held patch }
{
    if is_better(patch, held) {
        return patch;
    }
    held
}

// The worse covered of the two, the one held on equality.
fn worst_of(held: SeasonPatch, patch: SeasonPatch) -> SeasonPatch
    ensures { result ≡ worst_of held patch }
{
    if is_better(held, patch) {
        return patch;
    }
    held
}

// The sums with one patch more.
fn summed(tally: Tally, patch: SeasonPatch, best: SeasonPatch, worst: SeasonPatch) -> Tally
    requires { TallyRoom tally × Enterable patch }
    ensures { result ≡ summed tally patch best worst }
{
    let faces = wide(patch.faces);
    Tally {
        patches: tally.patches + 1,
        faces: tally.faces + faces,
        face_squares: tally.face_squares + faces * faces,
        scanned: tally.scanned + wide(patch.scanned),
        covered: tally.covered + wide(patch.covered),
        best,
        worst,
    }
}

// The tally with one patch more, or the number of the refusal, which leaves the tally as it was.
pub fn added(tally: Tally, patch: SeasonPatch) -> Result<Tally, u32>
    ensures { (result ≡ tally_result (added_to tally patch))
        × OnErr result ((added_to tally patch).tally ≡ tally) }
{
    let best = tally.best;
    let worst = tally.worst;
    if !checks::is_sound(tally) {
        return Err(answers::TALLY);
    }
    if !checks::is_enterable(patch) {
        return Err(answers::SEASON_PATCH);
    }
    if tally.patches >= checks::MAX_PATCHES {
        return Err(answers::TALLY_FULL);
    }
    if tally.patches == 0 {
        return Ok(summed(tally, patch, patch, patch));
    }
    Ok(summed(tally, patch, best_of(best, patch), worst_of(worst, patch)))
}
