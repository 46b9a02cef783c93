// Which patches may be entered, and which tallies are ones that a season can have left: what 20 and 24 refuse.
ghost use Rattle.std.specs.Prelude.{◌≡◌, ◌<◌};
ghost use Rattle.tally.specs.Checks.{enterable, tally_within, sound_tally};

use crate::{SeasonPatch, Tally};

// The most patches of a season.
pub const MAX_PATCHES: u64 = 100000;

// The most points and the most faces of a patch.
const MAX_SCANNED: u32 = 4096;

const MAX_FACES: u32 = 10000;

// The most that a patch adds to a sum.
const SCANNED: u64 = MAX_SCANNED as u64;

const FACES: u64 = MAX_FACES as u64;

const FACE_SQUARES: u64 = FACES * FACES;

pub fn wide(x: u32) -> u64
    ensures { (result ≡ x) × (result < 4294967296) }
{
    x as u64
}

// Whether a patch may be entered.
pub fn is_enterable(patch: SeasonPatch) -> bool
    ensures { result ≡ enterable patch }
{
    1 <= patch.scanned
        && (patch.scanned <= MAX_SCANNED
            && (patch.covered <= patch.scanned && patch.faces <= MAX_FACES))
}

// Whether no sum is more or less than so many patches can have.
fn is_within(tally: Tally) -> bool
    ensures { result ≡ tally_within tally }
{
    tally.patches <= MAX_PATCHES
        && (tally.faces <= tally.patches * FACES
            && (tally.face_squares <= tally.patches * FACE_SQUARES
                && (tally.scanned <= tally.patches * SCANNED
                    && (tally.covered <= tally.patches * SCANNED
                        && (tally.patches <= tally.scanned && tally.covered <= tally.scanned)))))
}

// Whether a tally is taken. The sums are held to their limits first: no product then is above 10^18.
pub fn is_sound(tally: Tally) -> bool
    ensures { result ≡ sound_tally tally }
{
    let best = tally.best;
    let worst = tally.worst;
    if !is_within(tally) {
        return false;
    }
    if tally.patches * tally.face_squares < tally.faces * tally.faces {
        return false;
    }
    if tally.patches == 0 {
        return true;
    }
    is_enterable(best) && is_enterable(worst)
}
