// Exact figures over a season: what is worked out from its tally.
#![tactic(auto)]

ghost use Rattle.std.specs.Prelude.{◌≡◌, ◌<◌};
ghost use Rattle.tally.specs.Checks.{TallySound};
ghost use Rattle.figures.specs.Working.{coverage_of, no_figures, sound_figures, figures_of};

use fractions::Fraction;
use tally::checks::{is_sound, wide};
use tally::{SeasonPatch, Tally};

// The figures of a season, fractions in lowest terms; all zeros but for the answer where they are refused.
#[repr(C)]
#[derive(Clone, Copy)]
pub struct Figures {
    pub answer: u32,
    pub patches: u64,
    pub mean: Fraction,
    pub variance: Fraction,
    pub coverage: Fraction,
    pub best: SeasonPatch,
    pub worst: SeasonPatch,
    pub best_coverage: Fraction,
    pub worst_coverage: Fraction,
}

// The part of a patch's points that is covered.
fn coverage_of(patch: SeasonPatch) -> Fraction
    requires { 0 < patch.scanned }
    ensures { result ≡ coverage_of patch }
{
    fractions::lowest(wide(patch.covered), wide(patch.scanned))
}

// Zeros with a refusal's number.
fn no_figures(answer: u32) -> Figures
    ensures { result ≡ no_figures answer }
{
    let none = Fraction {
        numerator: 0,
        denominator: 0,
    };
    let nothing = SeasonPatch {
        number: 0,
        scanned: 0,
        covered: 0,
        faces: 0,
    };
    Figures {
        answer,
        patches: 0,
        mean: none,
        variance: none,
        coverage: none,
        best: nothing,
        worst: nothing,
        best_coverage: none,
        worst_coverage: none,
    }
}

// The figures of a tally that holds a patch.
fn sound_figures(tally: Tally) -> Figures
    requires { TallySound tally × (0 < tally.patches) }
    ensures { result ≡ sound_figures tally }
{
    let best = tally.best;
    let worst = tally.worst;
    let patches = tally.patches;
    let faces = tally.faces;
    Figures {
        answer: 0,
        patches,
        mean: fractions::lowest(faces, patches),
        variance: fractions::lowest(
            patches * tally.face_squares - faces * faces,
            patches * patches,
        ),
        coverage: fractions::lowest(tally.covered, tally.scanned),
        best,
        worst,
        best_coverage: coverage_of(best),
        worst_coverage: coverage_of(worst),
    }
}

// The figures of a tally, or the refusal.
pub fn figures_of(tally: Tally) -> Figures
    ensures { result ≡ figures_of tally }
{
    if !is_sound(tally) {
        return no_figures(answers::TALLY);
    }
    if tally.patches == 0 {
        return no_figures(answers::TALLY_EMPTY);
    }
    sound_figures(tally)
}
