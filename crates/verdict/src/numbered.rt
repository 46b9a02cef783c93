// The whole answer in four numbers, as C has it.
ghost use Rattle.std.specs.Prelude.{◌≡◌, Ok};
ghost use Rattle.verdict.specs.Numbered.{verdict_numbers};

use domain::Refusal;

// The answer's number and detail, both 0 where there is a verdict; then its kind, 1 to 5, and what was measured, both 0
// at a refusal.
#[repr(C)]
#[derive(Clone, Copy)]
pub struct Verdict {
    pub answer: u32,
    pub detail: u32,
    pub kind: u32,
    pub measured: f32,
}

fn kind_of(verdict: crate::MeasuredKind) -> Verdict
    ensures { result ≡ verdict_numbers (Ok verdict) }
{
    match verdict {
        crate::MeasuredKind::Good(score) => Verdict {
            answer: 0,
            detail: 0,
            kind: 1,
            measured: score,
        },
        crate::MeasuredKind::NoArea(area) => Verdict {
            answer: 0,
            detail: 0,
            kind: 2,
            measured: area,
        },
        crate::MeasuredKind::Small(area) => Verdict {
            answer: 0,
            detail: 0,
            kind: 3,
            measured: area,
        },
        crate::MeasuredKind::Poor(score) => Verdict {
            answer: 0,
            detail: 0,
            kind: 4,
            measured: score,
        },
        crate::MeasuredKind::Long(long) => Verdict {
            answer: 0,
            detail: 0,
            kind: 5,
            measured: long,
        },
    }
}

pub fn numbered(judgement: Result<crate::MeasuredKind, Refusal>) -> Verdict
    ensures { result ≡ verdict_numbers judgement }
{
    match judgement {
        Ok(verdict) => kind_of(verdict),
        Err(refusal) => Verdict {
            answer: refusal.answer,
            detail: refusal.detail,
            kind: 0,
            measured: 0.0,
        },
    }
}
