// The round and the step of a stage (document 01, "The station"). The contracts cite specs/ of
// crate station.
#![tactic(auto)]

ghost use Rattle.std.specs.Prelude.{◌≡◌, ◌-◌};
ghost use Rattle.station.specs.Machine.{round_in, stage_step};

use format::{Round, Step};
use station::Stage;

// The step of a stage.
#[tactic(auto, unfolding(format::specs::Words::step_of, laws::specs::Pick::pick))]
pub fn step_in(stage: Stage) -> Step
    ensures { result.0 ≡ stage_step stage }
{
    match stage {
        Stage::Gathering => Step(0),
        Stage::Proposing(r, _) => Step(2 * u64::from(r.0)),
        Stage::Voting(r) => Step(2 * u64::from(r.0) + 1),
    }
}

// The round of a stage.
pub fn round_in(stage: Stage) -> Round
    ensures { result ≡ record { 0 = round_in stage } }
{
    match stage {
        Stage::Gathering => Round(0),
        Stage::Proposing(r, _) | Stage::Voting(r) => r,
    }
}

// The round before the stage's.
pub fn round_before_in(stage: Stage) -> Round
    ensures { result.0 ≡ round_in stage - 1 }
{
    rules::round_before(round_in(stage))
}
