// Reading a station: a call that changes nothing. The contracts cite specs/.
#![tactic(auto)]

ghost use Rattle.std.specs.Prelude.{◌≡◌};
ghost use Rattle.status.specs.Status.{decision_on, if_decided, status};

use format::{NONE, Refusal, Round};
use modules::Module;
use station::{Stage, Station};

// What is told of a station: the decision on the question asked for, if there is one, which of an open station is 0 or 1 (`told_0_or_1`); the stage, its round, and whether the
// station is closed.
#[derive(Clone, Copy)]
pub struct Status {
    pub decision: Option<u32>,
    pub stage: Stage,
    pub round: Round,
    pub closed: bool,
}

// The station's decision, if it is on this question.
#[tactic(auto, unfolding(crate::specs::Status::decision_on, crate::specs::Status::if_decided, laws::specs::Pick::pick))]
fn decision_on(t: Station, question: u32) -> Option<u32>
    ensures { result ≡ if_decided (decision_on question t) }
{
    if t.identity.question == question {
        (t.lasting.decision != NONE).then_some(t.lasting.decision)
    } else {
        None
    }
}

// Reads a station, for the question that the host asks about. One that is not this module's, or does not fit, is out of range.
#[tactic(auto, unfolding(crate::specs::Status::status, laws::specs::Pick::pick))]
pub fn read(m: Module, t: Station, question: u32) -> Result<Status, Refusal>
    ensures { result ≡ status m t question }
{
    if !fitness::fits_module(t, m) {
        return Err(Refusal::OutOfRange);
    }
    Ok(Status {
        decision: decision_on(t, question),
        stage: t.stage,
        round: stages::round_in(t.stage),
        closed: t.closed,
    })
}
