// Opening a station (document 01, "The station" and "Table of returns"). The contracts cite specs/.
#![tactic(auto)]

ghost use Rattle.std.specs.Prelude.{◌≡◌};
ghost use Rattle.hmac.specs.Code.{hmac_code};
ghost use Rattle.format.specs.Numbers.{kind_init, d_get};
ghost use Rattle.format.specs.Returns.{number_in};
ghost use Rattle.station.specs.Answers.{returned_by};
ghost use Rattle.station.specs.Present.{opening, no_station};
ghost use Rattle.opening.specs.Opens.{open_refusal};

use format::{Fields, Outcome, Refusal, Round, Step};
use modules::Module;
use station::{Answer, Identity, KEPT_WORDS, SLOTS_WORDS, Stage, Station};

// The refusal of an opening.
#[tactic(auto, using(crate::specs::Opens::refusal_is))]
fn refusal(m: Module, question: u32, proposal: u32, jump: u32, lent: usize) -> Result<(), Refusal>
    ensures { number_in result ≡ open_refusal m question proposal jump lent }
{
    let range = modules::fits(m) && proposal < 2 && jump < 2;
    let later = modules::is_above(m, question, Step(0));
    format::first_failed(&[
        (format::OUTPUT_WORDS <= lent, Refusal::ShortOutput),
        (range, Refusal::OutOfRange),
        (later, Refusal::NotAbove),
    ])
}

// The station where an opening was refused: of no group, closed, undecided and otherwise zero.
#[tactic(auto, unfolding(station::specs::Calls::no_station))]
pub fn none() -> Station
    ensures { result ≡ no_station }
{
    let identity = Identity {
        n: 0,
        station: 0,
        question: 0,
    };
    held::empty(identity, Stage::Gathering, true, held::undecided(false))
}

// The fields of the station's INIT.
fn init(site: u32, proposal: u32) -> Fields
    ensures { result ≡ record { kind = kind_init; value = proposal; flag = d_get; spare = 0; station = site; round = record { 0 = 0 } } }
{
    Fields {
        kind: format::INIT,
        value: proposal,
        flag: format::D_GET,
        spare: 0,
        station: site,
        round: Round(0),
    }
}

// Opens a station on a question, with jump off (0) or on (1): its INIT is sent, and it gathers.
pub fn open(
    m: Module,
    question: u32,
    proposal: u32,
    jump: u32,
    out: &mut [u32],
) -> Result<Answer, Refusal>
    ensures { returned_by no_station m out.new result ≡ opening hmac_code m question proposal jump out.old }
{
    refusal(m, question, proposal, jump, out.len())?;
    let s = sending::send(
        m,
        question,
        init(m.station, proposal),
        held::undecided(jump == 1),
        Stage::Gathering,
        &[0; SLOTS_WORDS],
        0,
        &[0; KEPT_WORDS],
        0,
        out,
    );
    Ok(Answer {
        outcome: Outcome::Sent,
        count: s.count,
        station: s.station,
        after: s.after,
    })
}
