// Jumping (document 02, Job 3): the station enters the step of a given bundle, by that bundle's certificate. The contracts cite specs/.
#![tactic(auto)]

ghost use Rattle.std.specs.Prelude.{◌≡◌};
ghost use Rattle.station.specs.Answers.{returned_by};
ghost use Rattle.jumping.specs.Jumps.{value_by, copied_fields, stage_by, jumping};

use format::{Fields, Outcome, Refusal};
use modules::Module;
use station::{Answer, Stage, Station};

// The value of the station's own statement: that of the given one, but for an R-GET proposal, whose value is the call's coin.
#[tactic(auto, unfolding(crate::specs::Jumps::value_by, laws::specs::Pick::pick))]
fn own_value(f: Fields, coin: u32) -> u32
    ensures { result ≡ value_by f coin }
{
    if f.kind == format::P && f.flag == format::R_GET {
        coin
    } else {
        f.value
    }
}

// The fields of the station's own statement.
#[tactic(auto, unfolding(crate::specs::Jumps::copied_fields))]
fn own_fields(site: u32, f: Fields, coin: u32) -> Fields
    ensures { result ≡ copied_fields site f coin }
{
    Fields {
        value: own_value(f, coin),
        spare: 0,
        station: site,
        ..f
    }
}

// The stage of a station that has made a statement with these fields, which is no INIT.
#[tactic(auto, unfolding(crate::specs::Jumps::stage_by, laws::specs::Pick::pick))]
fn stage_of(f: Fields) -> Stage
    ensures { result ≡ stage_by f }
{
    if f.kind == format::P {
        Stage::Proposing(f.round, f.flag)
    } else {
        Stage::Voting(f.round)
    }
}

// Enters the step of the given bundle, or is refused by 12.
pub fn jump(
    m: Module,
    t: Station,
    ws: &[u32],
    coin: u32,
    out: &mut [u32],
) -> Result<Answer, Refusal>
    ensures { returned_by t m out.new result ≡ jumping m t ws.now coin out.old }
{
    let question = t.identity.question;
    let given = format::read_fields(format::word_at(ws, 1));
    let f = own_fields(m.station, given, coin);
    if !modules::is_above(m, question, format::step_of(f)) {
        return Err(Refusal::NotAbove);
    }
    let s = sending::send_copy(m, question, f, t.lasting, stage_of(given), ws, out);
    Ok(Answer {
        outcome: Outcome::Jumped,
        count: s.count,
        station: s.station,
        after: s.after,
    })
}
