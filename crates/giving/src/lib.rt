// Giving a bundle to a station (document 01, "The station" and "Table of returns"). The contracts cite specs/.
#![tactic(auto)]

ghost use Rattle.std.specs.Prelude.{◌≡◌};
ghost use Rattle.hmac.specs.Code.{hmac_code};
ghost use Rattle.station.specs.Answers.{returned_by};
ghost use Rattle.station.specs.Present.{giving};
ghost use Rattle.giving.specs.Gives.{ending_words, after_words};

use format::{Outcome, Refusal};
use modules::Module;
use station::{Answer, Station};

// What is done with no bundle written: no word is counted.
fn no_bundle(outcome: Outcome, t: Station, m: Module) -> Answer
    ensures { result ≡ record { outcome = outcome; count = 0; station = t; after = m } }
{
    Answer {
        outcome,
        count: 0,
        station: t,
        after: m,
    }
}

// The step has ended: the station closes, or goes on.
fn end_step(m: Module, k: Station, coin: u32, out: &mut [u32]) -> Result<Answer, Refusal>
    ensures { returned_by k m out.new result ≡ ending_words m k coin out.old }
{
    let l = ending::lasting_after(k.stage, k.lasting, &k.held);
    if ending::closes(k.stage) {
        let closed = held::empty(k.identity, k.stage, true, held::jump_off(l));
        Ok(no_bundle(Outcome::ClosedNow, closed, m))
    } else {
        let x = ending::next(k.stage, m.n, &k.held, coin);
        moving::go_on(m, k, x, l, out)
    }
}

// What follows a bundle that was kept.
fn taken(m: Module, k: Station, coin: u32, out: &mut [u32]) -> Result<Answer, Refusal>
    ensures { returned_by k m out.new result ≡ after_words m k coin out.old }
{
    if held::number_of(k.held.heard) < format::quorum(m.n) {
        Ok(no_bundle(Outcome::Kept, k, m))
    } else {
        end_step(m, k, coin, out)
    }
}

// Gives a bundle to a station. Where it is refused, the caller keeps the station that it gave.
pub fn give(
    m: Module,
    t: Station,
    ws: &[u32],
    coin: u32,
    out: &mut [u32],
) -> Result<Answer, Refusal>
    ensures { returned_by t m out.new result ≡ giving hmac_code m t ws.now coin out.old }
{
    let found = refusal::refusal(m, t, ws, coin, out.len());
    found.tested?;
    if found.jumps {
        return jumping::jump(m, t, ws, coin, out);
    }
    let k = keeping::keep(t, ws);
    taken(m, k, coin, out)
}
