// Whether a station fits its module (document 01, "A station fits if", and docs/STATION.md). The
// contracts cite specs/ of crate station.
#![tactic(auto)]

ghost use Rattle.std.specs.Prelude.{◌≡◌, true, ◌&&◌, ◌≤◌};
ghost use Rattle.format.specs.Present.{most_stations, size_fits};
ghost use Rattle.modules.specs.Present.{module_fits};
ghost use Rattle.station.specs.Present.{stage_fits, fits};
ghost use Rattle.fitness.specs.Laws.Parts.{words_fit};

use format::{FLAG, LAST_ROUND, NONE, STATEMENT_WORDS};
use modules::Module;
use station::{Stage, Station};

// Whether the stage's round is in range, and a proposing station's flag that of its own proposal,
// whose word 0 is w.
fn stage_fits(stage: Stage, w: u32) -> bool
    ensures { result ≡ stage_fits stage w }
{
    match stage {
        Stage::Gathering => true,
        Stage::Proposing(r, f) => (1 <= r.0) & (r.0 <= LAST_ROUND) & (f == w / FLAG % 2),
        Stage::Voting(r) => (1 <= r.0) & (r.0 <= LAST_ROUND),
    }
}

// Whether all that an open station keeps fits.
fn words_fit(t: Station, n: u32, site: u32) -> bool
    requires { (1 ≤ site) × (site ≤ most_stations) × (size_fits n ≡ true) }
    ensures { result ≡ words_fit n site t }
{
    let own = site - 1;
    let question = t.identity.question;
    let step = stages::step_in(t.stage);
    held_fitness::held_fits(&t.held, n, own, question, step)
        & (stage_fits(t.stage, t.held.slots[own as usize * STATEMENT_WORDS])
            & (t.lasting.decision <= NONE)
            & kept_fitness::groups_fit(t.groups, &t.held, t.stage, n, question))
}

// Whether a station fits a module: the module is in range, the station has its n and number, and is
// closed or all of its words fit.
pub fn fits_module(t: Station, m: Module) -> bool
    ensures { result ≡ (module_fits m && fits m.n m.station t) }
{
    if !modules::fits(m) {
        return false;
    }
    (t.identity.n == m.n)
        & (t.identity.station == m.station)
        & (t.closed | words_fit(t, m.n, m.station))
}
