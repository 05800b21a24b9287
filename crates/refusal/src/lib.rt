// The first refusal of a given bundle (document 01, "Table of returns"). The contracts cite specs/.
#![tactic(auto)]

ghost use Rattle.std.specs.Prelude.{◌≡◌, ◌≤◌, get_or};
ghost use Rattle.format.specs.Returns.{number_in};
ghost use Rattle.format.specs.Words.{fields_of};
ghost use Rattle.station.specs.Present.{held_in, sites};
ghost use Rattle.refusal.specs.Refusal.{both_values as BothValues, conflicting, jumps_by, step_refused, first_refusal as FirstRefusal};

use format::{Fields, Refusal};
use modules::Module;
use rules::Which;
use station::{Held, Stage, Station};

// What is found of a bundle given to a station: what its tests came to; the main statement's
// fields, read off word 1; and whether a statement with these makes the station jump.
#[derive(Clone, Copy)]
pub struct Finding {
    pub tested: Result<(), Refusal>,
    pub fields: Fields,
    pub jumps: bool,
}

// Whether the held statements and one more, with this value and flag, have both values with such a
// flag.
fn both_values(held: &Held, wanted: Which, value: u32, flag: u32) -> bool
    ensures { result ≡ BothValues wanted value flag (held_in held.now.heard held.now.slots 0 sites) }
{
    let zero = held::scan(&held.slots, held.heard, Which::Only(0), wanted);
    let one = held::scan(&held.slots, held.heard, Which::Only(1), wanted);
    let such = rules::allows(wanted, flag);
    (((value == 0) & such) | (0 < zero)) & (((value == 1) & such) | (0 < one))
}

// Whether the held statements and one more, with this value and flag, conflict.
fn conflicts(held: &Held, stage: Stage, value: u32, flag: u32) -> bool
    ensures { result ≡ conflicting stage value flag (held_in held.now.heard held.now.slots 0 sites) }
{
    match stage {
        Stage::Gathering => false,
        Stage::Proposing(r, _) => (1 < r.0)
            & both_values(held, Which::Only(format::D_GET), value, flag),
        Stage::Voting(_) => both_values(held, Which::Any, value, flag),
    }
}

// Whether a statement with these fields makes a station jump: the setting is on, and the statement
// is of a later step.
fn jumps(stage: Stage, jump: bool, f: Fields) -> bool
    ensures { result ≡ jumps_by stage jump f }
{
    let own = stages::step_in(stage);
    let step = format::step_of(f);
    jump & (own.0 < step.0)
}

// The first of the station's own tests that a statement with these fields fails. One that makes the
// station jump is only tested for a lower step.
fn step_refusal(held: &Held, stage: Stage, leaps: bool, f: Fields) -> Result<(), Refusal>
    requires { 1 ≤ f.station }
    ensures { number_in result ≡ step_refused stage leaps held.now.heard (held_in held.now.heard held.now.slots 0 sites) f }
{
    let own = stages::step_in(stage);
    let step = format::step_of(f);
    let known = held::in_set(held.heard, f.station - 1);
    let clash = conflicts(held, stage, f.value, f.flag);
    format::first_failed(&[
        (own.0 <= step.0, Refusal::TooLate),
        (leaps | (step.0 <= own.0), Refusal::TooEarly),
        (leaps | !known, Refusal::AlreadyHeld),
        (leaps | !clash, Refusal::Conflicting),
    ])
}

// The first refusal of a bundle given to a station, if any. The tests are made in the table's order,
// each only where those before it passed: no code is computed for a closed station.
fn first_refusal(
    m: Module,
    t: Station,
    ws: &[u32],
    coin: u32,
    room: usize,
    f: Fields,
    leaps: bool,
) -> Result<(), Refusal>
    requires { (f ≡ fields_of (get_or ws.now 1 0)) × (leaps ≡ jumps_by t.stage t.lasting.jump f) }
    ensures { number_in result ≡ FirstRefusal m t ws.now coin room }
{
    if room < format::OUTPUT_WORDS {
        return Err(Refusal::ShortOutput);
    }
    if !(fitness::fits_module(t, m) & (coin < 2)) {
        return Err(Refusal::OutOfRange);
    }
    if t.closed {
        return Err(Refusal::StationClosed);
    }
    certificate::judge(m.key, m.n, Which::Only(t.identity.question), ws)?;
    step_refusal(&t.held, t.stage, leaps, f)
}

// What is found of a bundle given to a station. Its fields and whether they make the station jump
// are told of any words, with 0 for a word that is missing.
pub fn refusal(m: Module, t: Station, ws: &[u32], coin: u32, room: usize) -> Finding
    ensures { (number_in result.tested ≡ FirstRefusal m t ws.now coin room)
        × (result.fields ≡ fields_of (get_or ws.now 1 0))
        × (result.jumps ≡ jumps_by t.stage t.lasting.jump (fields_of (get_or ws.now 1 0))) }
{
    let fields = format::read_fields(format::word_at(ws, 1));
    let leaps = jumps(t.stage, t.lasting.jump, fields);
    Finding {
        tested: first_refusal(m, t, ws, coin, room, fields, leaps),
        fields,
        jumps: leaps,
    }
}
