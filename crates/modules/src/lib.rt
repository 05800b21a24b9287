// The sealed module's counter: the module and the last pair that it coded, making, and what a pair
// is held against (document 01, "The sealed module"). The contracts cite specs/Counter.antt.
#![tactic(auto)]

ghost use Rattle.std.specs.Prelude.{◌≡◌};
ghost use Rattle.modules.specs.Counter.{above, last_for};
ghost use Rattle.modules.specs.Present.{module_fits, making};
ghost use Rattle.modules.specs.Returned.{made_of};

use format::{LEAST_STATIONS, MOST_STATIONS, Refusal, Step};

// The last pair that a module coded, or none. A flag beside the pair and not an Option: a host may
// hand in any question and step beside `coded: false`, and a narrower type would ask more of it.
#[derive(Clone, Copy)]
pub struct Last {
    pub coded: bool,
    pub question: u32,
    pub step: Step,
}

// A sealed module: the group's key and size, its own station number, and the last pair that it
// coded.
#[derive(Clone, Copy)]
pub struct Module {
    pub key: [u8; 32],
    pub n: u32,
    pub station: u32,
    pub last: Last,
}

// Whether the module's n and station number are in range.
pub fn fits(m: Module) -> bool
    ensures { result ≡ module_fits m }
{
    ((LEAST_STATIONS <= m.n) & (m.n <= MOST_STATIONS)) & ((1 <= m.station) & (m.station <= m.n))
}

// Whether a pair is above the last that the question is held against, question compared first.
#[tactic(auto, unfolding(crate::specs::Counter::above))]
pub fn is_above(m: Module, question: u32, step: Step) -> bool
    ensures { result ≡ above (last_for m question) question step.0 }
{
    let last = m.last;
    !last.coded
        | ((last.question < question) | ((last.question == question) & (last.step.0 < step.0)))
}

// A module with nothing coded; refused where n or the station number is out of range.
#[tactic(auto, using(crate::proofs::Making::makes, crate::proofs::Making::makes_none))]
pub fn make(key: [u8; 32], n: u32, site: u32) -> Result<Module, Refusal>
    ensures { made_of result ≡ making key n site }
{
    let m = Module {
        key,
        n,
        station: site,
        last: Last {
            coded: false,
            question: 0,
            step: Step(0),
        },
    };
    if fits(m) {
        Ok(m)
    } else {
        Err(Refusal::OutOfRange)
    }
}
