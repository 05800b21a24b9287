// The group of the program valley as its run goes, and the calls on its stations (document 01, "The
// program valley"). The contracts cite specs/.
#![tactic(auto)]

ghost use Rattle.std.specs.Prelude.{◌≡◌};
ghost use Rattle.modules.specs.Counter.{no_module};
ghost use Rattle.station.specs.Answers.{returned_by as answered_by};
ghost use Rattle.valley_world.specs.Valley.{made_for, group_of, no_bundle, at_number, put_number, module_at, station_at, is_open, is_written, opens, gives, shown_step, shown_decision};
ghost use Rattle.valley_world.specs.Group.{returned_by, moved as Moved};

use format::{NONE, OUTPUT_WORDS, Refusal, Step};
use modules::{Last, Module};
use station::{Answer, Station};

// A bundle as it was written: the word count, and the lent words, in fixed memory.
#[derive(Clone, Copy)]
pub struct Bundle {
    pub count: usize,
    pub words: [u32; OUTPUT_WORDS],
}

// The group as the run goes: the module and the station of each number from 1 to 7, how many
// bundles are written, and these in their order, in fixed memory.
#[derive(Clone, Copy)]
pub struct World {
    pub modules: [Module; 7],
    pub stations: [Station; 7],
    pub written: usize,
    pub bundles: [Bundle; 40],
}

// How far the run is: at the first line, behind it, or ended by a bad line.
#[derive(Clone, Copy)]
pub enum Phase {
    First,
    Running,
    Ended,
}

// What a call on a station returned: the number that valley prints, the station, the module, and
// the bundle, of no words where none was written.
#[derive(Clone, Copy)]
pub struct Call {
    pub number: u32,
    pub station: Station,
    pub after: Module,
    pub bundle: Bundle,
}

// The all-zero module, which every call refuses.
fn no_module() -> Module
    ensures { result ≡ no_module }
{
    Module {
        key: [0; 32],
        n: 0,
        station: 0,
        last: Last {
            coded: false,
            question: 0,
            step: Step(0),
        },
    }
}

// The module of station s in a group of n, and where there is no such station none.
#[tactic(auto, using(crate::proofs::Laws::Group::made_there))]
fn made(n: u32, s: u32) -> Module
    ensures { result ≡ made_for n s }
{
    modules::make([0; 32], n, s).unwrap_or(no_module())
}

// The modules of a group of n.
#[tactic(auto, using(crate::proofs::Laws::Maps::maps_is), unfolding(crate::specs::Valley::group_of))]
fn modules_of(n: u32) -> [Module; 7]
    ensures { result ≡ (group_of n).modules }
{
    [1, 2, 3, 4, 5, 6, 7].map(|s| made(n, s))
}

// A bundle of no words.
#[tactic(auto, unfolding(crate::specs::Valley::no_bundle))]
fn empty() -> Bundle
    ensures { result ≡ no_bundle }
{
    Bundle {
        count: 0,
        words: [0; OUTPUT_WORDS],
    }
}

// The group before its first event.
#[tactic(auto, unfolding(crate::specs::Valley::group_of))]
pub fn group_of(n: u32) -> World
    ensures { result ≡ group_of n }
{
    World {
        modules: modules_of(n),
        stations: [opening::none(); 7],
        written: 0,
        bundles: [empty(); 40],
    }
}

// What stands at a number's place, where numbers count from 1.
#[tactic(auto, unfolding(laws::specs::Pick::pick))]
fn at_number<T: Copy>(list: &[T], number: u32, none_there: T) -> T
    ensures { result ≡ at_number list.now number none_there }
{
    if number == 0 {
        return none_there;
    }
    list.get(number as usize - 1).copied().unwrap_or(none_there)
}

// Replaces what stands at a number's place, if there is one. By its index: over `get_mut` of a type
// parameter the proof did not close.
#[tactic(auto, using(crate::proofs::Laws::Places::put_inside, crate::proofs::Laws::Places::put_outside))]
fn put_number<T: Copy>(list: &mut [T], number: u32, value: T)
    ensures { list.new ≡ put_number list.old number value }
{
    let place = number as usize;
    if 1 <= place && place <= list.len() {
        list[place - 1] = value;
    }
}

// The module of a number, if there is one.
#[tactic(auto, unfolding(crate::specs::Valley::module_at))]
fn module_at(w: &World, s: u32) -> Module
    ensures { result ≡ module_at w.now s }
{
    at_number(&w.modules, s, no_module())
}

// The station of a number; where there is none, one that is not open.
#[tactic(auto, unfolding(crate::specs::Valley::station_at))]
fn station_at(w: &World, s: u32) -> Station
    ensures { result ≡ station_at w.now s }
{
    at_number(&w.stations, s, opening::none())
}

// Whether station s is open: one that is not is that of a refused opening, whose n is 0.
#[tactic(auto, unfolding(crate::specs::Valley::is_open))]
pub fn is_open(w: World, s: u32) -> bool
    ensures { result ≡ is_open w s }
{
    station_at(&w, s).identity.n != 0
}

// Whether bundle k is written.
#[tactic(auto, unfolding(crate::specs::Valley::is_written))]
pub fn is_written(w: World, k: u32) -> bool
    ensures { result ≡ is_written w k }
{
    (1..=w.written).contains(&(k as usize))
}

// What a call on a station t with a module m returned, with the words that were lent to it: a
// refusal leaves both as they were.
fn returned(
    t: Station,
    m: Module,
    found: Result<Answer, Refusal>,
    words: [u32; OUTPUT_WORDS],
) -> Call
    ensures { returned_by result ≡ answered_by t m words found }
{
    match found {
        Ok(a) => Call {
            number: a.outcome.number(),
            station: a.station,
            after: a.after,
            bundle: Bundle {
                count: a.count,
                words,
            },
        },
        Err(r) => Call {
            number: r.number(),
            station: t,
            after: m,
            bundle: Bundle { count: 0, words },
        },
    }
}

// Opens station s with proposal v on question 1. valley opens with jump off.
pub fn open_call(w: World, s: u32, v: u32) -> Call
    ensures { returned_by result ≡ opens w s v }
{
    let m = module_at(&w, s);
    let mut words = [0; OUTPUT_WORDS];
    let found = opening::open(m, 1, v, 0, &mut words);
    returned(opening::none(), m, found, words)
}

// Gives bundle k to station s with a coin; where there is none, no words.
#[tactic(auto, using(crate::proofs::Laws::Group::bundle_is))]
pub fn give_call(w: World, s: u32, k: u32, coin: u32) -> Call
    ensures { returned_by result ≡ gives w s k coin }
{
    let m = module_at(&w, s);
    let t = station_at(&w, s);
    let given = at_number(&w.bundles, k, empty());
    let count = given.count.min(OUTPUT_WORDS);
    let mut words = [0; OUTPUT_WORDS];
    let found = giving::give(m, t, &given.words[..count], coin, &mut words);
    returned(t, m, found, words)
}

// The group with the station and the module that a call on station s returned.
pub fn moved(w: World, s: u32, c: Call) -> World
    ensures { result ≡ Moved w s c.station c.after }
{
    let mut after = w;
    put_number(&mut after.modules, s, c.after);
    put_number(&mut after.stations, s, c.station);
    after
}

// The step that an event on station s prints.
#[tactic(auto, unfolding(crate::specs::Valley::shown_step, laws::specs::Pick::pick))]
pub fn shown_step(w: World, s: u32) -> Step
    ensures { result.0 ≡ shown_step w s }
{
    if is_open(w, s) {
        stages::step_in(station_at(&w, s).stage)
    } else {
        Step(0)
    }
}

// The decision that an event on station s prints.
#[tactic(auto, unfolding(crate::specs::Valley::shown_decision, laws::specs::Pick::pick))]
pub fn shown_decision(w: World, s: u32) -> u32
    ensures { result ≡ shown_decision w s }
{
    if is_open(w, s) {
        station_at(&w, s).lasting.decision
    } else {
        NONE
    }
}
