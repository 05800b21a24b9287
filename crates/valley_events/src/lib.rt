// What a line of the program valley's input does: its events (document 01, "The program valley").
// The contracts cite specs/ and valley_world/specs/Valley.antt.
#![tactic(auto)]

ghost use Rattle.std.specs.Prelude.{◌≡◌, ◌-◌, ◌<◌, Some};
ghost use Rattle.valley_lines.specs.declared.Line.TheVariants.{Group, Open, Give};
ghost use Rattle.valley_world.specs.Valley.{most_bundles, after as After, bad as Bad, told as Told, event as Event, first_turn, later_turn, turn as Turn};
ghost use Rattle.valley_world.specs.Group.{returned_by};
ghost use Rattle.valley_events.specs.Turns.{Turned, with_bundle};

use valley_lines::Line;
use valley_world::{Bundle, Call, Phase, World};

// What a line did: how the run goes on, and how many bytes it printed. The printed bytes are lent.
#[derive(Clone, Copy)]
pub struct Done {
    pub phase: Phase,
    pub world: World,
    pub count: usize,
}

// The group with one more bundle.
fn with_bundle(w: World, bundle: Bundle) -> World
    requires { w.written < most_bundles }
    ensures { result ≡ with_bundle w bundle.count bundle.words }
{
    let mut after = w;
    after.bundles[w.written] = bundle;
    after.written += 1;
    after
}

// A bad line is told, and ends the run.
#[tactic(auto, unfolding(valley_world::specs::Valley::bad))]
fn bad(w: World, number: u64, out: &mut [u8; 64]) -> Done
    ensures { Turned (Bad w number) result.phase result.world result.count out.old out.new }
{
    Done {
        phase: Phase::Ended,
        world: w,
        count: valley_printing::bad_line(number, out),
    }
}

// An event on station s is told, after which the group is w. Events count from the second line on.
#[tactic(auto, unfolding(valley_world::specs::Valley::told))]
fn told(w: World, number: u64, s: u32, returned: u32, out: &mut [u8; 64]) -> Done
    ensures { Turned (Told w number s returned) result.phase result.world result.count out.old out.new }
{
    let event = number.saturating_sub(1);
    let step = valley_world::shown_step(w, s);
    let decision = valley_world::shown_decision(w, s);
    Done {
        phase: Phase::Running,
        world: w,
        count: valley_printing::event_line(event, returned, step, decision, out),
    }
}

// The event of a call that is not a refused opening: a bundle that it wrote is kept behind those
// before, unless 40 are there.
#[tactic(auto, using(crate::proofs::Laws::Turns::full_event))]
fn event(w: World, number: u64, s: u32, c: Call, out: &mut [u8; 64]) -> Done
    ensures { Turned (Event w number s (returned_by c) (After w s (returned_by c))) result.phase result.world result.count out.old out.new }
{
    let u = valley_world::moved(w, s, c);
    if c.bundle.count == 0 {
        return told(u, number, s, c.number, out);
    }
    if 40 <= w.written {
        return bad(w, number, out);
    }
    told(with_bundle(u, c.bundle), number, s, c.number, out)
}

// `open s v`: a refused opening leaves the group as it was.
#[tactic(auto, unfolding(valley_world::specs::Valley::later_turn), using(crate::proofs::Laws::Turns::done_opening))]
fn open_event(w: World, number: u64, s: u32, v: u32, out: &mut [u8; 64]) -> Done
    ensures { Turned (later_turn w number (Some (Open s v))) result.phase result.world result.count out.old out.new }
{
    let c = valley_world::open_call(w, s, v);
    if 0 < c.bundle.count {
        return event(w, number, s, c, out);
    }
    told(w, number, s, c.number, out)
}

// `give s k c`: what it names is looked at before the coin.
#[tactic(auto, using(crate::proofs::Laws::Turns::not_named, crate::proofs::Laws::Turns::named))]
fn give_event(w: World, number: u64, s: u32, k: u32, coin: u32, out: &mut [u8; 64]) -> Done
    ensures { Turned (later_turn w number (Some (Give s k coin))) result.phase result.world result.count out.old out.new }
{
    if !(valley_world::is_open(w, s) & valley_world::is_written(w, k)) {
        return bad(w, number, out);
    }
    let c = valley_world::give_call(w, s, k, coin);
    event(w, number, s, c, out)
}

// `n` and a number, as the first line.
fn group_line(w: World, number: u64, n: u32, out: &mut [u8; 64]) -> Done
    ensures { Turned (first_turn w number (Some (Group n))) result.phase result.world result.count out.old out.new }
{
    if !(2..=7).contains(&n) {
        return bad(w, number, out);
    }
    Done {
        phase: Phase::Running,
        world: valley_world::group_of(n),
        count: 0,
    }
}

// The first line names the group.
#[tactic(auto, using(crate::proofs::Laws::Turns::no_group))]
fn first_turn(w: World, number: u64, line: Option<Line>, out: &mut [u8; 64]) -> Done
    ensures { Turned (first_turn w number line) result.phase result.world result.count out.old out.new }
{
    match line {
        Some(Line::Group(n)) => group_line(w, number, n, out),
        _ => bad(w, number, out),
    }
}

// Each later line is an event.
#[tactic(auto, using(crate::proofs::Laws::Turns::no_event))]
fn later_turn(w: World, number: u64, line: Option<Line>, out: &mut [u8; 64]) -> Done
    ensures { Turned (later_turn w number line) result.phase result.world result.count out.old out.new }
{
    match line {
        Some(Line::Open(s, v)) => open_event(w, number, s, v, out),
        Some(Line::Give(s, k, coin)) => give_event(w, number, s, k, coin, out),
        _ => bad(w, number, out),
    }
}

// What a line does; a run that has ended prints nothing more.
#[tactic(auto, unfolding(valley_world::specs::Valley::turn), using(crate::proofs::Laws::Turns::nothing))]
pub fn turn(phase: Phase, w: World, number: u64, line: Option<Line>, out: &mut [u8; 64]) -> Done
    ensures { Turned (Turn phase w number line) result.phase result.world result.count out.old out.new }
{
    match phase {
        Phase::First => first_turn(w, number, line, out),
        Phase::Running => later_turn(w, number, line, out),
        Phase::Ended => Done {
            phase,
            world: w,
            count: 0,
        },
    }
}
