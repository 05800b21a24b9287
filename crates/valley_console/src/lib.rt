// The run of the program valley (document 01, "The program valley"): its input comes in pieces of
// any size. The contracts cite specs/.
#![tactic(auto)]

ghost use Rattle.std.specs.Prelude.{◌≡◌, take};
ghost use Rattle.valley_lines.specs.Read.{read_line};
ghost use Rattle.valley_world.specs.Valley.{missing as Missing};
ghost use Rattle.valley_events.specs.Turns.{Printed, Turned};
ghost use Rattle.valley_console.specs.Pieces.{prints, started, line_turn, line_done, taking, finishing};
ghost use Rattle.valley_console.specs.Took.{Took, with_line};
ghost use Rattle.valley_console.specs.Scans.{scanned};

use valley_events::Done;
use valley_lines::Line;
use valley_world::{Phase, World};

// The run between two pieces of input: the number of the line that is being read, and the bytes of
// it that are there, in fixed memory. No line of more than 22 bytes can be read, so that of a longer
// one the first 23 tell enough.
#[derive(Clone, Copy)]
pub struct Run {
    pub phase: Phase,
    pub number: u64,
    pub held: usize,
    pub line: [u8; 23],
    pub world: World,
}

// What taking a piece answers: how many of its bytes were taken, how many bytes were printed, and
// the run. The printed bytes are lent.
#[derive(Clone, Copy)]
pub struct Taken {
    pub used: usize,
    pub count: usize,
    pub run: Run,
}

// What is found in a piece of input: how many of its bytes are taken, whether a newline ended the
// line, and the line so far, which is there either way (`scanned`).
#[derive(Clone, Copy)]
struct Scanned {
    used: usize,
    ended: bool,
    held: usize,
    line: [u8; 23],
}

// What the kept bytes of a line say.
#[tactic(auto, using(valley_world::proofs::Laws::Group::part_is))]
fn said(line: [u8; 23], held: usize) -> Option<Line>
    ensures { result ≡ read_line (take held line) }
{
    valley_lines::read_line(&line[..held.min(23)])
}

// What the line does that is there.
#[tactic(auto, unfolding(crate::specs::Pieces::line_turn))]
fn line_turn(run: Run, out: &mut [u8; 64]) -> Done
    ensures { Turned (line_turn run) result.phase result.world result.count out.old out.new }
{
    let says = said(run.line, run.held);
    valley_events::turn(run.phase, run.world, run.number, says, out)
}

// The line that is there is done, by the last of the bytes taken or by the end of the input. Lines
// are counted in 64 bits.
#[tactic(auto, unfolding(crate::specs::Pieces::line_done))]
fn end_line(run: Run, used: usize, out: &mut [u8; 64]) -> Taken
    ensures { Took (prints used (line_turn run).printed (line_done run) out.old) result.used result.count result.run out.new }
{
    let d = line_turn(run, out);
    Taken {
        used,
        count: d.count,
        run: Run {
            phase: d.phase,
            number: run.number.wrapping_add(1),
            held: 0,
            world: d.world,
            ..run
        },
    }
}

// The bytes of a piece up to its first newline are added to the line; of a line no more than 23 are
// kept.
fn scan(line: [u8; 23], held: usize, piece: &[u8]) -> Scanned
    ensures { result ≡ scanned held line piece.now }
{
    let mut kept = line;
    let mut many = held;
    for (i, b) in piece.iter().enumerate() {
        if *b == b'\n' {
            return Scanned {
                used: i + 1,
                ended: true,
                held: many,
                line: kept,
            };
        }
        if many < 23 {
            kept[many] = *b;
            many += 1;
        }
    }
    Scanned {
        used: piece.len(),
        ended: false,
        held: many,
        line: kept,
    }
}

// The run with another line.
fn with_line(run: Run, held: usize, line: [u8; 23]) -> Run
    ensures { result ≡ with_line run held line }
{
    Run { held, line, ..run }
}

// The end of the input is told where the first line is missing.
#[tactic(auto, unfolding(valley_world::specs::Valley::missing))]
fn missing(phase: Phase, number: u64, out: &mut [u8; 64]) -> usize
    ensures { Printed (Missing phase number) result out.old out.new }
{
    match phase {
        Phase::First => valley_printing::bad_line(number, out),
        Phase::Running | Phase::Ended => 0,
    }
}

// The run before the first byte.
#[tactic(auto, unfolding(crate::specs::Pieces::started))]
pub fn start() -> Run
    ensures { result ≡ started }
{
    Run {
        phase: Phase::First,
        number: 1,
        held: 0,
        line: [0; 23],
        world: valley_world::group_of(0),
    }
}

// Takes the bytes of a piece up to its first newline, or all of them where it has none.
#[tactic(auto, using(crate::proofs::Laws::Ends::piece_ends_line, crate::proofs::Laws::Ends::piece_taken, crate::proofs::Laws::Ends::taken))]
pub fn feed(run: Run, piece: &[u8], out: &mut [u8; 64]) -> Taken
    ensures { (result.used ≡ (taking run piece.now out.old).used)
        × (result.count ≡ (taking run piece.now out.old).count)
        × (result.run ≡ (taking run piece.now out.old).run)
        × (out.new ≡ (taking run piece.now out.old).lent) }
{
    let s = scan(run.line, run.held, piece);
    let next = with_line(run, s.held, s.line);
    if s.ended {
        return end_line(next, s.used, out);
    }
    Taken {
        used: s.used,
        count: 0,
        run: next,
    }
}

// The end of the input: a line with no newline behind it is done.
#[tactic(auto, unfolding(crate::specs::Pieces::finishing, laws::specs::Pick::pick))]
pub fn finish(run: Run, out: &mut [u8; 64]) -> Taken
    ensures { (result.used ≡ (finishing run out.old).used)
        × (result.count ≡ (finishing run out.old).count)
        × (result.run ≡ (finishing run out.old).run)
        × (out.new ≡ (finishing run out.old).lent) }
{
    if 0 < run.held {
        return end_line(run, 0, out);
    }
    Taken {
        used: 0,
        count: missing(run.phase, run.number, out),
        run,
    }
}
