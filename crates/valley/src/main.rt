// The console program valley (document 01, "The program valley"): it reads standard input in
// pieces, feeds them to the run, and writes what the run prints. What is printed for an input is
// the definition `valley` of valley_world, however the input is cut (`every_cutting` of
// valley_console).
#![tactic(auto)]

use std::io;
use std::io::{Read, Stdin};
use valley_console::Run;
use valley_world::Phase;

// Whether a bad line has ended the run.
fn has_ended(run: Run) -> bool {
    matches!(run.phase, Phase::Ended)
}

// Feeds a whole piece, as far as the run goes. A `while`, since each call takes the piece up to its
// first newline, and a bad line ends the run.
fn take_piece(rt: &impl Print, run: Run, piece: &[u8]) -> io::Result<Run> {
    let mut run = run;
    let mut rest = piece;
    while !rest.is_empty() && !has_ended(run) {
        let mut out = [0; 64];
        let t = valley_console::feed(run, rest, &mut out);
        rt.write_all(&out[..t.count])?;
        rest = &rest[t.used..];
        run = t.run;
    }
    Ok(run)
}

// The end of the input.
fn end(rt: &impl Print, run: Run) -> io::Result<()> {
    let mut out = [0; 64];
    let t = valley_console::finish(run, &mut out);
    rt.write_all(&out[..t.count])
}

// Reads once, and feeds what came: the run, or none where it is over, since the input has ended or
// a bad line ended it.
fn more(rt: &impl Print, input: &mut Stdin, run: Run) -> io::Result<Option<Run>> {
    let mut space = [0; 65536];
    let n = input.read(&mut space)?;
    if n == 0 {
        end(rt, run)?;
        return Ok(None);
    }
    let next = take_piece(rt, run, &space[..n])?;
    if has_ended(next) {
        return Ok(None);
    }
    Ok(Some(next))
}

// Reads until the run is over. A proved loop has to end, and nothing says that an input does: so
// the loop counts its turns, up to 2^64 - 1, which no run uses up.
fn main(rt: HostRuntime) -> io::Result<()> {
    let mut input = rt.stdin();
    let mut run = valley_console::start();
    for _ in 0..u64::MAX {
        let Some(next) = more(&rt, &mut input, run)? else {
            return Ok(());
        };
        run = next;
    }
    Ok(())
}
