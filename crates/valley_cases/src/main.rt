// Feeds the run of valley (valley_console) with the inputs on standard input, each cut into
// pieces of a given size, and prints what it prints (docs/SCRIPT.md, "Valley"). The inputs and the
// expected lines come from the second implementation (second/).
#![tactic(auto)]

ghost use Rattle.std.specs.Prelude.{◌<◌, ◌≤◌, IfSome};

use std::io;
use std::io::{BufRead, BufReader, Read};
use valley_console::Run;
use valley_world::Phase;

// The most bytes of a case's line: `case`, four numbers of six digits, and the spaces and the
// newline.
const LINE_BYTES: u64 = 33;

// The most bytes of a head, and of a body.
const TEXT_BYTES: usize = 4000;

// A case: the lengths of its head and its body, how often the body comes, and the size of the
// pieces.
#[derive(Clone, Copy)]
struct Case {
    head: usize,
    body: usize,
    times: usize,
    piece: usize,
}

// A number with one digit more, if the byte is one. Numbers are below a million.
fn with_digit(value: usize, byte: u8) -> Option<usize> {
    if 100000 <= value || !byte.is_ascii_digit() {
        return None;
    }
    Some(10 * value + usize::from(byte - b'0'))
}

// The number that a word spells, of one to six digits.
fn number(word: &[u8]) -> Option<usize> {
    if word.is_empty() || 6 < word.len() {
        return None;
    }
    word.iter().try_fold(0, |value, b| with_digit(value, *b))
}

impl Case {
    // The case of a line: `case` and four numbers, and the newline.
    fn parse(line: &[u8]) -> Option<Case>
        ensures { IfSome result (λ c. (c.head ≤ 4000) × (c.body ≤ 4000) × (0 < c.piece)) }
    {
        let [text @ .., b'\n'] = line else {
            return None;
        };
        let mut words = text.split(|b| *b == b' ');
        if words.next()? != b"case".as_slice() {
            return None;
        }
        let case = Case {
            head: number(words.next()?)?,
            body: number(words.next()?)?,
            times: number(words.next()?)?,
            piece: number(words.next()?)?,
        };
        let fits = case.head <= TEXT_BYTES && case.body <= TEXT_BYTES && 0 < case.piece;
        if !fits || words.next().is_some() {
            return None;
        }
        Some(case)
    }
}

// Feeds a whole piece. A run that a bad line has ended is fed on: it prints nothing more. A
// `while`, since each call takes the piece up to its first newline.
fn take_piece(rt: &impl Print, run: Run, piece: &[u8]) -> io::Result<Run> {
    let mut run = run;
    let mut rest = piece;
    while !rest.is_empty() {
        let mut out = [0; 64];
        let t = valley_console::feed(run, rest, &mut out);
        rt.write_all(&out[..t.count])?;
        rest = &rest[t.used..];
        run = t.run;
    }
    Ok(run)
}

// Feeds a text in pieces of a size.
fn cut(rt: &impl Print, run: Run, text: &[u8], size: usize) -> io::Result<Run>
    requires { 0 < size }
{
    let mut run = run;
    for piece in text.chunks(size) {
        run = take_piece(rt, run, piece)?;
    }
    Ok(run)
}

// Feeds the copies of a body. Where a bad line has ended the run, those that are left would print
// nothing.
fn repeat(rt: &impl Print, run: Run, body: &[u8], times: usize, size: usize) -> io::Result<Run>
    requires { 0 < size }
{
    let mut run = run;
    for _ in 0..times {
        if matches!(run.phase, Phase::Ended) {
            return Ok(run);
        }
        run = cut(rt, run, body, size)?;
    }
    Ok(run)
}

// The end of an input.
fn finish(rt: &impl Print, run: Run) -> io::Result<()> {
    let mut out = [0; 64];
    let t = valley_console::finish(run, &mut out);
    rt.write_all(&out[..t.count])
}

// Runs a case between its lines `case` and `end`, if its head, its body and the newline behind them
// are there.
fn play(rt: &impl Print, case: Case, texts: &[u8]) -> io::Result<bool>
    requires { (case.head ≤ 4000) × (case.body ≤ 4000) × (0 < case.piece) }
{
    let [texts @ .., b'\n'] = texts else {
        return Ok(false);
    };
    if texts.len() != case.head + case.body {
        return Ok(false);
    }
    let (head, body) = texts.split_at(case.head);
    rt.write_all(b"case\n")?;
    let run = cut(rt, valley_console::start(), head, case.piece)?;
    finish(rt, repeat(rt, run, body, case.times, case.piece)?)?;
    rt.write_all(b"end\n")?;
    Ok(true)
}

// Whether a line that begins so may be a case's: it begins as `case` and a space do, no two spaces
// meet, no more than three come after the first, and the last word has no more than six bytes.
fn may_go_on(line: &[u8]) -> bool {
    let [b'c', b'a', b's', b'e', b' ', numbers @ ..] = line else {
        return b"case ".starts_with(line);
    };
    let last = numbers
        .iter()
        .rev()
        .position(|b| *b == b' ')
        .unwrap_or(numbers.len());
    let spaces = numbers.iter().filter(|b| **b == b' ').count();
    last < 7 && spaces < 4 && !line.ends_with(b"  ")
}

// Reads a case's line, and of another no more than shows that it is none: who wrote it may wait.
fn read_line(input: &mut impl BufRead, line: &mut Vec<u8>) -> io::Result<()> {
    line.clear();
    for _ in 0..LINE_BYTES {
        let count = input.by_ref().take(1).read_until(b'\n', line)?;
        if count == 0 || line.ends_with(b"\n") || !may_go_on(line) {
            break;
        }
    }
    Ok(())
}

// Runs the cases up to the end of the input, or up to one that is not as docs/SCRIPT.md says. A
// proved loop has to end, and nothing says that an input does: so the loop counts its turns, up to
// 2^64 - 1, which no run uses up.
fn main(rt: HostRuntime) -> io::Result<()> {
    let alloc = rt.alloc();
    let mut input = BufReader::new(alloc, rt.stdin())?;
    let mut line = Vec::new(alloc);
    let mut texts = Vec::new(alloc);
    for _ in 0..u64::MAX {
        read_line(&mut input, &mut line)?;
        if line.is_empty() {
            return Ok(());
        }
        let Some(case) = Case::parse(&line) else {
            return rt.write_all(b"stop\n");
        };
        texts.clear();
        input
            .by_ref()
            .take((case.head + case.body + 1) as u64)
            .read_to_end(&mut texts)?;
        if !play(&rt, case, &texts)? {
            return rt.write_all(b"stop\n");
        }
    }
    Ok(())
}
