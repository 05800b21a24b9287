// Runs the script on standard input (docs/SCRIPT.md) and prints what its calls answer and change.
// The script and the expected lines come from the second implementation (second/).
#![tactic(auto)]

ghost use Rattle.std.specs.Prelude.{◌≡◌, ℕ, List, ◌+◌, ◌*◌, ◌<◌, ◌≤◌, length, slice_index, IfSome};
ghost use Rattle.hmac.specs.Code.{hmac_code};
ghost use Rattle.format.specs.Returns.{number_in};
ghost use Rattle.sealed.specs.Present.{coding_plain, coding_coin};
ghost use Rattle.station.specs.Answers.{returned_by};
ghost use Rattle.station_words.specs.Words.{station_words, read_by, reading, part};
ghost use Rattle.call_cases.specs.Registers.{all_words, check_of, key_of, made_by, Within, InRange, shown, seen, module_in, Counted, opened_by, given_words, given_by};

use format::{Refusal, Step};
use modules::{Last, Module};
use station::Station;
use station_words::STATION_WORDS;
use std::io;
use std::io::{BufRead, BufReader, Read, Write};

// All words stand in one array, as `all_words` and the definitions of specs/ have it. In front are the numbers of the line, then the words that a call
// may change as they were before it: those of a module, a station and a buffer.
const MOST_NUMBERS: usize = 79;

const SAVED_AT: usize = MOST_NUMBERS;

const SAVED_STATION_AT: usize = SAVED_AT + MODULE_WORDS;

const SAVED_BUFFER_AT: usize = SAVED_STATION_AT + STATION_WORDS;

// Behind them stand the registers: the modules, the stations, and the buffers, each with its length
// behind its words.
const MODULES: u32 = 32;

const MODULE_WORDS: usize = 13;

const MODULES_AT: usize = SAVED_BUFFER_AT + BUFFER_WORDS;

const STATIONS: u32 = 64;

const STATIONS_AT: usize = MODULES_AT + MODULES as usize * MODULE_WORDS;

const BUFFERS: u32 = 128;

const BUFFER_WORDS: usize = 400;

const BUFFERS_AT: usize = STATIONS_AT + STATIONS as usize * STATION_WORDS;

const ALL_WORDS: usize = BUFFERS_AT + BUFFERS as usize * (BUFFER_WORDS + 1);

type Registers = [u32; ALL_WORDS];

// The most bytes of a line, without its newline.
const LINE_BYTES: usize = 800;

// The commands that print nothing, and those that make a call.
#[derive(Clone, Copy)]
enum Setting {
    Adopt,
    Bring,
    Fill,
    Keep,
    Length,
    Raw,
    Station,
    Words,
    Zero,
}

#[derive(Clone, Copy)]
enum Call {
    Check,
    Give,
    Make,
    Open,
    Plain,
    Toss,
}

#[derive(Clone, Copy)]
enum Command {
    Set(Setting),
    Call(Call),
}

// What a setting copies.
#[derive(Clone, Copy)]
struct Copied {
    to: usize,
    from: usize,
    count: usize,
}

// Where the registers begin that a call names: what it takes, what it lends, and the buffer that is
// given. Register 0 stands where it names none: nothing of it changes.
#[derive(Clone, Copy)]
struct Named {
    module: usize,
    station: usize,
    lent: usize,
    given: usize,
}

// The returned number and the word count.
#[derive(Clone, Copy)]
struct Answer {
    number: u32,
    count: usize,
}

impl Answer {
    // Of a call that writes no bundle.
    fn of_test(tested: Result<(), Refusal>) -> Answer
        ensures { (result.number ≡ number_in tested) × (result.count ≡ 0) }
    {
        let number = match tested {
            Ok(()) => 0,
            Err(refusal) => refusal.number(),
        };
        Answer { number, count: 0 }
    }

    // Of a call on a station.
    fn of_call(called: Result<station::Answer, Refusal>) -> Answer
        ensures { (t : Station) (m : Module) (lent : List ℕ) → Counted (returned_by t m lent called) result.number result.count }
    {
        match called {
            Ok(a) => Answer {
                number: a.outcome.number(),
                count: a.count,
            },
            Err(refusal) => Answer {
                number: refusal.number(),
                count: 0,
            },
        }
    }
}

impl Command {
    // The command of a keyword.
    fn parse(keyword: &[u8]) -> Option<Command> {
        let command = match keyword {
            b"adopt" => Command::Set(Setting::Adopt),
            b"bring" => Command::Set(Setting::Bring),
            b"check" => Command::Call(Call::Check),
            b"fill" => Command::Set(Setting::Fill),
            b"give" => Command::Call(Call::Give),
            b"keep" => Command::Set(Setting::Keep),
            b"length" => Command::Set(Setting::Length),
            b"make" => Command::Call(Call::Make),
            b"open" => Command::Call(Call::Open),
            b"plain" => Command::Call(Call::Plain),
            b"raw" => Command::Set(Setting::Raw),
            b"station" => Command::Set(Setting::Station),
            b"toss" => Command::Call(Call::Toss),
            b"words" => Command::Set(Setting::Words),
            b"zero" => Command::Set(Setting::Zero),
            _ => return None,
        };
        Some(command)
    }
}

// The value of a hex digit in lower case.
fn digit(b: u8) -> Option<u32>
    ensures { IfSome result (λ d. d < 16) }
{
    match b {
        b'0'..=b'9' => Some(u32::from(b - b'0')),
        b'a'..=b'f' => Some(u32::from(b - b'a') + 10),
        _ => None,
    }
}

// The number that 1 to 8 hex digits spell.
fn number(word: &[u8]) -> Option<u32> {
    if word.is_empty() || 8 < word.len() {
        return None;
    }
    let mut value = 0u32;
    for b in word {
        value = value << 4 | digit(*b)?;
    }
    Some(value)
}

// Reads the numbers behind the keyword of a line, each behind one space, and answers how many there
// are.
fn read_numbers(text: &[u8], numbers: &mut [u32]) -> Option<usize>
    ensures { IfSome result (λ count. count ≤ length numbers.new) }
{
    let mut count = 0;
    for word in text.split(|b| *b == b' ').skip(1) {
        *numbers.get_mut(count)? = number(word)?;
        count += 1;
    }
    Some(count)
}

// Where the register of a number begins, if there is one: the first begins at `first`, and each has
// so many words.
fn place(first: usize, words: usize, registers: u32, number: u32) -> Option<usize>
    requires { first + registers * words ≤ all_words }
    ensures { IfSome result (λ at. at + words ≤ all_words) }
{
    if registers <= number {
        return None;
    }
    Some(first + number as usize * words)
}

fn module_place(m: u32) -> Option<usize>
    ensures { IfSome result (λ at. at + 13 ≤ all_words) }
{
    place(MODULES_AT, MODULE_WORDS, MODULES, m)
}

fn station_place(s: u32) -> Option<usize>
    ensures { IfSome result (λ at. at + station_words ≤ all_words) }
{
    place(STATIONS_AT, STATION_WORDS, STATIONS, s)
}

fn buffer_place(b: u32) -> Option<usize>
    ensures { IfSome result (λ at. at + 401 ≤ all_words) }
{
    place(BUFFERS_AT, BUFFER_WORDS + 1, BUFFERS, b)
}

// The numbers from the third on, put into a register of `size` words from index i on, none behind
// its last word.
fn placed(at: usize, size: usize, i: u32, count: usize) -> Option<Copied>
    requires { (at + size ≤ all_words) × (2 ≤ count) × (count ≤ 79) }
    ensures { IfSome result Within }
{
    let i = i as usize;
    let count = count - 2;
    if size < i + count {
        return None;
    }
    Some(Copied {
        to: at + i,
        from: 2,
        count,
    })
}

// What a setting copies, if it is one that copies and its numbers are fine.
fn copies(setting: Setting, numbers: &[u32]) -> Option<Copied>
    requires { length numbers.now ≤ 79 }
    ensures { IfSome result Within }
{
    let count = numbers.len();
    let (to, from, count) = match (setting, numbers) {
        (Setting::Adopt, &[m, n]) => (module_place(m)?, module_place(n)?, MODULE_WORDS),
        (Setting::Bring, &[b, c]) => (buffer_place(b)?, buffer_place(c)?, BUFFER_WORDS + 1),
        (Setting::Keep, &[s, t]) => (station_place(s)?, station_place(t)?, STATION_WORDS),
        (Setting::Raw, &[m, ..]) if count == 1 + MODULE_WORDS => (
            module_place(m)?,
            1,
            MODULE_WORDS,
        ),
        (Setting::Station, &[s, i, _, ..]) => {
            return placed(station_place(s)?, STATION_WORDS, i, count);
        }
        (Setting::Words, &[b, i, _, ..]) => return placed(buffer_place(b)?, BUFFER_WORDS, i, count),
        _ => return None,
    };
    Some(Copied { to, from, count })
}

// Sets the length of the buffer at a place.
fn set_length(registers: &mut Registers, at: usize, length: u32) -> Option<usize>
    requires { at + 401 ≤ all_words }
    ensures { IfSome result (λ l. l ≤ 400) }
{
    if 400 < length {
        return None;
    }
    registers[at + BUFFER_WORDS] = length;
    Some(length as usize)
}

// Carries out a setting, if its numbers are fine.
fn set(setting: Setting, count: usize, registers: &mut Registers) -> Option<()>
    requires { count ≤ 79 }
{
    match (setting, &registers[..count]) {
        (Setting::Fill, &[b, length, word]) => {
            let at = buffer_place(b)?;
            let end = at + set_length(registers, at, length)?;
            registers[at..end].fill(word);
        }
        (Setting::Length, &[b, length]) => {
            set_length(registers, buffer_place(b)?, length)?;
        }
        (Setting::Zero, &[s]) => {
            let at = station_place(s)?;
            registers[at..at + STATION_WORDS].fill(0);
        }
        // all others copy; numbers that fit none of the above are none that they take
        (_, numbers) => {
            let c = copies(setting, numbers)?;
            copy(registers, c);
        }
    }
    Some(())
}

// Copies words within the registers.
fn copy(registers: &mut Registers, c: Copied)
    requires { Within c }
{
    registers.copy_within(c.from..c.from + c.count, c.to);
}

// The key of the module at a place.
#[tactic(auto, using(crate::specs::Registers::part_lent), unfolding(crate::specs::Registers::key_of))]
fn key(registers: &Registers, at: usize) -> [u8; 32]
    requires { at + 13 ≤ all_words }
    ensures { result ≡ key_of registers.now at }
{
    let mut words = [0u32; 8];
    words.copy_from_slice(&registers[at..at + 8]);
    sha256::state_bytes(words)
}

// The module at a place.
#[tactic(auto, unfolding(crate::specs::Registers::module_in))]
fn module_at(registers: &Registers, at: usize) -> Module
    requires { at + 13 ≤ all_words }
    ensures { result ≡ module_in registers.now at }
{
    Module {
        key: key(registers, at),
        n: registers[at + 8],
        station: registers[at + 9],
        last: Last {
            coded: registers[at + 10] == 1,
            question: registers[at + 11],
            step: Step(u64::from(registers[at + 12])),
        },
    }
}

// Whether the words at a place are those of a module.
fn is_module(registers: &Registers, at: usize) -> bool
    requires { at + 13 ≤ all_words }
{
    matches!(
        (registers[at + 10], registers[at + 11], registers[at + 12]),
        (0, 0, 0) | (1, _, 0..=131071)
    )
}

// The 13 words of a module: the hash's reader of words takes the key in front of zeros, and a step
// is at most 131,071, so nothing is cut off.
fn module_words(module: Module) -> [u32; MODULE_WORDS] {
    let mut block = [0u8; 64];
    block[..32].copy_from_slice(&module.key);
    let key = sha256::block_words(block);
    let mut words = [0u32; MODULE_WORDS];
    words[..8].copy_from_slice(&key[..8]);
    words[8] = module.n;
    words[9] = module.station;
    words[10] = u32::from(module.last.coded);
    words[11] = module.last.question;
    words[12] = (module.last.step.0 & 0xffff_ffff) as u32;
    words
}

// Puts the words of a module.
fn put_module(registers: &mut Registers, at: usize, new: Module)
    requires { at + 13 ≤ all_words }
{
    registers[at..at + MODULE_WORDS].copy_from_slice(&module_words(new));
}

// The station at a place, if its words are one.
#[tactic(auto, using(crate::specs::Registers::part_lent))]
fn station_at(registers: &Registers, at: usize) -> Result<Station, Refusal>
    requires { at + station_words ≤ all_words }
    ensures { read_by result ≡ reading (part at station_words registers.now) }
{
    station_words::read(&registers[at..at + STATION_WORDS])
}

// Puts a station. Each one that a call returns can be written.
fn put_station(registers: &mut Registers, at: usize, new: Station)
    requires { at + station_words ≤ all_words }
{
    let _ = station_words::write(new, &mut registers[at..at + STATION_WORDS]);
}

// Puts the module and the station that a call returned, if it was not refused.
fn store(registers: &mut Registers, names: Named, called: Result<station::Answer, Refusal>)
    requires { InRange names }
{
    if let Ok(returned) = called {
        put_module(registers, names.module, returned.after);
        put_station(registers, names.station, returned.station);
    }
}

// How many words of the buffer at a place a call sees. Its length is never over 400.
fn length_at(registers: &Registers, at: usize) -> usize
    requires { at + 401 ≤ all_words }
    ensures { (result ≤ 400) × (result ≡ shown (slice_index registers.now (at + 400))) }
{
    BUFFER_WORDS.min(registers[at + BUFFER_WORDS] as usize)
}

// `check M B`: what the validity check answers.
#[tactic(auto, using(crate::specs::Registers::check_is))]
fn check(registers: &Registers, m: usize, b: usize) -> Result<(), Refusal>
    requires { (m + 13 ≤ all_words) × (b + 401 ≤ all_words) }
    ensures { number_in result ≡ check_of registers.now m b }
{
    let end = b + length_at(registers, b);
    certificate::check(key(registers, m), registers[m + 8], &registers[b..end])
}

// `make M K0 .. K7 N I`. Where no module is made, zeros are left.
#[tactic(auto, using(crate::specs::Registers::number_made), unfolding(crate::specs::Registers::made_by))]
fn make(registers: &mut Registers, m: usize) -> Result<(), Refusal>
    requires { m + 13 ≤ all_words }
    ensures { number_in result ≡ made_by registers.old }
{
    let made = modules::make(key(registers, 1), registers[9], registers[10]);
    registers[m..m + MODULE_WORDS].fill(0);
    put_module(registers, m, made?);
    Ok(())
}

// `plain M B`.
#[tactic(auto, using(crate::specs::Registers::plain_number))]
fn plain(registers: &mut Registers, m: usize, b: usize) -> Result<(), Refusal>
    requires { (m + 13 ≤ all_words) × (b + 401 ≤ all_words) }
    ensures { number_in result ≡ (coding_plain hmac_code (module_in registers.old m) (seen registers.old b)).number }
{
    let end = b + length_at(registers, b);
    let after = sealed::code_plain(module_at(registers, m), &mut registers[b..end])?;
    put_module(registers, m, after);
    Ok(())
}

// `toss M B C`.
#[tactic(auto, using(crate::specs::Registers::coin_number))]
fn toss(registers: &mut Registers, m: usize, b: usize, coin: u32) -> Result<(), Refusal>
    requires { (m + 13 ≤ all_words) × (b + 401 ≤ all_words) }
    ensures { number_in result ≡ (coding_coin hmac_code (module_in registers.old m) (seen registers.old b) coin).number }
{
    let end = b + length_at(registers, b);
    let after = sealed::code_coin(module_at(registers, m), &mut registers[b..end], coin)?;
    put_module(registers, m, after);
    Ok(())
}

// `open M S Q V J O`. Any number may stand for the jump setting: what it says is for the call to
// judge. Where no station is opened, the one that is none is left.
#[tactic(auto, using(crate::specs::Registers::opened_is))]
fn open(registers: &mut Registers, names: Named, question: u32, proposal: u32, jump: u32) -> Answer
    requires { InRange names }
    ensures { Counted (opened_by registers.old names question proposal jump) result.number result.count }
{
    let at = names.lent;
    let end = at + length_at(registers, at);
    let module = module_at(registers, names.module);
    let opened = opening::open(module, question, proposal, jump, &mut registers[at..end]);
    put_station(registers, names.station, opening::none());
    store(registers, names, opened);
    Answer::of_call(opened)
}

// Gives these words. A refusal leaves the module and the station.
#[tactic(auto, using(crate::specs::Registers::given_is))]
fn given(registers: &mut Registers, names: Named, words: &[u32], coin: u32) -> Answer
    requires { InRange names }
    ensures { Counted (given_words registers.old names words.now coin) result.number result.count }
{
    let at = names.lent;
    let end = at + length_at(registers, at);
    let module = module_at(registers, names.module);
    let station = station_at(registers, names.station).unwrap_or(opening::none());
    let given = giving::give(module, station, words, coin, &mut registers[at..end]);
    store(registers, names, given);
    Answer::of_call(given)
}

// `give M S B C O`. The words given are copied first, since they stand in the same array as those
// lent.
fn give(registers: &mut Registers, names: Named, coin: u32) -> Answer
    requires { InRange names }
    ensures { Counted (given_by registers.old names coin) result.number result.count }
{
    let from = names.given;
    let mut words = [0u32; BUFFER_WORDS];
    words.copy_from_slice(&registers[from..from + BUFFER_WORDS]);
    let count = length_at(registers, from);
    given(registers, names, &words[..count], coin)
}

// These registers, where all of them are there.
fn names(m: u32, s: u32, lent: u32, given: u32) -> Option<Named>
    ensures { IfSome result InRange }
{
    Some(Named {
        module: module_place(m)?,
        station: station_place(s)?,
        lent: buffer_place(lent)?,
        given: buffer_place(given)?,
    })
}

// The registers that a call names, where it has as many numbers as it takes.
fn registers_of(call: Call, numbers: &[u32]) -> Option<Named>
    ensures { IfSome result InRange }
{
    match (call, numbers) {
        (Call::Check | Call::Plain, &[m, b]) => names(m, 0, b, 0),
        (Call::Toss, &[m, b, _]) => names(m, 0, b, 0),
        (Call::Give, &[m, s, b, _, o]) if b != o => names(m, s, o, b),
        (Call::Open, &[m, s, _, _, _, o]) => names(m, s, o, 0),
        (Call::Make, &[m, ..]) if numbers.len() == 11 => names(m, 0, 0, 0),
        _ => None,
    }
}

// Whether the module and the station that a call takes can be made of their words.
fn takes(call: Call, registers: &Registers, names: Named) -> bool
    requires { InRange names }
{
    match call {
        Call::Check | Call::Make => true,
        Call::Open | Call::Plain | Call::Toss => is_module(registers, names.module),
        Call::Give => {
            is_module(registers, names.module) && station_at(registers, names.station).is_ok()
        }
    }
}

// Makes a call.
fn answered(call: Call, registers: &mut Registers, names: Named) -> Answer
    requires { InRange names }
{
    let m = names.module;
    let b = names.lent;
    let (second, third, fourth) = (registers[2], registers[3], registers[4]);
    let tested = match call {
        Call::Check => check(registers, m, b),
        Call::Give => return give(registers, names, third),
        Call::Make => make(registers, m),
        Call::Open => return open(registers, names, second, third, fourth),
        Call::Plain => plain(registers, m, b),
        Call::Toss => toss(registers, m, b, second),
    };
    Answer::of_test(tested)
}

// Saves the words that a call may change.
fn save(registers: &mut Registers, names: Named)
    requires { InRange names }
{
    registers.copy_within(names.module..names.module + MODULE_WORDS, SAVED_AT);
    registers.copy_within(
        names.station..names.station + STATION_WORDS,
        SAVED_STATION_AT,
    );
    registers.copy_within(names.lent..names.lent + BUFFER_WORDS, SAVED_BUFFER_AT);
}

// Puts a mark, and a number in hex after it. A line may have a thousand of them, and the library's
// `{:x}` takes four times as long.
fn put_hex(out: &mut Vec<u8>, mark: u8, number: u32) -> io::Result<()> {
    out.push(mark)?;
    let others = 7 - ((number | 1).leading_zeros() / 4).min(7);
    for i in (0..=others).rev() {
        out.push(b"0123456789abcdef"[(number >> (4 * i)) as usize % 16])?;
    }
    Ok(())
}

// Puts a letter and, of the words that it stands for, the runs of those that differ, or `=`. None
// has as many as 2^16.
fn put_changes(out: &mut Vec<u8>, letter: u8, old: &[u32], new: &[u32]) -> io::Result<()> {
    out.push(b' ')?;
    out.push(letter)?;
    if old == new {
        out.push(b' ')?;
        return Ok(out.push(b'=')?);
    }
    let mut same = true;
    for (i, (was, is)) in old.iter().zip(new).enumerate() {
        if same && was != is {
            out.push(b' ')?;
            put_hex(out, b'@', (i & 0xffff) as u32)?;
        }
        same = was == is;
        if !same {
            put_hex(out, b' ', *is)?;
        }
    }
    Ok(())
}

// Puts the line of a call.
fn show(out: &mut Vec<u8>, answer: Answer, registers: &Registers, names: Named) -> io::Result<()>
    requires { InRange names }
{
    let module = &registers[names.module..names.module + MODULE_WORDS];
    let station = &registers[names.station..names.station + STATION_WORDS];
    let lent = &registers[names.lent..names.lent + BUFFER_WORDS];
    write!(out, "{:x} {:x}", answer.number, answer.count)?;
    put_changes(out, b'm', &registers[SAVED_AT..SAVED_STATION_AT], module)?;
    put_changes(
        out,
        b's',
        &registers[SAVED_STATION_AT..SAVED_BUFFER_AT],
        station,
    )?;
    put_changes(out, b'w', &registers[SAVED_BUFFER_AT..MODULES_AT], lent)?;
    Ok(out.push(b'\n')?)
}

// A call, if the line is one: makes it and puts its line.
fn make_call(
    out: &mut Vec<u8>,
    call: Call,
    count: usize,
    registers: &mut Registers,
) -> io::Result<bool>
    requires { count ≤ 79 }
{
    let Some(names) = registers_of(call, &registers[..count]) else {
        return Ok(false);
    };
    if !takes(call, registers, names) {
        return Ok(false);
    }
    save(registers, names);
    let answer = answered(call, registers, names);
    show(out, answer, registers, names)?;
    Ok(true)
}

// Carries out a line that is no comment, and answers whether it can be. Apart from `run`, so that a
// comment does not pay for its room.
#[inline(never)]
fn carry_out(out: &mut Vec<u8>, text: &[u8], registers: &mut Registers) -> io::Result<bool> {
    let keyword = text.split(|b| *b == b' ').next().unwrap_or(text);
    let Some(command) = Command::parse(keyword) else {
        return Ok(false);
    };
    let Some(count) = read_numbers(text, &mut registers[..MOST_NUMBERS]) else {
        return Ok(false);
    };
    match command {
        Command::Set(setting) => Ok(set(setting, count, registers).is_some()),
        Command::Call(call) => make_call(out, call, count, registers),
    }
}

// Reads and carries out one line, without its newline, and answers whether it can be.
fn run(out: &mut Vec<u8>, text: &[u8], registers: &mut Registers) -> io::Result<bool> {
    if let [b'#', ..] = text {
        return Ok(true);
    }
    carry_out(out, text, registers)
}

// Carries out the next line, if there is one, and answers whether it can be: not one that is too
// long, has no newline, or is not as docs/SCRIPT.md says. A line that was read whole is taken where it
// stands; one that was not is put together first.
fn next_line(
    out: &mut Vec<u8>,
    input: &mut impl BufRead,
    line: &mut Vec<u8>,
    registers: &mut Registers,
) -> io::Result<Option<bool>> {
    let ahead = input.fill_buf()?;
    if ahead.is_empty() {
        return Ok(None);
    }
    let most = ahead.len().min(LINE_BYTES + 1);
    if let Some(end) = ahead[..most].iter().position(|b| *b == b'\n') {
        let fine = run(out, &ahead[..end], registers)?;
        input.consume(end + 1);
        return Ok(Some(fine));
    }
    line.clear();
    input
        .by_ref()
        .take(LINE_BYTES as u64 + 1)
        .read_until(b'\n', line)?;
    match line.as_slice() {
        [text @ .., b'\n'] => Ok(Some(run(out, text, registers)?)),
        _ => Ok(Some(false)),
    }
}

// Runs the script up to its end, or up to a line that can't be carried out. What a line prints is
// written in one piece before the next line is looked at: who made the call may wait for it. A proved loop
// has to end, and nothing says that a script does. So the loop counts its turns, up to a number that
// no run uses up.
fn main(rt: HostRuntime) -> io::Result<()> {
    let alloc = rt.alloc();
    let mut input = BufReader::new(alloc, rt.stdin())?;
    let mut registers = [0u32; ALL_WORDS];
    let mut line = Vec::new(alloc);
    let mut out = Vec::new(alloc);
    for number in 1..u64::MAX {
        let fine = next_line(&mut out, &mut input, &mut line, &mut registers)?;
        if let Some(false) = fine {
            writeln!(out, "stop {number:x}")?;
        }
        if !out.is_empty() {
            rt.write_all(out.as_slice())?;
            out.clear();
        }
        if fine != Some(true) {
            break;
        }
    }
    Ok(())
}
