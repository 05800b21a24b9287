// A small host: what a relay site's program does around the library (README, "How a host uses the library"). A real host runs one site and hears the
// others by radio. This one runs three in one program. They vote on question 1: sites 1 and 2 propose yes (1), site 3 no (0). Five times each site sends its
// last bundle to the two others, in six packets: 1 to 2, 1 to 3, 2 to 1, 2 to 3, 3 to 1, 3 to 2. The first two times the four packets to and from site 3 are
// lost, so that it falls behind. What is answered 7 is of an old step, and its sender is behind: it is given the hearer's own bundle of that step. Every
// coin is 0 here. They vote with n 3, and once more with n 1, which is set up wrongly: then nothing may be decided.
//
// Printed are n; for each site what making its module and opening its station returned; each time,
// packet by packet, a dash where it is lost, else what giving the bundle returned, and at 7, behind
// the word back, what giving the sender the other one returned; and for each site what reading its
// station returned, and its decision on question 1, if it has one. A site that was refused its
// module or its station prints that refusal in place of each of these.
#![tactic(auto)]

ghost use Rattle.std.specs.Prelude.{◌<◌};

use format::{OUTPUT_WORDS, Outcome, Refusal};
use modules::Module;
use station::{Answer, Station};
use std::io;

// The steps whose bundles a site keeps. A real host keeps all of the question; here nobody gets so far.
const STEPS: usize = 16;

const SITES: usize = 3;

// A bundle in fixed memory: a site's program has no heap.
#[derive(Clone, Copy)]
struct Bundle {
    words: [u32; OUTPUT_WORDS],
    count: usize,
}

// What a site takes part with: module and station as the last call returned them that was not
// refused.
#[derive(Clone, Copy)]
struct Seat {
    own: Module,
    station: Station,
}

impl Seat {
    fn of(answer: Answer) -> Seat {
        Seat {
            own: answer.after,
            station: answer.station,
        }
    }
}

// What a host keeps of its site: its number; its seat, or the refusal for which it has none; its
// own bundles by step, and the last one.
#[derive(Clone, Copy)]
struct Site {
    number: u32,
    seat: Result<Seat, Refusal>,
    bundles: [Bundle; STEPS],
    last: Bundle,
}

// Which packets of an exchange are lost: a row for each sender, in it a mark for each hearer, `x` where the packet is lost. None sends to itself.
type Losses = [[u8; SITES]; SITES];

// The step of a bundle, which its second word tells.
fn step_of(bundle: &Bundle) -> usize
    ensures { result < 16 }
{
    let step = format::step_of(format::read_fields(bundle.words[1]));
    (step.0 % STEPS as u64) as usize
}

// The number of what a call answered.
fn number_of(answer: Result<Outcome, Refusal>) -> u32 {
    match answer {
        Ok(outcome) => outcome.number(),
        Err(refusal) => refusal.number(),
    }
}

// Makes the site's module and opens a station on question 1, with jump off. Where one of the two is
// refused the site has no seat and no bundle to send. (A real host keeps a module where an opening
// alone is refused.)
fn start(rt: &impl Print, n: u32, number: u32, proposal: u32) -> io::Result<Site> {
    let made = modules::make([7; 32], n, number);
    let mut words = [0; OUTPUT_WORDS];
    let opened = made.and_then(|own| opening::open(own, 1, proposal, 0, &mut words));
    print!(rt;
        "\nsite {number}: made {}, opened {}",
        made.err().map_or(0, Refusal::number),
        number_of(opened.map(|answer| answer.outcome))
    )?;
    let last = Bundle {
        words,
        count: opened.map_or(0, |answer| answer.count),
    };
    Ok(Site {
        number,
        seat: opened.map(Seat::of),
        bundles: [last; STEPS],
        last,
    })
}

// Gives the site a bundle. At a refusal nothing changed, and the site goes on with what it has.
// Else module and station that come back are kept, always; and where the outcome is that a bundle
// was written, it is kept too and sent from now on (a real host stores the module durably before it
// sends).
fn hear(site: &mut Site, bundle: &Bundle) -> Result<Outcome, Refusal> {
    let seat = site.seat?;
    let mut words = [0; OUTPUT_WORDS];
    let sent = &bundle.words[..bundle.count.min(OUTPUT_WORDS)];
    let given = giving::give(seat.own, seat.station, sent, 0, &mut words)?;
    site.seat = Ok(Seat::of(given));
    if let Outcome::Sent | Outcome::SentDecided = given.outcome {
        let last = Bundle {
            words,
            count: given.count,
        };
        site.bundles[step_of(&last)] = last;
        site.last = last;
    }
    Ok(given.outcome)
}

// A packet from one site to another with its last bundle, and the answer to one of an old step.
fn send(rt: &impl Print, sites: &mut [Site; SITES], from: usize, to: usize) -> io::Result<()>
    requires sender { from < 3 }
    requires hearer { to < 3 }
{
    let bundle = sites[from].last;
    let answer = hear(&mut sites[to], &bundle);
    print!(rt; " {}", number_of(answer))?;
    if let Err(Refusal::TooLate) = answer {
        let old = sites[to].bundles[step_of(&bundle)];
        print!(rt; " back {}", number_of(hear(&mut sites[from], &old)))?;
    }
    Ok(())
}

// A site sends its last bundle to the others.
fn send_round(
    rt: &impl Print,
    sites: &mut [Site; SITES],
    from: usize,
    lost: &[u8; SITES],
) -> io::Result<()>
    requires { from < 3 }
{
    for (to, mark) in lost.iter().enumerate() {
        if *mark == b'x' {
            print!(rt; " -")?;
        } else if to != from {
            send(rt, sites, from, to)?;
        }
    }
    Ok(())
}

// Each site sends its last bundle to the two others.
fn exchange(rt: &impl Print, sites: &mut [Site; SITES], lost: &Losses) -> io::Result<()> {
    print!(rt; "\ngiven")?;
    for (from, row) in lost.iter().enumerate() {
        send_round(rt, sites, from, row)?;
    }
    Ok(())
}

// The site's decision on question 1, if it has one.
fn decision(site: &Site) -> Result<Option<u32>, Refusal> {
    let seat = site.seat?;
    Ok(status::read(seat.own, seat.station, 1)?.decision)
}

// Tells each site's decision.
fn tell(rt: &impl Print, sites: &[Site; SITES]) -> io::Result<()> {
    for site in sites {
        print!(rt; "\nsite {}: read ", site.number)?;
        match decision(site) {
            Ok(None) => print!(rt; "0")?,
            Ok(Some(value)) => print!(rt; "0, decided {value}")?,
            Err(refusal) => print!(rt; "{}", refusal.number())?,
        }
    }
    println!(rt)
}

fn vote(rt: &impl Print, n: u32) -> io::Result<()> {
    print!(rt; "n {n}")?;
    let mut sites = [
        start(rt, n, 1, 1)?,
        start(rt, n, 2, 1)?,
        start(rt, n, 3, 0)?,
    ];
    let apart = [*b" .x", *b". x", *b"xx "];
    let joined = [*b" ..", *b". .", *b".. "];
    // from the third on site 3 catches up step by step; who has decided goes on, since it needs their next bundles
    for lost in &[apart, apart, joined, joined, joined] {
        exchange(rt, &mut sites, lost)?;
    }
    tell(rt, &sites)
}

fn main(rt: HostRuntime) -> io::Result<()> {
    vote(&rt, 3)?;
    vote(&rt, 1)
}
