// A host over a radio that loses packets. A site here sends nothing but its last bundle and keeps no earlier one, so what a site missed is never sent again.
// Three sites in one program vote on question 1 with jump on: sites 1 and 2 propose yes (1), site 3 no (0). In each turn each site sends its last bundle to
// the two others, in six packets: 1 to 2, 1 to 3, 2 to 1, 2 to 3, 3 to 1, 3 to 2. Which ones are lost, and the coins, are fixed.
//
// It shows that such sites catch up by jumping: a bundle of a later step takes the hearer there at once, which is answered 23. A jump catches up with the
// step, not with the decision: sites 1 and 3 decide in round 1, in the second turn (21), and site 2 jumps past the votes of rounds 1, 2 and 3. It decides in
// round 4, in the last turn.
//
// Printed are, for each site, what making its module and opening its station returned; for each
// turn, packet by packet, a dash where it is lost, else what giving the bundle returned; and for
// each site what reading its station returned, and its decision on question 1, 2 where there is
// none. A site that was refused its module or its station prints that refusal in place of each of
// these.
#![tactic(auto)]

ghost use Rattle.std.specs.Prelude.{◌<◌};

use format::{OUTPUT_WORDS, Outcome, Refusal};
use modules::Module;
use station::{Answer, Station};
use std::io;

const SITES: usize = 3;

// A bundle in fixed memory: a site's program has no heap.
#[derive(Clone, Copy)]
struct Bundle {
    words: [u32; OUTPUT_WORDS],
    count: usize,
}

// What a site takes part with: module and station as the last call returned them that was not
// refused.
#[derive(Clone, Copy)]
struct Seat {
    own: Module,
    station: Station,
}

impl Seat {
    fn of(answer: Answer) -> Seat {
        Seat {
            own: answer.after,
            station: answer.station,
        }
    }
}

// What a host keeps of its site: its number; its seat, or the refusal for which it has none; and
// its last bundle.
#[derive(Clone, Copy)]
struct Site {
    number: u32,
    seat: Result<Seat, Refusal>,
    last: Bundle,
}

// The packets of a turn: a row for each sender, in it a mark for each hearer, `x` where the packet is lost, else the coin of the call, `0` or `1`. None
// sends to itself.
type Packets = [[u8; SITES]; SITES];

const TURNS: [Packets; 8] = [
    [*b" x1", *b"0 0", *b"01 "],
    [*b" 10", *b"1 1", *b"x0 "],
    [*b" 01", *b"x x", *b"xx "],
    [*b" 10", *b"x 1", *b"x1 "],
    [*b" x1", *b"1 x", *b"x1 "],
    [*b" x1", *b"x 0", *b"10 "],
    [*b" x0", *b"1 0", *b"x0 "],
    [*b" 0x", *b"0 x", *b"x1 "],
];

// The number of what a call answered.
fn number_of(answer: Result<Outcome, Refusal>) -> u32 {
    match answer {
        Ok(outcome) => outcome.number(),
        Err(refusal) => refusal.number(),
    }
}

// Makes the site's module and opens a station on question 1, with jump on. Where one of the two is
// refused the site has no seat and no bundle to send. (A real host keeps a module where an opening
// alone is refused.)
fn start(rt: &impl Print, number: u32, proposal: u32) -> io::Result<Site> {
    let made = modules::make([7; 32], 3, number);
    let mut words = [0; OUTPUT_WORDS];
    let opened = made.and_then(|own| opening::open(own, 1, proposal, 1, &mut words));
    println!(rt;
        "site {number}: made {}, opened {}",
        made.err().map_or(0, Refusal::number),
        number_of(opened.map(|answer| answer.outcome))
    )?;
    Ok(Site {
        number,
        seat: opened.map(Seat::of),
        last: Bundle {
            words,
            count: opened.map_or(0, |answer| answer.count),
        },
    })
}

// Gives the site a bundle. At a refusal nothing changed, and the site goes on with what it has.
// Else module and station that come back are kept, always; and where the outcome is that a bundle
// was written, it is sent from now on (a real host stores the module durably before it sends).
fn hear(site: &mut Site, bundle: &Bundle, coin: u32) -> Result<Outcome, Refusal> {
    let seat = site.seat?;
    let mut words = [0; OUTPUT_WORDS];
    let sent = &bundle.words[..bundle.count.min(OUTPUT_WORDS)];
    let given = giving::give(seat.own, seat.station, sent, coin, &mut words)?;
    site.seat = Ok(Seat::of(given));
    if let Outcome::Sent | Outcome::SentDecided | Outcome::Jumped = given.outcome {
        site.last = Bundle {
            words,
            count: given.count,
        };
    }
    Ok(given.outcome)
}

// A site sends its last bundle to the others.
fn send_round(
    rt: &impl Print,
    sites: &mut [Site; SITES],
    from: usize,
    packets: &[u8; SITES],
) -> io::Result<()>
    requires { from < 3 }
{
    let bundle = sites[from].last;
    for (to, packet) in packets.iter().enumerate() {
        if *packet == b'x' {
            print!(rt; " -")?;
        } else if to != from {
            let answer = hear(&mut sites[to], &bundle, u32::from(*packet == b'1'));
            print!(rt; " {}", number_of(answer))?;
        }
    }
    Ok(())
}

// A turn: each site sends its last bundle to the two others.
fn turn(rt: &impl Print, sites: &mut [Site; SITES], packets: &Packets) -> io::Result<()> {
    print!(rt; "given")?;
    for (from, row) in packets.iter().enumerate() {
        send_round(rt, sites, from, row)?;
    }
    println!(rt)
}

// The site's decision on question 1, if it has one.
fn decision(site: &Site) -> Result<Option<u32>, Refusal> {
    let seat = site.seat?;
    Ok(status::read(seat.own, seat.station, 1)?.decision)
}

// Tells each site's decision.
fn tell(rt: &impl Print, sites: &[Site; SITES]) -> io::Result<()> {
    for site in sites {
        let (read, value) = match decision(site) {
            Ok(value) => (0, value),
            Err(refusal) => (refusal.number(), None),
        };
        println!(rt;
            "site {}: read {read}, decision {}",
            site.number,
            value.unwrap_or(format::NONE)
        )?;
    }
    Ok(())
}

fn main(rt: HostRuntime) -> io::Result<()> {
    let mut sites = [start(&rt, 1, 1)?, start(&rt, 2, 1)?, start(&rt, 3, 0)?];
    for packets in &TURNS {
        turn(&rt, &mut sites, packets)?;
    }
    tell(&rt, &sites)
}
