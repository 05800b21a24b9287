// The lines that the program valley prints, as bytes (document 01, "The program valley"). The
// contracts cite specs/Print.antt.
#![tactic(auto)]

ghost use Rattle.std.specs.Prelude.{◌≡◌, ◌∷◌, suc, ◌+◌, ◌≤◌, length};
ghost use Rattle.std.proofs.Math.Seq.{paste};
ghost use Rattle.laws.specs.Over.{over};
ghost use Rattle.valley_lines.specs.Read.{space};
ghost use Rattle.valley_printing.specs.Print.{decimal, event_line, bad_line};

use format::Step;

// Puts n's digits into out, from index `at` on, and answers where they end.
#[tactic(auto, using(crate::proofs::Laws::Decimal::spelled_text))]
fn put_number(n: u64, out: &mut [u8], at: usize) -> usize
    requires { at + length (decimal n) ≤ length out.old }
    ensures { (result ≡ at + length (decimal n)) × (out.new ≡ paste out.old at (decimal n) (length (decimal n))) }
{
    let mut digits = [0u8; 20];
    let count = io::decimal(n, &mut digits);
    let end = at + count;
    out[at..end].copy_from_slice(&digits[..count]);
    end
}

// Puts a space and n's digits into out, from index `at` on, and answers where they end.
#[tactic(auto, using(crate::proofs::Laws::Put::put_after))]
fn put_spaced(n: u64, out: &mut [u8], at: usize) -> usize
    requires { at + suc (length (decimal n)) ≤ length out.old }
    ensures { (result ≡ at + suc (length (decimal n))) × (out.new ≡ paste out.old at (space ∷ decimal n) (suc (length (decimal n)))) }
{
    out[at] = b' ';
    put_number(n, out, at + 1)
}

// The line of an event at the front of out, which is fixed memory; answers how many bytes it has.
// Its numbers have at most 20, 10, 20 and 10 digits, so it always fits.
#[tactic(auto, using(crate::proofs::Laws::Width::decimal_64, crate::proofs::Laws::Width::decimal_32))]
pub fn event_line(event: u64, number: u32, step: Step, decision: u32, out: &mut [u8; 64]) -> usize
    ensures { (result ≡ length (event_line event number step.0 decision)) × (out.new ≡ over (event_line event number step.0 decision) out.old) }
{
    let a = put_number(event, out, 0);
    let b = put_spaced(u64::from(number), out, a);
    let c = put_spaced(step.0, out, b);
    let d = put_spaced(u64::from(decision), out, c);
    out[d] = b'\n';
    d + 1
}

// The line that ends a run at an input line, at the front of out: a fixed byte string, then the
// line's number. Answers how many bytes it has.
#[tactic(auto, using(crate::proofs::Laws::Width::decimal_64))]
pub fn bad_line(number: u64, out: &mut [u8; 64]) -> usize
    ensures { (result ≡ length (bad_line number)) × (out.new ≡ over (bad_line number) out.old) }
{
    out[..9].copy_from_slice(b"bad line ");
    let end = put_number(number, out, 9);
    out[end] = b'\n';
    end + 1
}
