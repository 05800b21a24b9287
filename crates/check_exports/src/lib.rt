// The validity check for programs in C or Rust (`rt lib` in this crate), and the compression that its time goes into. A slice is passed
// as a pointer and a length, a reference to an array as a pointer.
#![tactic(auto)]

ghost use Rattle.std.specs.Prelude.{◌≡◌};
ghost use Rattle.compression.specs.Compression.{compressed};
ghost use Rattle.format.specs.Returns.{number_in};
ghost use Rattle.rules.specs.declared.Which.TheVariants.{Only};
ghost use Rattle.certificate.specs.Present.{judged, checked};

use format::Refusal;
use rules::Which;

// The returned number of an answer: 0 where there is no refusal.
fn number(answer: Result<(), Refusal>) -> u32
    ensures { result ≡ number_in answer }
{
    match answer {
        Ok(()) => 0,
        Err(refusal) => refusal.number(),
    }
}

// The validity check of the words under a key and n.
#[unsafe(no_mangle)]
pub extern "C" fn check_exports_check(key: &[u8; 32], n: u32, ws: &[u32]) -> u32
    ensures { result ≡ checked key.now n ws.now }
{
    number(certificate::check(*key, n, ws))
}

// The same, of a bundle that is to be of the question asked for, as a station judges it.
#[unsafe(no_mangle)]
pub extern "C" fn check_exports_judge(key: &[u8; 32], n: u32, asked: u32, ws: &[u32]) -> u32
    ensures { result ≡ judged key.now n (Only asked) ws.now }
{
    number(certificate::judge(*key, n, Which::Only(asked), ws))
}

// The state after one block of sixteen words, in its place.
#[unsafe(no_mangle)]
pub extern "C" fn check_exports_compress(state: &mut [u32; 8], block: &[u32; 16])
    ensures { state.new ≡ compressed state.old block.now }
{
    *state = block::compress(*state, *block);
}
