// From a file to a core.
ghost use Rattle.std.specs.Prelude.{◌≡◌, ◌/◌, length};
ghost use Rattle.word.specs.Core.{number_by};
ghost use Rattle.word.specs.Digits.{numeral};
ghost use Rattle.tape.specs.Files.{words_of, words_in_of, read_error_number, FileRead};

use crate::errors::ReadError;

// How many words a file of n bytes has: 4, then 1.
#[tactic(auto, using(crate::proofs::Numbers::counts))]
pub fn words_in(n: usize) -> Result<usize, ReadError>
    ensures { result ≡ words_in_of n }
{
    if n % 6 != 0 {
        return Err(ReadError::Records);
    }
    match n / 6 {
        words @ 1..=32768 => Ok(words),
        _ => Err(ReadError::Length),
    }
}

// Reads a file into a core of its exact word count; a refusal leaves the core as it was.
pub fn read_file(bytes: &[u8], core: &mut [u64]) -> Result<(), ReadError>
    ensures { FileRead bytes.now core.old core.new (number_by read_error_number result) }
{
    let words = words_in(bytes.len())?;
    if core.len() != words {
        return Err(ReadError::Length);
    }
    fill_core(bytes, core);
    Ok(())
}

// Fills all of a core from a file of as many words.
fn fill_core(bytes: &[u8], core: &mut [u64])
    requires { length bytes.now / 6 ≡ length core.old }
    ensures { core.new ≡ words_of (length core.old) bytes.now }
{
    // By index: of a core that `iter_mut` lends to a `zip` no clause says how it ends.
    let (records, _) = bytes.as_chunks();
    for (i, record) in records.iter().enumerate() {
        core[i] = word_of(*record);
    }
}

// The word that six bytes say.
fn word_of(bytes: [u8; 6]) -> u64
    ensures { result ≡ numeral 256 bytes }
{
    let [a, b, c, d, e, f] = bytes;
    u64::from_be_bytes([0, 0, a, b, c, d, e, f])
}
