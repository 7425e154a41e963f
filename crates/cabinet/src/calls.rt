// The calls on bytes: a core's words are read in, worked on and, where they may have changed, handed back.
// Lengths and a row are looked at first: what they refuse costs no room and reads no core.
ghost use Rattle.std.specs.Prelude.{◌≡◌};
ghost use Rattle.word.specs.Core.{number_by};
ghost use Rattle.tape.specs.Files.{read_error_number};
ghost use Rattle.cabinet.specs.Crossings.{LoadedBytes, step_bytes_of, run_bytes_of};
ghost use Rattle.cabinet.specs.Arrays.{handed_bytes_of};
ghost use Rattle.cabinet.specs.Inspections.{inspect_bytes_of};
ghost use Rattle.cabinet.specs.Posts.{PostsBytes};
ghost use Rattle.cabinet.specs.ForCode.Refusals.{step_by, run_by, told_by, inspected_by, post_by};
ghost use Rattle.cabinet.specs.ForCode.Rooms.{Back};

use crate::refused::Refused;
use crate::rooms::{read_in, room};
use crate::rows::{narrow, row_of, set_in};
use handout::Stretch;
use machine::{End, Ran, Refusal, Registers};
use tape::ReadError;

// Writes the core and the set over their bytes.
fn hand_back(words: &[u64], g: Registers, core: &mut [u8], regs: &mut [u8])
    ensures { Back words.now g core.old core.new regs.old regs.new }
{
    // Six bytes for each word: nothing is refused.
    let _ = tape::write_file(words, core);
    let _ = tape::write_file(&row_of(g), regs);
}

pub fn load(file: &[u8], core: &mut [u8]) -> Result<(), ReadError>
    ensures { LoadedBytes file.now core.old core.new (number_by read_error_number result) }
{
    tape::words_in(file.len())?;
    if core.len() != file.len() {
        return Err(ReadError::Length);
    }
    core.copy_from_slice(file);
    Ok(())
}

pub fn step(core: &mut [u8], regs: &mut [u8]) -> Result<End, Refused>
    ensures { step_by result core.new regs.new ≡ step_bytes_of core.old regs.old }
{
    tape::words_in(core.len())?;
    let g = set_in(&regs[..])?;
    let mut room = room();
    let words = read_in(&core[..], &mut room)?;
    let answer = machine::step(words, g)?;
    hand_back(words, answer.regs, core, regs);
    Ok(answer.end)
}

pub fn run(core: &mut [u8], regs: &mut [u8], budget: u64) -> Result<Ran, Refused>
    ensures { run_by result core.new regs.new ≡ run_bytes_of core.old regs.old budget }
{
    tape::words_in(core.len())?;
    let g = set_in(&regs[..])?;
    let mut room = room();
    let words = read_in(&core[..], &mut room)?;
    let ran = machine::run(words, g, budget)?;
    hand_back(words, ran.regs, core, regs);
    Ok(ran)
}

pub fn hand_out(core: &[u8], r: u64, cell: u64) -> Result<Stretch, Refused>
    ensures { told_by result ≡ handed_bytes_of core.now r cell }
{
    tape::words_in(core.len())?;
    let mut room = room();
    let words = read_in(core, &mut room)?;
    let stretch = handout::stretch_at(words, narrow(r), narrow(cell))?;
    Ok(stretch)
}

pub fn inspect(core: &[u8], sheet: &[u8]) -> Result<(), Refused>
    ensures { inspected_by result ≡ inspect_bytes_of core.now sheet.now }
{
    tape::words_in(core.len())?;
    let mut room = room();
    let words = read_in(core, &mut room)?;
    inspector::inspect(words, sheet)?;
    Ok(())
}

pub fn post(core: &mut [u8], sheet: &[u8], budget: u64, regs: &mut [u8]) -> Result<Ran, Refused>
    ensures { PostsBytes core.old sheet.now budget regs.old (post_by result core.new regs.new) }
{
    tape::words_in(core.len())?;
    if regs.len() != 66 {
        return Err(Refused::from(Refusal::Registers));
    }
    let mut room = room();
    let words = read_in(&core[..], &mut room)?;
    let ran = post::post(words, sheet, budget)?;
    hand_back(words, ran.regs, core, regs);
    Ok(ran)
}
