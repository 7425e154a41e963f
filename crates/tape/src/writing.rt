// From a core to a file.
ghost use Rattle.std.specs.Prelude.{◌≡◌, ◌+◌, ◌*◌, length};
ghost use Rattle.word.specs.Core.{number_by};
ghost use Rattle.tape.specs.Files.{bytes_of, write_error_number, FileWritten};

use crate::errors::WriteError;

// Writes a core's file over room of its exact length; a refusal leaves the room as it was.
pub fn write_file(core: &[u64], room: &mut [u8]) -> Result<(), WriteError>
    ensures { FileWritten core.now room.old room.new (number_by write_error_number result) }
{
    word::check_core(core)?;
    if room.len() != 6 * core.len() {
        return Err(WriteError::Room);
    }
    spread(core, room);
    Ok(())
}

// Writes the file of a core over all of the room.
fn spread(core: &[u64], room: &mut [u8])
    requires { length room.old ≡ 6 * length core.now }
    ensures { room.new ≡ bytes_of core.now }
{
    // By index: of room that is lent in chunks no clause says how it ends.
    for (i, w) in core.iter().enumerate() {
        room[6 * i..6 * i + 6].copy_from_slice(&w.to_be_bytes()[2..]);
    }
}
