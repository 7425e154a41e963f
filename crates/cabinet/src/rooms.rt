// Where a core's words stand while the machine works on them.
ghost use Rattle.std.specs.Prelude.{◌≡◌, length};
ghost use Rattle.cabinet.specs.ForCode.Rooms.{words_by, words_read};

use tape::ReadError;

// Room for a core at its largest: there is no heap.
pub fn room() -> [u64; 32768]
    ensures { length result ≡ 32768 }
{
    [0u64; 32768]
}

// Reads the bytes of a core into the start of the room.
pub fn read_in<'a>(core: &[u8], room: &'a mut [u64; 32768]) -> Result<&'a mut [u64], ReadError>
    ensures { words_by result ≡ words_read core.now }
{
    let count = tape::words_in(core.len())?;
    let words = &mut room[..count];
    tape::read_file(core, words)?;
    Ok(words)
}
