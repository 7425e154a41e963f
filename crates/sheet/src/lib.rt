// The sheet: its records, and what they say of a segment.
#![tactic(auto)]

ghost use Rattle.std.specs.Prelude.{◌≡◌, get_or, ◌<◌, ◌+◌, ◌*◌};
ghost use Rattle.sheet.specs.Sheets.{entry_at};

// A record of the sheet: six bytes, first and count of two each, highest byte first.
#[derive(Clone, Copy, Debug, PartialEq, Eq)]
pub struct Entry {
    pub kind: u8,
    pub gap: u8,
    pub first: u16,
    pub count: u16,
}

// A byte of the sheet, 0 past its end.
fn byte(sheet: &[u8], at: usize) -> u8
    ensures { result ≡ get_or sheet.now at 0 }
{
    sheet.get(at).copied().unwrap_or(0)
}

// Two bytes of the sheet, the highest first.
fn pair(sheet: &[u8], at: usize) -> u16
    requires { at < 400000 }
    ensures { result ≡ 256 * get_or sheet.now at 0 + get_or sheet.now (at + 1) 0 }
{
    u16::from_be_bytes([byte(sheet, at), byte(sheet, at + 1)])
}

// The i-th record; past the sheet's end its bytes are 0.
pub fn entry_at(sheet: &[u8], i: u16) -> Entry
    ensures { result ≡ entry_at sheet.now i }
{
    let at = 6 * i as usize;
    Entry {
        kind: byte(sheet, at),
        gap: byte(sheet, at + 1),
        first: pair(sheet, at + 2),
        count: pair(sheet, at + 4),
    }
}
