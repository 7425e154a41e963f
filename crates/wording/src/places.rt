// Where a sheet's refusal points to.
ghost use Rattle.std.specs.Prelude.{◌≡◌};
ghost use Rattle.wording.specs.Places.{code_place_of, record_kind_of, kind_by};

use sheet::entry_at;

// A syllable of the code: the address of its word, and its place there, 0 being leftmost.
#[derive(Clone, Copy, Debug, PartialEq, Eq)]
pub struct CodePlace {
    pub word: u64,
    pub syllable: u8,
}

// What a record of the sheet is.
#[derive(Clone, Copy, Debug, PartialEq, Eq)]
pub enum RecordKind {
    // 1: code words.
    Code,
    // 2: starting S and room.
    Start,
    // 3: number cells.
    Numbers,
    // 4: array cells.
    Arrays,
    // 5: R and table length.
    Table,
    // No kind of the paper.
    Other(u8),
}

// The kind with a number.
impl From<u8> for RecordKind {
    ghost from_gives = { λ n k. k ≡ kind_by n };

    #[tactic(auto, unfolding(crate::specs::Places::kind_by, crate::proofs::Choices::choosing))]
    fn from(number: u8) -> RecordKind {
        match number {
            1 => RecordKind::Code,
            2 => RecordKind::Start,
            3 => RecordKind::Numbers,
            4 => RecordKind::Arrays,
            5 => RecordKind::Table,
            _ => RecordKind::Other(number),
        }
    }
}

// The syllable that a sheet's place names, counted from 0 from the first code word on.
pub fn place_of(sheet: &[u8], place: u64) -> CodePlace
    ensures { result ≡ code_place_of sheet.now place }
{
    let first = u64::from(entry_at(sheet, 0).first);
    CodePlace {
        word: first + place / 4,
        syllable: (place % 4) as u8,
    }
}

// The kind that a record has by its place, or by its own first byte from record 3 on; 0 past the sheet's end.
#[tactic(auto, unfolding(crate::specs::Places::record_kind_of, crate::specs::Places::kind_by, crate::proofs::Choices::choosing))]
pub fn kind_at(sheet: &[u8], place: u64) -> RecordKind
    ensures { result ≡ kind_by (record_kind_of sheet.now place) }
{
    match place {
        0 => RecordKind::Code,
        1 => RecordKind::Start,
        2 => RecordKind::Table,
        3..1027 => RecordKind::from(entry_at(sheet, place as u16).kind),
        _ => RecordKind::Other(0),
    }
}
