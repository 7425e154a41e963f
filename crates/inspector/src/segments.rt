// A segment: a core, and a sheet whose records are good.
ghost use Rattle.std.specs.Prelude.{◌≡◌, ◌*◌, ◌≤◌, eqb};
ghost use Rattle.sheet.specs.Sheets.{code_of, code_words_of, room_of, cell_of};
ghost use Rattle.inspector.specs.Scan.{syllable_at};
ghost use Rattle.inspector.specs.Areas.{code_area};
ghost use Rattle.inspector.specs.ForCode.Forms.{area_of, SheetRanged, kind_told, Kinds};

use crate::areas::{Area, code_area, stack_area};
use sheet::entry_at;
use syllable::Syllable;

// What a cell is.
#[derive(Clone, Copy)]
pub enum Kind {
    Closed,
    Number,
    Array,
}

// The kind of the cells that a record of a kind names.
#[tactic(auto, unfolding(crate::specs::ForCode::Forms::kind_told))]
fn kind_told(kind: u8) -> Kind
    ensures { result ≡ kind_told kind }
{
    match kind {
        3 => Kind::Number,
        4 => Kind::Array,
        _ => Kind::Closed,
    }
}

// The kind of every cell, from the last record to the first. The kinds are lent, since a call's stack is small.
pub fn tell_kinds(kinds: &mut [Kind; 1024], sheet: &[u8])
    requires { SheetRanged sheet.now }
    ensures { Kinds kinds.new sheet.now }
{
    kinds.fill(Kind::Closed);
    for i in (3..(sheet.len() / 6) as u16).rev() {
        let e = entry_at(sheet, i);
        let from = e.first as usize;
        kinds[from..from + e.count as usize].fill(kind_told(e.kind));
    }
}

// The cells' kinds, the code's area and the room are read once.
#[derive(Drop)]
pub struct Segment<'a> {
    pub core: &'a [u64],
    pub sheet: &'a [u8],
    kinds: &'a [Kind; 1024],
    code: Area,
    room: u16,
    ghost ranged: { SheetRanged sheet.now },
    ghost named: { Kinds kinds.now sheet.now },
    ghost coded: { area_of code ≡ code_area sheet.now },
    ghost roomed: { room ≡ room_of sheet.now },
}

impl<'a> Segment<'a> {
    pub(crate) fn new(core: &'a [u64], sheet: &'a [u8], kinds: &'a [Kind; 1024]) -> Segment<'a>
        requires { SheetRanged sheet.now × Kinds kinds.now sheet.now }
        ensures core { result.core.now ≡ core.now }
        ensures sheet { result.sheet.now ≡ sheet.now }
    {
        Segment {
            core,
            sheet,
            kinds,
            code: code_area(sheet),
            room: stack_area(sheet).count,
        }
    }

    // What cell c is.
    pub(crate) fn kind(&self, c: u16) -> Kind
        ensures { result ≡ kind_told (cell_of self.now.sheet.now c) }
    {
        let kinds = self.kinds;
        kinds.get(c as usize).copied().unwrap_or(Kind::Closed)
    }

    #[tactic(auto, using(crate::proofs::Paints::is_number, crate::proofs::Paints::not_number))]
    pub(crate) fn is_number_cell(&self, c: u16) -> bool
        ensures { result ≡ eqb (cell_of self.now.sheet.now c) 3 }
    {
        matches!(self.kind(c), Kind::Number)
    }

    // How many syllables the code has.
    pub(crate) fn syllables(&self) -> u16
        ensures count { result ≡ 4 * code_words_of self.now.sheet.now }
        ensures few { result ≤ 4096 }
    {
        4 * self.code.count
    }

    // The number in core of the code's first syllable.
    pub(crate) fn origin(&self) -> u32
        ensures { result ≡ 4 * code_of self.now.sheet.now }
    {
        4 * self.code.start
    }

    // The room d of the stack.
    pub(crate) fn room(&self) -> u16
        ensures room { result ≡ room_of self.now.sheet.now }
        ensures few { result ≤ 1024 }
    {
        self.room
    }

    // The i-th syllable of the code, counted from 0.
    #[inline(always)]
    #[tactic(auto, using(crate::proofs::Readings::read_at))]
    pub(crate) fn syllable(&self, i: u16) -> Syllable
        ensures { result ≡ syllable_at self.now.core.now self.now.sheet.now i }
    {
        let at = self.code.start as usize + (i / 4) as usize;
        let w = self.core.get(at).copied().unwrap_or(0);
        syllable::decode(syllable::syllable_at(w, (i % 4) as u8))
    }
}
