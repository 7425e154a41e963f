// The words an array cell names, handed out as that stretch of the core itself.
#![tactic(auto)]

ghost use Rattle.std.specs.Prelude.{◌≡◌};
ghost use Rattle.handout.specs.HandOut.{hand_out_number, stretch_start, stretch_count, hand_out_error_number, handed_by, handed_of, HandedOut};
ghost use Rattle.handout.specs.declared.HandOutError.TheVariants.{Core};

use word::CoreError;

// A stretch of the core by its first word and how many words it has.
#[derive(Clone, Copy, Debug, PartialEq, Eq)]
pub struct Stretch {
    pub start: usize,
    pub count: usize,
}

// Why an array cell's words are not handed out.
#[derive(Clone, Copy, Debug, PartialEq, Eq)]
pub enum HandOutError {
    // 1 or 2: the core is none.
    Core(CoreError),
    // 3: R is 512 or over, or the cell 1,024 or over.
    Cell,
    // 36: the cell is outside core, or names no array.
    Array,
}

// The number given back.
impl From<HandOutError> for u64 {
    ghost from_gives = { λ e n. n ≡ hand_out_error_number e };

    fn from(why: HandOutError) -> u64 {
        match why {
            HandOutError::Core(core) => u64::from(core),
            HandOutError::Cell => 3,
            HandOutError::Array => 36,
        }
    }
}

impl From<CoreError> for HandOutError {
    ghost from_gives = { λ why e. e ≡ Core why };

    fn from(why: CoreError) -> HandOutError {
        HandOutError::Core(why)
    }
}

// Where the words of an array cell are: the descriptor's address and size; or why there are none.
pub fn stretch_at(core: &[u64], r: u16, cell: u16) -> Result<Stretch, HandOutError>
    ensures { handed_by result ≡ handed_of core.now r cell }
{
    word::check_core(core)?;
    if 512 <= r || 1024 <= cell {
        return Err(HandOutError::Cell);
    }
    let at = word::cell_address(r, cell);
    let w = *core.get(at).ok_or(HandOutError::Array)?;
    if !word::array_in(core.len(), w) {
        return Err(HandOutError::Array);
    }
    let start = usize::from(word::address(w));
    let count = usize::from(word::size(w));
    Ok(Stretch { start, count })
}

// Why an array cell's words are not handed out, or 0: by its number, as C is told.
pub fn hand_out_number(core: &[u64], r: u16, cell: u16) -> u64
    ensures { result ≡ hand_out_number core.now r cell }
{
    match stretch_at(core, r, cell) {
        Ok(_) => 0,
        Err(why) => u64::from(why),
    }
}

// Where the words of an array cell are, or no words.
pub fn hand_out_bounds(core: &[u64], r: u16, cell: u16) -> Stretch
    ensures { (result.start ≡ stretch_start core.now r cell) × (result.count ≡ stretch_count core.now r cell) }
{
    let empty = Stretch { start: 0, count: 0 };
    stretch_at(core, r, cell).unwrap_or(empty)
}

// The words of an array cell, or none.
pub fn hand_out(core: &[u64], r: u16, cell: u16) -> &[u64]
    ensures { HandedOut core.entry result r cell }
{
    let Stretch { start, count } = hand_out_bounds(core, r, cell);
    &core[start..start + count]
}
