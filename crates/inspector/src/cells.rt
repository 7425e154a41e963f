// Rule 33: the named cells.
ghost use Rattle.std.specs.Prelude.{◌≡◌, ◌+◌, ◌≤◌, length};
ghost use Rattle.sheet.specs.Sheets.{table_of};
ghost use Rattle.inspector.specs.Cells.{plain_words, array_fits, unfit};
ghost use Rattle.inspector.specs.Verdicts.{lowest};
ghost use Rattle.inspector.specs.ForCode.Forms.{found_of};

use crate::areas::{Area, table_area};
use crate::segments::{Kind, Segment};

// All n words from a on have their flag off.
fn plain_words(core: &[u64], a: u16, n: u16) -> bool
    requires { a + n ≤ length core.now }
    ensures { result ≡ plain_words core.now a n }
{
    let from = usize::from(a);
    core[from..from + usize::from(n)]
        .iter()
        .all(|w| !word::flag(*w))
}

#[tactic(auto, unfolding(crate::specs::Cells::array_fits))]
fn array_fits(core: &[u64], sheet: &[u8], d: u64) -> bool
    ensures { result ≡ array_fits core.now sheet.now d }
{
    let a = word::address(d);
    let n = word::size(d);
    let area = Area {
        start: a as u32,
        count: n,
    };
    word::array_in(core.len(), d) && area.clear_of(sheet) && plain_words(core, a, n)
}

// A named cell that does not hold what its record says.
#[tactic(auto, using(crate::proofs::Arrays::unfit_number, crate::proofs::Arrays::unfit_array, crate::proofs::Arrays::unfit_closed))]
fn unfit_at(segment: &Segment, c: u16) -> bool
    ensures { result ≡ unfit segment.now.core.now segment.now.sheet.now c }
{
    let start = table_area(segment.sheet).start;
    let w = segment
        .core
        .get(start as usize + c as usize)
        .copied()
        .unwrap_or(0);
    match segment.kind(c) {
        Kind::Number => word::flag(w),
        Kind::Array => !array_fits(segment.core, segment.sheet, w),
        Kind::Closed => false,
    }
}

// "33, lowest named cell unfit"
pub fn unfit(segment: &Segment) -> Option<u16>
    ensures { found_of result ≡ lowest (unfit segment.now.core.now segment.now.sheet.now) (table_of segment.now.sheet.now) 0 }
{
    let n = table_area(segment.sheet).count;
    (0..n).find(|&c| unfit_at(segment, c))
}
