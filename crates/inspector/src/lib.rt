// The inspector of sheets.
#![tactic(auto)]

mod areas;
mod cells;
mod scan;
mod segments;
mod shapes;
mod sheets;
mod targets;
mod verdict;

ghost use Rattle.std.specs.Prelude.{◌≡◌, true};
ghost use Rattle.inspector.specs.Records.{sheet_fits};
ghost use Rattle.inspector.specs.Verdicts.{verdict_by, verdict_of};
ghost use Rattle.inspector.specs.ForCode.Forms.{flow_of, records_of};

use areas::astray;
use cells::unfit;
use scan::{Scanned, scan};
use segments::{Kind, Segment, tell_kinds};
use shapes::Mark;
use sheets::{bad_record, sheet_fits};
pub use verdict::Broken;

// The rules 34 and 35.
fn flow(segment: &Segment) -> Result<(), Broken>
    ensures { verdict_by result ≡ flow_of segment.now.core.now segment.now.sheet.now }
{
    let mut marks = [Mark::Empty; 4096];
    if let Some(at) = scan(segment, &mut marks) {
        return Err(Broken::Syllable(at as u64));
    }
    let scanned = Scanned {
        segment,
        marks: &marks,
    };
    if let Some(at) = scanned.target() {
        return Err(Broken::Target(at as u64));
    }
    Ok(())
}

// The rules from 31 on.
#[tactic(auto, using(crate::proofs::Answers::fits_most, crate::proofs::Answers::ranges))]
fn examined(core: &[u64], sheet: &[u8]) -> Result<(), Broken>
    requires { sheet_fits sheet.now ≡ true }
    ensures { verdict_by result ≡ records_of core.now sheet.now }
{
    if let Some(at) = bad_record(sheet) {
        return Err(Broken::Record(at as u64));
    }
    if let Some(at) = astray(core, sheet) {
        return Err(Broken::Area(at as u64));
    }
    let mut kinds = [Kind::Closed; 1024];
    tell_kinds(&mut kinds, sheet);
    let segment = Segment::new(core, sheet, &kinds);
    if let Some(at) = unfit(&segment) {
        return Err(Broken::Cell(at as u64));
    }
    flow(&segment)
}

// The first rule that the core or the sheet breaks, in the printed order, at its lowest place.
#[tactic(auto, using(crate::proofs::Answers::given_back, crate::proofs::Answers::core_refused, crate::proofs::Answers::sheet_refused, crate::proofs::Answers::sheet_passed))]
pub fn inspect(core: &[u64], sheet: &[u8]) -> Result<(), Broken>
    ensures { verdict_by result ≡ verdict_of core.now sheet.now }
{
    word::check_core(core)?;
    if !sheet_fits(sheet) {
        return Err(Broken::Length);
    }
    examined(core, sheet)
}
