// Rule 32: the three areas that the sheet names.
ghost use Rattle.std.specs.Prelude.{◌≡◌, ◌+◌};
ghost use Rattle.inspector.specs.Areas.{code_area, stack_area, table_area, outside_core, meets, astray, clear_of};
ghost use Rattle.inspector.specs.Verdicts.{lowest};
ghost use Rattle.inspector.specs.ForCode.Forms.{area_of, found_of};

use sheet::entry_at;

// So many words from a start on.
#[derive(Clone, Copy)]
pub struct Area {
    pub start: u32,
    pub count: u16,
}

impl Area {
    // The address past its last word.
    fn end(self) -> u64
        ensures { result ≡ self.start + self.count }
    {
        self.start as u64 + self.count as u64
    }

    fn outside_core(self, core: &[u64]) -> bool
        ensures { result ≡ outside_core core.now (area_of self) }
    {
        (core.len() as u64) < self.end()
    }

    // Two have a word in common.
    fn meets(self, other: Area) -> bool
        ensures { result ≡ meets (area_of self) (area_of other) }
    {
        0 < self.count
            && 0 < other.count
            && (self.start as u64) < other.end()
            && (other.start as u64) < self.end()
    }

    // It meets none of the three.
    pub(crate) fn clear_of(self, sheet: &[u8]) -> bool
        ensures { result ≡ clear_of sheet.now (area_of self) }
    {
        !self.meets(code_area(sheet))
            && !self.meets(stack_area(sheet))
            && !self.meets(table_area(sheet))
    }
}

pub fn code_area(sheet: &[u8]) -> Area
    ensures { area_of result ≡ code_area sheet.now }
{
    let e = entry_at(sheet, 0);
    Area {
        start: e.first as u32,
        count: e.count,
    }
}

// "stack words S+1 to S+d"
pub fn stack_area(sheet: &[u8]) -> Area
    ensures { area_of result ≡ stack_area sheet.now }
{
    let e = entry_at(sheet, 1);
    Area {
        start: e.first as u32 + 1,
        count: e.count,
    }
}

pub fn table_area(sheet: &[u8]) -> Area
    ensures { area_of result ≡ table_area sheet.now }
{
    let e = entry_at(sheet, 2);
    Area {
        start: 64 * e.first as u32,
        count: e.count,
    }
}

// The record of an area outside core or meeting an earlier one.
#[tactic(auto, unfolding(crate::specs::Areas::astray))]
fn astray_at(core: &[u64], sheet: &[u8], i: u16) -> bool
    ensures { result ≡ astray core.now sheet.now i }
{
    let code = code_area(sheet);
    let stack = stack_area(sheet);
    let table = table_area(sheet);
    match i {
        0 => code.outside_core(core),
        1 => stack.outside_core(core) || stack.meets(code),
        _ => table.outside_core(core) || table.meets(code) || table.meets(stack),
    }
}

// "32": the lowest record outside core or meeting an earlier one.
pub fn astray(core: &[u64], sheet: &[u8]) -> Option<u16>
    ensures { found_of result ≡ lowest (astray core.now sheet.now) 3 0 }
{
    (0..3u16).find(|&i| astray_at(core, sheet, i))
}
