// Rules 30 and 31: the sheet's length and its records.
ghost use Rattle.std.specs.Prelude.{◌≡◌, not, ℕ, ◌-◌, ◌≤◌};
ghost use Rattle.sheet.specs.Sheets.{entry_at, entries};
ghost use Rattle.inspector.specs.Verdicts.{lowest};
ghost use Rattle.inspector.specs.ForCode.Forms.{found_of};
ghost use Rattle.inspector.specs.Records.{ranged, cells_good, floor_of, record_good, sheet_fits};

use sheet::{Entry, entry_at};

// "30, length not 6 times 3 to 1,027."
#[tactic(auto, unfolding(crate::specs::Records::sheet_fits))]
pub fn sheet_fits(sheet: &[u8]) -> bool
    ensures { result ≡ sheet_fits sheet.now }
{
    let n = sheet.len() / 6;
    sheet.len() % 6 == 0 && 3 <= n && n <= 1027
}

// A record of a kind, its byte 1 being 0, with first and count in their ranges.
// The kinds are bytes here, of any value: a byte that is no kind is what the rule refuses.
fn ranged(e: Entry, kind: u8, first_most: u16, least: u16, most: u16) -> bool
    ensures { result ≡ ranged kind first_most least most e }
{
    e.kind == kind && e.gap == 0 && e.first <= first_most && least <= e.count && e.count <= most
}

// Where the cells of the record before record i end.
fn floor(sheet: &[u8], i: u16) -> u32
    ensures { result ≡ floor_of sheet.now (i - 3) }
{
    if i <= 3 {
        return 0;
    }
    let e = entry_at(sheet, i - 1);
    e.first as u32 + e.count as u32
}

// A record of number or array cells, within the table, over the cells before it; its kind is any byte, too.
fn cells_good(table: u16, floor: u32, e: Entry) -> bool
    ensures { result ≡ cells_good table floor e }
{
    (e.kind == 3 || e.kind == 4)
        && e.gap == 0
        && 0 < e.count
        && e.first as u32 + e.count as u32 <= table as u32
        && floor <= e.first as u32
}

#[tactic(auto, unfolding(crate::specs::Records::record_good), using(crate::proofs::Records::good_more))]
fn record_good(sheet: &[u8], i: u16) -> bool
    ensures { result ≡ record_good sheet.now i }
{
    let e = entry_at(sheet, i);
    match i {
        0 => ranged(e, 1, 32767, 1, 1024),
        1 => ranged(e, 2, 32767, 0, 1023),
        2 => ranged(e, 5, 511, 64, 1024),
        _ => cells_good(entry_at(sheet, 2).count, floor(sheet, i), e),
    }
}

// "31, first bad record."
pub fn bad_record(sheet: &[u8]) -> Option<u16>
    requires { entries sheet.now ≤ 1027 }
    ensures { found_of result ≡ lowest (λ (i : ℕ). not (record_good sheet.now i)) (entries sheet.now) 0 }
{
    let n = (sheet.len() / 6) as u16;
    (0..n).find(|&i| !record_good(sheet, i))
}
