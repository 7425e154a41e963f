// The cabinet: all of it over numbers and six-byte words, as a host program in C calls it through `cabinet_c`.
#![tactic(auto)]

mod calls;
mod refused;
mod rooms;
mod rows;

ghost use Rattle.std.specs.Prelude.{◌≡◌};
ghost use Rattle.cabinet.specs.Crossings.{LoadedBytes, step_bytes, run_bytes, step_bytes_of, run_bytes_of};
ghost use Rattle.cabinet.specs.Arrays.{handed, handed_bytes_of};
ghost use Rattle.inspector.specs.Verdicts.{given};
ghost use Rattle.cabinet.specs.Inspections.{inspect_bytes_of};
ghost use Rattle.cabinet.specs.Posts.{post_bytes, PostsBytes};

// Copies a core file to a core of its exact length, and answers 0; or 4 or 1, and leaves the core as it was.
pub fn fifty_five_load(file: &[u8], core: &mut [u8]) -> u64
    ensures { LoadedBytes file.now core.old core.new result }
{
    match calls::load(file, core) {
        Ok(()) => 0,
        Err(why) => u64::from(why),
    }
}

// One syllable. The checks are 4, 1, 3 in this order; then the machine answers.
pub fn fifty_five_step(core: &mut [u8], regs: &mut [u8]) -> u64
    ensures { step_bytes result core.new regs.new ≡ step_bytes_of core.old regs.old }
{
    match calls::step(core, regs) {
        Ok(end) => u64::from(end),
        Err(refused) => refused.number,
    }
}

// Syllables until a stop or until the budget is spent. The checks are 4, 1, 3, 5 in this order; then the machine answers.
pub fn fifty_five_run(core: &mut [u8], regs: &mut [u8], budget: u64, completed: &mut u64) -> u64
    ensures { run_bytes result core.new regs.new completed.new ≡ run_bytes_of core.old regs.old budget }
{
    *completed = 0;
    match calls::run(core, regs, budget) {
        Ok(ran) => {
            *completed = ran.completed;
            u64::from(ran.end)
        }
        Err(refused) => refused.number,
    }
}

// Where the words of an array cell stand: the first of them and how many. The checks are 4, 1, 3, 36 in this order, each with 0 and 0.
pub fn fifty_five_hand_out(core: &[u8], r: u64, cell: u64, start: &mut u64, count: &mut u64) -> u64
    ensures { handed result start.new count.new ≡ handed_bytes_of core.now r cell }
{
    *start = 0;
    *count = 0;
    match calls::hand_out(core, r, cell) {
        Ok(stretch) => {
            *start = stretch.start as u64;
            *count = stretch.count as u64;
            0
        }
        Err(refused) => refused.number,
    }
}

// The inspector's number and place. The checks of the core are 4, 1 in this order, at place 0.
pub fn fifty_five_inspect(core: &[u8], sheet: &[u8], place: &mut u64) -> u64
    ensures { given result place.new ≡ inspect_bytes_of core.now sheet.now }
{
    *place = 0;
    match calls::inspect(core, sheet) {
        Ok(()) => 0,
        Err(refused) => {
            *place = refused.place;
            refused.number
        }
    }
}

// Inspects a segment and, where it passed, runs it from the sheet's start. The checks are 4, 1, 3 in this order; then the inspector's, then 5.
pub fn fifty_five_post(
    core: &mut [u8],
    sheet: &[u8],
    budget: u64,
    regs: &mut [u8],
    place: &mut u64,
    stop: &mut u64,
    completed: &mut u64,
) -> u64
    ensures { PostsBytes core.old sheet.now budget regs.old (post_bytes result core.new regs.new place.new stop.new completed.new) }
{
    *place = 0;
    *stop = 0;
    *completed = 0;
    match calls::post(core, sheet, budget, regs) {
        Ok(ran) => {
            *stop = u64::from(ran.end);
            *completed = ran.completed;
            0
        }
        Err(refused) => {
            *place = refused.place;
            refused.number
        }
    }
}
