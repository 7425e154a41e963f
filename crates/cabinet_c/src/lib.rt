// The plugs as C sees them: each calls the one of its name in `cabinet`. include/fifty_five.h tells it to C.
#![tactic(auto)]

ghost use Rattle.cabinet.specs.Crossings.{LoadedBytes, step_bytes, run_bytes, step_bytes_of, run_bytes_of};
ghost use Rattle.cabinet.specs.Arrays.{handed, handed_bytes_of};
ghost use Rattle.inspector.specs.Verdicts.{given};
ghost use Rattle.cabinet.specs.Inspections.{inspect_bytes_of};
ghost use Rattle.cabinet.specs.Posts.{post_bytes, PostsBytes};
ghost use Rattle.std.specs.Prelude.{◌≡◌};

// Copies a core file to a core of its exact length, and answers 0; or 4 or 1, and leaves the core as it was.
#[unsafe(no_mangle)]
pub extern "C" fn fifty_five_load(file: &[u8], core: &mut [u8]) -> u64
    ensures { LoadedBytes file.now core.old core.new result }
{
    cabinet::fifty_five_load(file, core)
}

// One syllable. The checks are 4, 1, 3 in this order; then the machine answers.
#[unsafe(no_mangle)]
pub extern "C" fn fifty_five_step(core: &mut [u8], regs: &mut [u8]) -> u64
    ensures { step_bytes result core.new regs.new ≡ step_bytes_of core.old regs.old }
{
    cabinet::fifty_five_step(core, regs)
}

// Syllables until a stop or until the budget is spent. The checks are 4, 1, 3, 5 in this order; then the machine answers.
#[unsafe(no_mangle)]
pub extern "C" fn fifty_five_run(
    core: &mut [u8],
    regs: &mut [u8],
    budget: u64,
    completed: &mut u64,
) -> u64
    ensures { run_bytes result core.new regs.new completed.new ≡ run_bytes_of core.old regs.old budget }
{
    cabinet::fifty_five_run(core, regs, budget, completed)
}

// Where the words of an array cell stand: the first of them and how many. The checks are 4, 1, 3, 36 in this order, each with 0 and 0.
#[unsafe(no_mangle)]
pub extern "C" fn fifty_five_hand_out(
    core: &[u8],
    r: u64,
    cell: u64,
    start: &mut u64,
    count: &mut u64,
) -> u64
    ensures { handed result start.new count.new ≡ handed_bytes_of core.now r cell }
{
    cabinet::fifty_five_hand_out(core, r, cell, start, count)
}

// The inspector's number and place. The checks of the core are 4, 1 in this order, at place 0.
#[unsafe(no_mangle)]
pub extern "C" fn fifty_five_inspect(core: &[u8], sheet: &[u8], place: &mut u64) -> u64
    ensures { given result place.new ≡ inspect_bytes_of core.now sheet.now }
{
    cabinet::fifty_five_inspect(core, sheet, place)
}

// Inspects a segment and, where it passed, runs it from the sheet's start. The checks are 4, 1, 3 in this order; then the inspector's, then 5.
#[unsafe(no_mangle)]
pub extern "C" fn fifty_five_post(
    core: &mut [u8],
    sheet: &[u8],
    budget: u64,
    regs: &mut [u8],
    place: &mut u64,
    stop: &mut u64,
    completed: &mut u64,
) -> u64
    ensures { PostsBytes core.old sheet.now budget regs.old (post_bytes result core.new regs.new place.new stop.new completed.new) }
{
    cabinet::fifty_five_post(core, sheet, budget, regs, place, stop, completed)
}
