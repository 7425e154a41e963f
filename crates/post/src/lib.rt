// Posting: a segment is inspected and, where it passed, run from the sheet's start.
#![tactic(auto)]

ghost use Rattle.std.specs.Prelude.{◌≡◌, List, ℕ};
ghost use Rattle.demands.specs.Stays.{start_of};
ghost use Rattle.post.specs.Posting.{posted_of, post_error_number, post_error_place, Posts};
ghost use Rattle.post.specs.declared.PostError.TheVariants.{Broken as Breaks};

use inspector::Broken;
use machine::{Ran, Registers};
use sheet::entry_at;

// Why a segment is not run.
#[derive(Clone, Copy, Debug, PartialEq, Eq)]
pub enum PostError {
    // 1, 2, 30 to 35: the inspector's number, at its place.
    Broken(Broken),
    // 5: a budget over 1,000,000. A passed segment's start is refused for nothing else.
    Budget,
}

impl PostError {
    // The inspector's place, or 0.
    pub fn place(self) -> u64
        ensures { result ≡ post_error_place self }
    {
        match self {
            PostError::Broken(broken) => broken.place(),
            PostError::Budget => 0,
        }
    }
}

// The number given back.
impl From<PostError> for u64 {
    ghost from_gives = { λ e n. n ≡ post_error_number e };

    fn from(why: PostError) -> u64 {
        match why {
            PostError::Broken(broken) => u64::from(broken),
            PostError::Budget => 5,
        }
    }
}

impl From<Broken> for PostError {
    ghost from_gives = { λ why e. e ≡ Breaks why };

    fn from(why: Broken) -> PostError {
        PostError::Broken(why)
    }
}

// "Start: C first code word, L, F 0, A, B empty, SALF, MSFF off", S and R as the sheet has them.
fn start(sheet: &[u8]) -> Registers
    ensures { (core : List ℕ) → result ≡ (start_of core sheet.now).regs }
{
    Registers {
        s: entry_at(sheet, 1).first,
        c: entry_at(sheet, 0).first,
        r: entry_at(sheet, 2).first,
        ..Registers::default()
    }
}

// Inspects a segment and, where it passed, runs it from the sheet's start; a refusal leaves the core as it was.
#[tactic(auto, using(crate::proofs::Postings::posts_away))]
pub fn post(core: &mut [u64], sheet: &[u8], budget: u64) -> Result<Ran, PostError>
    ensures { Posts core.old sheet.now budget (posted_of result core.new) }
{
    inspector::inspect(&core[..], sheet)?;
    machine::run(core, start(sheet), budget).or(Err(PostError::Budget))
}
