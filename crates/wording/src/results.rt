// What a run is told by.
ghost use Rattle.std.specs.Prelude.{◌≡◌};
ghost use Rattle.wording.specs.Results.{communicated_of, status_number, status_of};

// What the runner ends with.
#[derive(Clone, Copy, Debug, PartialEq, Eq)]
pub enum Status {
    // 0: the segment passed, or ran to COM or to the end of its budget.
    Done,
    // 1: a number refused it.
    Refused,
    // 2: it could not be done, for its arguments or its files.
    Undone,
    // 3: it stopped short of COM with budget left.
    Short,
}

// The number of the status.
impl From<Status> for u64 {
    ghost from_gives = { λ s n. n ≡ status_number s };

    fn from(status: Status) -> u64 {
        match status {
            Status::Done => 0,
            Status::Refused => 1,
            Status::Undone => 2,
            Status::Short => 3,
        }
    }
}

// The word that COM stored, in cell 9 of the table at 64R; 0 outside core.
pub fn communicated(core: &[u64], r: u16) -> u64
    ensures { result ≡ communicated_of core.now r }
{
    core.get(word::cell_address(r, 9)).copied().unwrap_or(0)
}

// The status that a posting ends with, by the number that refused it, or 0, and the stop: any two numbers.
#[tactic(auto, unfolding(crate::specs::Results::stop_status, crate::specs::Results::status_of, crate::proofs::Choices::choosing))]
pub fn status_of(number: u64, stop: u64) -> Status
    ensures { status_number result ≡ status_of number stop }
{
    match (number, stop) {
        (0, 0 | 17) => Status::Done,
        (0, _) => Status::Short,
        _ => Status::Refused,
    }
}
