// What C is told of a call that leaves all as it was.
ghost use Rattle.std.specs.Prelude.{◌≡◌};
ghost use Rattle.cabinet.specs.ForCode.Refusals.{by_file, by_machine, by_hand_out, by_inspector, by_post};

use handout::HandOutError;
use inspector::Broken;
use machine::Refusal;
use post::PostError;
use tape::ReadError;

// The number given back, and the place of a broken rule, or 0.
#[derive(Clone, Copy)]
pub struct Refused {
    pub number: u64,
    pub place: u64,
}

impl From<ReadError> for Refused {
    ghost from_gives = { λ why r. r ≡ by_file why };

    fn from(why: ReadError) -> Refused {
        Refused {
            number: u64::from(why),
            place: 0,
        }
    }
}

impl From<Refusal> for Refused {
    ghost from_gives = { λ why r. r ≡ by_machine why };

    fn from(why: Refusal) -> Refused {
        Refused {
            number: u64::from(why),
            place: 0,
        }
    }
}

impl From<HandOutError> for Refused {
    ghost from_gives = { λ why r. r ≡ by_hand_out why };

    fn from(why: HandOutError) -> Refused {
        Refused {
            number: u64::from(why),
            place: 0,
        }
    }
}

impl From<Broken> for Refused {
    ghost from_gives = { λ why r. r ≡ by_inspector why };

    fn from(why: Broken) -> Refused {
        Refused {
            number: u64::from(why),
            place: why.place(),
        }
    }
}

impl From<PostError> for Refused {
    ghost from_gives = { λ why r. r ≡ by_post why };

    fn from(why: PostError) -> Refused {
        Refused {
            number: u64::from(why),
            place: why.place(),
        }
    }
}
