// The inspector's answer.
ghost use Rattle.std.specs.Prelude.{◌≡◌};
ghost use Rattle.inspector.specs.Verdicts.{broken_number, broken_place};
ghost use Rattle.inspector.specs.declared.verdict.Broken.TheVariants.{Core};

use word::CoreError;

// The first rule that is broken, and the lowest place at which it is.
#[derive(Clone, Copy, Debug, PartialEq, Eq)]
pub enum Broken {
    // 1 or 2: the core is none.
    Core(CoreError),
    // 30: the sheet's length is not 6 times 3 to 1,027.
    Length,
    // 31: a bad record.
    Record(u64),
    // 32: code, stack words or table outside core, or meeting an earlier one.
    Area(u64),
    // 33: a named cell unfit.
    Cell(u64),
    // 34: a syllable that breaks the scan.
    Syllable(u64),
    // 35: a branch whose target is outside the code or has a shape not empty.
    Target(u64),
}

impl Broken {
    // The place: a record, a cell or a syllable; 0 with 1, 2 and 30.
    pub fn place(self) -> u64
        ensures { result ≡ broken_place self }
    {
        match self {
            Broken::Core(_) | Broken::Length => 0,
            Broken::Record(at)
            | Broken::Area(at)
            | Broken::Cell(at)
            | Broken::Syllable(at)
            | Broken::Target(at) => at,
        }
    }
}

// The number given back.
impl From<Broken> for u64 {
    ghost from_gives = { λ e n. n ≡ broken_number e };

    fn from(broken: Broken) -> u64 {
        match broken {
            Broken::Core(core) => u64::from(core),
            Broken::Length => 30,
            Broken::Record(_) => 31,
            Broken::Area(_) => 32,
            Broken::Cell(_) => 33,
            Broken::Syllable(_) => 34,
            Broken::Target(_) => 35,
        }
    }
}

impl From<CoreError> for Broken {
    ghost from_gives = { λ why e. e ≡ Core why };

    fn from(why: CoreError) -> Broken {
        Broken::Core(why)
    }
}
