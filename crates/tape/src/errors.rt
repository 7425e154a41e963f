// Why a file and a core do not become one another.
ghost use Rattle.std.specs.Prelude.{◌≡◌};
ghost use Rattle.tape.specs.Files.{read_error_number, write_error_number};
ghost use Rattle.tape.specs.declared.errors.WriteError.TheVariants.{Core};

use word::CoreError;

// Why a file is not read.
#[derive(Clone, Copy, Debug, PartialEq, Eq)]
pub enum ReadError {
    // 4: the file's length is not a multiple of six.
    Records,
    // 1: the file has no words, over 32,768, or another count than the core.
    Length,
}

// The number given back.
impl From<ReadError> for u64 {
    ghost from_gives = { λ e n. n ≡ read_error_number e };

    fn from(why: ReadError) -> u64 {
        match why {
            ReadError::Records => 4,
            ReadError::Length => 1,
        }
    }
}

// Why a core is not written.
#[derive(Clone, Copy, Debug, PartialEq, Eq)]
pub enum WriteError {
    // 1 or 2: the core is none.
    Core(CoreError),
    // 4: the room is not six bytes for each word.
    Room,
}

// The number given back.
impl From<WriteError> for u64 {
    ghost from_gives = { λ e n. n ≡ write_error_number e };

    fn from(why: WriteError) -> u64 {
        match why {
            WriteError::Core(core) => u64::from(core),
            WriteError::Room => 4,
        }
    }
}

impl From<CoreError> for WriteError {
    ghost from_gives = { λ why e. e ≡ Core why };

    fn from(why: CoreError) -> WriteError {
        WriteError::Core(why)
    }
}
