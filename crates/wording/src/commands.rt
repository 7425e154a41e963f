// The word that a command is given by.
ghost use Rattle.std.specs.Prelude.{◌≡◌};
ghost use Rattle.wording.specs.Commands.{counted_of, command_of};

#[derive(Clone, Copy, Debug, PartialEq, Eq)]
pub enum Command {
    Run,
    Inspect,
    Help,
}

// Unknown is no word of ours; Miscounted is one of ours with too few or too many arguments.
#[derive(Clone, Copy, Debug, PartialEq, Eq)]
pub enum CommandError {
    Unknown,
    Miscounted,
}

// The command of a word, in a call of `count` arguments, the program's own name among them.
#[tactic(auto, unfolding(crate::specs::Commands::command_of, crate::proofs::Choices::choosing))]
pub fn command_of(text: &[u8], count: usize) -> Result<Command, CommandError>
    ensures { result ≡ command_of text.now count }
{
    match text {
        b"run" => counted(Command::Run, count, 4, 6),
        b"inspect" => counted(Command::Inspect, count, 4, 4),
        b"help" => Ok(Command::Help),
        _ => Err(CommandError::Unknown),
    }
}

#[tactic(auto, unfolding(crate::specs::Commands::counted_of, crate::proofs::Choices::choosing))]
fn counted(c: Command, count: usize, least: usize, most: usize) -> Result<Command, CommandError>
    ensures { result ≡ counted_of c count least most }
{
    if count < least || most < count {
        return Err(CommandError::Miscounted);
    }
    Ok(c)
}
