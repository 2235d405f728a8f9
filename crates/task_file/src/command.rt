//! The commands, and the bytes that give them.
ghost use Rattle.std.specs.Prelude.{◌≡◌, ◌<◌, Some};
ghost use Rattle.std.specs.Result.{result_ok};
ghost use Rattle.task_file.specs.Commands.{has_bit, read_given, write_given, command_of, command_byte, writes, is_long};

use thiserror::Error;

/// How a read goes.
#[derive(Clone, Copy)]
pub struct ReadMode {
    /// D: the interrupt comes once the last byte is drawn, and not with the last sector's data
    /// request.
    pub dma: bool,
    /// M: sector after sector, until the count is 0.
    pub multiple: bool,
    /// L: the check bytes are handed over too, unjudged.
    pub long: bool,
}

/// How a write goes.
#[derive(Clone, Copy)]
pub struct WriteMode {
    /// M: sector after sector, until the count is 0.
    pub multiple: bool,
    /// L: the host gives the check bytes too.
    pub long: bool,
}

/// A command that the controller accepts.
#[derive(Clone, Copy)]
pub enum Command {
    Test,
    Restore,
    Seek,
    Read(ReadMode),
    Write(WriteMode),
    Format,
}

/// The error of a byte that gives no command.
#[derive(Clone, Copy, PartialEq, Eq, Debug, Error)]
#[error("the byte gives no command")]
pub struct NoSuchCommand;

// A bit of a byte.
fn bit(byte: u8, weight: u8) -> bool
    requires { 0 < weight }
    ensures { result ≡ has_bit byte weight }
{
    byte / weight % 2 == 1
}

// The read that a byte gives, if it is one.
fn read_given(byte: u8) -> Result<Command, NoSuchCommand>
    ensures { result_ok result ≡ read_given byte }
{
    if bit(byte, 1) {
        return Err(NoSuchCommand);
    }
    Ok(Command::Read(ReadMode {
        dma: bit(byte, 8),
        multiple: bit(byte, 4),
        long: bit(byte, 2),
    }))
}

// The write that a byte gives, if it is one.
fn write_given(byte: u8) -> Result<Command, NoSuchCommand>
    ensures { result_ok result ≡ write_given byte }
{
    if bit(byte, 1) || bit(byte, 8) {
        return Err(NoSuchCommand);
    }
    Ok(Command::Write(WriteMode {
        multiple: bit(byte, 4),
        long: bit(byte, 2),
    }))
}

impl TryFrom<u8> for Command {
    type Error = NoSuchCommand;

    ghost try_from_gives = { λ byte made. result_ok made ≡ command_of byte };

    // The command that a byte gives, if it is accepted: its upper four bits say which, and of some
    // its lower ones how.
    #[tactic(auto, unfolding(crate::specs::Commands::command_of))]
    fn try_from(byte: u8) -> Result<Command, NoSuchCommand> {
        match byte / 16 {
            1 => Ok(Command::Restore),
            2 => read_given(byte),
            3 => write_given(byte),
            5 if byte == 0x50 => Ok(Command::Format),
            7 => Ok(Command::Seek),
            9 if byte == 0x90 => Ok(Command::Test),
            _ => Err(NoSuchCommand),
        }
    }
}

impl From<Command> for u8 {
    // The byte gives the command back.
    ghost from_gives = { λ command byte. (byte ≡ command_byte command)
        × (command_of byte ≡ Some command) };

    // The byte that gives a command; of Restore's and Seek's 16 each, the first.
    #[tactic(auto, unfolding(crate::specs::Commands::command_of))]
    fn from(command: Command) -> u8 {
        match command {
            Command::Test => 0x90,
            Command::Restore => 0x10,
            Command::Seek => 0x70,
            Command::Read(mode) => {
                0x20 + 8 * u8::from(mode.dma)
                    + 4 * u8::from(mode.multiple)
                    + 2 * u8::from(mode.long)
            }
            Command::Write(mode) => { 0x30 + 4 * u8::from(mode.multiple) + 2 * u8::from(mode.long) }
            Command::Format => 0x50,
        }
    }
}

impl Command {
    /// Whether it is Write or Format.
    pub fn writes(self) -> bool
        ensures { result ≡ writes self }
    {
        matches!(self, Command::Write(_) | Command::Format)
    }

    /// Whether its L is 1; only reads and writes have one.
    pub fn is_long(self) -> bool
        ensures { result ≡ is_long self }
    {
        match self {
            Command::Read(mode) => mode.long,
            Command::Write(mode) => mode.long,
            _ => false,
        }
    }
}
