//! Why a value is no command.

use ebl_base::NoMemory;

/// A member of a command. Which of them a command has depends on `do`.
#[derive(Clone, Copy, Debug, PartialEq, Eq)]
pub enum CommandField {
    /// `do`, `ATTACH` or the text of a kind of transaction, as `SIGN`.
    Do,
    /// `document`, any value: what a SIGN signs.
    Document,
    /// `bill`, a checksum: the bill of every command except SIGN.
    Bill,
    /// `recipient`, a party or no such member.
    Recipient,
    /// `name` of an attached document, 1 to 128 bytes of UTF-8 without control characters.
    Name,
    /// `media` type of an attached document, 1 to 64 bytes of UTF-8 without control characters.
    Media,
    /// `bytes` of an attached document, in base64 with padding (RFC 4648, section 4), of any length.
    Bytes,
}

/// Why a value isn't taken as a command.
#[derive(Clone, Copy, Debug, PartialEq, Eq)]
pub enum CommandFault {
    /// The first member that is absent or malformed. If the value is no object, it is `do`.
    CommandForm(CommandField),
    /// Memory ran out.
    NoMemory,
}

impl From<NoMemory> for CommandFault {
    ghost use Rattle.std.specs.Prelude.{◌≡◌};
    ghost use Rattle.holder_commands.specs.declared.fault.CommandFault.TheVariants as faults;

    ghost from_gives = { λ _ e. e ≡ faults.NoMemory };

    fn from(_: NoMemory) -> CommandFault {
        CommandFault::NoMemory
    }
}
