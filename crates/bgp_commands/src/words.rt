//! The status of a command line that spells no command.

ghost use Rattle.std.specs.Prelude.{◌≡◌, ◌≢◌, ◌⊎◌};
ghost use Rattle.clap.specs.Words.{kind_of};

use bgp_tool::Status;
use clap::Error;
use clap::error::ErrorKind;

/// The status of words that are no command: 0 where help or the version was asked for.
pub fn words_status(error: &Error) -> Status
    ensures asked { (kind_of error.now ≡ ErrorKind.DisplayHelp)
        ⊎ (kind_of error.now ≡ ErrorKind.DisplayVersion) → result ≡ Status.Done }
    ensures memory { kind_of error.now ≡ ErrorKind.OutOfMemory → result ≡ Status.Memory }
    ensures usage { kind_of error.now ≢ ErrorKind.DisplayHelp
        → kind_of error.now ≢ ErrorKind.DisplayVersion
        → kind_of error.now ≢ ErrorKind.OutOfMemory → result ≡ Status.Usage }
{
    match error.kind() {
        ErrorKind::DisplayHelp | ErrorKind::DisplayVersion => Status::Done,
        ErrorKind::OutOfMemory => Status::Memory,
        _ => Status::Usage,
    }
}
