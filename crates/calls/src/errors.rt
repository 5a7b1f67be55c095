// Why a call of the system failed, in words.
use crate::output::Descriptor;
use crate::results::Failure;
use std::fmt;
use std::fmt::Write;
use std::io::Error;

fn tell(mut err: Descriptor, what: &[u8], reason: &str) -> fmt::Result {
    err.put(what)?;
    writeln!(err, ": {reason}")
}

// A line: what failed, and why by its errno.
pub fn failed(err: Descriptor, what: &[u8], why: Error) -> Failure {
    let reason = match why.raw_os_error() {
        Some(2) => "No such file or directory",
        Some(13) => "Permission denied",
        Some(20) => "Not a directory",
        Some(21) => "Is a directory",
        Some(28) => "No space left on device",
        Some(30) => "Read-only file system",
        Some(36) => "File name too long",
        _ => "it cannot be read or written",
    };
    let _ = tell(err, what, reason);
    Failure
}
