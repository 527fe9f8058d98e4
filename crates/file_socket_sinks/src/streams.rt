//! The standard streams that are closed when the program starts.

use std::fs::File;
use std::io;
use std::os::fd::{AsFd, IntoRawFd};

/// What the system says of a descriptor that is not open.
const NOT_OPEN: i32 = 9;

/// A directory, of which nothing is read and to which nothing is written, in any mode.
const UNREADABLE: &str = "/";

// Takes the place of a stream that is closed. The streams before it are open, so its number is the lowest that is free.
fn take_place<S: AsFd>(rt: &HostRuntime, stream: &S) -> io::Result<()> {
    match stream.as_fd().try_clone_to_owned() {
        Err(e) if e.raw_os_error() == Some(NOT_OPEN) => {
            let _ = File::open(rt, UNREADABLE)?.into_raw_fd();
            Ok(())
        }
        _ => Ok(()),
    }
}

/// Takes the places of standard input, output and error, where these are closed, before anything else is opened: a
/// file that is opened later would stand there. Each read and write of a stream that was closed fails from then on.
pub fn take_closed_streams(rt: &HostRuntime) -> io::Result<()> {
    take_place(rt, &rt.stdin())?;
    take_place(rt, &rt.stdout())?;
    take_place(rt, &rt.stderr())
}
