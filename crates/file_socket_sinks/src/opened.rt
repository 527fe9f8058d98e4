//! What is open, and may not be opened again.

ghost use Rattle.std.specs.Prelude.{◌≡◌, [], List};
ghost use Rattle.file_socket_sinks.specs.Once.{OpensOnce};

use std::alloc::Global;
use std::fs::Metadata;
use std::io::ErrorKind;
use std::os::unix::fs::{FileTypeExt, MetadataExt};
use std::{fs, io};

/// What the system calls the standard streams.
const INPUT: &str = "/proc/self/fd/0";

const OUTPUT: &str = "/proc/self/fd/1";

const ERROR: &str = "/proc/self/fd/2";

/// What is opened once at most: standard input, and a file, by its device and its number there.
#[derive(Clone, Copy, PartialEq, Eq)]
pub enum Identity {
    Input,
    File { device: u64, inode: u64 },
}

fn identity_of(metadata: &Metadata) -> Identity {
    Identity::File {
        device: metadata.dev(),
        inode: metadata.ino(),
    }
}

// Whether the file is what a standard stream writes to.
fn is_stream(rt: &HostRuntime, stream: &str, file: Identity) -> bool {
    match fs::metadata(rt, stream) {
        Ok(metadata) => identity_of(&metadata) == file,
        Err(_) => false,
    }
}

/// The files that were opened and are still open.
#[derive(Drop)]
pub struct OpenFiles {
    identities: Vec<Identity>,
}

impl OpenFiles {
    pub fn new(alloc: Global) -> OpenFiles
        ensures { result.identities.items ≡ [] }
    {
        OpenFiles {
            identities: Vec::new(alloc),
        }
    }

    // Notes what is opened. What is open already is `ResourceBusy`.
    fn add(&mut self, identity: Identity) -> io::Result<()>
        ensures { OpensOnce result identity self.old.identities.items self.new.identities.items }
    {
        if self.identities.contains(&identity) {
            return Err(io::Error::from(ErrorKind::ResourceBusy));
        }
        self.identities.push(identity)?;
        Ok(())
    }

    /// Notes a file that is to be read. Two readers of one FIFO would tear its lines, so it is open once as a regular
    /// file is.
    pub fn add_source(&mut self, metadata: &Metadata) -> io::Result<()> {
        if metadata.is_file() || metadata.file_type().is_fifo() {
            self.add(identity_of(metadata))?;
        }
        Ok(())
    }

    /// Notes standard input, and the file that it is where the system tells it.
    pub fn add_input(&mut self, rt: &HostRuntime) -> io::Result<()> {
        self.add(Identity::Input)?;
        match fs::metadata(rt, INPUT) {
            Ok(metadata) => self.add_source(&metadata),
            Err(_) => Ok(()),
        }
    }

    /// Notes a regular file that is to be written. One that standard output or standard error goes to is open.
    pub fn add_sink(&mut self, rt: &HostRuntime, metadata: &Metadata) -> io::Result<()> {
        let file = identity_of(metadata);
        if is_stream(rt, OUTPUT, file) || is_stream(rt, ERROR, file) {
            return Err(io::Error::from(ErrorKind::ResourceBusy));
        }
        self.add(file)
    }
}
