//! The file of the marks. What the system does with it no proof can speak of.

use crate::marks::{BEGUN, MOST_MARKS, mark_at_end};
use std::alloc::Global;
use std::io::ErrorKind;
use std::os::fd::RawFd;
use std::os::unix::fs::MetadataExt;
use std::rt::{Env, Files};
use std::{env, fs, io};

/// The folders in which a launcher may make the file, whose name is gone at once: the first one that takes it.
const FOLDERS: [&str; 2] = ["/dev/shm", "/tmp"];

/// The variable by which a process is told where the file is.
pub const VARIABLE: &str = "KOMBAZILY_STANDSTILL";

/// How many random bytes name the file for a moment.
const NAME: usize = 8;

/// An open file with a mark for each rank of a job.
#[derive(Clone, Copy, Debug)]
pub struct MarkFile {
    fd: RawFd,
}

/// A number that can't be foretold.
fn random_number() -> io::Result<u64> {
    let mut bytes = [0u8; NAME];
    if libc::getentropy(&mut bytes) != 0 {
        return Err(io::Error::from(ErrorKind::Unsupported));
    }
    Ok(u64::from_le_bytes(bytes))
}

/// A file in this folder that nobody had, open, and without a name any more.
fn made_in(alloc: Global, folder: &str) -> io::Result<RawFd> {
    let number = random_number()?;
    let path = format!(in alloc; "{folder}/kombazily-{number}")?;
    let flags = libc::O_RDWR | libc::O_CREAT | libc::O_EXCL;
    let fd = os::open_with(path.as_bytes(), flags, 0o600);
    let _ = os::unlink(path.as_bytes());
    if fd < 0 {
        return Err(io::Error::from_raw_os_error(os::errno()));
    }
    Ok(fd)
}

/// Whether the file of this name is such a one, for so many ranks: a regular one of this user that has no name of its own,
/// and a byte for each rank. So no file of a user is ever written to.
fn is_of_marks<R: Files>(rt: &R, name: &str, size: u16) -> bool {
    match fs::metadata(rt, name) {
        Ok(found) => found.is_file()
            && found.nlink() == 0
            && found.uid() == libc::geteuid()
            && found.len() == u64::from(size),
        Err(_) => false,
    }
}

impl MarkFile {
    /// A file for so many ranks, of which none has begun. It stays open as long as this process lives.
    pub fn new(alloc: Global, size: u16) -> io::Result<MarkFile> {
        for folder in FOLDERS {
            let Ok(fd) = made_in(alloc, folder) else {
                continue;
            };
            let _ = libc::fchmod(fd, 0o600);
            if libc::ftruncate(fd, i64::from(size)) == 0 {
                return Ok(MarkFile { fd });
            }
            let _ = libc::close(fd);
        }
        Err(io::Error::from(ErrorKind::NotFound))
    }

    /// The file of this name, if it is one of the marks of so many ranks.
    pub fn open<R: Files>(rt: &R, name: &str, size: u16) -> Option<MarkFile> {
        if !is_of_marks(rt, name, size) {
            return None;
        }
        let fd = os::open_with(name.as_bytes(), libc::O_RDWR, 0);
        if fd < 0 { None } else { Some(MarkFile { fd }) }
    }

    /// The file of the marks of so many ranks that the environment of this process names, if it does.
    pub fn told<R: Env + Files + AllocGlobal>(rt: &R, size: u16) -> Option<MarkFile> {
        let name = env::var(rt, VARIABLE).ok()?;
        MarkFile::open(rt, name.as_str(), size)
    }

    /// Under which name other processes of this user can open it, as long as this one lives.
    pub fn name(&self, alloc: Global) -> io::Result<String> {
        let (own, fd) = (libc::getpid(), self.fd);
        Ok(format!(in alloc; "/proc/{own}/fd/{fd}")?)
    }

    /// The mark of a rank.
    fn mark_of(&self, rank: u16) -> u8 {
        let mut mark = [0u8; 1];
        let _ = libc::pread(self.fd, &mut mark, i64::from(rank));
        mark[0]
    }

    /// This process is a rank that has begun: it has its port.
    pub fn begin(&self, rank: u16) {
        let _ = libc::pwrite(self.fd, &[BEGUN], i64::from(rank));
    }

    /// The program of a rank has ended for good.
    pub fn end(&self, rank: u16) {
        if let Some(mark) = mark_at_end(self.mark_of(rank)) {
            let _ = libc::pwrite(self.fd, &[mark], i64::from(rank));
        }
    }

    /// The marks of all ranks, and zeros behind them.
    pub fn all(&self) -> [u8; MOST_MARKS] {
        let mut marks = [0u8; MOST_MARKS];
        let _ = libc::pread(self.fd, &mut marks, 0);
        marks
    }
}
