//! A new file that replaces another one once it is complete.
use escaped_text::Escaped;
use std::fs::{File, Metadata, OpenOptions};
use std::io::Write;
use std::os::unix::fs::{MetadataExt, OpenOptionsExt, chown};
use std::path::{Path, PathBuf};
use std::{fs, io};

/// A new file that replaces another one once it is complete. It is created when the first bytes are written, so that a
/// run that is killed while it reads leaves nothing.
#[derive(Drop)]
pub struct LateReplacement<'p> {
    rt: HostRuntime,
    path: &'p str,
    /// The new file. `None` means that nothing was written.
    replacement: Option<Replacement>,
}

impl<'p> LateReplacement<'p> {
    /// Returns the replacement of the file at `path`. Creates nothing.
    pub fn new(rt: &HostRuntime, path: &'p str) -> LateReplacement<'p> {
        LateReplacement {
            rt: *rt,
            path,
            replacement: None,
        }
    }

    /// Renames the new file to the path. If it replaces a file there, it is on the disk first.
    pub fn put(self) -> io::Result<()> {
        let rt = self.rt;
        match self.replacement {
            Some(replacement) => replacement.put(&rt),
            None => Ok(()),
        }
    }

    /// Removes the new file.
    pub fn remove(self) {
        let rt = self.rt;
        if let Some(replacement) = self.replacement {
            replacement.remove(&rt);
        }
    }
}

impl Write for LateReplacement<'_> {
    fn write(&mut self, bytes: &[u8]) -> io::Result<usize> {
        if let Some(replacement) = &mut self.replacement {
            return replacement.file.write(bytes);
        }
        let mut replacement = Replacement::create(&self.rt, self.path)?;
        let written = replacement.file.write(bytes);
        self.replacement = Some(replacement);
        written
    }

    fn flush(&mut self) -> io::Result<()> {
        match &mut self.replacement {
            Some(replacement) => replacement.file.flush(),
            None => Ok(()),
        }
    }
}

/// A new file that replaces another one once it is complete.
#[derive(Drop)]
struct Replacement {
    path: PathBuf,
    beside: String,
    /// The new file.
    file: File,
    /// Whether there is an old file. It would be lost if the machine stopped before the new one is on the disk.
    replaces_file: bool,
}

impl Replacement {
    /// Creates a new file beside the file at `path`, or beside the target if `path` is a link. Copies the owner, if
    /// that is allowed, and the permissions.
    fn create(rt: &HostRuntime, path: &str) -> io::Result<Replacement> {
        let path = follow_links(rt, path)?;
        match fs::metadata(rt, path.as_str()) {
            Ok(old) => {
                // Nobody else may read the file before it has the permissions of the old one.
                let (beside, file) = create_beside(rt, path.as_str(), 0o600)?;
                let replacement = Replacement {
                    path,
                    beside,
                    file,
                    replaces_file: true,
                };
                replacement.copy_permissions(rt, old)
            }
            Err(error) if error.kind() == io::ErrorKind::NotFound => {
                let (beside, file) = create_beside(rt, path.as_str(), 0o666)?;
                Ok(Replacement {
                    path,
                    beside,
                    file,
                    replaces_file: false,
                })
            }
            Err(error) => Err(error),
        }
    }

    /// Gives the new file the owner of the old one, if that is allowed, and its permissions.
    fn copy_permissions(self, rt: &HostRuntime, old: Metadata) -> io::Result<Replacement> {
        let _ = chown(rt, self.beside.as_str(), Some(old.uid()), Some(old.gid()));
        match self.file.set_permissions(old.permissions()) {
            Ok(()) => Ok(self),
            Err(error) => {
                self.remove(rt);
                Err(error)
            }
        }
    }

    /// Renames the new file to the path. If it replaces a file there, it is on the disk first.
    fn put(self, rt: &HostRuntime) -> io::Result<()> {
        let result = self.sync_and_rename(rt);
        if result.is_err() {
            self.remove(rt);
        }
        result
    }

    fn sync_and_rename(&self, rt: &HostRuntime) -> io::Result<()> {
        if self.replaces_file {
            self.file.sync_all()?;
        }
        fs::rename(rt, self.beside.as_str(), self.path.as_str())
    }

    /// Removes the new file.
    fn remove(self, rt: &HostRuntime) {
        let _ = fs::remove_file(rt, self.beside.as_str());
    }
}

/// Creates a new file beside `path` with these permissions, and returns its name with it.
///
/// If the name is taken, tries the next one, and says so: another run may be writing that file, or it was killed.
fn create_beside(rt: &HostRuntime, path: &str, mode: u32) -> io::Result<(String, File)> {
    let mut options = OpenOptions::new();
    options.write(true).create_new(true).mode(mode);
    let begun = shortened(path);
    for number in 0..u32::MAX {
        let beside = format!(in rt.alloc(); "{begun}.{number}.wasmcanon")?;
        match options.open(rt, beside.as_str()) {
            Ok(file) => return Ok((beside, file)),
            Err(error) if error.kind() == io::ErrorKind::AlreadyExists => {
                let name = Escaped(beside.as_str());
                let _ = eprintln!(rt;
                    "warning: {name}: left by a killed run, or in use: remove it if no other run writes there"
                );
            }
            Err(error) => return Err(error),
        }
    }
    Err(io::Error::from(io::ErrorKind::AlreadyExists))
}

/// Number of bytes that the name of a new file takes over. File systems take names of at most 255 bytes.
const MOST_TAKEN: usize = 200;

/// Returns a path without the end of a long name.
fn shortened(path: &str) -> &str {
    let name = Path::new(path).file_name().unwrap_or(path);
    let most = path
        .len()
        .saturating_sub(name.len())
        .saturating_add(MOST_TAKEN);
    // A character has at most four bytes.
    for less in 0..4 {
        if let Some(begun) = path.get(..most.saturating_sub(less)) {
            return begun;
        }
    }
    path
}

/// Number of symbolic links to follow, as Linux does.
const MOST_LINKS: u32 = 40;

/// Follows symbolic links from `path`, even if the last target doesn't exist. Returns `path` if it is no link.
///
/// Fails with `FilesystemLoop` if there are too many links.
fn follow_links(rt: &HostRuntime, path: &str) -> io::Result<PathBuf> {
    let mut path = PathBuf::from_str(rt.alloc(), path)?;
    for _ in 0..MOST_LINKS {
        let is_link = fs::symlink_metadata(rt, path.as_str()).is_ok_and(
            |metadata| metadata.is_symlink(),
        );
        if !is_link {
            return Ok(path);
        }
        let target = fs::read_link(rt, path.as_str())?;
        path = match Path::new(path.as_str()).parent() {
            Some(folder) => folder.join(rt.alloc(), target)?,
            None => target,
        };
    }
    Err(io::Error::from(io::ErrorKind::FilesystemLoop))
}
