//! What a path names.
use std::fs;
use std::os::unix::fs::MetadataExt;

/// Checks whether `path` is a device, a pipe or a folder.
pub fn is_special(rt: &HostRuntime, path: &str) -> bool {
    fs::metadata(rt, path).is_ok_and(|metadata| !metadata.is_file())
}

/// Checks whether `path` names something.
pub fn exists(rt: &HostRuntime, path: &str) -> bool {
    fs::metadata(rt, path).is_ok()
}

/// Checks whether two paths name the same regular file.
pub fn is_same_file(rt: &HostRuntime, one: &str, other: &str) -> bool {
    match (fs::metadata(rt, one), fs::metadata(rt, other)) {
        (Ok(one), Ok(other)) => {
            one.is_file() && one.dev() == other.dev() && one.ino() == other.ino()
        }
        _ => false,
    }
}

/// Checks whether `path` is a folder.
pub fn is_folder(rt: &HostRuntime, path: &str) -> bool {
    fs::metadata(rt, path).is_ok_and(|metadata| metadata.is_dir())
}

/// Checks whether `path` is a file that nobody may write to.
pub fn is_read_only(rt: &HostRuntime, path: &str) -> bool {
    fs::metadata(rt, path).is_ok_and(|metadata| metadata.is_file()
        && metadata.permissions().readonly())
}
