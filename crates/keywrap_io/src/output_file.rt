//! The file of --output: written whole beside the old file, and then renamed to its name.

use crate::protected::Protected;
use crate::reason::Reason;
use std::alloc::{AllocError, Global};
use std::fs::{self, File, FileType, Metadata, OpenFile, OpenOptions, Permissions};
use std::io;
use std::os::unix::fs::{MetadataExt, OpenOptionsExt, PermissionsExt, fchown};
use std::rt::Files;

// Until the new file is whole, it has a temporary name. This many names are tried.
const MAX_TEMPORARIES: u8 = 100;

// The permission bits of a mode, and the permission bits for users other than the owner.
const PERMISSIONS: u32 = 0o777;

const NOT_OWNER: u32 = 0o077;

/// Who may use a new file.
#[derive(Clone, Copy)]
pub enum Access {
    /// Its owner.
    Private,
    /// It gets the owner, group and mode of the file that it replaces, if there is one.
    LikeOld,
}

/// A new file. Once it is whole, it replaces the old file, if there is one.
#[derive(Drop)]
pub struct OutputFile<F = File> {
    /// The new file.
    pub file: F,
    temporary: String,
}

impl OutputFile {
    /// Makes the new file in the directory of the name that it will take. A file that already has
    /// the name must be a regular file and not protected.
    pub fn create<R: AllocGlobal + Files<File = File>>(
        rt: &R,
        name: &str,
        protected: &Protected,
        access: Access,
    ) -> Result<OutputFile, Reason> {
        let old = existing_target(rt, name, protected)?;
        let new = create_temporary(rt, name)?;
        let is_set = match (old, access) {
            (Some(old), Access::LikeOld) => copy_ownership(&new.file, &old),
            (_, Access::LikeOld | Access::Private) => is_private(&new.file),
        };
        let error = match is_set {
            Ok(true) => return Ok(new),
            Ok(false) => None,
            Err(error) => error.raw_os_error(),
        };
        new.discard(rt);
        Err(Reason::OwnershipNotKept(error))
    }

    /// Syncs the new file, which is whole, renames it to the name that it was made for, and syncs
    /// its directory.
    pub fn commit<R: Files<File = File>>(&self, rt: &R, name: &str) -> Result<(), Reason> {
        if let Err(reason) = self.replace_target(rt, name) {
            self.discard(rt);
            return Err(reason);
        }
        Ok(sync_parent_directory(rt, name)?)
    }

    fn replace_target<R: Files<File = File>>(&self, rt: &R, name: &str) -> Result<(), Reason> {
        self.file.sync_all()?;
        if !self.has_its_name(rt)? {
            return Err(Reason::Text("the new file lost its name"));
        }
        Ok(fs::rename(rt, self.temporary.as_str(), name)?)
    }

    // Returns whether the new file still has the name that it was made under. If someone removed
    // it, the file of another run may have this name now.
    fn has_its_name<R: Files<File = File>>(&self, rt: &R) -> io::Result<bool> {
        match rt.symlink_metadata(self.temporary.as_str()) {
            Ok(found) => {
                let own = self.file.metadata()?;
                Ok(own.dev() == found.dev() && own.ino() == found.ino())
            }
            Err(error) if error.kind() == io::ErrorKind::NotFound => Ok(false),
            Err(error) => Err(error),
        }
    }

    /// Removes the new file if possible, also if it is unknown whether it still has its name.
    pub fn discard<R: Files<File = File>>(&self, rt: &R) {
        if !matches!(self.has_its_name(rt), Ok(false)) {
            let _ = fs::remove_file(rt, self.temporary.as_str());
        }
    }
}

// Makes a file with the first temporary name that is free.
fn create_temporary<R: AllocGlobal + Files<File = File>>(
    rt: &R,
    name: &str,
) -> Result<OutputFile, Reason> {
    for number in 0..MAX_TEMPORARIES {
        let temporary = temporary_name(rt.alloc(), name, number)?;
        match open_new(rt, temporary.as_str()) {
            Ok(file) => {
                return Ok(OutputFile { file, temporary });
            }
            Err(error) if error.kind() == io::ErrorKind::AlreadyExists => {}
            Err(error) => return Err(Reason::from(error)),
        }
    }
    Err(Reason::Text("files of its name with .part0 to .part99 are there"))
}

fn temporary_name(alloc: Global, name: &str, number: u8) -> Result<String, AllocError> {
    format!(in alloc; "{name}.part{number}")
}

// Opens a file that did not exist, for its owner only.
fn open_new<R: Files<File = File>>(rt: &R, name: &str) -> io::Result<File> {
    OpenOptions::new()
        .write(true)
        .create_new(true)
        .mode(0o600)
        .open(rt, name)
}

// Returns the file that will be replaced, if one exists.
fn existing_target<R: Files<File = File>>(
    rt: &R,
    name: &str,
    protected: &Protected,
) -> Result<Option<Metadata>, Reason> {
    if name.is_empty() {
        return Err(Reason::NameOnly);
    }
    match rt.symlink_metadata(name) {
        Ok(old) if !old.is_file() => Err(Reason::Text(describe_type(&old.file_type()))),
        Ok(old) => {
            protected.check(&old)?;
            Ok(Some(old))
        }
        Err(error) if error.kind() == io::ErrorKind::NotFound => Ok(None),
        Err(error) => Err(Reason::from(error)),
    }
}

fn describe_type(file_type: &FileType) -> &'static str {
    if file_type.is_dir() {
        "is a directory"
    } else if file_type.is_symlink() {
        "is a link"
    } else {
        "is a device, pipe or socket"
    }
}

// Gives a new file the owner, the group and then the permissions of an old one, and returns whether
// it has them. Values that are already right are not set, since some file systems refuse that.
fn copy_ownership(new: &File, old: &Metadata) -> io::Result<bool> {
    let made = new.metadata()?;
    let owner = (made.uid() != old.uid()).then_some(old.uid());
    let group = (made.gid() != old.gid()).then_some(old.gid());
    if owner.is_some() || group.is_some() {
        fchown(new, owner, group)?;
    }
    let permissions = old.mode() & PERMISSIONS;
    if made.mode() & PERMISSIONS != permissions {
        new.set_permissions(Permissions::from_mode(permissions))?;
    }
    // Some file systems accept a change and do nothing.
    let set = new.metadata()?;
    let has_owners = set.uid() == old.uid() && set.gid() == old.gid();
    Ok(has_owners && set.mode() & PERMISSIONS == permissions)
}

// Returns whether a new file is for its owner only: some file systems have one mode for all files.
fn is_private(new: &File) -> io::Result<bool> {
    Ok(new.metadata()?.mode() & NOT_OWNER == 0)
}

// Syncs the directory of a file, so that the new name is on the disk. Some directories cannot be
// opened, and some file systems cannot sync a directory.
fn sync_parent_directory<R: Files<File = File>>(rt: &R, name: &str) -> io::Result<()> {
    let Ok(directory) = fs::open(rt, parent_directory(name)) else {
        return Ok(());
    };
    directory.sync_all().or_else(|error| match error.kind() {
        io::ErrorKind::InvalidInput | io::ErrorKind::Unsupported => Ok(()),
        _ => Err(error),
    })
}

// Returns the name up to its last slash.
fn parent_directory(name: &str) -> &str {
    if name.contains('/') {
        name.trim_end_matches(|c| c != '/')
    } else {
        "."
    }
}
