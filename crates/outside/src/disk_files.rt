//! The files of the system.

ghost use Rattle.std.specs.Prelude.{◌≡◌, ◌≤◌, ℕ, IfOk, OnErr, Err, is_err, length, if◌then◌else◌};
ghost use Rattle.outside.specs.Causes.{Rose, next_count};
ghost use Rattle.outside.specs.Contents.{most_file_bytes, is_failed};
ghost use Rattle.outside.specs.declared.files.FileRefused.{FileRefused};

use crate::files::{FileRefused, Files, MOST_FILE_BYTES};
use crate::port::Failed;
use std::alloc::Global;
use std::fs;
use std::fs::{File, OpenFile};
use std::io::{ErrorKind, Read, Write};
use std::marker::Model;
use wire_base::Blob;

/// The system's files by their paths, in UTF-8, seen as the count of failures. They tell nothing of names or contents.
/// What isn't there, may not be read or is a folder fails; of what is longer than a file may be, one byte more is read.
#[derive(Drop)]
pub struct DiskFiles<'a, R: fs::Files> {
    files: &'a R,
    faults: u64,
}

impl<'a, R: fs::Files> Model for DiskFiles<'a, R> {
    ghost use Rattle.std.specs.Prelude.{ℕ};

    ghost Value = { ℕ };

    ghost view = { λ f. f.faults };
}

impl<'a, R: fs::Files> DiskFiles<'a, R> {
    /// Nothing has failed yet.
    pub fn new(files: &'a R) -> Self
        ensures { result ≡ 0 }
    {
        DiskFiles { files, faults: 0 }
    }
}

impl<R: fs::Files> Files for DiskFiles<'_, R> {
    ghost use Rattle.std.specs.Prelude.{None};

    ghost faults = { λ f. f };

    ghost contents = { λ f. None };

    ghost reads = { λ f. None };

    ghost writes = { λ f. None };

    fn read(&mut self, alloc: Global, name: &[u8]) -> Result<Blob, FileRefused>
        ensures cause { result ≡ Err FileRefused.Failed → Rose self.old self.new }
        ensures faults { self.old ≤ self.new }
        ensures limit { IfOk result (λ content. length content ≤ most_file_bytes) }
        ensures counts { self.new ≡ (if is_failed result then next_count self.old else self.old) }
    {
        match content(alloc, self.files, name) {
            Err(FileRefused::Failed) => {
                self.faults = self.faults.saturating_add(1);
                Err(FileRefused::Failed)
            }
            read => read,
        }
    }

    fn write(&mut self, name: &[u8], bytes: &[u8]) -> Result<(), Failed>
        ensures cause { OnErr result (Rose self.old self.new) }
        ensures faults { self.old ≤ self.new }
        ensures counts { self.new ≡ (if is_err result then next_count self.old else self.old) }
    {
        if replaces(self.files, name, bytes) {
            return Ok(());
        }
        self.faults = self.faults.saturating_add(1);
        Err(Failed)
    }
}

/// The most bytes of a path that is written.
const MOST_PATH_BYTES: usize = 4096;

/// What is appended to a path for the file that is written beside it.
const BESIDE: [u8; 4] = *b".new";

/// Whether the file was replaced: the bytes are written beside it, and that file is then renamed, so that a stop in
/// between leaves the old one. Then the system is told to keep the folder, so that the renamed file outlives a power
/// cut.
fn replaces<R: fs::Files>(files: &R, name: &[u8], bytes: &[u8]) -> bool {
    if name.len() > MOST_PATH_BYTES {
        return false;
    }
    let mut beside = [0; MOST_PATH_BYTES + BESIDE.len()];
    beside[..name.len()].copy_from_slice(name);
    beside[name.len()..name.len() + BESIDE.len()].copy_from_slice(&BESIDE);
    let Ok(beside) = str::from_utf8(&beside[..name.len() + BESIDE.len()]) else {
        return false;
    };
    let Ok(path) = str::from_utf8(name) else {
        return false;
    };
    if writes(files, path, beside, bytes) && fs::rename(files, beside, path).is_ok() {
        return keeps_folder(files, folder_of(path));
    }
    let _removed = fs::remove_file(files, beside);
    false
}

/// Whether the file beside was written, with the permissions of the old one where there is one, and the system told to
/// keep it.
fn writes<R: fs::Files>(files: &R, path: &str, beside: &str, bytes: &[u8]) -> bool {
    let Ok(mut file) = File::create(files, beside) else {
        return false;
    };
    if let Ok(known) = fs::metadata(files, path) {
        if file.set_permissions(known.permissions()).is_err() {
            return false;
        }
    }
    file.write_all(bytes).is_ok() && file.sync_all().is_ok()
}

/// The folder of a file: its path up to the last `/`.
fn folder_of(path: &str) -> &str {
    match path.rsplit_once('/') {
        None => ".",
        Some(("", _)) => "/",
        Some((folder, _)) => folder,
    }
}

/// Whether the system wrote down the names of the folder's files.
fn keeps_folder<R: fs::Files>(files: &R, folder: &str) -> bool {
    match File::open(files, folder) {
        Ok(folder) => folder.sync_all().is_ok(),
        Err(_) => false,
    }
}

/// The whole content of the file.
fn content<R: fs::Files>(alloc: Global, files: &R, name: &[u8]) -> Result<Blob, FileRefused>
    ensures { IfOk result (λ content. length content ≤ most_file_bytes) }
{
    let Ok(path) = str::from_utf8(name) else {
        return Err(FileRefused::Failed);
    };
    let Ok(file) = File::open(files, path) else {
        return Err(FileRefused::Failed);
    };
    let mut bytes = Vec::new(alloc);
    match file
        .take(MOST_FILE_BYTES as u64 + 1)
        .read_to_end(&mut bytes)
    {
        Ok(_) if bytes.len() > MOST_FILE_BYTES => Err(FileRefused::TooLong),
        Ok(_) => Ok(Blob::from_vec(bytes)),
        Err(error) if error.kind() == ErrorKind::OutOfMemory => Err(FileRefused::Memory),
        Err(_) => Err(FileRefused::Failed),
    }
}
