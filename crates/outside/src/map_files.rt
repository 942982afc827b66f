//! Files in memory.

ghost use Rattle.std.specs.Prelude.{◌≡◌, ◌≤◌, ◌<◌, [], ◌∷◌, true, IfOk, IfSome, OnOk, OnErr, is_err, length};
ghost use Rattle.std.specs.Option.{option_copied};
ghost use Rattle.std.specs.Str.{bytes_eq};
ghost use Rattle.wire_base.specs.Maps.{place_of, has_key, put, put_item};
ghost use Rattle.outside.specs.Causes.{Rose, next_count};
ghost use Rattle.outside.specs.Contents.{AnswersFrom, LeavesFiles, content_of, most_file_bytes, reading};
ghost use Rattle.outside.specs.Telling.{Appends, Tells};
ghost use Rattle.outside.specs.Scripts.{read_answer, copy_answer, ReadsFile, WritesFile, file_reads, file_writes, call_fails};
ghost use Rattle.wire_base.specs.Memory.{UpToMemory};

use crate::files::{FileRefused, Files, MOST_FILE_BYTES};
use crate::lists::Texts;
use crate::port::Failed;
use crate::script::is_listed;
use std::alloc::Global;
use std::marker::Model;
use wire_base::{Blob, Calls, NoMemory};

/// Names with contents, of which the first of a name counts. Its calls are counted from 0, and those that are listed
/// fail and raise its count of faults; so does one of a name that it doesn't have. A call that finds no memory for the
/// content changes nothing and isn't counted. Where it finds no memory to keep the name that was read, or what was
/// written, it reads or writes all the same and tells reads and writes no longer. A write that finds no memory for the
/// file fails.
#[derive(Drop)]
pub struct MapFiles {
    alloc: Global,
    files: Vec<(Blob, Blob)>,
    failing: Calls,
    calls: u64,
    faults: u64,
    reads: Vec<(Blob, bool)>,
    writes: Vec<(Blob, Blob, bool)>,
    tells: bool,
}

impl Model for MapFiles {
    ghost use Rattle.outside.specs.Scripts.{FilesScript};

    ghost Value = { FilesScript };

    ghost view = { λ f. record {
      files = f.files.items;
      failing = f.failing;
      calls = f.calls;
      faults = f.faults;
      reads = f.reads.items;
      writes = f.writes.items;
      tells = f.tells;
    } };
}

impl MapFiles {
    /// Files with these texts, of which no call was made, and of which these calls will fail.
    pub fn new(alloc: Global, files: Texts, failing: Calls) -> MapFiles
        ensures { result ≡ record {
          files = files;
          failing = failing;
          calls = 0;
          faults = 0;
          reads = [];
          writes = [];
          tells = true;
        } }
    {
        MapFiles {
            alloc,
            files: files.into_vec(),
            failing,
            calls: 0,
            faults: 0,
            reads: Vec::new(alloc),
            writes: Vec::new(alloc),
            tells: true,
        }
    }

    /// Whether the files still tell their reads and writes: none was lost for want of memory.
    pub fn tells(&self) -> bool
        ensures { result ≡ self.now.tells }
    {
        self.tells
    }

    /// Keeps the name of a read, or tells the reads no longer.
    fn keep(&mut self, name: &[u8], failed: bool)
        ensures kept { Appends (file_reads self.old) (file_reads self.new)
            ((name.now, failed) ∷ []) }
        ensures others { self.new ≡
            record self.old { reads = self.new.reads; tells = self.new.tells } }
    {
        let kept = match Blob::copy(self.alloc, name) {
            Ok(name) => self.reads.push((name, failed)).is_ok(),
            Err(_) => false,
        };
        if !kept {
            self.tells = false;
        }
    }

    /// Keeps the name and the bytes of a write, or tells the writes no longer.
    fn keep_write(&mut self, name: &[u8], bytes: &[u8], failed: bool)
        ensures kept { Appends (file_writes self.old) (file_writes self.new)
            ((name.now, bytes.now, failed) ∷ []) }
        ensures others { self.new ≡
            record self.old { writes = self.new.writes; tells = self.new.tells } }
    {
        let kept = match copied(self.alloc, name, bytes) {
            Ok((name, bytes)) => self.writes.push((name, bytes, failed)).is_ok(),
            Err(_) => false,
        };
        if !kept {
            self.tells = false;
        }
    }

    /// The file has these bytes from now on: in place of the first of its name, or at the end.
    fn put(&mut self, name: &[u8], bytes: &[u8]) -> Result<(), NoMemory>
        ensures put { OnOk result (self.new ≡
            record self.old { files = put bytes_eq name.now bytes.now self.old.files }) }
        ensures unchanged { OnErr result (self.new ≡ self.old) }
    {
        let (name, bytes) = copied(self.alloc, name, bytes)?;
        put_file(&mut self.files, name, bytes)
    }

    /// Counts and keeps a write that failed.
    fn fail_write(&mut self, name: &[u8], bytes: &[u8])
        ensures kept { Appends (file_writes self.old) (file_writes self.new)
            ((name.now, bytes.now, true) ∷ []) }
        ensures others { self.new ≡ record self.old {
          faults = next_count self.old.faults;
          writes = self.new.writes;
          tells = self.new.tells;
        } }
        ensures faults { self.old.faults ≤ self.new.faults }
    {
        self.faults = self.faults.saturating_add(1);
        self.keep_write(name, bytes, true);
    }
}

/// The file of that name has these bytes from now on: in place of the first of its name, or at the end.
#[tactic(auto, using(wire_base::proofs::MapLaws::put_at_place))]
fn put_file(files: &mut Vec<(Blob, Blob)>, name: Blob, bytes: Blob) -> Result<(), NoMemory>
    ensures put { OnOk result (files.new.items ≡ put bytes_eq name bytes files.old.items) }
    ensures unchanged { OnErr result (files.new.items ≡ files.old.items) }
{
    let place = place(files, name.bytes());
    put_at(files, place, (name, bytes))
}

/// The entries with this one at the place, or at the end.
fn put_at(
    files: &mut Vec<(Blob, Blob)>,
    place: Option<usize>,
    entry: (Blob, Blob),
) -> Result<(), NoMemory>
    requires { IfSome place (λ p. p < length files.old.items) }
    ensures put { OnOk result (files.new.items ≡ put_item place entry files.old.items) }
    ensures unchanged { OnErr result (files.new.items ≡ files.old.items) }
{
    match place {
        Some(place) => files[place] = entry,
        None => files.push(entry)?,
    }
    Ok(())
}

/// Copies of a name and of bytes.
fn copied(alloc: Global, name: &[u8], bytes: &[u8]) -> Result<(Blob, Blob), NoMemory>
    ensures { IfOk result (λ pair. (pair.0 ≡ name.now) × (pair.1 ≡ bytes.now)) }
{
    Ok((Blob::copy(alloc, name)?, Blob::copy(alloc, bytes)?))
}

/// Whether a file has that name.
fn has_name(file: &(Blob, Blob), name: &[u8]) -> bool
    ensures { result ≡ has_key bytes_eq name.now file.now }
{
    name == file.0.bytes()
}

/// The place of the first file of that name.
#[tactic(auto, using(wire_base::proofs::PlaceLaws::places))]
fn place(files: &[(Blob, Blob)], name: &[u8]) -> Option<usize>
    ensures place { result ≡ place_of (has_key bytes_eq name.now) files.now }
    ensures inside { IfSome result (λ p. p < length files.now) }
{
    for (index, file) in files.iter().enumerate() {
        if has_name(file, name) {
            return Some(index);
        }
    }
    None
}

/// The content of the first file of that name, if there is one.
fn content<'a>(files: &'a [(Blob, Blob)], name: &[u8]) -> Option<&'a [u8]>
    ensures { option_copied result ≡ content_of files.now name.now }
{
    for (known, content) in files {
        if name == known.bytes() {
            return Some(content.bytes());
        }
    }
    None
}

/// A copy of the content of the first file of that name.
fn copy_of(alloc: Global, files: &[(Blob, Blob)], name: &[u8]) -> Result<Blob, FileRefused>
    ensures { UpToMemory FileRefused.Memory result (copy_answer (content_of files.now name.now)) }
{
    match content(files, name) {
        None => Err(FileRefused::Failed),
        Some(content) if content.len() > MOST_FILE_BYTES => Err(FileRefused::TooLong),
        Some(content) => Ok(Blob::copy(alloc, content)?),
    }
}

impl Files for MapFiles {
    ghost use Rattle.std.specs.Prelude.{Some};
    ghost use Rattle.outside.specs.Scripts.{file_reads, file_writes};

    ghost faults = { λ f. f.faults };

    ghost contents = { λ f. Some f.files };

    ghost reads = { file_reads };

    ghost writes = { file_writes };

    fn read(&mut self, alloc: Global, name: &[u8]) -> Result<Blob, FileRefused>
        ensures cause { result ≡ Err FileRefused.Failed → Rose self.old.faults self.new.faults }
        ensures faults { self.old.faults ≤ self.new.faults }
        ensures limit { IfOk result (λ content. length content ≤ most_file_bytes) }
        ensures content { IfSome (Some self.old.files)
            (λ files. AnswersFrom files name.now result) }
        ensures contents { Some self.new.files ≡ Some self.old.files }
        ensures told { Appends (file_reads self.old) (file_reads self.new)
            (reading name.now result) }
        ensures writes { Appends (file_writes self.old) (file_writes self.new) [] }
        // Exactly the listed calls and those of an unknown name fail.
        ensures exact { UpToMemory FileRefused.Memory result (read_answer self.old name.now) }
        ensures after { ReadsFile self.old self.new result }
    {
        let answer = if is_listed(self.failing.items(), self.calls) {
            Err(FileRefused::Failed)
        } else {
            copy_of(alloc, &self.files, name)
        };
        if let Err(FileRefused::Memory) = answer {
            return answer;
        }
        let failed = matches!(answer, Err(FileRefused::Failed));
        self.calls = self.calls.saturating_add(1);
        if failed {
            self.faults = self.faults.saturating_add(1);
        }
        self.keep(name, failed);
        answer
    }

    fn write(&mut self, name: &[u8], bytes: &[u8]) -> Result<(), Failed>
        ensures cause { OnErr result (Rose self.old.faults self.new.faults) }
        ensures faults { self.old.faults ≤ self.new.faults }
        ensures contents { Tells (Some self.old.files) (Some self.new.files)
            (λ files now. LeavesFiles result name.now bytes.now files now) }
        ensures told { Appends (file_writes self.old) (file_writes self.new)
            ((name.now, bytes.now, is_err result) ∷ []) }
        ensures reads { Appends (file_reads self.old) (file_reads self.new) [] }
        // The listed calls fail, and those that find no memory.
        ensures listed { call_fails self.old.failing self.old.calls ≡ true → is_err result ≡ true }
        ensures after { WritesFile name.now bytes.now self.old self.new result }
    {
        let listed = is_listed(self.failing.items(), self.calls);
        self.calls = self.calls.saturating_add(1);
        if listed {
            self.fail_write(name, bytes);
            return Err(Failed);
        }
        match self.put(name, bytes) {
            Ok(()) => {
                self.keep_write(name, bytes, false);
                Ok(())
            }
            Err(_) => {
                self.fail_write(name, bytes);
                Err(Failed)
            }
        }
    }
}
