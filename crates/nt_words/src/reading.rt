//! The files of the commands that serve.

ghost use Rattle.std.specs.Prelude.{◌≡◌, [], ◌∷◌};
ghost use Rattle.nt_words.specs.Files.{shelf_of, ReadsFiles, controller_files, member_files};
ghost use Rattle.nt_words.specs.Options.{file_of};

use crate::controller::ControllerWords;
use crate::files::{
    ControllerSetup, FilesRefused, MemberSetup, read_controller_files, read_member_files,
};
use crate::member::MemberWords;
use outside::Files;
use std::alloc::Global;

impl ControllerWords<'_> {
    /// Reads the files that these words name: the table, then the seed, then the changed secrets, where a file of them
    /// is named. Each is judged before the next one is read.
    pub fn read_files<F: Files>(
        &self,
        alloc: Global,
        files: &mut F,
    ) -> Result<ControllerSetup, FilesRefused>
        ensures { let shelf = shelf_of F.faults F.contents F.reads F.writes in
            ReadsFiles ((3, self.now.table) ∷ (4, self.now.seed) ∷ file_of 7 self.now.secrets [])
            (controller_files self.now.table self.now.seed self.now.secrets)
            result (shelf files.old) (shelf files.new) }
    {
        let (table, seed) = (self.table_file(), self.seed_file());
        read_controller_files(alloc, files, table, seed, self.secrets())
    }
}

impl MemberWords<'_> {
    /// Reads the files that these words name: the secrets, then the seed, then the secret to change to, where a file of
    /// it is named. Each is judged before the next one is read.
    pub fn read_files<F: Files>(
        &self,
        alloc: Global,
        files: &mut F,
    ) -> Result<MemberSetup, FilesRefused>
        ensures { let shelf = shelf_of F.faults F.contents F.reads F.writes in
            ReadsFiles ((4, self.now.secret) ∷ (6, self.now.seed) ∷ file_of 9 self.now.change [])
            (member_files self.now.secret self.now.seed self.now.change)
            result (shelf files.old) (shelf files.new) }
    {
        let (secret, seed) = (self.secret_file(), self.seed_file());
        read_member_files(alloc, files, secret, seed, self.change_file())
    }
}
