//! The files that a job names.

ghost use Rattle.std.specs.Prelude.{◌≡◌, [], ◌∷◌, Some, option_map};
ghost use Rattle.hex.specs.Hex.{decode_sized};
ghost use Rattle.nt_words.specs.Files.{shelf_of, ReadsFiles, Judges, content_due, file_due, table_refused, file_refused, station_files, station_rest};
ghost use Rattle.nt_words.specs.Files.{seed_in, secret_in, secrets_in, table_in, digits_by, is_end, controller_files, secret_files};
ghost use Rattle.nt_words.specs.Files.{apply_refused, change_due, controller_rest, kept_in, member_files, member_rest, secrets_due};
ghost use Rattle.nt_words.specs.Options.{file_of};

use account_table::{ApplyRefused, Table, TableRefused};
use hex::FromHex;
use outside::{FileRefused, Files};
use secret_change::{NotSecrets, Secrets};
use std::alloc::Global;
use std::marker::Model;
use wire_base::Blob;

/// Why the files of a job weren't taken.
#[derive(Debug, Drop)]
pub enum FilesRefused {
    /// A file wasn't read.
    FileFault,
    /// The account table was refused.
    BadTable(TableRefused),
    /// The file of the option of that number is too long or not of its form.
    BadInput(u32),
    /// No memory was found.
    NoMemory,
}

/// What `nt_controller serve` starts from.
#[derive(Drop)]
pub struct ControllerSetup {
    table: Table,
    seed: [u8; 32],
}

impl Model for ControllerSetup {
    ghost use Rattle.nt_words.specs.Files.{ControllerFiles};

    ghost Value = { ControllerFiles };

    ghost view = { λ s. record { table = s.table; seed = s.seed } };
}

impl ControllerSetup {
    /// The table and the seed.
    pub fn into_parts(self) -> (Table, [u8; 32])
        ensures { result ≡ (self.table, self.seed) }
    {
        let ControllerSetup { table, seed } = self;
        (table, seed)
    }
}

/// What `nt_member serve` starts from.
#[derive(Drop)]
pub struct MemberSetup {
    secrets: Secrets,
    seed: [u8; 32],
    change: Option<[u8; 16]>,
}

impl Model for MemberSetup {
    ghost use Rattle.nt_words.specs.Files.{MemberFiles};

    ghost Value = { MemberFiles };

    ghost view = { λ s. record { secrets = s.secrets; seed = s.seed; change = s.change } };
}

impl MemberSetup {
    /// The secrets, the seed and the secret to change to.
    pub fn into_parts(self) -> (Secrets, [u8; 32], Option<[u8; 16]>)
        ensures { result ≡ (self.secrets, self.seed, self.change) }
    {
        let MemberSetup {
            secrets,
            seed,
            change,
        } = self;
        (secrets, seed, change)
    }
}

/// A secret and a seed.
#[derive(Drop)]
pub struct SecretSetup {
    secret: [u8; 16],
    seed: [u8; 32],
}

impl Model for SecretSetup {
    ghost use Rattle.nt_words.specs.Files.{SecretFiles};

    ghost Value = { SecretFiles };

    ghost view = { λ s. record { secret = s.secret; seed = s.seed } };
}

impl SecretSetup {
    /// The secret, or the hash.
    pub fn secret(&self) -> [u8; 16]
        ensures { result ≡ self.now.secret }
    {
        self.secret
    }

    /// The seed.
    pub fn seed(&self) -> [u8; 32]
        ensures { result ≡ self.now.seed }
    {
        self.seed
    }
}

/// What `nt_logon station` starts from.
#[derive(Drop)]
pub struct StationSetup {
    secret: [u8; 16],
    hash: [u8; 16],
    seed: [u8; 32],
}

impl Model for StationSetup {
    ghost use Rattle.nt_words.specs.Files.{StationFiles};

    ghost Value = { StationFiles };

    ghost view = { λ s. record { secret = s.secret; hash = s.hash; seed = s.seed } };
}

impl StationSetup {
    /// The secret of the workstation's account.
    pub fn secret(&self) -> [u8; 16]
        ensures { result ≡ self.now.secret }
    {
        self.secret
    }

    /// The user's hash.
    pub fn hash(&self) -> [u8; 16]
        ensures { result ≡ self.now.hash }
    {
        self.hash
    }

    /// The seed.
    pub fn seed(&self) -> [u8; 32]
        ensures { result ≡ self.now.seed }
    {
        self.seed
    }
}

/// The files of `nt_controller serve`: the table, then the seed, then the changed secrets, where a file of them is
/// named. The table is the one with these secrets.
pub(crate) fn read_controller_files<F: Files>(
    alloc: Global,
    files: &mut F,
    table: &str,
    seed: &str,
    secrets: Option<&str>,
) -> Result<ControllerSetup, FilesRefused>
    ensures { let shelf = shelf_of F.faults F.contents F.reads F.writes in
        let named = option_map (λ s. s.now) secrets.entry in
        ReadsFiles ((3, table.now) ∷ (4, seed.now) ∷ file_of 7 named [])
        (controller_files table.now seed.now named)
        result (shelf files.old) (shelf files.new) }
{
    match read_table(alloc, files, table) {
        Ok(table) => read_controller_rest(alloc, files, table, seed, secrets),
        Err(refused) => Err(refused),
    }
}

/// The seed's file, and then that of changed secrets.
fn read_controller_rest<F: Files>(
    alloc: Global,
    files: &mut F,
    table: Table,
    seed: &str,
    secrets: Option<&str>,
) -> Result<ControllerSetup, FilesRefused>
    ensures { let shelf = shelf_of F.faults F.contents F.reads F.writes in
        let named = option_map (λ s. s.now) secrets.entry in
        ReadsFiles ((4, seed.now) ∷ file_of 7 named []) (controller_rest seed.now named table)
        result (shelf files.old) (shelf files.new) }
{
    match read_seed(alloc, files, 4, seed) {
        Ok(seed) => read_changed(alloc, files, table, seed, secrets),
        Err(refused) => Err(refused),
    }
}

/// The file of changed secrets, where one is named.
fn read_changed<F: Files>(
    alloc: Global,
    files: &mut F,
    table: Table,
    seed: [u8; 32],
    secrets: Option<&str>,
) -> Result<ControllerSetup, FilesRefused>
    ensures { let shelf = shelf_of F.faults F.contents F.reads F.writes in
        let named = option_map (λ s. s.now) secrets.entry in
        ReadsFiles (file_of 7 named []) (secrets_due named table seed)
        result (shelf files.old) (shelf files.new) }
{
    match secrets {
        Some(name) => read_setup(alloc, files, table, seed, name),
        None => Ok(ControllerSetup { table, seed }),
    }
}

/// The file of changed secrets.
fn read_setup<F: Files>(
    alloc: Global,
    files: &mut F,
    table: Table,
    seed: [u8; 32],
    name: &str,
) -> Result<ControllerSetup, FilesRefused>
    ensures { let shelf = shelf_of F.faults F.contents F.reads F.writes in
        ReadsFiles ((7, name.now) ∷ []) (secrets_due (Some name.now) table seed)
        result (shelf files.old) (shelf files.new) }
{
    match read_secrets(alloc, files, table, name) {
        Ok(table) => Ok(ControllerSetup { table, seed }),
        Err(refused) => Err(refused),
    }
}

/// The files of `nt_member serve`: the secrets that the machine keeps, then the seed, then the secret to change to,
/// where a file of it is named.
pub(crate) fn read_member_files<F: Files>(
    alloc: Global,
    files: &mut F,
    secret: &str,
    seed: &str,
    change: Option<&str>,
) -> Result<MemberSetup, FilesRefused>
    ensures { let shelf = shelf_of F.faults F.contents F.reads F.writes in
        let named = option_map (λ s. s.now) change.entry in
        ReadsFiles ((4, secret.now) ∷ (6, seed.now) ∷ file_of 9 named [])
        (member_files secret.now seed.now named)
        result (shelf files.old) (shelf files.new) }
{
    match read_kept(alloc, files, secret) {
        Ok(secrets) => read_member_rest(alloc, files, secrets, seed, change),
        Err(refused) => Err(refused),
    }
}

/// The seed's file, and then that of the secret to change to.
fn read_member_rest<F: Files>(
    alloc: Global,
    files: &mut F,
    secrets: Secrets,
    seed: &str,
    change: Option<&str>,
) -> Result<MemberSetup, FilesRefused>
    ensures { let shelf = shelf_of F.faults F.contents F.reads F.writes in
        let named = option_map (λ s. s.now) change.entry in
        ReadsFiles ((6, seed.now) ∷ file_of 9 named []) (member_rest seed.now named secrets)
        result (shelf files.old) (shelf files.new) }
{
    match read_seed(alloc, files, 6, seed) {
        Ok(seed) => read_change(alloc, files, secrets, seed, change),
        Err(refused) => Err(refused),
    }
}

/// The file of the secret to change to, where one is named.
fn read_change<F: Files>(
    alloc: Global,
    files: &mut F,
    secrets: Secrets,
    seed: [u8; 32],
    change: Option<&str>,
) -> Result<MemberSetup, FilesRefused>
    ensures { let shelf = shelf_of F.faults F.contents F.reads F.writes in
        let named = option_map (λ s. s.now) change.entry in
        ReadsFiles (file_of 9 named []) (change_due named secrets seed)
        result (shelf files.old) (shelf files.new) }
{
    match change {
        Some(name) => read_member_setup(alloc, files, secrets, seed, name),
        None => Ok(MemberSetup {
            secrets,
            seed,
            change: None,
        }),
    }
}

/// The file of the secret to change to.
fn read_member_setup<F: Files>(
    alloc: Global,
    files: &mut F,
    secrets: Secrets,
    seed: [u8; 32],
    name: &str,
) -> Result<MemberSetup, FilesRefused>
    ensures { let shelf = shelf_of F.faults F.contents F.reads F.writes in
        ReadsFiles ((9, name.now) ∷ []) (change_due (Some name.now) secrets seed)
        result (shelf files.old) (shelf files.new) }
{
    match read_secret(alloc, files, 9, name) {
        Ok(secret) => Ok(MemberSetup {
            secrets,
            seed,
            change: Some(secret),
        }),
        Err(refused) => Err(refused),
    }
}

/// A file with a secret, then one with a seed.
pub(crate) fn read_secret_files<F: Files>(
    alloc: Global,
    files: &mut F,
    number: u32,
    secret: &str,
    later: u32,
    seed: &str,
) -> Result<SecretSetup, FilesRefused>
    ensures { let shelf = shelf_of F.faults F.contents F.reads F.writes in
        ReadsFiles ((number, secret.now) ∷ (later, seed.now) ∷ [])
        (secret_files number secret.now later seed.now)
        result (shelf files.old) (shelf files.new) }
{
    let secret = match read_secret(alloc, files, number, secret) {
        Ok(secret) => secret,
        Err(refused) => return Err(refused),
    };
    match read_seed(alloc, files, later, seed) {
        Ok(seed) => Ok(SecretSetup { secret, seed }),
        Err(refused) => Err(refused),
    }
}

/// The files of `nt_logon station`: the machine's secret, then the user's hash, then the seed.
pub(crate) fn read_station_files<F: Files>(
    alloc: Global,
    files: &mut F,
    secret: &str,
    hash: &str,
    seed: &str,
) -> Result<StationSetup, FilesRefused>
    ensures { let shelf = shelf_of F.faults F.contents F.reads F.writes in
        ReadsFiles ((3, secret.now) ∷ (6, hash.now) ∷ (7, seed.now) ∷ [])
        (station_files secret.now hash.now seed.now)
        result (shelf files.old) (shelf files.new) }
{
    match read_secret(alloc, files, 3, secret) {
        Ok(secret) => read_station_rest(alloc, files, secret, hash, seed),
        Err(refused) => Err(refused),
    }
}

/// The user's hash, and then the seed.
fn read_station_rest<F: Files>(
    alloc: Global,
    files: &mut F,
    secret: [u8; 16],
    hash: &str,
    seed: &str,
) -> Result<StationSetup, FilesRefused>
    ensures { let shelf = shelf_of F.faults F.contents F.reads F.writes in
        ReadsFiles ((6, hash.now) ∷ (7, seed.now) ∷ []) (station_rest hash.now seed.now secret)
        result (shelf files.old) (shelf files.new) }
{
    match read_secret_files(alloc, files, 6, hash, 7, seed) {
        Ok(found) => Ok(StationSetup {
            secret,
            hash: found.secret(),
            seed: found.seed(),
        }),
        Err(refused) => Err(refused),
    }
}

/// The account table that the file of this name holds.
fn read_table<F: Files>(alloc: Global, files: &mut F, name: &str) -> Result<Table, FilesRefused>
    ensures { let shelf = shelf_of F.faults F.contents F.reads F.writes in
        ReadsFiles ((3, name.now) ∷ []) (file_due 3 name.now table_in)
        result (shelf files.old) (shelf files.new) }
{
    match read_file(alloc, files, 3, name) {
        Ok(content) => table_from(alloc, content.bytes()),
        Err(refused) => Err(refused),
    }
}

/// The account table with the secrets that the file of this name holds.
fn read_secrets<F: Files>(
    alloc: Global,
    files: &mut F,
    table: Table,
    name: &str,
) -> Result<Table, FilesRefused>
    ensures { let shelf = shelf_of F.faults F.contents F.reads F.writes in
        ReadsFiles ((7, name.now) ∷ []) (file_due 7 name.now (secrets_in 7 table))
        result (shelf files.old) (shelf files.new) }
{
    match read_file(alloc, files, 7, name) {
        Ok(content) => table_with(alloc, table, content.bytes()),
        Err(refused) => Err(refused),
    }
}

/// The secrets that the file of this name holds.
fn read_kept<F: Files>(alloc: Global, files: &mut F, name: &str) -> Result<Secrets, FilesRefused>
    ensures { let shelf = shelf_of F.faults F.contents F.reads F.writes in
        ReadsFiles ((4, name.now) ∷ []) (file_due 4 name.now (kept_in 4))
        result (shelf files.old) (shelf files.new) }
{
    match read_file(alloc, files, 4, name) {
        Ok(content) => kept_from(content.bytes()),
        Err(refused) => Err(refused),
    }
}

/// The secret that the file of this name holds.
fn read_secret<F: Files>(
    alloc: Global,
    files: &mut F,
    number: u32,
    name: &str,
) -> Result<[u8; 16], FilesRefused>
    ensures { let shelf = shelf_of F.faults F.contents F.reads F.writes in
        ReadsFiles ((number, name.now) ∷ []) (file_due number name.now (secret_in number))
        result (shelf files.old) (shelf files.new) }
{
    match read_file(alloc, files, number, name) {
        Ok(content) => secret_from(number, content.bytes()),
        Err(refused) => Err(refused),
    }
}

/// The seed that the file of this name holds.
fn read_seed<F: Files>(
    alloc: Global,
    files: &mut F,
    number: u32,
    name: &str,
) -> Result<[u8; 32], FilesRefused>
    ensures { let shelf = shelf_of F.faults F.contents F.reads F.writes in
        ReadsFiles ((number, name.now) ∷ []) (file_due number name.now (seed_in number))
        result (shelf files.old) (shelf files.new) }
{
    match read_file(alloc, files, number, name) {
        Ok(content) => seed_from(number, content.bytes()),
        Err(refused) => Err(refused),
    }
}

/// The content of the file of this name.
fn read_file<F: Files>(
    alloc: Global,
    files: &mut F,
    number: u32,
    name: &str,
) -> Result<Blob, FilesRefused>
    ensures { let shelf = shelf_of F.faults F.contents F.reads F.writes in
        ReadsFiles ((number, name.now) ∷ []) (content_due number name.now)
        result (shelf files.old) (shelf files.new) }
{
    match files.read(alloc, name.as_bytes()) {
        Ok(content) => Ok(content),
        Err(refused) => Err(file_refused(number, refused)),
    }
}

/// What a read that failed comes to.
fn file_refused(number: u32, refused: FileRefused) -> FilesRefused
    ensures { result ≡ file_refused number refused }
{
    match refused {
        FileRefused::Failed => FilesRefused::FileFault,
        FileRefused::TooLong => FilesRefused::BadInput(number),
        FileRefused::Memory => FilesRefused::NoMemory,
    }
}

/// The seed that the bytes are. No memory is looked for.
fn seed_from(number: u32, content: &[u8]) -> Result<[u8; 32], FilesRefused>
    ensures { result ≡ seed_in number content.now }
{
    match <[u8; 32]>::try_from(content) {
        Ok(seed) => Ok(seed),
        Err(_) => Err(FilesRefused::BadInput(number)),
    }
}

/// The secrets that the bytes write. No memory is looked for.
fn kept_from(content: &[u8]) -> Result<Secrets, FilesRefused>
    ensures { result ≡ kept_in 4 content.now }
{
    match Secrets::read(content) {
        Ok(secrets) => Ok(secrets),
        Err(NotSecrets) => Err(FilesRefused::BadInput(4)),
    }
}

/// The secret that the bytes write. No memory is looked for.
#[tactic(auto, unfolding(crate::specs::Files::secret_in))]
fn secret_from(number: u32, content: &[u8]) -> Result<[u8; 16], FilesRefused>
    ensures { result ≡ secret_in number content.now }
{
    if content.len() < 32 {
        return Err(FilesRefused::BadInput(number));
    }
    let (digits, end) = content.split_at(32);
    if is_end(end) {
        digits_from(number, digits)
    } else {
        Err(FilesRefused::BadInput(number))
    }
}

/// The secret that hex digits write.
fn digits_from(number: u32, digits: &[u8]) -> Result<[u8; 16], FilesRefused>
    ensures { result ≡ digits_by number (decode_sized digits.now 16) }
{
    match <[u8; 16]>::from_hex(digits) {
        Ok(secret) => Ok(secret),
        Err(_) => Err(FilesRefused::BadInput(number)),
    }
}

/// Whether nothing or one newline is left.
fn is_end(rest: &[u8]) -> bool
    ensures { result ≡ is_end rest.now }
{
    matches!(rest, [] | [b'\n'])
}

/// The account table that the bytes write.
fn table_from(alloc: Global, content: &[u8]) -> Result<Table, FilesRefused>
    ensures { Judges 3 result (table_in content.now) }
{
    match Table::read(alloc, content) {
        Ok(table) => Ok(table),
        Err(refused) => Err(table_refused(refused)),
    }
}

/// Why an account table wasn't taken.
fn table_refused(refused: TableRefused) -> FilesRefused
    ensures { result ≡ table_refused refused }
{
    match refused {
        TableRefused::Memory => FilesRefused::NoMemory,
        _ => FilesRefused::BadTable(refused),
    }
}

/// The account table with the secrets that the bytes write.
fn table_with(alloc: Global, table: Table, text: &[u8]) -> Result<Table, FilesRefused>
    ensures { Judges 7 result (secrets_in 7 table text.now) }
{
    let mut changed = table;
    match changed.apply(alloc, text) {
        Ok(()) => Ok(changed),
        Err(refused) => Err(apply_refused(refused)),
    }
}

/// Why a text of secrets wasn't taken.
fn apply_refused(refused: ApplyRefused) -> FilesRefused
    ensures { result ≡ apply_refused 7 refused }
{
    match refused {
        ApplyRefused::NotSecrets => FilesRefused::BadInput(7),
        ApplyRefused::Memory => FilesRefused::NoMemory,
    }
}
