//! What the system refuses to a data folder.

ghost use Rattle.std.specs.Prelude.{◌≡◌, ℕ, Bool, List, None, false, string_bytes, true, IfOk};
ghost use Rattle.kb_operator.specs.FolderRefused.{call_word, folder_or_file, is_within_minute, kind_word, refusal_line};
ghost use Rattle.kb_operator.specs.FolderRefused.{IsBehindFault, IsOfFolder, IsOfStore, IsStoreFault, MayTellRefusal};

use crate::fault::{OperatorFault, behind_it};
use crate::lines::LineLog;
use crate::texts::path_of as file_path;
use kb_folder::{FolderCall, FolderFault, Refusal, Refusals, is_full};
use kb_server_log::now;
use kb_store::StoreFault;
use std::alloc::{AllocError, Global};

/// How far lines on refusals are apart at least, in milliseconds.
const MINUTE: u64 = 60_000;

/// What is told of the refusals of a folder: a line at most once a minute.
#[derive(Drop)]
pub struct FolderJournal {
    is_quiet: bool,
    folder: String,
    refusals: Refusals,
    /// When the last line was written.
    told: Option<u64>,
}

impl FolderJournal {
    /// Nothing is told yet of the folder at a path, and with `is_quiet` nothing will be.
    pub fn new(alloc: Global, folder: &str, is_quiet: bool) -> Result<Self, AllocError>
        ensures { IfOk result (λ journal. (journal.is_quiet ≡ is_quiet) × (string_bytes journal.folder ≡ folder.now)
            × (journal.told ≡ None)) }
    {
        Ok(FolderJournal {
            is_quiet,
            folder: String::from_str(alloc, folder)?,
            refusals: Refusals::new(alloc)?,
            told: None,
        })
    }

    /// The path of the folder.
    pub fn folder(&self) -> &str
        ensures { result.now ≡ string_bytes self.now.folder }
    {
        self.folder.as_str()
    }

    /// Where the folder notes what the system refuses to it.
    pub fn refusals(&self) -> &Refusals {
        &self.refusals
    }

    /// Tells of the last refusal at a moment in milliseconds, where none was told for a minute.
    pub fn tell<T: LineLog>(&mut self, rt: &HostRuntime, lines: &mut T, moment: u64)
        ensures quiet { self.old.is_quiet ≡ true → (self.new ≡ self.old) × (lines.new ≡ lines.old) }
        ensures early { is_within_minute self.old.told moment ≡ true → (self.new ≡ self.old) × (lines.new ≡ lines.old) }
        ensures told { MayTellRefusal T.logged moment self.old self.new lines.old lines.new }
    {
        if self.is_quiet || self.is_within_minute(moment) {
            return;
        }
        if let Some(refusal) = self.refusals.take() {
            self.told = Some(moment);
            lines.tell(now(rt), self.refusal_text(rt.alloc(), &refusal));
        }
    }

    /// Whether a line was told less than a minute before or behind a moment.
    fn is_within_minute(&self, moment: u64) -> bool
        ensures { result ≡ is_within_minute self.now.told moment }
    {
        match self.told {
            Some(told) => moment.abs_diff(told) < MINUTE,
            None => false,
        }
    }

    /// The line of a refusal.
    fn refusal_text(&self, alloc: Global, refusal: &Refusal) -> Result<String, AllocError>
        ensures { IfOk result (λ line. (is_full : Bool) × (said : List ℕ)
            × (string_bytes line ≡ refusal_line (string_bytes self.now.folder) is_full refusal.now.call refusal.now.file said)) }
    {
        let path = path_of(alloc, self.folder.as_str(), refusal.file)?;
        let (what, call, error) = (
            kind_of(is_full(&refusal.error)),
            verb(refusal.call),
            refusal.error,
        );
        let said = format!(in alloc; "{error}")?;
        format!(in alloc; "{what}: cannot {call} {path}: {said}")
    }

    /// The fault of a start to which the folder was refused, with the file and the cause of the last refusal.
    pub fn store_fault(&self, alloc: Global) -> OperatorFault
        ensures { IsStoreFault (string_bytes self.now.folder) result }
    {
        match self.refusals.take() {
            Some(refusal) => OperatorFault::Store(behind_it(
                alloc,
                self.cause_text(alloc, &refusal),
            )),
            None => OperatorFault::Store(String::new(alloc)),
        }
    }

    /// The file and the cause of a refusal.
    fn cause_text(&self, alloc: Global, refusal: &Refusal) -> Result<String, AllocError>
        ensures { IfOk result (λ text. IsBehindFault (string_bytes self.now.folder) (string_bytes text)) }
    {
        let path = path_of(alloc, self.folder.as_str(), refusal.file)?;
        let error = refusal.error;
        let said = format!(in alloc; "{error}")?;
        format!(in alloc; ": {path}: {said}")
    }

    /// What a fault of the folder is to a start.
    pub fn of_folder(&self, alloc: Global, fault: FolderFault) -> OperatorFault
        ensures { IsOfFolder (string_bytes self.now.folder) fault result }
    {
        match fault {
            FolderFault::Refused => self.store_fault(alloc),
            FolderFault::Memory => OperatorFault::Memory,
        }
    }

    /// What a fault of the folder's store is to a start.
    pub fn of_store(&self, alloc: Global, fault: StoreFault) -> OperatorFault
        ensures { IsOfStore (string_bytes self.now.folder) fault result }
    {
        match fault {
            StoreFault::Device => self.store_fault(alloc),
            StoreFault::Memory => OperatorFault::Memory,
        }
    }
}

/// The path of a folder's file of a number, or of the folder itself.
fn path_of(alloc: Global, folder: &str, file: Option<u64>) -> Result<String, AllocError>
    ensures { IfOk result (λ text. string_bytes text ≡ folder_or_file folder.now file) }
{
    match file {
        Some(number) => file_path(alloc, folder, number),
        None => String::from_str(alloc, folder),
    }
}

/// What stands in front of a refusal.
fn kind_of(is_full: bool) -> &'static str
    ensures { result.now ≡ kind_word is_full }
{
    if is_full { "disk full" } else { "data folder" }
}

/// What a call does.
fn verb(call: FolderCall) -> &'static str
    ensures { result.now ≡ call_word call }
{
    match call {
        FolderCall::List => "list",
        FolderCall::Length => "measure",
        FolderCall::Create => "make",
        FolderCall::Write => "write",
        FolderCall::Read => "read",
        FolderCall::Cut => "cut",
        FolderCall::Remove => "remove",
        FolderCall::Sync => "sync",
    }
}
