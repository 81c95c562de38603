//! How a folder of the system's makes what it has changed last through a loss of power.

ghost use Rattle.std.specs.Prelude.{◌≡◌, ℕ, true, false, IfOk, IsErr, IsSome, OnOk, OnErr, Contains};
ghost use Rattle.kb_folder.specs.Changed.{AllLasts, refused_in, is_noted, NotesOn, NotesBut, HasNoted, HasNotedNames};
ghost use Rattle.kb_folder.specs.Folder.{Stays, IsAsBefore};
ghost use Rattle.kb_folder.specs.History.{synced, synced_names};
ghost use Rattle.kb_folder.specs.Lasting.{AllLast, Lasts, Syncs};
ghost use Rattle.kb_folder.specs.Told.{calls_of, contents_of, with};

use crate::FolderFault;
use crate::history::{Handle, History};
use crate::host::Host;
use crate::name::numbers_of;
use crate::refusal::{FolderCall, Refusal};
use std::fs::{File, OpenOptions};
use std::io;
use std::io::ErrorKind;
use std::rt::Files;

impl<R: Files<File = File> + AllocGlobal + Clone + Drop> Host<R> {
    /// Syncs every file that has a number, and the names, and asks the system to forget what it has in memory of each file. It syncs the
    /// names of the folders above, too.
    pub(crate) fn sync_found(&mut self, history: &mut History) -> Result<(), FolderFault>
        ensures unchanged { Stays (contents_of (calls_of history.old)) (contents_of (calls_of history.new)) }
        ensures last { OnOk result ((contents_of (calls_of history.new)).honest → AllLast (calls_of history.new)) }
    {
        let listed = history.names(&self.rt, self.path.as_str(), self.rt.alloc());
        let names = self.answer(FolderCall::List, None, listed)?;
        let numbers = numbers_of(self.rt.alloc(), &names)?;
        self.settle_all(history, &numbers)?;
        self.settle_names(history)?;
        self.sync_above()?;
        Ok(())
    }

    /// Notes that a file is to change, and answers whether it is noted now and was not before.
    pub(crate) fn note(&mut self, file: u64) -> io::Result<bool>
        ensures on { NotesOn self.old.changed self.new.changed }
        ensures noted { OnOk result (HasNoted self.new.changed file) }
        ensures first { IfOk result (λ first. first ≡ true → is_noted self.old.changed file ≡ false) }
    {
        match &mut self.changed {
            Some(changed) => Ok(changed.note(file)?),
            None => Ok(false),
        }
    }

    /// Opens a file to be changed, and notes it.
    pub(crate) fn open_to_change(&mut self, file: u64) -> io::Result<()>
        ensures on { NotesOn self.old.changed self.new.changed }
        ensures noted { OnOk result (HasNoted self.new.changed file) }
    {
        self.open_one(file)?;
        self.note(file)?;
        Ok(())
    }

    /// Notes that a name is to change.
    pub(crate) fn note_names(&mut self)
        ensures on { NotesOn self.old.changed self.new.changed }
        ensures noted { HasNotedNames self.new.changed }
    {
        if let Some(changed) = &mut self.changed {
            changed.set_names(true);
        }
    }

    /// Forgets a file, which lasts or is not there.
    pub(crate) fn forget(&mut self, file: u64)
        ensures { NotesBut (λ gone. gone ≡ file) self.old.changed self.new.changed }
    {
        if let Some(changed) = &mut self.changed {
            changed.forget(file);
        }
    }

    /// Keeps a file open. Where there are too many, the one that was used least lately is closed.
    pub(crate) fn keep_open(&mut self, opened: Handle) -> io::Result<()>
        ensures { NotesOn self.old.changed self.new.changed }
    {
        if self.open.len() >= self.open.cap().get() {
            self.close_one();
        }
        self.open.put(opened.number(), opened)?;
        Ok(())
    }

    /// Closes the file that was used least lately, and answers whether there was one. Where it has changed the system is asked to write it
    /// out first, and a refusal is kept in mind.
    pub(crate) fn close_one(&mut self) -> bool
        ensures { NotesOn self.old.changed self.new.changed }
    {
        let Some((file, opened)) = self.open.pop_lru() else {
            return false;
        };
        if self.has_changed(file)
            && let Err(error) = opened.flush()
        {
            let _ = self.not_synced(Some(file), error);
        }
        true
    }

    /// Whether a file is noted as changed.
    fn has_changed(&self, file: u64) -> bool {
        match &self.changed {
            Some(changed) => changed.has(file),
            None => false,
        }
    }

    /// Makes what has changed last: catalogs behind all other files. What a catalog tells of a partition, as a start or an offset that a
    /// group is at, is to last only where the partition's records do.
    pub(crate) fn sync_changed(&mut self, history: &mut History) -> Result<(), FolderFault>
        ensures syncs { Syncs self.old.changed (calls_of history.old) self.new.changed (calls_of history.new) }
        ensures lasting { OnOk result (AllLasts self.new.changed) }
        ensures refused { IsSome (refused_in self.old.changed) → IsErr result }
    {
        self.can_sync()?;
        self.sync_partitions(history)?;
        self.sync_files(history)?;
        self.sync_names(history)?;
        self.all_lasts()
    }

    /// How many files have changed.
    fn files_changed(&self) -> usize {
        match &self.changed {
            Some(changed) => changed.len(),
            None => 0,
        }
    }

    /// The least number of a file that has changed, from a number on.
    fn first_changed(&self, least: u64) -> Option<u64> {
        match &self.changed {
            Some(changed) => changed.first_from(least),
            None => None,
        }
    }

    /// Makes what has changed last but for catalogs.
    fn sync_partitions(&mut self, history: &mut History) -> Result<(), FolderFault>
        ensures { Syncs self.old.changed (calls_of history.old) self.new.changed (calls_of history.new) }
    {
        let mut least = 0;
        for _ in 0..self.files_changed() {
            let Some(file) = self.first_changed(least) else {
                return Ok(());
            };
            if !self.is_catalogs(file) {
                self.sync_file(history, file)?;
            }
            least = file.saturating_add(1);
        }
        Ok(())
    }

    /// Makes all files that have changed last.
    fn sync_files(&mut self, history: &mut History) -> Result<(), FolderFault>
        ensures { Syncs self.old.changed (calls_of history.old) self.new.changed (calls_of history.new) }
    {
        for _ in 0..self.files_changed() {
            if let Some(file) = self.first_changed(0) {
                self.sync_file(history, file)?;
            }
        }
        Ok(())
    }

    /// Makes a file last.
    fn sync_file(&mut self, history: &mut History, file: u64) -> Result<(), FolderFault>
        ensures { Syncs self.old.changed (calls_of history.old) self.new.changed (calls_of history.new) }
    {
        if let Err(error) = self.sync_bytes(history, file) {
            return Err(self.not_synced(Some(file), error));
        }
        self.forget(file);
        Ok(())
    }

    /// Makes a file's bytes last.
    fn sync_bytes(&mut self, history: &mut History, file: u64) -> io::Result<()>
        ensures on { NotesOn self.old.changed self.new.changed }
        ensures synced { OnOk result (calls_of history.new ≡ with (calls_of history.old) (synced file)) }
        ensures refused { OnErr result (calls_of history.new ≡ calls_of history.old) }
    {
        self.open_one(file)?;
        history.sync(self.opened(file)?)
    }

    /// Makes the names last where one has changed.
    fn sync_names(&mut self, history: &mut History) -> Result<(), FolderFault>
        ensures { Syncs self.old.changed (calls_of history.old) self.new.changed (calls_of history.new) }
    {
        let has_changed = match &self.changed {
            Some(changed) => changed.names(),
            None => false,
        };
        if !has_changed {
            return Ok(());
        }
        self.settle_names(history)?;
        if let Some(changed) = &mut self.changed {
            changed.set_names(false);
        }
        Ok(())
    }

    /// Refused where nothing is kept in mind of what has changed, and where a sync was refused before, which is noted again.
    fn can_sync(&self) -> Result<(), FolderFault>
        ensures { IsSome (refused_in self.now.changed) → IsErr result }
    {
        let Some(changed) = &self.changed else {
            let error = ErrorKind::Unsupported.into();
            return Err(self.fault(FolderCall::Sync, None, error));
        };
        match changed.refused() {
            Some(refusal) => {
                let _ = self.fault(refusal.call, refusal.file, refusal.error);
                Err(FolderFault::Refused)
            }
            None => Ok(()),
        }
    }

    /// Refused where something does not last still.
    fn all_lasts(&self) -> Result<(), FolderFault>
        ensures { OnOk result (AllLasts self.now.changed) }
    {
        self.can_sync()?;
        match &self.changed {
            Some(changed) if changed.all_lasts() => Ok(()),
            _ => Err(FolderFault::Refused),
        }
    }

    /// The fault of a sync. After one that the system refused no later one is believed.
    fn not_synced(&mut self, file: Option<u64>, error: io::Error) -> FolderFault
        ensures { NotesOn self.old.changed self.new.changed }
    {
        let call = FolderCall::Sync;
        let fault = self.fault(call, file, error);
        if fault == FolderFault::Refused
            && let Some(changed) = &mut self.changed
        {
            changed.refuse(Refusal { call, file, error });
        }
        fault
    }

    /// Makes the folder's names last.
    fn settle_names(&mut self, history: &mut History) -> Result<(), FolderFault>
        ensures on { NotesOn self.old.changed self.new.changed }
        ensures synced { OnOk result (calls_of history.new ≡ with (calls_of history.old) synced_names) }
        ensures refused { OnErr result (calls_of history.new ≡ calls_of history.old) }
    {
        let synced = match self.open_folder() {
            Ok(folder) => history.sync_names(&folder),
            Err(error) => Err(error),
        };
        match synced {
            Ok(()) => Ok(()),
            Err(error) => Err(self.not_synced(None, error)),
        }
    }

    /// The folder itself, opened.
    fn open_folder(&mut self) -> io::Result<File>
        ensures { NotesOn self.old.changed self.new.changed }
    {
        let path = self.path.clone()?;
        let mut options = OpenOptions::new();
        options.read(true);
        self.open_with(&options, path.as_str())
    }

    /// Makes the names last of the folders above that the folder's path may have had made. One that cannot be opened is passed over, and so
    /// is one that cannot be synced: not every file system syncs folders, and those above are not the broker's.
    fn sync_above(&mut self) -> Result<(), FolderFault> {
        let mut path = self.path.clone()?;
        let names = self.path.split('/').count();
        for _ in 0..names {
            path.push_str("/..")?;
            let mut options = OpenOptions::new();
            options.read(true);
            if let Ok(above) = self.open_with(&options, path.as_str()) {
                let _ = above.sync_all();
            }
        }
        Ok(())
    }

    /// Settles the files of these numbers.
    fn settle_all(&mut self, history: &mut History, numbers: &[u64]) -> Result<(), FolderFault>
        ensures unchanged { IsAsBefore (contents_of (calls_of history.old)) (contents_of (calls_of history.new)) }
        ensures last { OnOk result ((file : ℕ) → Contains numbers.now file → Lasts file (calls_of history.new)) }
    {
        for file in numbers {
            self.settle(history, *file)?;
        }
        Ok(())
    }

    /// Syncs a file that was found, and drops what the system has in memory of it. What is no file has no bytes.
    fn settle(&mut self, history: &mut History, file: u64) -> Result<(), FolderFault>
        ensures synced { OnOk result (calls_of history.new ≡ with (calls_of history.old) (synced file)) }
        ensures refused { OnErr result (calls_of history.new ≡ calls_of history.old) }
    {
        match self.settle_bytes(history, file) {
            Ok(()) => Ok(()),
            Err(error) if error.kind() == ErrorKind::IsADirectory => {
                history.settle_folder(file);
                Ok(())
            }
            Err(error) => Err(self.not_synced(Some(file), error)),
        }
    }

    /// Syncs the file that was found.
    fn settle_bytes(&mut self, history: &mut History, file: u64) -> io::Result<()>
        ensures synced { OnOk result (calls_of history.new ≡ with (calls_of history.old) (synced file)) }
        ensures refused { OnErr result (calls_of history.new ≡ calls_of history.old) }
    {
        self.open_one(file)?;
        history.settle(self.opened(file)?)
    }
}
