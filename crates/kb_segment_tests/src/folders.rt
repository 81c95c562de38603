//! A store over a folder of the system's: what was written is there when the folder is opened again.
ghost use Rattle.std.specs.Prelude.{◌≡◌, true, IfOk};
ghost use Rattle.kb_store.specs.Disk.{IsThere};

use crate::alone::{is_alone, is_empty};
use kb_folder::{FolderCall, FolderFault, FolderStore, HostFolder, Refusals};
use kb_log::{LogFault, Shelf};
use kb_process::soft_limit;
use kb_store::{Store, StoreFault, read_file};
use std::alloc::Global;
use std::fs;
use std::process::Abort;
use std::test::Fail;

/// A name that is no file's of a log.
const OTHER: &str = "00000000000000000000.old";

/// The store over a folder of the system's.
fn opened(
    files: &HostRuntime,
    path: &str,
) -> Result<FolderStore<HostFolder<HostRuntime>>, FolderFault> {
    FolderStore::new(files.alloc(), HostFolder::new(*files, path)?)
}

/// A file of two pieces, in a folder without files.
#[tactic(auto, using(kb_store::proofs::Disks::is_there_put, kb_store::proofs::Disks::is_there_grown))]
fn written<S: Store + Drop>(alloc: Global, store: S) -> Result<S, Fail> {
    let mut shelf = Shelf::new(alloc, store, 0).ok().ok_or("a shelf")?;
    let file = shelf.create()?;
    shelf.append(file, b"first ")?;
    shelf.append(file, b"second")?;
    if file != 0 || shelf.failures() != 0 {
        return Err("not the first file".into());
    }
    Ok(shelf.into_store())
}

/// Whether there is no file but 0, and that has those bytes.
pub(crate) fn has<S: Store>(
    alloc: Global,
    store: &mut S,
    bytes: &[u8],
) -> Result<bool, StoreFault> {
    Ok(is_alone(alloc, store)? && read_file(alloc, store, 0)?.as_slice() == bytes)
}

/// Cuts the file 0, which is the only one.
pub(crate) fn cut<S: Store>(alloc: Global, store: &mut S, len: u64) -> Result<(), Fail> {
    if !is_alone(alloc, store)? || store.len(0)? < len {
        return Err("another file".into());
    }
    Ok(store.cut(0, len)?)
}

/// Takes the file 0 away, which is the only one.
pub(crate) fn remove<S: Store>(alloc: Global, store: &mut S) -> Result<(), Fail> {
    if !is_alone(alloc, store)? {
        return Err("another file".into());
    }
    Ok(store.remove(0)?)
}

/// A folder that stores are opened over, one after the other.
trait Opens {
    /// A store over it.
    type Opened: Store + Drop;

    /// The store over the folder as it is now.
    fn opened(&self) -> Result<Self::Opened, FolderFault>;
}

/// A folder of the system's.
#[derive(Clone, Copy)]
struct OfSystem<'a> {
    files: HostRuntime,
    path: &'a str,
}

impl Opens for OfSystem<'_> {
    type Opened = FolderStore<HostFolder<HostRuntime>>;

    fn opened(&self) -> Result<FolderStore<HostFolder<HostRuntime>>, FolderFault> {
        opened(&self.files, self.path)
    }
}

/// Writes a file of two pieces in a folder.
fn leave_written<O: Opens>(alloc: Global, folder: &O) -> Result<(), Fail> {
    drop(written(alloc, folder.opened()?)?);
    Ok(())
}

/// Cuts the only file of a folder to five bytes.
fn leave_cut<O: Opens>(alloc: Global, folder: &O) -> Result<(), Fail> {
    cut(alloc, &mut folder.opened()?, 5)
}

/// Takes the only file of a folder away.
fn leave_removed<O: Opens>(alloc: Global, folder: &O) -> Result<(), Fail> {
    remove(alloc, &mut folder.opened()?)
}

/// Whether the only file of a folder has those bytes.
fn is_left<O: Opens>(alloc: Global, folder: &O, bytes: &[u8]) -> Result<bool, Fail> {
    Ok(has(alloc, &mut folder.opened()?, bytes)?)
}

/// Whether a folder has no file of a log.
fn is_left_empty<O: Opens>(alloc: Global, folder: &O) -> Result<bool, Fail> {
    Ok(folder.opened()?.list(alloc)?.is_empty())
}

/// Each store is over the folder as the one before left it.
fn is_kept_in<O: Opens>(rt: &impl Abort, alloc: Global, folder: &O) -> Result<(), Fail> {
    leave_written(alloc, folder)?;
    assert!(rt; is_left(alloc, folder, b"first second")?);
    leave_cut(alloc, folder)?;
    assert!(rt; is_left(alloc, folder, b"first")?);
    leave_removed(alloc, folder)?;
    assert!(rt; is_left_empty(alloc, folder)?);
    Ok(())
}

/// So they are beside a file that is no log's.
fn is_kept(files: &HostRuntime, rt: &impl Abort, path: &str, other: &str) -> Result<(), Fail> {
    let folder = OfSystem {
        files: *files,
        path,
    };
    fs::write(files, other, "not a log's")?;
    is_kept_in(rt, files.alloc(), &folder)?;
    assert!(rt; fs::read(files, other)?.as_slice() == b"not a log's".as_slice());
    Ok(())
}

#[test]
fn a_folder_is_what_it_was(rt: HostRuntime) -> Result<(), Fail> {
    let path = folder_of_its_own(&rt)?;
    let mut other = path.clone()?;
    other.push('/')?;
    other.push_str(OTHER)?;
    is_kept(&rt, &rt, path.as_str(), other.as_str())?;
    fs::remove_file(&rt, other.as_str())?;
    fs::remove_dir(&rt, path.as_str())?;
    Ok(())
}

/// Whether a folder has no file of a log beside a reserve.
fn is_empty_but_for_a_reserve(files: &HostRuntime, path: &str) -> Result<bool, Fail> {
    let folder = HostFolder::new(*files, path)?.with_reserve();
    Ok(
        FolderStore::new(files.alloc(), folder)?
            .list(files.alloc())?
            .is_empty(),
    )
}

#[test]
fn a_reserve_is_no_file_of_the_store(rt: HostRuntime) -> Result<(), Fail> {
    let path = folder_of_its_own(&rt)?;
    assert!(rt; is_empty_but_for_a_reserve(&rt, path.as_str())?);
    let reserve = format!(in rt.alloc(); "{path}/reserve")?;
    assert!(rt; fs::metadata(&rt, reserve.as_str())?.len() == 4_194_304);
    fs::remove_file(&rt, reserve.as_str())?;
    fs::remove_dir(&rt, path.as_str())?;
    Ok(())
}

/// Makes, writes, syncs and removes a file, in a store without files.
#[tactic(auto, using(kb_store::proofs::Disks::is_there_put, kb_store::proofs::Disks::is_there_grown))]
fn use_once<S: Store>(alloc: Global, store: &mut S) -> Result<(), Fail> {
    if !is_empty(alloc, store)? {
        return Err("a file".into());
    }
    store.create(0)?;
    store.append(0, b"some")?;
    store.sync()?;
    Ok(store.remove(0)?)
}

/// Whether a store without files refuses to make one.
fn makes_none<S: Store>(alloc: Global, store: &mut S) -> Result<bool, Fail> {
    if !is_empty(alloc, store)? {
        return Err("a file".into());
    }
    Ok(store.create(0) == Err(StoreFault::Device))
}

/// Whether the file 0, which is the only one, has no bytes, and none of them are read.
fn has_no_bytes<S: Store>(alloc: Global, store: &mut S) -> Result<bool, Fail> {
    if !is_alone(alloc, store)? {
        return Err("another file".into());
    }
    store.read_at(0, 0, &mut [])?;
    Ok(store.len(0)? == 0)
}

/// One refusal is noted, of that call and that file.
fn has_noted(
    rt: &impl Abort,
    refusals: &Refusals,
    call: FolderCall,
    file: Option<u64>,
) -> Result<(), Fail> {
    let refusal = refusals.take().ok_or("nothing noted")?;
    assert!(rt; refusal.call == call && refusal.file == file);
    assert!(rt; refusals.take().is_none());
    Ok(())
}

/// A store over a folder of the system's, and what the folder notes of refusals.
#[derive(Drop)]
struct Watched {
    store: FolderStore<HostFolder<HostRuntime>>,
    refusals: Refusals,
}

impl Watched {
    /// A store over a folder, of which nothing was noted before.
    fn over(alloc: Global, folder: HostFolder<HostRuntime>) -> Result<Watched, Fail> {
        let refusals = Refusals::new(alloc)?;
        let store = FolderStore::new(alloc, folder.noting(refusals.share()?))?;
        Ok(Watched { store, refusals })
    }

    /// One to write in.
    fn to_write(files: &HostRuntime, path: &str) -> Result<Watched, Fail> {
        Watched::over(files.alloc(), HostFolder::new(*files, path)?)
    }

    /// One to read in.
    fn to_read(files: &HostRuntime, path: &str) -> Result<Watched, Fail> {
        Watched::over(files.alloc(), HostFolder::to_read(*files, path)?)
    }

    /// One to write in that keeps in mind what it changes, and has synced what it found.
    fn to_sync(files: &HostRuntime, path: &str) -> Result<Watched, Fail> {
        Watched::over(files.alloc(), HostFolder::new(*files, path)?.syncing()?)
    }

    /// A file is made, written, synced and removed again.
    fn use_once(&mut self, alloc: Global) -> Result<(), Fail> {
        use_once(alloc, &mut self.store)
    }

    /// No file can be made.
    fn makes_none(&mut self, alloc: Global) -> Result<bool, Fail> {
        makes_none(alloc, &mut self.store)
    }

    /// The only file has no bytes.
    fn has_no_bytes(&mut self, alloc: Global) -> Result<bool, Fail> {
        has_no_bytes(alloc, &mut self.store)
    }

    /// A sync is refused, and noted.
    fn is_not_synced(&mut self, rt: &impl Abort) -> Result<(), Fail> {
        assert!(rt; self.store.sync() == Err(StoreFault::Device));
        has_noted(rt, &self.refusals, FolderCall::Sync, None)
    }
}

/// Whether no store can be over a folder, which notes its refusals there.
fn is_refused(files: &HostRuntime, path: &str, refusals: Refusals) -> Result<bool, Fail> {
    let folder = HostFolder::to_read(*files, path)?.noting(refusals);
    Ok(FolderStore::new(files.alloc(), folder).is_err())
}

#[test]
fn a_refusal_is_noted(rt: HostRuntime) -> Result<(), Fail> {
    let refusals = Refusals::new(rt.alloc())?;
    assert!(rt; is_refused(&rt, "/nowhere", refusals.share()?)?);
    has_noted(&rt, &refusals, FolderCall::List, None)
}

/// A folder that keeps in mind what it changes is synced. Where that is refused, so is each later sync, also after the cause is gone.
#[test]
fn a_refused_sync_is_the_last(rt: HostRuntime) -> Result<(), Fail> {
    let path = folder_of_its_own(&rt)?;
    let mut watched = Watched::to_sync(&rt, path.as_str())?;
    watched.use_once(rt.alloc())?;
    fs::remove_dir(&rt, path.as_str())?;
    assert!(rt; watched.makes_none(rt.alloc())?);
    watched.is_not_synced(&rt)?;
    fs::create_dir(&rt, path.as_str())?;
    watched.is_not_synced(&rt)?;
    fs::remove_dir(&rt, path.as_str())?;
    Ok(())
}

/// A folder that keeps nothing in mind of what it changes is not synced, which is noted.
#[test]
fn what_is_not_kept_in_mind_is_not_synced(rt: HostRuntime) -> Result<(), Fail> {
    let path = folder_of_its_own(&rt)?;
    Watched::to_write(&rt, path.as_str())?.is_not_synced(&rt)?;
    fs::remove_dir(&rt, path.as_str())?;
    Ok(())
}

/// A folder in it that has a file's name has no bytes, and is noted, whether it is opened for writing or to be read alone.
#[test]
fn a_folder_in_it_has_no_bytes(rt: HostRuntime) -> Result<(), Fail> {
    let path = folder_of_its_own(&rt)?;
    let inner = format!(in rt.alloc(); "{path}/00000000000000000000.seg")?;
    fs::create_dir(&rt, inner.as_str())?;
    has_a_folder(&rt, rt.alloc(), Watched::to_write(&rt, path.as_str())?)?;
    has_a_folder(&rt, rt.alloc(), Watched::to_read(&rt, path.as_str())?)?;
    fs::remove_dir(&rt, inner.as_str())?;
    fs::remove_dir(&rt, path.as_str())?;
    Ok(())
}

/// The file 0 of a folder is a folder.
fn has_a_folder(rt: &impl Abort, alloc: Global, mut watched: Watched) -> Result<(), Fail> {
    has_noted(rt, &watched.refusals, FolderCall::Length, Some(0))?;
    assert!(rt; watched.has_no_bytes(alloc)?);
    assert!(rt; watched.refusals.take().is_none());
    Ok(())
}

#[test]
fn a_limit_is_read_as_the_system_writes_it(rt: HostRuntime) {
    let text = "Max processes             63231                63231                processes\n\
        Max open files            1024                 524288               files\n";
    assert!(rt; soft_limit(text) == Some(1024));
    assert!(rt;
        soft_limit("Max open files            unlimited            unlimited            files\n")
            == Some(u64::MAX)
    );
    assert!(rt;
        soft_limit(
            "Max processes             63231                63231                processes\n"
        ).is_none()
    );
}

/// The path of a new folder among the temporary ones.
fn folder_of_its_own(files: &HostRuntime) -> Result<String, Fail> {
    let parent = std::env::temp_dir(files)?;
    for number in 0..1000u16 {
        let path = format!(in files.alloc(); "{}/kb-files-{number}", parent.as_str())?;
        if fs::create_dir(files, path.as_str()).is_ok() {
            return Ok(path);
        }
    }
    Err("no folder".into())
}
