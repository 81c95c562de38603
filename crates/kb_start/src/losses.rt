//! What a start on a data folder would lose or leave aside, by what its files say.

ghost use Rattle.std.specs.Prelude.{◌≡◌, ◌+◌, ◌++◌, IfOk, if◌then◌else◌};
ghost use Rattle.std.specs.FinMap.{keys};
ghost use Rattle.kb_store.specs.Disk.{HasCause, Keeps};
ghost use Rattle.kb_start.specs.Survey.{dropped_losses, known_of, loss_above, loss_at, loss_of, losses_of};
ghost use Rattle.kb_start.specs.Starts.{header_at};
ghost use Rattle.kb_start.specs.Survey.{is_superseded, stray_at, stray_loss, stray_losses, unfit_after, used_by, with_stray, AddsStrays};

use crate::generations::{catalogs_in_use, copied_to, is_superseded};
use crate::left::{Left, any_dropped};
use crate::starts::start_of;
use kb_segment::SegmentHeader;
use kb_store::{Store, StoreFault};
use kb_survey::{Stray, Whole, header_among, stray_among, whole_among};
use kb_topics::MoveStart;
use std::alloc::{AllocError, Global};
use std::collections::BTreeMap;

/// A file of which whole batches would be gone.
#[derive(Drop)]
pub struct Loss {
    pub file: u64,
    /// What its header says, where it can be read.
    pub header: Option<SegmentHeader>,
    pub whole: Whole,
}

/// How many files are of no log, by why.
#[derive(Drop)]
pub struct StrayCounts {
    /// How many are not to be mixed up with what is written from now on.
    pub unfit: u64,
    /// Of these by tenant: of topics that its catalog has not given out.
    pub never_given_out: BTreeMap<String, u64>,
    /// By tenant: of a tenant that no user names.
    pub of_nobody: BTreeMap<String, u64>,
    /// Shorter than a header.
    pub short: u64,
    /// With a header that cannot be read, of no version, and without a whole batch.
    pub unreadable: u64,
    /// Of generations of catalogs that are not in use: their snapshots were not finished.
    pub unfinished: u64,
}

/// What a start on a folder would lose, and which files it would leave aside.
#[derive(Drop)]
pub struct Surveyed {
    pub losses: Vec<Loss>,
    pub strays: StrayCounts,
}

/// What is known of an opening.
#[derive(Drop)]
pub struct Opened<'a> {
    /// The tenants, in byte order.
    pub names: &'a [&'a str],
    /// The instance that the next topic of each gets.
    pub next_instances: &'a [u64],
    /// What it leaves of each file that was there.
    pub files: &'a [Left],
    /// The files that are of no log.
    pub strays: &'a [u64],
    /// The starts of partitions that the catalogs of the tenants record, as far as they are known.
    pub starts: &'a [Vec<MoveStart>],
}

/// Surveys the files of a store, which an opening would leave so. It is only read. Batches below a start that is known to be recorded
/// are no loss: they were to go. So were those of a catalog's generation where a greater one is in use, which begins with a snapshot.
/// Nor is a snapshot a loss that was not finished, while a lower generation is in use.
pub fn survey<S: Store>(
    alloc: Global,
    store: &mut S,
    opened: &Opened<'_>,
) -> Result<Surveyed, StoreFault>
    ensures losses { IfOk result (λ found. (S.disk store.new).honest
        → found.losses.items ≡ dropped_losses opened.now (S.disk store.old)
        ++ stray_losses (known_of opened.now) (used_by opened.now (S.disk store.old)) (S.disk store.old) opened.now.next_instances.now
        opened.now.strays.now) }
    ensures unfit { IfOk result (λ found. (S.disk store.new).honest
        → found.strays.unfit ≡ unfit_after (S.disk store.old) (known_of opened.now).names opened.now.next_instances.now
        0 opened.now.strays.now) }
    ensures unchanged { Keeps (S.disk store.old) (S.disk store.new) }
    ensures cause { HasCause (S.disk store.old) result (S.disk store.new) }
{
    let listed = store.list(alloc)?;
    let mut survey = Surveyed {
        losses: Vec::new(alloc),
        strays: StrayCounts {
            unfit: 0,
            never_given_out: BTreeMap::new(alloc),
            of_nobody: BTreeMap::new(alloc),
            short: 0,
            unreadable: 0,
            unfinished: 0,
        },
    };
    add_dropped(alloc, store, &listed, opened, &mut survey.losses)?;
    add_aside(alloc, store, &listed, opened, &mut survey)?;
    Ok(survey)
}

/// Whether a file is of a generation of a catalog of which a greater one is in use behind an opening. The store is only read.
pub fn is_replaced<S: Store>(
    alloc: Global,
    store: &mut S,
    opened: &Opened<'_>,
    file: u64,
) -> Result<bool, StoreFault>
    ensures replaced { IfOk result (λ replaced. (S.disk store.new).honest
        → replaced ≡ is_superseded (used_by opened.now (S.disk store.old)) (header_at (S.disk store.old) file)) }
    ensures unchanged { Keeps (S.disk store.old) (S.disk store.new) }
    ensures cause { HasCause (S.disk store.old) result (S.disk store.new) }
{
    let listed = store.list(alloc)?;
    let used = catalogs_in_use(alloc, store, &listed, opened.strays, opened.files)?;
    let header = header_among(alloc, store, &listed, file)?;
    Ok(is_superseded(&used, header.as_ref()))
}

/// Adds the files of which an opening drops whole batches.
fn add_dropped<S: Store>(
    alloc: Global,
    store: &mut S,
    listed: &[u64],
    opened: &Opened<'_>,
    losses: &mut Vec<Loss>,
) -> Result<(), StoreFault>
    requires { listed.now ≡ keys (S.disk store.old).table }
    ensures losses { IfOk result (λ _. (S.disk store.new).honest
        → losses.new.items ≡ losses.old.items ++ dropped_losses opened.now (S.disk store.old)) }
    ensures unchanged { Keeps (S.disk store.old) (S.disk store.new) }
    ensures cause { HasCause (S.disk store.old) result (S.disk store.new) }
{
    if any_dropped(opened.files) {
        let used = catalogs_in_use(alloc, store, listed, opened.strays, opened.files)?;
        return add_files(alloc, store, listed, opened, &used, losses);
    }
    Ok(())
}

/// Adds the files of which an opening drops whole batches that no snapshot took the place of, by the headers of the catalogs in use.
fn add_files<S: Store>(
    alloc: Global,
    store: &mut S,
    listed: &[u64],
    opened: &Opened<'_>,
    used: &[SegmentHeader],
    losses: &mut Vec<Loss>,
) -> Result<(), StoreFault>
    requires { listed.now ≡ keys (S.disk store.old).table }
    ensures losses { IfOk result (λ _. (S.disk store.new).honest → losses.new.items
        ≡ losses.old.items ++ losses_of (known_of opened.now) used.now (S.disk store.old) opened.now.files.now) }
    ensures unchanged { Keeps (S.disk store.old) (S.disk store.new) }
    ensures cause { HasCause (S.disk store.old) result (S.disk store.new) }
{
    for file in opened.files {
        add_left(alloc, store, listed, opened, used, file, losses)?;
    }
    Ok(())
}

/// Adds a file, where an opening drops whole batches of it that no snapshot took the place of.
fn add_left<S: Store>(
    alloc: Global,
    store: &mut S,
    listed: &[u64],
    opened: &Opened<'_>,
    used: &[SegmentHeader],
    file: &Left,
    losses: &mut Vec<Loss>,
) -> Result<(), StoreFault>
    requires { listed.now ≡ keys (S.disk store.old).table }
    ensures losses { IfOk result (λ _. (S.disk store.new).honest
        → losses.new.items ≡ losses.old.items ++ loss_of (known_of opened.now) used.now (S.disk store.old) file.now) }
    ensures unchanged { Keeps (S.disk store.old) (S.disk store.new) }
    ensures cause { HasCause (S.disk store.old) result (S.disk store.new) }
{
    if !file.is_dropped() {
        return Ok(());
    }
    let header = header_among(alloc, store, listed, file.file)?;
    if is_superseded(used, header.as_ref()) {
        return Ok(());
    }
    let place = file.after.unwrap_or(0);
    add_loss(alloc, store, listed, opened, file.file, place, losses)
}

/// Adds a file, where whole batches stand in it from a place on and end above the start that is recorded.
fn add_loss<S: Store>(
    alloc: Global,
    store: &mut S,
    listed: &[u64],
    opened: &Opened<'_>,
    file: u64,
    place: u64,
    losses: &mut Vec<Loss>,
) -> Result<(), StoreFault>
    requires { listed.now ≡ keys (S.disk store.old).table }
    ensures losses { IfOk result (λ _. (S.disk store.new).honest
        → losses.new.items ≡ losses.old.items ++ loss_at (known_of opened.now) (S.disk store.old) file place) }
    ensures unchanged { Keeps (S.disk store.old) (S.disk store.new) }
    ensures cause { HasCause (S.disk store.old) result (S.disk store.new) }
{
    let header = header_among(alloc, store, listed, file)?;
    let start = start_of(opened.names, opened.starts, header.as_ref());
    add_above(alloc, store, listed, file, place, start, losses)
}

/// Adds a file, where whole batches stand in it from a place on and end above a start.
fn add_above<S: Store>(
    alloc: Global,
    store: &mut S,
    listed: &[u64],
    file: u64,
    place: u64,
    start: u64,
    losses: &mut Vec<Loss>,
) -> Result<(), StoreFault>
    requires { listed.now ≡ keys (S.disk store.old).table }
    ensures losses { IfOk result (λ _. (S.disk store.new).honest
        → losses.new.items ≡ losses.old.items ++ loss_above (S.disk store.old) file place start) }
    ensures unchanged { Keeps (S.disk store.old) (S.disk store.new) }
    ensures cause { HasCause (S.disk store.old) result (S.disk store.new) }
{
    let whole = whole_among(alloc, store, listed, file, place, start)?;
    if whole.batches > 0 {
        let header = header_among(alloc, store, listed, file)?;
        losses.push(Loss {
            file,
            header,
            whole,
        })?;
    }
    Ok(())
}

/// Adds the files that are of no log.
fn add_aside<S: Store>(
    alloc: Global,
    store: &mut S,
    listed: &[u64],
    opened: &Opened<'_>,
    survey: &mut Surveyed,
) -> Result<(), StoreFault>
    requires { listed.now ≡ keys (S.disk store.old).table }
    ensures strays { IfOk result (λ _. (S.disk store.new).honest
        → AddsStrays opened.now (S.disk store.old) survey.old survey.new) }
    ensures unchanged { Keeps (S.disk store.old) (S.disk store.new) }
    ensures cause { HasCause (S.disk store.old) result (S.disk store.new) }
{
    if !opened.strays.is_empty() {
        return add_some(alloc, store, listed, opened, survey);
    }
    Ok(())
}

/// The same where there are such files. What is in use is read for them.
fn add_some<S: Store>(
    alloc: Global,
    store: &mut S,
    listed: &[u64],
    opened: &Opened<'_>,
    survey: &mut Surveyed,
) -> Result<(), StoreFault>
    requires { listed.now ≡ keys (S.disk store.old).table }
    ensures strays { IfOk result (λ _. (S.disk store.new).honest
        → AddsStrays opened.now (S.disk store.old) survey.old survey.new) }
    ensures unchanged { Keeps (S.disk store.old) (S.disk store.new) }
    ensures cause { HasCause (S.disk store.old) result (S.disk store.new) }
{
    let used = catalogs_in_use(alloc, store, listed, opened.strays, opened.files)?;
    add_strays(alloc, store, listed, opened, &used, survey)?;
    Ok(())
}

/// Adds the files that are of no log, by the headers of the catalogs that are in use.
fn add_strays<S: Store>(
    alloc: Global,
    store: &mut S,
    listed: &[u64],
    opened: &Opened<'_>,
    used: &[SegmentHeader],
    survey: &mut Surveyed,
) -> Result<(), StoreFault>
    requires { listed.now ≡ keys (S.disk store.old).table }
    ensures losses { IfOk result (λ _. (S.disk store.new).honest
        → survey.new.losses.items ≡ survey.old.losses.items
        ++ stray_losses (known_of opened.now) used.now (S.disk store.old) opened.now.next_instances.now opened.now.strays.now) }
    ensures unfit { IfOk result (λ _. (S.disk store.new).honest
        → survey.new.strays.unfit ≡ unfit_after (S.disk store.old) (known_of opened.now).names opened.now.next_instances.now
        survey.old.strays.unfit opened.now.strays.now) }
    ensures unchanged { Keeps (S.disk store.old) (S.disk store.new) }
    ensures cause { HasCause (S.disk store.old) result (S.disk store.new) }
{
    for file in opened.strays {
        add_stray(alloc, store, listed, opened, used, *file, survey)?;
    }
    Ok(())
}

/// Adds a file that is of no log. Where its header cannot be read, its whole batches are a loss. Of a generation of a catalog that is not
/// in use those are that the catalog in use does not say.
fn add_stray<S: Store>(
    alloc: Global,
    store: &mut S,
    listed: &[u64],
    opened: &Opened<'_>,
    used: &[SegmentHeader],
    file: u64,
    survey: &mut Surveyed,
) -> Result<(), StoreFault>
    requires { listed.now ≡ keys (S.disk store.old).table }
    ensures losses { IfOk result (λ _. (S.disk store.new).honest
        → survey.new.losses.items ≡ survey.old.losses.items
        ++ stray_loss (known_of opened.now) used.now (S.disk store.old) file
        (stray_at (S.disk store.old) (known_of opened.now).names opened.now.next_instances.now file)) }
    ensures unfit { IfOk result (λ _. (S.disk store.new).honest
        → survey.new.strays.unfit ≡ with_stray survey.old.strays.unfit
        (stray_at (S.disk store.old) (known_of opened.now).names opened.now.next_instances.now file)) }
    ensures unchanged { Keeps (S.disk store.old) (S.disk store.new) }
    ensures cause { HasCause (S.disk store.old) result (S.disk store.new) }
{
    let found = stray_among(
        alloc,
        store,
        listed,
        file,
        opened.names,
        opened.next_instances,
    )?;
    let Some(stray) = found else {
        return Ok(());
    };
    let header = header_among(alloc, store, listed, file)?;
    if stray == Stray::Unreadable {
        let lost = survey.losses.len();
        add_loss(alloc, store, listed, opened, file, 0, &mut survey.losses)?;
        if survey.losses.len() > lost {
            return Ok(());
        }
    }
    if stray == Stray::Unfinished {
        let copied = copied_to(alloc, store, listed, used, file)?;
        add_above(alloc, store, listed, file, 0, copied, &mut survey.losses)?;
    }
    Ok(survey.strays.add(alloc, stray, header)?)
}

impl StrayCounts {
    ghost use Rattle.kb_survey.specs.Stray.{is_unfit};
    ghost use Rattle.kb_start.specs.Left.{told};

    /// Counts a file that is of no log.
    fn add(
        &mut self,
        alloc: Global,
        stray: Stray,
        header: Option<SegmentHeader>,
    ) -> Result<(), AllocError>
        ensures { self.new.unfit ≡ (if is_unfit stray then told (self.old.unfit + 1) else self.old.unfit) }
    {
        if stray.is_unfit() {
            self.unfit = self.unfit.saturating_add(1);
        }
        match (stray, header) {
            (Stray::NeverGivenOut, Some(header)) => {
                count(alloc, &mut self.never_given_out, header.tenant())
            }
            (Stray::OfNobody, Some(header)) => count(alloc, &mut self.of_nobody, header.tenant()),
            (Stray::Short, _) => {
                self.short = self.short.saturating_add(1);
                Ok(())
            }
            (Stray::Unreadable, _) => {
                self.unreadable = self.unreadable.saturating_add(1);
                Ok(())
            }
            (Stray::Unfinished, _) => {
                self.unfinished = self.unfinished.saturating_add(1);
                Ok(())
            }
            _ => Ok(()),
        }
    }
}

/// Counts one more of a tenant.
pub(crate) fn count(
    alloc: Global,
    counts: &mut BTreeMap<String, u64>,
    tenant: &str,
) -> Result<(), AllocError> {
    let name = String::from_str(alloc, tenant)?;
    if let Some(count) = counts.get_mut(&name) {
        *count = count.saturating_add(1);
        return Ok(());
    }
    counts.insert(name, 1)?;
    Ok(())
}
