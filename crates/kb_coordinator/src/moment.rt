//! Moments, and connections that end.
ghost use Rattle.std.specs.Prelude.{◌≡◌, ◌≤◌, ◌++◌, OnErr, OnOk, IfNone, IfSome, [], false, true, if◌then◌else◌, map, min, nat_eq};
ghost use Rattle.kb_wire.specs.declared.clock.TheConstants.{MAX_CLOCK};
ghost use Rattle.std.specs.Prelude.{option_copied};
ghost use Rattle.std.specs.List.{All, flat_map};
ghost use Rattle.kb_coordinator.specs.Groups.{AreInOrder};
ghost use Rattle.kb_groups.specs.Moments as due;
ghost use Rattle.kb_groups.specs.Moments.{tick};
ghost use Rattle.kb_groups.specs.Sizes.{counted};
ghost use Rattle.kb_coordinator.specs.Groups.{earliest, kept_bytes};
ghost use Rattle.kb_coordinator.specs.Calls.{Ticks, at_moment, hung_up, is_due, left, next_due, passed, reply_among, reply_to, ticked};

use crate::coordinator::Coordinator;
use crate::groups::Entry;
use kb_groups::{Group, Release, Reply};
use std::alloc::{AllocError, Global};

/// Before this moment no session of these groups ends and no deadline comes. It looks at no member.
fn quiet_until(groups: &[Entry]) -> u64
    ensures { result ≤ earliest groups.now }
{
    let mut quiet_until = u64::MAX;
    for i in 0..groups.len() {
        quiet_until = quiet_until.min(groups[i].group.quiet_until());
    }
    quiet_until
}

/// The first of that moment and the next at which something is due in a group. It looks at the members only where that may be earlier.
fn earlier(group: &Group, moment: u64) -> u64
    ensures { result ≡ min moment (due.next_due group.now) }
{
    if group.quiet_until() < moment {
        moment.min(group.next_due())
    } else {
        moment
    }
}

/// The first moment at which a session of these groups ends or a deadline of them comes; `u64::MAX` where there is none.
fn earliest(groups: &[Entry]) -> u64
    ensures { result ≡ earliest groups.now }
{
    let mut earliest = u64::MAX;
    for i in 0..groups.len() {
        earliest = earlier(&groups[i].group, earliest);
    }
    earliest
}

/// What these groups keep, with their ids; `u64::MAX` for all above. It looks at no member.
fn kept_bytes(groups: &[Entry]) -> u64
    ensures { result ≡ counted (kept_bytes groups.now) }
{
    let mut bytes: u64 = 0;
    for entry in groups {
        let id = entry.id.as_slice().len() as u64;
        bytes = bytes.saturating_add(entry.group.bytes()).saturating_add(id);
    }
    bytes
}

/// What waits on that connection waits no longer.
fn hang_up(groups: &mut [Entry], connection: u64, clock: u64)
    ensures { groups.new ≡ map (hung_up clock connection) groups.old }
{
    for i in 0..groups.len() {
        groups[i].group.dropped(connection, clock);
    }
}

/// The moment of a group. An `Err` changes nothing.
fn tick_one(
    alloc: Global,
    entry: &mut Entry,
    clock: u64,
    released: &mut Vec<Vec<Release>>,
) -> Result<(), AllocError>
    requires clock { clock ≤ MAX_CLOCK }
    requires order { All (λ v. AreInOrder v.items) released.old.items }
    ensures entry { OnOk result (entry.new ≡ ticked clock entry.old) }
    ensures released { OnOk result (flat_map (λ v. v.items) released.new.items ≡ flat_map (λ v. v.items) released.old.items
        ++ (tick clock entry.old.group).released) }
    ensures refused { OnErr result ((entry.new ≡ entry.old)
        × (flat_map (λ v. v.items) released.new.items ≡ flat_map (λ v. v.items) released.old.items)) }
    ensures order { All (λ v. AreInOrder v.items) released.new.items }
{
    if clock < entry.group.quiet_until() {
        return Ok(());
    }
    released.push(Vec::new(alloc))?;
    let replies = entry.group.tick(alloc, clock)?;
    let last = released.len() - 1;
    released[last] = replies;
    Ok(())
}

/// The moment of a group, and how many were refused memory: itself, which is then as it was, or none.
fn tick_counted(
    alloc: Global,
    entry: &mut Entry,
    clock: u64,
    released: &mut Vec<Vec<Release>>,
) -> usize
    requires clock { clock ≤ MAX_CLOCK }
    requires order { All (λ v. AreInOrder v.items) released.old.items }
    ensures entry { entry.new ≡ (if nat_eq result 0 then ticked clock entry.old else entry.old) }
    ensures released { flat_map (λ v. v.items) released.new.items ≡ flat_map (λ v. v.items) released.old.items
        ++ (if nat_eq result 0 then (tick clock entry.old.group).released else []) }
    ensures order { All (λ v. AreInOrder v.items) released.new.items }
    ensures most { result ≤ 1 }
{
    match tick_one(alloc, entry, clock, released) {
        Ok(()) => 0,
        Err(_) => 1,
    }
}

/// The moment of each group, and how many were refused memory, which are as they were.
fn tick_each(
    alloc: Global,
    groups: &mut [Entry],
    clock: u64,
    released: &mut Vec<Vec<Release>>,
) -> usize
    requires clock { clock ≤ MAX_CLOCK }
    requires silent { flat_map (λ v. v.items) released.old.items ≡ [] }
    requires order { All (λ v. AreInOrder v.items) released.old.items }
    ensures ticks { Ticks clock groups.old groups.new (flat_map (λ v. v.items) released.new.items) result }
    ensures order { All (λ v. AreInOrder v.items) released.new.items }
{
    let mut refused = 0;
    for i in 0..groups.len() {
        refused += tick_counted(alloc, &mut groups[i], clock, released);
    }
    refused
}

/// The reply on that connection among these, by halving.
fn reply_among(releases: &[Release], connection: u64) -> Option<&Reply>
    requires { AreInOrder releases.now }
    ensures { option_copied result ≡ reply_among connection releases.now }
{
    let place = releases.partition_point(|release| release.connection < connection);
    let release = releases.get(place)?;
    if release.connection == connection {
        Some(&release.reply)
    } else {
        None
    }
}

impl Coordinator {
    /// A connection is closed or shut: it waits no longer. The member whose request waited stays, and its session starts. It takes no
    /// memory, and looks at the members of those groups alone in which a request waits.
    pub fn left(&mut self, connection: u64, clock: u64)
        ensures { self.new ≡ left clock connection self.old }
    {
        hang_up(&mut self.groups, connection, clock);
        self.quiet_until = quiet_until(&self.groups);
    }

    /// A moment: group by group, in byte order of the ids, sessions end, and then a deadline comes. Gives how many groups were refused
    /// memory: these are as they were, until the next moment. Where nothing is due it costs constant time.
    pub fn at_moment(&mut self, clock: u64) -> usize
        requires { clock ≤ MAX_CLOCK }
        ensures all { result ≡ 0 → self.new ≡ at_moment clock self.old }
        ensures groups { Ticks clock self.old.groups self.new.groups self.new.released result }
        ensures members { self.new.members ≡ self.old.members }
        ensures limits { self.new.limits ≡ self.old.limits }
    {
        self.released.clear();
        if clock < self.quiet_until {
            return 0;
        }
        let refused = tick_each(self.alloc, &mut self.groups, clock, &mut self.released);
        self.quiet_until = quiet_until(&self.groups);
        self.bytes = kept_bytes(&self.groups);
        refused
    }

    /// Before this moment, in milliseconds, no session of a group ends and no deadline comes. It costs constant time.
    pub fn quiet_until(&self) -> u64
        ensures { result ≤ earliest self.now.groups }
    {
        self.quiet_until
    }

    /// A moment, if a session ends or a deadline comes by then: as `at_moment`. `None`: nothing is due, and nothing has changed, not
    /// even the last replies. Else it gives how many groups were refused memory: these are as they were, until the next moment.
    ///
    /// Before `quiet_until` it costs constant time; else it looks at the members of groups whose sessions may have ended.
    pub fn pass(&mut self, clock: u64) -> Option<usize>
        requires { clock ≤ MAX_CLOCK }
        ensures none { IfNone result ((is_due clock self.old ≡ false) × (self.new ≡ self.old)) }
        // Where nothing is due, nothing is refused either.
        ensures due { IfSome result (λ refused. is_due clock self.old ≡ true) }
        ensures all { IfSome result (λ refused. refused ≡ 0 → self.new ≡ passed clock self.old) }
        ensures groups { IfSome result (λ refused. Ticks clock self.old.groups self.new.groups self.new.released refused) }
        ensures members { self.new.members ≡ self.old.members }
        ensures limits { self.new.limits ≡ self.old.limits }
    {
        if clock < self.quiet_until {
            return None;
        }
        let earliest = earliest(&self.groups);
        if clock < earliest {
            self.quiet_until = earliest;
            return None;
        }
        Some(self.at_moment(clock))
    }

    /// The next moment at which a session ends or a deadline comes, if there is one.
    pub fn next_due(&self) -> Option<u64>
        ensures { result ≡ next_due self.now }
    {
        let earliest = earliest(&self.groups);
        if earliest < u64::MAX {
            Some(earliest)
        } else {
            None
        }
    }

    /// The replies that the last request or moment gave to requests that waited: by group in byte order of the ids, and in each by
    /// connection number.
    pub fn released(&self) -> &[Vec<Release>]
        ensures { flat_map (λ v. v.items) result.now ≡ self.now.released }
    {
        self.released.as_slice()
    }

    /// What the request that waits on that connection is answered, if the last request or moment answered it. Each group's replies are
    /// searched by halving.
    pub fn reply_to(&self, connection: u64) -> Option<&Reply>
        ensures { option_copied result ≡ reply_to connection self.now }
    {
        for i in 0..self.released.len() {
            if let Some(reply) = reply_among(&self.released[i], connection) {
                return Some(reply);
            }
        }
        None
    }
}
