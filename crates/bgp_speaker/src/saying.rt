//! The messages that a core sends.

ghost use Rattle.std.specs.Prelude.{◌≡◌, ◌≤◌, [], Some, IfOk, IsTrue, length};
ghost use Rattle.bgp_prefix.specs.declared.family.Family.TheVariants.{V4};
ghost use Rattle.bgp_prefix.specs.Prefix.{IsPrefix};
ghost use Rattle.bgp_wire.specs.Message.{message_octets};
ghost use Rattle.bgp_open.specs.Families.{contains};
ghost use Rattle.bgp_open.specs.OwnOpen.{own_fields};
ghost use Rattle.bgp_open.specs.Written.{notification_octets, open_octets};
ghost use Rattle.bgp_update_writer.specs.Applied.{changes_of_update};
ghost use Rattle.bgp_update_writer.specs.Refusals.{IsFamilyUsed, IsSendable, IsTooLarge};
ghost use Rattle.bgp_update_writer.specs.Update.{update_value};
ghost use Rattle.bgp_update_writer.specs.Written.{update_octets};
ghost use Rattle.bgp_speaker.specs.Core.{IsPlain};
ghost use Rattle.bgp_speaker.specs.Drafts.{CanBeSaid, CanBeTold, news_changes, prefix_told};
ghost use Rattle.bgp_speaker.specs.Said.{Says, SaysChanges, announced, own_path, withdrawn};

use crate::speaker::Speaker;
use bgp_machine::Want;
use bgp_open::{
    Config, Link, Notification, NotificationWriteFault, write_notification, write_own_open,
};
use bgp_path::{AsPath, Items, NextHop, Numbers, Origin, Path, PathParts, Segment, SegmentKind};
use bgp_prefix::{Family, Prefix};
use bgp_update_writer::{Update, UpdateFault, one_prefix_can_be_written, write_update};
use bgp_wire::{ErrorCode, put_keepalive};
use std::alloc::{AllocError, Allocator};

/// What an UPDATE tells the peer.
#[derive(Clone, Copy, Debug)]
pub(crate) enum News {
    /// The prefix is reachable.
    Announced(Prefix),
    /// It isn't any more.
    Withdrawn(Prefix),
}

impl News {
    /// The prefix.
    pub(crate) fn prefix(&self) -> Prefix
        ensures { result ≡ prefix_told self.now }
    {
        match self {
            News::Announced(prefix) | News::Withdrawn(prefix) => *prefix,
        }
    }
}

/// The subcode of Cease that is sent: Administrative Shutdown (RFC 4486, 4).
const ADMINISTRATIVE_SHUTDOWN: u8 = 2;

/// The LOCAL_PREF of what is announced to an internal peer (RFC 4271, 5.1.5).
const LOCAL_PREFERENCE: u32 = 100;

/// The message that is sent for a want. `kind` is the Type of the message that moves the session, 0
/// where none does, and `news` what an UPDATE is to tell.
pub(crate) fn message<A: Allocator + Copy>(
    alloc: A,
    speaker: &Speaker,
    link: Option<Link>,
    kind: u8,
    news: &Option<News>,
    want: Want,
) -> Result<Vec<u8, A>, AllocError>
    requires { CanBeSaid link news.now want }
    ensures { IfOk result (λ m. Says speaker.now link kind
        (news_changes speaker.now link news.now) want m.items) }
{
    match want {
        Want::OwnOpen => own_open(alloc, &speaker.config),
        Want::KeepAlive => keepalive(alloc),
        Want::CleanUpdate => {
            let (Some(link), Some(told)) = (link, news) else {
                unreachable!();
            };
            update(alloc, speaker, &link, told)
        }
        Want::Cease => {
            notification(alloc, ErrorCode::Cease.code(), ADMINISTRATIVE_SHUTDOWN, &[])
        }
        Want::HoldExpired => notification(alloc, ErrorCode::HoldTimerExpired.code(), 0, &[]),
        // The core takes no row that wants it.
        Want::SendHoldExpired => {
            notification(alloc, ErrorCode::SendHoldTimerExpired.code(), 0, &[])
        }
        // Its data are the Type of the message that the state doesn't expect (RFC 6608, 3).
        Want::MachineError(state) => {
            let code = ErrorCode::FiniteStateMachine.code();
            notification(alloc, code, state.subcode(), &[kind])
        }
        Want::Faults(faults) => {
            let Some(fault) = faults.least() else {
                unreachable!();
            };
            notification(alloc, fault.code, fault.subcode, fault.detail.as_slice())
        }
    }
}

/// The OPEN that says what is configured.
fn own_open<A: Allocator + Copy>(alloc: A, config: &Config) -> Result<Vec<u8, A>, AllocError>
    ensures { IfOk result (λ m. m.items ≡ open_octets (own_fields config.now)) }
{
    let mut octets = Vec::new(alloc);
    write_own_open(config, &mut octets)?;
    Ok(octets)
}

/// A KEEPALIVE.
fn keepalive<A: Allocator + Copy>(alloc: A) -> Result<Vec<u8, A>, AllocError>
    ensures { IfOk result (λ m. m.items ≡ message_octets 4 []) }
{
    let mut octets = Vec::new(alloc);
    put_keepalive(&mut octets)?;
    Ok(octets)
}

/// A NOTIFICATION with data that fit.
fn notification<A: Allocator + Copy>(
    alloc: A,
    code: u8,
    subcode: u8,
    detail: &[u8],
) -> Result<Vec<u8, A>, AllocError>
    requires { length detail.now ≤ 2 }
    ensures { IfOk result (λ m. m.items ≡ notification_octets code subcode detail.now) }
{
    let mut octets = Vec::new(alloc);
    let notification = Notification {
        code,
        subcode,
        detail,
    };
    match write_notification(&notification, &mut octets) {
        Ok(()) => Ok(octets),
        Err(NotificationWriteFault::Memory) => Err(AllocError),
        Err(NotificationWriteFault::TooLarge) => unreachable!(),
    }
}

/// The UPDATE that tells the peer of a prefix, whose family is in use on the plain link.
fn update<A: Allocator + Copy>(
    alloc: A,
    speaker: &Speaker,
    link: &Link,
    told: &News,
) -> Result<Vec<u8, A>, AllocError>
    requires { CanBeTold (Some link.now) (Some told.now) }
    ensures { IfOk result (λ m. SaysChanges (Some link.now)
        (news_changes speaker.now (Some link.now) (Some told.now)) m.items) }
{
    match told {
        News::Announced(prefix) => announcement(alloc, speaker, link, *prefix),
        News::Withdrawn(prefix) => withdrawal(alloc, link, *prefix),
    }
}

/// The UPDATE that announces a prefix.
fn announcement<A: Allocator + Copy>(
    alloc: A,
    speaker: &Speaker,
    link: &Link,
    prefix: Prefix,
) -> Result<Vec<u8, A>, AllocError>
    requires used { IsTrue (contains link.now.families prefix.family) }
    requires plain { IsPlain (Some link.now) }
    ensures { IfOk result (λ m. SaysChanges (Some link.now)
        (announced speaker.now link.now prefix) m.items) }
{
    one_prefix_can_be_written();
    prefix_is_fit(&prefix);
    let family = prefix.family();
    let path = announced_path(alloc, speaker, link, family)?;
    let update = Update::Announce {
        family,
        prefixes: &[prefix],
        path: &path,
    };
    written(alloc, link, &update)
}

/// The UPDATE that withdraws a prefix.
fn withdrawal<A: Allocator + Copy>(
    alloc: A,
    link: &Link,
    prefix: Prefix,
) -> Result<Vec<u8, A>, AllocError>
    requires used { IsTrue (contains link.now.families prefix.family) }
    requires plain { IsPlain (Some link.now) }
    ensures { IfOk result (λ m. SaysChanges (Some link.now) (withdrawn prefix) m.items) }
{
    one_prefix_can_be_written();
    prefix_is_fit(&prefix);
    let update: Update<'_, A> = Update::Withdraw {
        family: prefix.family(),
        prefixes: &[prefix],
    };
    written(alloc, link, &update)
}

/// A prefix has no more bits than an address.
fn prefix_is_fit(prefix: &Prefix)
    ensures { IsPrefix prefix.now }
{
    let _length = prefix.length();
}

/// The path of what is announced of a family.
fn announced_path<A: Allocator + Copy>(
    alloc: A,
    speaker: &Speaker,
    link: &Link,
    family: Family,
) -> Result<Path<A>, AllocError>
    ensures { IfOk result (λ path. path ≡ own_path speaker.now link.now family) }
{
    let parts = PathParts {
        origin: Origin::Igp,
        as_path: announced_as_path(alloc, speaker, link)?,
        next_hop: match family {
            Family::V4 => NextHop::V4(speaker.next_hop4),
            Family::V6 => NextHop::V6(speaker.next_hop6),
        },
        multi_exit_disc: None,
        local_pref: link.internal.then_some(LOCAL_PREFERENCE),
        atomic_aggregate: false,
        aggregator: None,
        communities: Numbers::new(),
        originator_id: None,
        cluster_list: Items::new(alloc),
        extended_communities: Items::new(alloc),
        large_communities: Items::new(alloc),
    };
    Path::new(alloc, parts)
}

/// Its AS path: to an external peer the local AS alone, to an internal one no AS (RFC 4271, 5.1.2).
fn announced_as_path<A: Allocator + Copy>(
    alloc: A,
    speaker: &Speaker,
    link: &Link,
) -> Result<AsPath<A>, AllocError>
    ensures { IfOk result (λ as_path. as_path ≡ (own_path speaker.now link.now V4).as_path) }
{
    let mut as_path = AsPath::new(alloc);
    if !link.internal {
        let numbers = vec![in alloc; speaker.config.parts.local_as]?;
        let Some(segment) = Segment::new(SegmentKind::Sequence, numbers) else {
            unreachable!();
        };
        as_path.push(segment)?;
    }
    Ok(as_path)
}

/// The UPDATE that says this, where the peer takes it as it is meant and it is no longer than every
/// link allows.
fn written<A: Allocator + Copy>(
    alloc: A,
    link: &Link,
    update: &Update<'_, A>,
) -> Result<Vec<u8, A>, AllocError>
    requires used { IsFamilyUsed link.now (update_value update.now) }
    requires sendable { IsSendable link.now (update_value update.now) }
    requires fits { ¬ IsTooLarge link.now (update_value update.now) }
    requires short { length (update_octets link.now (update_value update.now)) ≤ 4096 }
    ensures { IfOk result (λ m. SaysChanges (Some link.now)
        (changes_of_update (update_value update.now)) m.items) }
{
    let mut octets = Vec::new(alloc);
    match write_update(link, update, &mut octets) {
        Ok(()) => Ok(octets),
        Err(UpdateFault::Memory) => Err(AllocError),
        Err(_) => unreachable!(),
    }
}
