//! What all orders say together that the packets allow, under an end's widest configurations.

ghost use Rattle.std.specs.Prelude.{◌≡◌, false, Some, IfOk, map, option_map};
ghost use Rattle.mrt.specs.Reader.{shown_of};
ghost use Rattle.bgp_recording.specs.Gathered.{IsClocked, IsCovered};
ghost use Rattle.bgp_orders.specs.Connections.{TellsConnection};
ghost use Rattle.bgp_check.specs.declared.widest.Widest.{Widest as TheWidest};
ghost use Rattle.bgp_check_tool.specs.Orders.{FindsRecords, IsFinding, IsSaid, IsSaidBy};
ghost use Rattle.bgp_check_tool.specs.Orders.{IsSaidOver, SaysRecords, is_too_many, is_whole};
ghost use Rattle.bgp_check_tool.specs.Orders.{records_received, records_sent, tells_other};

use crate::ending::Viewed;
use crate::peer::{heard_as, peer_as_by};
use bgp_check::{PeerAs, Widest, own_open, peers_open, widest_of};
use bgp_open::Config;
use bgp_orders::{Explained, Unexplained, explained_count, record_whole_way};
use bgp_recording::{Exchange, Framings, Message, Recording, frame_connection};
use mrt::Record;
use std::alloc::{AllocError, Allocator};

/// What the search over all orders finds under a configuration.
#[derive(Drop)]
enum Finding<'a, A: Allocator> {
    /// Some order is whole: its records.
    Whole(Recording<'a, A>),
    /// Some order explains all that was sent, and none is whole.
    Unfinished,
    /// Behind so many sent messages stands the first that no order explains.
    Only(usize),
    /// None of these is known: there are too many nodes.
    TooMany,
}

/// Whether some order is whole.
fn is_whole<A: Allocator>(finding: &Finding<'_, A>) -> bool
    ensures { result ≡ is_whole finding.now }
{
    match finding {
        Finding::Whole(_) => true,
        Finding::Unfinished | Finding::Only(_) | Finding::TooMany => false,
    }
}

/// Whether there are too many nodes.
fn is_too_many<A: Allocator>(finding: &Finding<'_, A>) -> bool
    ensures { result ≡ is_too_many finding.now }
{
    match finding {
        Finding::TooMany => true,
        Finding::Whole(_) | Finding::Unfinished | Finding::Only(_) => false,
    }
}

/// Whether the other one of two findings is told.
fn tells_other<A: Allocator>(one: &Finding<'_, A>, other: &Finding<'_, A>) -> bool
    ensures { result ≡ tells_other one.now other.now }
{
    match (one, other) {
        (Finding::Whole(_), _) => false,
        (_, Finding::Whole(_)) => true,
        (Finding::TooMany, _) => false,
        (_, Finding::TooMany) => true,
        (Finding::Unfinished, _) => false,
        (_, Finding::Unfinished) => true,
        (Finding::Only(count), Finding::Only(later)) => *count < *later,
    }
}

/// Under which of the widest configurations the search over all orders is known to be too long.
/// With more patience it is, too: there are no fewer nodes.
#[derive(Clone, Copy)]
pub(crate) struct TooLong {
    /// Under the one that wants the AS number of the peer's OPEN.
    wanting: bool,
    /// Under the other.
    another: bool,
}

impl TooLong {
    /// Returns that it is known of none.
    pub(crate) fn unknown() -> TooLong
        ensures wanting { result.wanting ≡ false }
        ensures another { result.another ≡ false }
    {
        TooLong {
            wanting: false,
            another: false,
        }
    }

    /// Returns whether it is by this finding, where there is one configuration.
    fn alone<A: Allocator>(alone: &Finding<'_, A>) -> TooLong
        ensures wanting { result.wanting ≡ false }
        ensures another { result.another ≡ is_too_many alone.now }
    {
        TooLong {
            wanting: false,
            another: is_too_many(alone),
        }
    }

    /// Returns under which it is by these findings under both.
    fn by<A: Allocator>(wanting: &Finding<'_, A>, another: &Finding<'_, A>) -> TooLong
        ensures wanting { result.wanting ≡ is_too_many wanting.now }
        ensures another { result.another ≡ is_too_many another.now }
    {
        TooLong {
            wanting: is_too_many(wanting),
            another: is_too_many(another),
        }
    }
}

/// What the search over all orders finds, under the one of the widest configurations that has the
/// better verdict.
#[derive(Drop)]
struct Over<'a, A: Allocator> {
    finding: Finding<'a, A>,
    /// Whether that configuration wants the AS number of the peer's OPEN.
    wants_peers: bool,
    under: Config,
    /// Under which the search is too long, if it is told so.
    too_long: TooLong,
}

/// The configuration under which what is said of all orders is so.
#[derive(Clone, Copy)]
pub(crate) struct Under {
    /// The AS number that the end's peer has to have.
    pub(crate) peer_as: PeerAs,
    /// The configuration.
    pub(crate) under: Config,
}

/// The first sent message that no order explains.
#[derive(Clone, Copy)]
pub(crate) struct NoOrder<'a> {
    /// Where it stands.
    pub(crate) unexplained: Unexplained,
    /// The message.
    pub(crate) message: Message<'a>,
    /// Under which configuration all before it are explained.
    pub(crate) its: Under,
    /// The OPENs of which that is a widest configuration: the end's,
    pub(crate) own: Option<&'a [u8]>,
    /// and that of its peer.
    pub(crate) peers: Option<&'a [u8]>,
}

/// What all orders of an end's messages say.
#[derive(Drop)]
pub(crate) enum Said<'a, A: Allocator> {
    /// Under this configuration some order is whole: its records.
    Whole(Config, Recording<'a, A>),
    /// No order explains this sent message.
    NoOrder(NoOrder<'a>),
    /// Some order explains all that was sent, and none is whole.
    Unfinished(Under),
    /// None of these is known: under these configurations the search is too long, and under one that
    /// isn't named no order is whole.
    TooLong(TooLong),
    /// None of these is known.
    Neither,
}

/// Returns received messages as records.
fn records_received<'a, A: Allocator + Copy>(
    alloc: A,
    messages: &[Message<'a>],
) -> Result<Vec<Record<'a>, A>, AllocError>
    ensures { IfOk result (λ records.
        map shown_of records.items ≡ records_received messages.now) }
{
    let mut records = Vec::new(alloc);
    for message in messages {
        records.push(Record::In(message.second, message.octets))?;
    }
    Ok(records)
}

/// Returns sent messages as records.
fn records_sent<'a, A: Allocator + Copy>(
    alloc: A,
    messages: &[Message<'a>],
) -> Result<Vec<Record<'a>, A>, AllocError>
    ensures { IfOk result (λ records.
        map shown_of records.items ≡ records_sent messages.now) }
{
    let mut records = Vec::new(alloc);
    for message in messages {
        records.push(Record::Out(message.second, message.octets))?;
    }
    Ok(records)
}

/// Returns what the search finds under this configuration, unless it is known to be too long.
fn search_under<'a, A: Allocator + Copy>(
    alloc: A,
    viewed: &Viewed<'a>,
    framings: Framings,
    exchange: &Exchange<'_, 'a>,
    config: &Config,
    too_long: bool,
) -> Result<Finding<'a, A>, AllocError>
    requires received { IsCovered viewed.now.connection.received }
    requires sent { IsCovered viewed.now.connection.sent }
    ensures records { IfOk result (λ finding. FindsRecords finding) }
    ensures finding { IfOk result (λ finding. IsClocked viewed.now.connection
        → TellsConnection framings viewed.now.connection exchange.now
        → IsFinding viewed.now.options.within framings viewed.now.connection config.now
        exchange.now too_long finding) }
{
    if too_long {
        return Ok(Finding::TooMany);
    }
    let connection = &viewed.connection;
    let within = viewed.options.within;
    match explained_count(alloc, config, exchange, within)? {
        Explained::All { is_whole: true } => {
            match record_whole_way(alloc, config, connection, framings, within)? {
                Some(recording) => Ok(Finding::Whole(recording)),
                None => Ok(Finding::TooMany),
            }
        }
        Explained::All { is_whole: false } => Ok(Finding::Unfinished),
        Explained::Only(count) => Ok(Finding::Only(count)),
        Explained::TooMany => Ok(Finding::TooMany),
    }
}

/// Returns what the search finds under both, the one and the other of the widest configurations. The
/// second one is searched only where the first has no whole order; and none under which it is known
/// to be too long.
fn search_both<'a, A: Allocator + Copy>(
    alloc: A,
    viewed: &Viewed<'a>,
    framings: Framings,
    exchange: &Exchange<'_, 'a>,
    wanting: &Config,
    another: &Config,
    known: TooLong,
) -> Result<Over<'a, A>, AllocError>
    requires received { IsCovered viewed.now.connection.received }
    requires sent { IsCovered viewed.now.connection.sent }
    ensures records { IfOk result (λ over. FindsRecords over.finding) }
    ensures over { IfOk result (λ over. (widest : TheWidest)
        → widest.wanting ≡ Some wanting.now → widest.another ≡ another.now
        → IsClocked viewed.now.connection
        → TellsConnection framings viewed.now.connection exchange.now
        → IsSaidOver viewed.now.options.within framings viewed.now.connection widest exchange.now
        known over.wants_peers over.under over.too_long over.finding) }
{
    let one = search_under(alloc, viewed, framings, exchange, wanting, known.wanting)?;
    if is_whole(&one) {
        return Ok(Over {
            finding: one,
            wants_peers: true,
            under: *wanting,
            too_long: TooLong::unknown(),
        });
    }
    let other = search_under(alloc, viewed, framings, exchange, another, known.another)?;
    let too_long = TooLong::by(&one, &other);
    if tells_other(&one, &other) {
        Ok(Over {
            finding: other,
            wants_peers: false,
            under: *another,
            too_long,
        })
    } else {
        Ok(Over {
            finding: one,
            wants_peers: true,
            under: *wanting,
            too_long,
        })
    }
}

/// Returns what the search finds under the widest configurations, where it is known to be too long
/// under these of them.
fn search_over<'a, A: Allocator + Copy>(
    alloc: A,
    viewed: &Viewed<'a>,
    framings: Framings,
    exchange: &Exchange<'_, 'a>,
    widest: &Widest,
    known: TooLong,
) -> Result<Over<'a, A>, AllocError>
    requires received { IsCovered viewed.now.connection.received }
    requires sent { IsCovered viewed.now.connection.sent }
    ensures records { IfOk result (λ over. FindsRecords over.finding) }
    ensures over { IfOk result (λ over. IsClocked viewed.now.connection
        → TellsConnection framings viewed.now.connection exchange.now
        → IsSaidOver viewed.now.options.within framings viewed.now.connection widest.now
        exchange.now known over.wants_peers over.under over.too_long over.finding) }
{
    let another = &widest.another;
    let Some(wanting) = widest.wanting else {
        let alone = search_under(alloc, viewed, framings, exchange, another, known.another)?;
        let too_long = TooLong::alone(&alone);
        return Ok(Over {
            finding: alone,
            wants_peers: false,
            under: *another,
            too_long,
        });
    };
    search_both(alloc, viewed, framings, exchange, &wanting, another, known)
}

/// Returns what is said by what is found, for this peer; of a no with the first sent message that no
/// order explains, the configuration, and these OPENs.
fn said_of<'a, A: Allocator>(
    exchange: &Exchange<'_, 'a>,
    own: Option<&'a [u8]>,
    peers: Option<&'a [u8]>,
    peer_as: PeerAs,
    over: Over<'a, A>,
) -> Said<'a, A>
    ensures { IsSaidBy exchange.now (option_map (λ o. o.now) own.entry)
        (option_map (λ o. o.now) peers.entry) peer_as over.entry.under over.entry.too_long
        over.entry.finding result }
{
    let under = over.under;
    let its = Under { peer_as, under };
    match over.finding {
        Finding::Whole(recording) => Said::Whole(under, recording),
        Finding::Unfinished => Said::Unfinished(its),
        Finding::Only(before) => match exchange.sent.get(before) {
            Some(message) => Said::NoOrder(NoOrder {
                unexplained: Unexplained {
                    before,
                    packet: message.packet,
                },
                message: *message,
                its,
                own,
                peers,
            }),
            None => Said::Neither,
        },
        Finding::TooMany => Said::TooLong(over.too_long),
    }
}

/// Returns what all orders of the end's messages say, the connection framed so. The search is known
/// to be too long under these configurations.
pub(crate) fn search_end<'a, A: Allocator + Copy>(
    alloc: A,
    viewed: &Viewed<'a>,
    framings: Framings,
    known: TooLong,
) -> Result<Said<'a, A>, AllocError>
    requires received { IsCovered viewed.now.connection.received }
    requires sent { IsCovered viewed.now.connection.sent }
    ensures records { IfOk result (λ said. SaysRecords said) }
    ensures said { IfOk result (λ said. IsClocked viewed.now.connection → IsSaid
        viewed.now.session viewed.now.options.within framings viewed.now.connection known said) }
{
    let framed = frame_connection(alloc, &viewed.connection, framings)?;
    let exchange = framed.exchange(&viewed.connection);
    let received = records_received(alloc, exchange.received)?;
    let sent = records_sent(alloc, exchange.sent)?;
    let own = own_open(&sent);
    let peers = peers_open(&received);
    let Some(widest) = widest_of(&viewed.session, own, peers) else {
        return Ok(Said::Neither);
    };
    let over = search_over(alloc, viewed, framings, &exchange, &widest, known)?;
    let peer_as = peer_as_by(over.wants_peers, peers, heard_as(&widest));
    Ok(said_of(&exchange, own, peers, peer_as, over))
}
