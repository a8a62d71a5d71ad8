//! The widest configurations of an end: two at the most, which stand for all under which its OPEN
//! is its own.

ghost use Rattle.std.specs.Prelude.{◌≡◌, ◌==◌, if◌then◌else◌, Option, None, Some};
ghost use Rattle.std.specs.Prelude.{IfSome, IfNone, option_map};
ghost use Rattle.bgp_open.specs.Config.{IsConfig};
ghost use Rattle.bgp_open.specs.Families.{IsEmpty};
ghost use Rattle.bgp_open.specs.Offer.{families_of};
ghost use Rattle.bgp_open.specs.Open.{OpenFields, open_of};
ghost use Rattle.bgp_open.specs.OpenFault.{IsWellFormed};
ghost use Rattle.bgp_check.specs.WidestOf.{AreTold, OffersNone, other_than, own_as, parts_of};
ghost use Rattle.bgp_check.specs.WidestOf.{where_some, widest_of, widest_without};

use crate::offer::as_number;
use crate::settings::{as_to, free_settings, other_than, own_as, own_settings, some_id};
use bgp_open::{Config, ConfigParts, Open, read_fields};
use bgp_prefix::Session;

/// Two configurations at the most, of which each run shows what one shows under some configuration
/// of the end. In both the OPEN may be delayed, and the peer's is waited for a second.
#[derive(Clone, Copy, Debug, PartialEq, Eq)]
pub struct Widest {
    /// One that wants the AS number of the peer's OPEN, where one can.
    pub wanting: Option<Config>,
    /// One that wants another; or any, where the peer has none that can be told.
    pub another: Config,
}

/// The parts, unless the AS number is 0.
fn where_some(number: u32, parts: ConfigParts) -> Option<ConfigParts>
    ensures { result ≡ where_some number parts }
{
    if number == 0 { None } else { Some(parts) }
}

/// The configurations of both parts, if the second make one.
fn configurations(wanting: Option<ConfigParts>, another: ConfigParts) -> Option<Widest>
    requires { IfSome wanting (λ parts. IsConfig another → IsConfig parts) }
    ensures some { IfSome result (λ widest.
        parts_of widest ≡ record { wanting = wanting; another = another }) }
    ensures none { IfNone result (¬ IsConfig another) }
{
    let another = Config::new(another)?;
    match wanting {
        None => Some(Widest {
            wanting: None,
            another,
        }),
        Some(parts) => match Config::new(parts) {
            Some(config) => Some(Widest {
                wanting: Some(config),
                another,
            }),
            None => unreachable!(),
        },
    }
}

/// The AS number that another peer has to have: the local one, or the least other where the peer
/// has that.
fn another_as(number: u32, message: &Open<'_>) -> u32
    ensures { result ≡ (if number == own_as message.now then other_than number
        else own_as message.now) }
{
    let own = own_as(message);
    if number == own {
        other_than(number)
    } else {
        own
    }
}

/// Those of an end that sent this OPEN, and heard that one.
fn widest_with(session: &Session, own: &[u8], peers: &Open<'_>) -> Option<Widest>
    requires { IsWellFormed own.now }
    ensures some { IfSome result (λ widest. parts_of widest
        ≡ widest_of session.now (Some (open_of own.now)) (Some peers.now)) }
    ensures none { IfNone result (IsEmpty (families_of (open_of own.now).capabilities)) }
    ensures family { IfSome result (λ widest.
        ¬ IsEmpty (families_of (open_of own.now).capabilities)) }
{
    let message = read_fields(own)?;
    let number = as_to(peers, as_number(&message).is_some());
    let wanting = own_settings(session, &message, number);
    let another = own_settings(session, &message, another_as(number, &message));
    configurations(where_some(number, wanting), another)
}

/// The one of an end that sent this OPEN, and heard none that can be told.
fn widest_alone(session: &Session, own: &[u8]) -> Option<Widest>
    requires { IsWellFormed own.now }
    ensures some { IfSome result (λ widest. parts_of widest
        ≡ widest_of session.now (Some (open_of own.now)) None) }
    ensures none { IfNone result (IsEmpty (families_of (open_of own.now).capabilities)) }
    ensures family { IfSome result (λ widest.
        ¬ IsEmpty (families_of (open_of own.now).capabilities)) }
{
    let message = read_fields(own)?;
    configurations(None, own_settings(session, &message, own_as(&message)))
}

/// Those of an end that sent no OPEN, and heard this one.
fn widest_without(session: &Session, peers: &Open<'_>) -> Option<Widest>
    ensures some { IfSome result (λ widest.
        parts_of widest ≡ widest_without session.now peers.now) }
    ensures none { IfNone result ⊥ }
{
    let as4 = as_to(peers, true) != 0;
    let number = as_to(peers, as4);
    let local_as = other_than(number);
    let wanting = free_settings(session, local_as, number, other_than(peers.id()), as4);
    let another = free_settings(session, local_as, local_as, some_id(peers), true);
    configurations(where_some(number, wanting), another)
}

/// Those of an end that heard this OPEN.
fn widest_told(session: &Session, own: Option<&[u8]>, peers: &Open<'_>) -> Option<Widest>
    requires { IfSome own (λ o. IsWellFormed o.now) }
    ensures some { IfSome result (λ widest. parts_of widest
        ≡ widest_of session.now (option_map open_of (option_map (λ o. o.now) own.entry))
        (Some peers.now)) }
    ensures none { IfNone result (OffersNone (option_map (λ o. o.now) own.entry)) }
    ensures family { IfSome result (λ widest.
        ¬ OffersNone (option_map (λ o. o.now) own.entry)) }
{
    match own {
        Some(own) => widest_with(session, own, peers),
        None => widest_without(session, peers),
    }
}

/// The one of an end that heard no OPEN that can be told.
fn widest_untold(session: &Session, own: Option<&[u8]>) -> Option<Widest>
    requires { IfSome own (λ o. IsWellFormed o.now) }
    ensures some { IfSome result (λ widest. parts_of widest
        ≡ widest_of session.now (option_map open_of (option_map (λ o. o.now) own.entry)) None) }
    ensures none { IfNone result (OffersNone (option_map (λ o. o.now) own.entry)) }
    ensures family { IfSome result (λ widest.
        ¬ OffersNone (option_map (λ o. o.now) own.entry)) }
{
    match own {
        Some(own) => widest_alone(session, own),
        None => configurations(None, free_settings(session, 1, 1, 1, true)),
    }
}

/// The widest configurations of the end of the session that sent this OPEN, or none, and heard this
/// one, or none. `None` exactly where the OPEN that it sent offers neither family. Of the session
/// it takes all but whether extended messages are offered.
pub fn widest_of(session: &Session, own: Option<&[u8]>, peers: Option<&[u8]>) -> Option<Widest>
    requires { IfSome own (λ o. IsWellFormed o.now) }
    ensures some { (told : Option OpenFields)
        → AreTold (option_map (λ o. o.now) peers.entry) told
        → IfSome result (λ widest. parts_of widest
        ≡ widest_of session.now (option_map open_of (option_map (λ o. o.now) own.entry)) told) }
    ensures none { IfNone result (OffersNone (option_map (λ o. o.now) own.entry)) }
    ensures family { IfSome result (λ widest.
        ¬ OffersNone (option_map (λ o. o.now) own.entry)) }
{
    let Some(peers) = peers else {
        return widest_untold(session, own);
    };
    match read_fields(peers) {
        Some(message) => widest_told(session, own, &message),
        None => widest_untold(session, own),
    }
}
