//! Laws of parts: none is told exactly where nothing lacks.

ghost use Rattle.bgp_parts.specs.NotificationParts.{PossibleLacksNothing};
ghost use Rattle.bgp_parts.specs.OwnOpenParts.{OwnOpenLacksNothing};
ghost use Rattle.bgp_parts.specs.UpdateParts.{CleanLacksNothing};
ghost use Rattle.bgp_parts.specs.Withdrawal.{PartsTellWithdrawals};

/// An OPEN has no part exactly where it is the local system's own.
pub fn own_open_lacks_nothing()
    ensures { OwnOpenLacksNothing }
{}

/// A NOTIFICATION has no part exactly where it is possible at the second at which it was sent; and
/// one that resembles no possible one isn't possible.
pub fn possible_lacks_nothing()
    ensures { PossibleLacksNothing }
{}

/// An UPDATE is clean exactly where it has no part in the link's sent form, and no more octets than
/// the link allows; so where it is whole on the link, it has no part exactly where it is clean.
pub fn clean_lacks_nothing()
    ensures { CleanLacksNothing }
{}

/// One of the parts of an UPDATE, in the link's received form, asks for it exactly where the UPDATE
/// has a fault for which its routes are withdrawn where it is applied (RFC 7606, 2).
pub fn parts_tell_withdrawals()
    ensures { PartsTellWithdrawals }
{}
