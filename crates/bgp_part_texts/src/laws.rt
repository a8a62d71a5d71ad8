//! Laws of the texts of parts, each on a function that does nothing: two messages whose parts have
//! the same text have the same parts.

ghost use Rattle.bgp_part_texts.specs.Notifications.{NotificationPartsDiffer};
ghost use Rattle.bgp_part_texts.specs.Notifications.{ShownNotificationPartsDiffer};
ghost use Rattle.bgp_part_texts.specs.Opens.{OpenPartsDiffer, ShownOpenPartsDiffer};
ghost use Rattle.bgp_part_texts.specs.OwnFaults.{OwnFaultsDiffer};
ghost use Rattle.bgp_part_texts.specs.Updates.{ShownUpdatePartsDiffer, UpdatePartsDiffer};

use bgp_why_parts::{each_code_has_its_text, each_set_of_families_has_its_text};

/// States that two lists of parts of an UPDATE have different texts, unless they differ only in
/// what their faults aren't about: the text of a fault has the attribute's type, and its flags or
/// its value only if these are wrong. The same holds for what is shown of two texts, if one of them
/// is short enough to be shown whole.
pub fn each_update_part_has_its_text()
    ensures whole { UpdatePartsDiffer }
    ensures shown { ShownUpdatePartsDiffer }
{}

/// States that two lists of parts of an OPEN have different texts: the fault of its form, or each
/// field that differs with what was sent and what is configured.
pub fn each_open_part_has_its_text()
    ensures whole { OpenPartsDiffer }
    ensures shown { ShownOpenPartsDiffer }
{
    each_set_of_families_has_its_text();
}

/// States that two lists of parts of a NOTIFICATION of one error code have different texts, unless
/// they differ only in the second at which it came too early. That second stands in the line of the
/// record, and the code in the line of the item.
pub fn each_notification_part_has_its_text()
    ensures whole { NotificationPartsDiffer }
    ensures shown { ShownNotificationPartsDiffer }
{
    each_code_has_its_text();
}

/// States that two lists of faults have different texts, for each of which an OPEN is no
/// configuration's own.
pub fn each_own_fault_has_its_text()
    ensures { OwnFaultsDiffer }
{}
