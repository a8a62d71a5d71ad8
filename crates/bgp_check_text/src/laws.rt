//! Laws of the options of `bgp judge` and of the texts of a reason, each on a function that does
//! nothing.

ghost use Rattle.bgp_check_text.specs.FramedAlike.{RecordsAreFramedAlike};
ghost use Rattle.bgp_check_text.specs.ItemTexts.{ItemsDiffer};
ghost use Rattle.bgp_check_text.specs.OfCapture.{CapturesAreReadAlike};

use bgp_clock::each_second_reads_back;
use mrt_sessions::reads_are_spelled;

/// Where [`capture_options`](crate::capture_options) tells options of a capture that is read to its
/// end, `bgp judge` reads the capture by them: it has just the records on which the verdict is
/// told.
pub fn a_capture_is_read_alike()
    ensures { CapturesAreReadAlike }
{
    reads_are_spelled();
}

/// What is made of a connection by some rules of framing is made of it by others, too, if these
/// differ only in what doesn't occur: the greater limit, if no message is longer than the lesser one;
/// and passing over ROUTE-REFRESHes (RFC 2918), if none was passed over. In either case no whole
/// header stands in what is left of a stream, since such a header may be at fault by the lesser
/// limit. So whoever decides that from the rules and the records answers what making the records
/// again would.
pub fn records_are_framed_alike()
    ensures { RecordsAreFramedAlike }
{}

/// States that two items of a reason, the kinds of records that could have come, have two texts: an
/// item is determined by its text, with each error and subcode in it, their data, both states of a
/// change, and the second from which on it is possible.
pub fn each_item_has_its_text()
    ensures { ItemsDiffer }
{
    each_second_reads_back();
}
