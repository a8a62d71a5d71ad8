//! Laws of lines, and of whole texts of lines, each on a function that does nothing.

ghost use Rattle.bgp_json_laws.specs.Lines.{FrameLinesDiffer};
ghost use Rattle.bgp_json_laws.specs.Lines.{RecordLinesDiffer, RecordTextsDiffer};
ghost use Rattle.bgp_json_laws.specs.Texts.{CapturesDiffer, StreamsDiffer};

/// States that the line of a frame determines the frame, wherever it stands in a stream.
pub fn each_frame_has_its_line()
    ensures { FrameLinesDiffer }
{}

/// States that the lines of records determine what these show: each line does, and so does a text
/// of any number of them.
pub fn each_record_has_its_line()
    ensures lines { RecordLinesDiffer }
    ensures texts { RecordTextsDiffer }
{}

/// States that the text of a stream determines the stream: all of it, or up to the first header
/// with faults, with that header.
pub fn each_stream_has_its_text()
    ensures { StreamsDiffer }
{}

/// States that the text of a capture determines the session's records in it, however it ends.
pub fn each_capture_has_its_text()
    ensures { CapturesDiffer }
{}
