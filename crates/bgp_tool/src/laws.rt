//! A frame says one thing, and a stream has one text and one exit status in each form, as the records
//! of a session have one text; what the text is without words.

ghost use Rattle.std.specs.Prelude.{◌≡◌, ◌↔◌, ℕ, List, [], map};
ghost use Rattle.bgp_prefix.specs.declared.session.Session.{Session};
ghost use Rattle.bgp_wire.specs.declared.header.Limit.{Limit};
ghost use Rattle.bgp_wire.specs.Framing.{IsFrame};
ghost use Rattle.bgp_open.specs.declared.route_form.RouteForm.{RouteForm};
ghost use Rattle.bgp_text.specs.Capture.{AreRecordLines};
ghost use Rattle.bgp_text.specs.Message.{Message, Say, Says};
ghost use Rattle.bgp_json.specs.Form.{Before, PlacedRecord};
ghost use Rattle.bgp_json.specs.LineForm.TheVariants.{Plain};
ghost use Rattle.bgp_json.specs.Output.{AreRecordOutputs};
ghost use Rattle.bgp_json.specs.declared.output_form.OutputForm.{OutputForm};
ghost use Rattle.bgp_json.specs.declared.output_form.OutputForm.TheVariants.{Text};
ghost use Rattle.bgp_tool.specs.Decoding.{AreFrameLines, IsDecoded, lines_of};
ghost use Rattle.bgp_tool.specs.declared.stream_options.StreamOptions.{StreamOptions};

/// Laws: each frame says one thing in each form of routes, by which its line is known; each stream
/// has one text and one exit status, which [`decode_raw`](crate::decode_raw) writes and answers; and
/// in the plain form the lines of its frames are those of what they say, each by itself.
pub fn each_stream_has_one_text()
    ensures says { (form : RouteForm) (limit : Limit) (frame : List ℕ) → IsFrame limit frame
        → (message : Message) × Says form frame message }
    ensures says_once { (form : RouteForm) (frame : List ℕ) (message other : Message)
        → Says form frame message → Says form frame other → message ≡ other }
    ensures each { (options : StreamOptions) (stream : List ℕ)
        → (text : List ℕ) × (status : ℕ) × IsDecoded options stream text status }
    ensures one { (options : StreamOptions) (stream text other : List ℕ) (status code : ℕ)
        → IsDecoded options stream text status → IsDecoded options stream other code
        → (text ≡ other) × (status ≡ code) }
    ensures plain { (frames : List (List ℕ)) (text : List ℕ)
        → AreFrameLines (Text Plain) [] frames text
        → (messages : List Message) × Say frames messages × (text ≡ lines_of messages) }
{}

/// Laws: the records of a session have one text in each form, whatever came before them; and in the
/// plain form the lines are those of the records, each by itself, whatever their numbers are and
/// whatever packets show them.
pub fn each_session_has_one_text()
    ensures one { (form : OutputForm) (session : Session) (before : Before) (number : ℕ)
        (records : List PlacedRecord) (text other : List ℕ)
        → AreRecordOutputs form session before number records text
        → AreRecordOutputs form session before number records other → text ≡ other }
    ensures plain { (session : Session) (before : Before) (number : ℕ)
        (records : List PlacedRecord) (text : List ℕ)
        → AreRecordOutputs (Text Plain) session before number records text
        ↔ AreRecordLines session (map (λ placed. placed.shown) records) text }
{}
