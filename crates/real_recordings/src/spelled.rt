//! What the words of a command line spell: a command, or a status and what is told.

use bgp_commands::words_status;
use bgp_import::RecordingOptions;
use bgp_json::OutputForm;
use bgp_lines::LineForm;
use bgp_open::{ConfigParts, Families, RouteOffer};
use bgp_prefix::{Address, RouteRefresh, Session};
use bgp_talk::{Speaking, Start};
use bgp_words::{CheckForm, Checking, Command, Reporting, command_line};
use std::alloc::{AllocError, Global};
use std::fmt::{Display, Write};
use std::io;

/// What words are: a command or a status, and what is told.
#[derive(Drop)]
struct Spelled {
    kind: String,
    told: String,
}

/// Prints a block whose lines are not so. The first has the words of a command line; of the others
/// one says what they are, and each after `>` has a part of what is told.
pub(crate) fn compare_line<R: Print + AllocGlobal>(rt: &R, block: &str) -> io::Result<Option<u64>> {
    let spelled = spelled_by(rt.alloc(), block)?;
    if is_so(block, &spelled) {
        return Ok(Some(0));
    }
    let Spelled { kind, told } = spelled;
    println!(rt; "the command line is not so:\n{block}\nbut: {kind}\n{told}")?;
    Ok(None)
}

/// Whether a block's further lines are so.
fn is_so(block: &str, spelled: &Spelled) -> bool {
    let mut is_told = false;
    for line in block.split('\n').skip(1) {
        let is_this = match line.strip_prefix("> ") {
            Some(part) => spelled.told.as_str().contains(part),
            None => spelled.kind.as_str() == line,
        };
        if !is_this {
            return false;
        }
        is_told = true;
    }
    is_told
}

/// What the words of a block's first line spell. Two quotation marks stand for an empty word.
fn spelled_by(alloc: Global, block: &str) -> Result<Spelled, AllocError> {
    let (line, _) = block.split_once('\n').unwrap_or((block, ""));
    let mut words = Vec::new(alloc);
    for word in line.split(' ').skip(1) {
        words.push(if word == "\"\"" { "" } else { word })?;
    }
    read(alloc, words.as_slice())
}

/// What words spell.
fn read(alloc: Global, words: &[&str]) -> Result<Spelled, AllocError> {
    match command_line(alloc, words) {
        Ok(command) => {
            let mut kind = String::new(alloc);
            put_command(&mut kind, &command)?;
            Ok(Spelled {
                kind,
                told: String::new(alloc),
            })
        }
        Err(error) => {
            let code = words_status(&error).code();
            let kind = format!(in alloc; "status {code}")?;
            let told = format!(in alloc; "{error}")?;
            Ok(Spelled { kind, told })
        }
    }
}

/// Puts a command, each part after its name.
fn put_command(text: &mut String, command: &Command<'_>) -> Result<(), AllocError> {
    match command {
        Command::Decode {
            form,
            extended,
            file,
        } => {
            let (form, extended) = (form_text(*form), extended_text(*extended));
            write!(text, "decode{form}{extended} {file:?}")
        }
        Command::Capture {
            form,
            session,
            recording,
            file,
        } => put_capture(text, *form, session, recording, file),
        Command::Judge {
            config,
            recording,
            reporting,
            file,
        } => put_judge(text, &config.parts, recording, *reporting, file),
        Command::Import {
            session,
            recording,
            file,
            out,
        } => put_import(text, session, recording, file, out),
        Command::List { port, json, file } => {
            let json = if *json { " json" } else { "" };
            write!(text, "list port {port}{json} file {file:?}")
        }
        Command::Check { checking, file } => put_check(text, checking, file),
        Command::Speak {
            config,
            speaking,
            file,
        } => put_speak(text, &config.parts, speaking, file),
        Command::Pair { file } => write!(text, "pair {file:?}"),
    }
}

/// Puts what `decode --mrt` is told.
fn put_capture(
    text: &mut String,
    form: OutputForm,
    session: &Session,
    recording: &RecordingOptions,
    file: &str,
) -> Result<(), AllocError> {
    let form = form_text(form);
    write!(text, "capture{form} ")?;
    put_ends(text, session)?;
    put_unusual(text, recording)?;
    write!(text, " file {file:?}")
}

/// Puts what `judge` is told.
fn put_judge(
    text: &mut String,
    parts: &ConfigParts,
    recording: &RecordingOptions,
    reporting: Reporting,
    file: &str,
) -> Result<(), AllocError> {
    text.push_str("judge ")?;
    put_parts(text, parts)?;
    put_unusual(text, recording)?;
    let explain = if reporting.explain { " explain" } else { "" };
    let json = if reporting.json { " json" } else { "" };
    write!(text, "{explain}{json} file {file:?}")
}

/// Puts what `import` is told.
fn put_import(
    text: &mut String,
    session: &Session,
    recording: &RecordingOptions,
    file: &str,
    out: &str,
) -> Result<(), AllocError> {
    text.push_str("import ")?;
    put_ends(text, session)?;
    put_recording(text, recording)?;
    write!(text, " file {file:?} out {out:?}")
}

/// Puts what `check` is told.
fn put_check(text: &mut String, checking: &Checking, file: &str) -> Result<(), AllocError> {
    let Checking { port, within, .. } = *checking;
    let routes = if checking.routes { " routes" } else { "" };
    let settings = if checking.settings { " settings" } else { "" };
    let quiet = if checking.quiet { " quiet" } else { "" };
    let form = match checking.form {
        CheckForm::Text => "",
        CheckForm::Json => " json",
        CheckForm::Html => " html",
    };
    write!(
        text,
        "check port {port} within {within}{routes}{settings}{quiet}{form} file {file:?}"
    )
}

/// Puts what `speak` is told.
fn put_speak(
    text: &mut String,
    parts: &ConfigParts,
    speaking: &Speaking,
    file: &str,
) -> Result<(), AllocError> {
    text.push_str("speak ")?;
    put_parts(text, parts)?;
    put_speaking(text, speaking)?;
    write!(text, " file {file:?}")
}

/// Puts the two ends of a session, whose ROUTE-REFRESH messages may be passed over.
fn put_ends(text: &mut String, session: &Session) -> Result<(), AllocError> {
    let Session { peer, local, .. } = *session;
    let extended = extended_text(session.extended);
    let skipping = match session.refresh {
        RouteRefresh::NotOffered => "",
        RouteRefresh::Refused => " refresh true",
        RouteRefresh::PassedOver => " refresh skipped",
    };
    write!(text, "peer {peer} local {local}{extended}{skipping}")
}

/// What becomes of ROUTE-REFRESH messages.
fn refresh_text(refresh: RouteRefresh) -> &'static str {
    match refresh {
        RouteRefresh::NotOffered => "false",
        RouteRefresh::Refused => "true",
        RouteRefresh::PassedOver => "skipped",
    }
}

/// The words that say in which form messages are printed, each after a blank.
fn form_text(form: OutputForm) -> &'static str {
    match form {
        OutputForm::Text(LineForm::Plain) => "",
        OutputForm::Text(LineForm::Names { as2: false }) => " names",
        OutputForm::Text(LineForm::Names { as2: true }) => " names as2",
        OutputForm::Json { as2: false } => " json",
        OutputForm::Json { as2: true } => " json as2",
    }
}

/// The word that says that extended messages are offered, after a blank.
fn extended_text(extended: bool) -> &'static str {
    if extended { " extended" } else { "" }
}

/// Puts what may be told after its name, or a dash where it isn't.
fn put_optional<T: Display + Drop>(
    text: &mut String,
    name: &str,
    told: Option<T>,
) -> Result<(), AllocError> {
    match told {
        Some(told) => write!(text, " {name} {told}"),
        None => write!(text, " {name} -"),
    }
}

/// Puts what is told of a recording, each part after its name, after a blank.
fn put_recording(text: &mut String, recording: &RecordingOptions) -> Result<(), AllocError> {
    let RecordingOptions {
        port,
        local_port,
        connection,
        within,
    } = *recording;
    write!(text, " port {port}")?;
    put_optional(text, "local-port", local_port)?;
    put_optional(text, "connection", connection)?;
    write!(text, " within {within}")
}

/// Puts the same, or nothing where it is what stands where none is told.
fn put_unusual(text: &mut String, recording: &RecordingOptions) -> Result<(), AllocError> {
    let usual = RecordingOptions {
        port: 179,
        local_port: None,
        connection: None,
        within: 10,
    };
    if *recording == usual {
        Ok(())
    } else {
        put_recording(text, recording)
    }
}

/// Puts the parts of a configuration, each after its name.
fn put_parts(text: &mut String, parts: &ConfigParts) -> Result<(), AllocError> {
    let ConfigParts {
        local_as,
        peer_as,
        hold,
        ..
    } = *parts;
    let id = Address::V4(parts.local_id);
    let Session { peer, local, .. } = parts.session;
    write!(text, "local-as {local_as} peer-as {peer_as} local-id {id}")?;
    write!(text, " local {local} peer {peer} hold {hold}")?;
    put_offers(text, parts)
}

/// Puts the other parts of a configuration: what is offered, and two settings of the machine.
fn put_offers(text: &mut String, parts: &ConfigParts) -> Result<(), AllocError> {
    let ConfigParts {
        as4,
        delay_open,
        large_hold,
        ..
    } = *parts;
    let Families { v4, v6 } = parts.families;
    let extended = extended_text(parts.session.extended);
    let refresh = refresh_text(parts.session.refresh);
    write!(text, " v4 {v4} v6 {v6} as4 {as4} delay-open {delay_open}")?;
    write!(text, " refresh {refresh}{extended} large-hold {large_hold}")?;
    put_route_offer(text, parts.offers)
}

/// Puts what is offered about routes, each word after its name; nothing where nothing is.
fn put_route_offer(text: &mut String, offers: RouteOffer) -> Result<(), AllocError> {
    let RouteOffer {
        sends,
        receives,
        next_hops,
    } = offers;
    for (is_offered, name) in [
        (sends.v4, "send-v4"),
        (sends.v6, "send-v6"),
        (receives.v4, "receive-v4"),
        (receives.v6, "receive-v6"),
        (next_hops, "next-hops"),
    ] {
        if is_offered {
            write!(text, " offers {name}")?;
        }
    }
    Ok(())
}

/// Puts what `speak` is told besides, each part after its name; a dash where nothing is announced.
fn put_speaking(text: &mut String, speaking: &Speaking) -> Result<(), AllocError> {
    let Speaking { turns, quiet, .. } = *speaking;
    put_start(text, speaking.start)?;
    let (hop4, hop6) = (
        Address::V4(speaking.next_hop4),
        Address::V6(speaking.next_hop6),
    );
    write!(text, " next-hop {hop4} next-hop6 {hop6}")?;
    put_optional(text, "announce", speaking.announce)?;
    let cleared = if speaking.cleared { " cleared" } else { "" };
    write!(text, "{cleared} turns {turns} quiet {quiet}")
}

/// Puts how the connection comes to be.
fn put_start(text: &mut String, start: Start) -> Result<(), AllocError> {
    match start {
        Start::Connect(port) => write!(text, " connect {port}"),
        Start::Listen(port) => write!(text, " listen {port}"),
    }
}
