//! The head of a report: what it says whatever is reported.

ghost use Rattle.bgp_text.specs.Lines.{Writes};
ghost use Rattle.bgp_html.specs.Page.{about_text, after_name, after_title, ladders_start};
ghost use Rattle.bgp_html.specs.Page.{ladders_text, page_start, stretches_start, stretches_text};
ghost use Rattle.bgp_html.specs.Page.{words_text};
ghost use Rattle.bgp_html.specs.Page.{style_1, style_2, style_3, style_4};
ghost use Rattle.bgp_html.specs.Page.{style_5, style_6, style_7, style_8, style_text};

use bgp_text::Lines;
use mrt::Sink;

/// Puts what stands before the title.
pub(crate) fn put_page_start<W: Sink>(lines: &mut Lines<'_, W>)
    ensures { Writes lines.old lines.new page_start }
{
    lines.put(b"<!DOCTYPE html>\n");
    lines.put(b"<html lang=\"en\">\n");
    lines.put(b"<meta charset=\"utf-8\">\n");
    lines.put(b"<meta http-equiv=\"Content-Security-Policy\"");
    lines.put(b" content=\"default-src 'none'; style-src 'unsafe-inline'\">\n");
    lines.put(b"<meta name=\"viewport\" content=\"width=device-width, initial-scale=1\">\n");
    lines.put(b"<title>");
}

/// Puts a part of the style sheet.
fn put_style_1<W: Sink>(lines: &mut Lines<'_, W>)
    ensures { Writes lines.old lines.new style_1 }
{
    lines.put(b":root{color-scheme:light dark;--ink:#1b1f24;--pale:#59636e;--line:#b4bcc5;\n");
    lines.put(b"--paper:#fff;--yes:#116329;--no:#a40e26;--due:#7d4e00;--mark:#ffebe9}\n");
    lines.put(b"@media screen and (prefers-color-scheme:dark){\n");
    lines.put(b":root{--ink:#e6edf3;--pale:#9198a1;--line:#56606b;\n");
    lines.put(b"--paper:#0d1117;--yes:#56d364;--no:#ff7b72;--due:#e3b341;--mark:#3d1a1d}}\n");
    lines.put(b"body{max-width:76rem;margin:1.5rem auto;padding:0 1rem;\n");
    lines.put(b"font:1rem/1.5 system-ui,sans-serif;color:var(--ink);background:var(--paper)}\n");
    lines.put(b"h1{font-size:1.4rem;overflow-wrap:anywhere}\n");
}

/// Puts a part of the style sheet.
fn put_style_2<W: Sink>(lines: &mut Lines<'_, W>)
    ensures { Writes lines.old lines.new style_2 }
{
    lines.put(b"h2,h3,p{margin:.5rem 0;font-size:1rem;font-weight:400}\n");
    lines.put(b"h2{margin-top:1.8rem;padding-top:.8rem;border-top:1px solid var(--line)}\n");
    lines.put(b"h2 samp::first-line{font-weight:700}\n");
    lines.put(b"h3{margin-top:1.2rem}\n");
    lines.put(b"h3,.sum{font-weight:700}\n");
    lines.put(b"pre{display:contents}caption{color:var(--pale)}\n");
    lines.put(b"samp{display:block;font:.85rem/1.5 ui-monospace,monospace;\n");
    lines.put(b"font-weight:inherit;white-space:pre-wrap;overflow-wrap:anywhere;\n");
}

/// Puts a part of the style sheet.
fn put_style_3<W: Sink>(lines: &mut Lines<'_, W>)
    ensures { Writes lines.old lines.new style_3 }
{
    lines.put(b"unicode-bidi:isolate}\n");
    lines.put(b".yes{color:var(--yes)}\n");
    lines.put(b".no{color:var(--no)}\n");
    lines.put(b".due{color:var(--due)}\n");
    lines.put(b".not,.about,summary{color:var(--pale)}\n");
    lines.put(b"samp.yes::before{content:\"\\2713\\a0\"}\n");
    lines.put(b"samp.no::before{content:\"\\2717\\a0\"}\n");
    lines.put(b"samp.due::before{content:\"\\2026\\a0\"}\n");
}

/// Puts a part of the style sheet.
fn put_style_4<W: Sink>(lines: &mut Lines<'_, W>)
    ensures { Writes lines.old lines.new style_4 }
{
    lines.put(b"samp.not::before{content:\"\\2013\\a0\"}\n");
    lines.put(b"details{margin:.6rem 0;overflow-x:auto}\n");
    lines.put(b"summary{cursor:pointer;font-size:.85rem}\n");
    lines.put(b"table{border-collapse:collapse;width:100%;font-size:.85rem;margin:.5rem 0}\n");
    lines.put(b"caption,th{text-align:left}\n");
    lines.put(b"th,td{padding:.1rem .4rem;vertical-align:bottom}\n");
    lines.put(b"td:nth-last-child(n+4){width:1%;white-space:nowrap;text-align:right}\n");
    lines.put(b"td:nth-last-child(3){width:11rem;border-right:2px solid var(--line);\n");
}

/// Puts a part of the style sheet.
fn put_style_5<W: Sink>(lines: &mut Lines<'_, W>)
    ensures { Writes lines.old lines.new style_5 }
{
    lines.put(b"text-align:right}\n");
    lines.put(b"td:last-child{width:11rem;border-left:2px solid var(--line)}\n");
    lines.put(b"td:nth-last-child(2){padding:.2rem 0 .3rem}\n");
    lines.put(b"div{position:relative;border-bottom:1px solid;padding:0 1rem;min-width:13rem;\n");
    lines.put(b"overflow-wrap:anywhere;unicode-bidi:isolate}\n");
    lines.put(b"div::after{content:\"\";position:absolute;bottom:-5px;\n");
    lines.put(b"border:4px solid transparent}\n");
    lines.put(b".to div::after{right:0;border-left:8px solid;border-right:0}\n");
}

/// Puts a part of the style sheet.
fn put_style_6<W: Sink>(lines: &mut Lines<'_, W>)
    ensures { Writes lines.old lines.new style_6 }
{
    lines.put(b".fro div::after{left:0;border-right:8px solid;border-left:0}\n");
    lines.put(b"tr.no{background:var(--mark);font-weight:700}\n");
    lines.put(b"tr.no td:first-child::before{content:\"\\2717\\a0\"}\n");
    lines.put(b".late{opacity:.65}\n");
    lines.put(b".run{color:var(--pale);font-style:italic}.run div{border-style:none}\n");
    lines.put(b".could{color:var(--ink)}.could div{border:1px dashed;margin:.1rem 2rem}\n");
    lines.put(b"@media screen{body{display:flex;flex-direction:column}\n");
    lines.put(b"details[open]{content-visibility:auto;contain-intrinsic-height:auto 20rem}\n");
}

/// Puts a part of the style sheet.
fn put_style_7<W: Sink>(lines: &mut Lines<'_, W>)
    ensures { Writes lines.old lines.new style_7 }
{
    lines.put(b"pre+pre samp{content-visibility:auto;contain-intrinsic-height:auto 127.5rem}\n");
    lines.put(b"h1{order:-3}body>.about{order:-2}body>.about~.about{order:1}.sum{order:-1}}\n");
    lines.put(b"@media print,(max-width:60rem){td:nth-last-child(3),td:last-child{width:6rem}\n");
    lines.put(b"td:first-child{white-space:normal;min-width:6.5rem}.could div{margin:.1rem}}\n");
    lines.put(b"@media print{:root{font-size:9pt}body{max-width:none;margin:0}\n");
    lines.put(b"h2,h3,summary{break-after:avoid}tr{break-inside:avoid}\n");
    lines.put(b"details::details-content{display:block;content-visibility:visible;\n");
    lines.put(b"block-size:auto}}\n");
}

/// Puts a part of the style sheet.
fn put_style_8<W: Sink>(lines: &mut Lines<'_, W>)
    ensures { Writes lines.old lines.new style_8 }
{
    lines.put(b".to div::before{content:\"\\2192\\a0\"}\n");
    lines.put(b".fro div::before{content:\"\\2190\\a0\"}\n");
    lines.put(b"@media screen and (max-width:40rem){table,caption,thead,tbody{display:block}\n");
    lines.put(b"tr{display:grid;grid-template-columns:1fr auto auto}\n");
    lines.put(b"th:nth-last-child(-n+3),.could td:nth-last-child(n+4){display:none}\n");
    lines.put(b"td:nth-last-child(-n+3){grid-column:1/-1;width:auto;border:0;text-align:left}\n");
    lines.put(b"td:nth-last-child(-n+3):empty{display:none}\n");
    lines.put(b"td:last-child{text-align:right}\n");
    lines.put(b"td:first-child{text-align:left;white-space:nowrap}\n");
    lines.put(b"div{min-width:0}}\n");
}

/// Puts the style sheet.
fn put_style<W: Sink>(lines: &mut Lines<'_, W>)
    ensures { Writes lines.old lines.new style_text }
{
    put_style_1(lines);
    put_style_2(lines);
    put_style_3(lines);
    put_style_4(lines);
    put_style_5(lines);
    put_style_6(lines);
    put_style_7(lines);
    put_style_8(lines);
}

/// Puts what stands between the title and the heading.
pub(crate) fn put_after_title<W: Sink>(lines: &mut Lines<'_, W>)
    ensures { Writes lines.old lines.new after_title }
{
    lines.put(b": bgp check</title>\n<style>\n");
    put_style(lines);
    lines.put(b"</style>\n<h1>");
}

/// Puts what the answers say.
fn put_about<W: Sink>(lines: &mut Lines<'_, W>)
    ensures { Writes lines.old lines.new about_text }
{
    lines.put(b"yes: the standard (RFC 4271 with RFC 7606) allows everything that this ");
    lines.put(b"file shows of the router; that does not say that the session came up: read the ");
    lines.put(b"state at the end of the line. no: it does not allow what the router did there, ");
    lines.put(b"and the lines below list all that could have come instead. unfinished: the ");
    lines.put(b"file ends before something that was due, which blames nobody. The lines are ");
    lines.put(b"those of bgp check, word for word.");
}

/// Puts what the words of the lines mean.
fn put_words<W: Sink>(lines: &mut Lines<'_, W>)
    ensures { Writes lines.old lines.new words_text }
{
    lines.put(b"In a pcap file the two routers of a connection are its ends, and each yes, ");
    lines.put(b"no or unfinished is about one end. In an MRT file each is about the local ");
    lines.put(b"system in one stretch of a session, and is counted as an end. A record is ");
    lines.put(b"one message that the end sent or received, or one change of its state. could ");
    lines.put(b"come here: the standard allows this in place of the record that the no ");
    lines.put(b"names. or: it allows this, too, and nothing but these. had to come here: the ");
    lines.put(b"same, and the router could receive no other message before it. could come ");
    lines.put(b"next, had to come next: the same after the last record. refused: it cannot ");
    lines.put(b"be read, and is not judged. open at the end of the file: nothing in it ended ");
    lines.put(b"the session. A single - stands for nothing: no prefix, or no attribute. ");
    lines.put(b"origin 0, 1 and 2 are IGP, EGP and INCOMPLETE. In a pcap file a message that ");
    lines.put(b"came is handled within 10 seconds, or within as many as --within says. The ");
    lines.put(b"standard sets no such time; the 10 seconds are a choice of bgp.");
}

/// Puts what stands between the heading and the first connection.
pub(crate) fn put_after_name<W: Sink>(lines: &mut Lines<'_, W>)
    ensures { Writes lines.old lines.new after_name }
{
    lines.put(b"</h1>\n<p class=\"about\">");
    put_about(lines);
    lines.put(b"</p>\n<p class=\"about\">");
    put_words(lines);
    lines.put(b"</p>\n");
}

/// Puts what the rows of records say.
fn put_about_ladders<W: Sink>(lines: &mut Lines<'_, W>)
    ensures { Writes lines.old lines.new ladders_text }
{
    lines.put(b"Each yes, no and unfinished above has a table here: the records of its end, ");
    lines.put(b"a row each, in the order that bgp import makes, in which the router can have ");
    lines.put(b"handled them. An arrow points from the sender of a message to its receiver. ");
    lines.put(b"Seconds are counted from the first packet of the connection; a row without a ");
    lines.put(b"time is of the same packet as the row above it. came before: the packet came ");
    lines.put(b"before that of a row above it, and was handled after it. No packet shows a ");
    lines.put(b"change of state: it stands at the packet of the message beside it, or of the ");
    lines.put(b"end of the connection. The row of a no has a cross. Dashed rows say what ");
    lines.put(b"could have come in place of the record above them, or had to: they are lines ");
    lines.put(b"of the answer above. Dashed rows at the end of a table say what could come ");
    lines.put(b"next, or has to. The rows after that of a no are pale: they are not judged. ");
    lines.put(b"If the answer names a packet in the order of bgp import, the dashed rows ");
    lines.put(b"stand below its record: in this order that record is not allowed, in another ");
    lines.put(b"it may be; the message of the row with the cross is not allowed in any.");
}

/// Puts the start of what stands after the text about a recording: a heading, and what the rows
/// say.
pub(crate) fn put_ladders_start<W: Sink>(lines: &mut Lines<'_, W>)
    ensures { Writes lines.old lines.new ladders_start }
{
    lines.put(b"<section>\n<h2><b>Records</b></h2>\n<p class=\"about\">");
    put_about_ladders(lines);
    lines.put(b"</p>\n");
}

/// Puts what the rows of a stretch say.
fn put_about_stretches<W: Sink>(lines: &mut Lines<'_, W>)
    ensures { Writes lines.old lines.new stretches_text }
{
    lines.put(b"Each yes, no and unfinished above has a table here: the records of its ");
    lines.put(b"stretch, a row each, in the order of the file. A stretch is the records of a ");
    lines.put(b"session from one that leaves Idle on. If another stretch follows, the last ");
    lines.put(b"row is the change that begins that one: it is judged in both. The number of ");
    lines.put(b"a record is that in its session; a ROUTE-REFRESH that is passed over has no ");
    lines.put(b"row. The right column is the local system, which is judged, and the left one ");
    lines.put(b"its peer. An arrow points from the sender of a message to its receiver. ");
    lines.put(b"Seconds are counted from the first record of the session. The row of a no ");
    lines.put(b"has a cross. The dashed rows below it say what could have come in its place, ");
    lines.put(b"or had to: they are lines of the answer above. Dashed rows at the end of a ");
    lines.put(b"table say what could come next, or has to. The rows after that of a no are ");
    lines.put(b"pale: they are not judged here.");
}

/// Puts the same start after the text about a capture.
pub(crate) fn put_stretches_start<W: Sink>(lines: &mut Lines<'_, W>)
    ensures { Writes lines.old lines.new stretches_start }
{
    lines.put(b"<section>\n<h2><b>Records</b></h2>\n<p class=\"about\">");
    put_about_stretches(lines);
    lines.put(b"</p>\n");
}
