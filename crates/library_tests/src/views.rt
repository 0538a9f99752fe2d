//! What no command of `mbview` reaches: ticks that end where they begin, texts that are escaped,
//! and what the calls on whole traces return.

use apex_types::{Event, Ticks};
use std::alloc::Global;
use trace_page::Page;
use trace_picture::{Picture, Width, push_escaped};
use trace_stays::laws::follow_all;
use trace_stays::{Ended, Span};
use trace_text::{TraceReader, check_trace, read_line};
use trace_view::summary_of;
use wave_dump::{Dump, Wires};

const TRACE: &str = "0000000000000 a MODE NORMAL
0000000000001 a STATE p READY
0000000000008 a STATE p RUNNING
0000000000009 a OUT c 1
";

/// Texts, and their form in XML.
static ESCAPED: [(&str, &str); 8] = [
    ("", ""),
    ("plain_7", "plain_7"),
    ("a<b>&\"c'd;", "a&lt;b&gt;&amp;&quot;c&apos;d;"),
    ("&amp;", "&amp;amp;"),
    ("\t\n\r \u{7F}", "\t\n\r \u{7F}"),
    (
        "\u{0}\u{1}\u{8}\u{B}\u{C}\u{E}\u{1F}",
        "\u{FFFD}\u{FFFD}\u{FFFD}\u{FFFD}\u{FFFD}\u{FFFD}\u{FFFD}",
    ),
    (
        "\u{E9}\u{20AC}\u{1F600}\u{FFFD}",
        "\u{E9}\u{20AC}\u{1F600}\u{FFFD}",
    ),
    ("\u{FFFE}\u{FFFF}\u{10FFFF}", "\u{FFFD}\u{FFFD}\u{10FFFF}"),
];

/// Ticks that end where they begin, or before.
static NO_TICKS: [(u64, u64); 2] = [(7, 7), (9, 3)];

/// Prints what is shown of no ticks, what the calls on a whole trace return, and whether texts are
/// escaped.
pub fn tell(rt: &HostRuntime) -> Option<()> {
    let events = events(rt.alloc())?;
    tell_events(rt, events.as_slice())?;
    tell_lines(rt)?;
    for (text, wanted) in &ESCAPED {
        tell_escaped(rt, text, wanted)?;
    }
    Some(())
}

/// The events of the trace.
fn events(alloc: Global) -> Option<Vec<Event>> {
    let mut events = Vec::new(alloc);
    let mut reader = TraceReader::new(TRACE.as_bytes());
    for _ in 0..TRACE.len() {
        match reader.next_event().ok()? {
            Some(event) => events.push(event).ok()?,
            None => break,
        }
    }
    Some(events)
}

fn tell_events(rt: &HostRuntime, events: &[Event]) -> Option<()> {
    for (from, to) in &NO_TICKS {
        tell_picture(rt, events, *from, *to)?;
        tell_summary(rt, events, *from, *to)?;
        tell_dump(rt, events, *from, *to)?;
    }
    tell_changed(rt, events)?;
    tell_stays(rt, events)?;
    tell_page(rt, events)
}

/// A picture of no ticks is empty. It begins and ends with the first tick.
fn tell_picture(rt: &HostRuntime, events: &[Event], from: u64, to: u64) -> Option<()> {
    let mut picture = Picture::new(rt.alloc(), Ticks(from), Some(Ticks(to)));
    for event in events {
        picture.add(event).ok()?;
    }
    let drawing = picture.finish(None, Width::usual()).ok()?;
    let shapes = drawing.elements();
    let svg = drawing.text("a trace").ok()?;
    let title = title_of(svg.as_str());
    println!(rt; "picture from {from}: {shapes} shapes, {title}").ok()
}

/// The title of a picture.
fn title_of(svg: &str) -> &str {
    match svg.split_once("<title>") {
        Some((_, rest)) => match rest.split_once("</title>") {
            Some((title, _)) => title,
            None => "no end",
        },
        None => "no title",
    }
}

/// No line and no tick counts.
fn tell_summary(rt: &HostRuntime, events: &[Event], from: u64, to: u64) -> Option<()> {
    let to = Some(Ticks(to));
    let report = summary_of(rt.alloc(), Ticks(from), to, events).ok()?;
    let (lines, ticks) = (report.extent.lines, report.extent.window.ticks());
    println!(rt; "summary from {from}: {lines} lines, {ticks} ticks").ok()
}

/// A dump has the tick where it begins and no other, and nothing changes after the first values.
fn tell_dump(rt: &HostRuntime, events: &[Event], from: u64, to: u64) -> Option<()> {
    let mut wires = Wires::new(rt.alloc(), Ticks(from), Some(Ticks(to)));
    for event in events {
        wires.add(event).ok()?;
    }
    let mut dump = Dump::new(rt.alloc(), wires, None);
    let mut text = String::new(rt.alloc());
    dump.begin(&mut text).ok()?;
    for event in events {
        dump.add(event, &mut text).ok()?;
    }
    dump.finish(&mut text).ok()?;
    println!(rt; "{text}").ok()
}

/// A dump takes the lines in which its variables were found, and no others.
fn tell_changed(rt: &HostRuntime, events: &[Event]) -> Option<()> {
    let (_, rest) = events.split_first()?;
    let same = is_taken(rt.alloc(), events, events)?;
    let shorter = is_taken(rt.alloc(), events, rest)?;
    let longer = is_taken(rt.alloc(), rest, events)?;
    let other = is_taken(rt.alloc(), &[], events)?;
    println!(rt; "dump takes: same {same}, shorter {shorter}, longer {longer}, other {other}").ok()
}

/// Returns true if a dump of the lines `found` takes these events.
fn is_taken(alloc: Global, found: &[Event], events: &[Event]) -> Option<bool> {
    let mut wires = Wires::new(alloc, Ticks(0), None);
    for event in found {
        wires.add(event).ok()?;
    }
    let mut dump = Dump::new(alloc, wires, None);
    let mut text = String::new(alloc);
    for event in events {
        if dump.add(event, &mut text).is_err() {
            return Some(false);
        }
    }
    Some(dump.finish(&mut text).is_ok())
}

/// Prints the stays of the trace, of which the last ones end with the run.
fn tell_stays(rt: &HostRuntime, events: &[Event]) -> Option<()> {
    let all = follow_all(rt.alloc(), events, Ticks(20)).ok()?;
    for ended in &all.ended {
        tell_stay(rt, *ended)?;
    }
    Some(())
}

fn tell_stay(rt: &HostRuntime, ended: Ended) -> Option<()> {
    match ended {
        Ended::State(process, stay) => tell_span(
            rt,
            "process",
            process,
            stay.state.word(),
            stay.span,
        ),
        Ended::Mode(partition, stay) => {
            tell_span(rt, "partition", partition, stay.mode.word(), stay.span)
        }
    }
}

fn tell_span(rt: &HostRuntime, kind: &str, place: usize, word: &str, span: Span) -> Option<()> {
    let (from, until) = (span.from.0, span.until.0);
    println!(rt; "{kind} {place}: {word} from {from} until {until}").ok()
}

/// A page has the lines of the trace.
fn tell_page(rt: &HostRuntime, events: &[Event]) -> Option<()> {
    let mut page = Page::new(rt.alloc(), None);
    for event in events {
        page.add(event).ok()?;
    }
    let text = page.into_text(b"", b"").ok()?;
    let shown = str::from_utf8(text.as_slice()).ok()?;
    let begins = shown.starts_with("<!doctype html>");
    let is_there = shown.contains("0000000000008 a STATE p RUNNING");
    println!(rt; "page: begins {begins}, line {is_there}").ok()
}

/// Each line of a trace is read separately too; the text of all is a trace, and without its end
/// none.
fn tell_lines(rt: &HostRuntime) -> Option<()> {
    let read = read_line(b"0000000000008 a STATE p RUNNING\n").ok()?;
    let tick = read.tick.0;
    let is_cut = read_line(b"0000000000008 a STATE p RUNNING").is_err();
    println!(rt; "line: tick {tick}, cut refused {is_cut}").ok()?;
    tell_trace(rt)
}

fn tell_trace(rt: &HostRuntime) -> Option<()> {
    let text = TRACE.as_bytes();
    let count = check_trace(text).ok()?;
    let (cut, _) = text.split_at(text.len() - 1);
    let line = check_trace(cut).err()?.line;
    println!(rt; "trace: {count} lines, cut refused in line {line}").ok()
}

/// Prints whether a text is escaped as it has to be.
fn tell_escaped(rt: &HostRuntime, text: &str, wanted: &str) -> Option<()> {
    let mut escaped = String::new(rt.alloc());
    push_escaped(&mut escaped, text).ok()?;
    let is_wanted = escaped.as_str() == wanted;
    println!(rt; "escaped: {is_wanted}").ok()
}
