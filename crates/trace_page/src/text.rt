//! The text of the page around that of a trace. `page/write` makes it of `page/page.html` and
//! `page/page.js`.

/// What comes before the text of a trace.
pub const FRONT: &str = "<!doctype html>
<html lang=\"en\">
<head>
<meta charset=\"utf-8\">
<meta name=\"viewport\" content=\"width=device-width, initial-scale=1\">
<title>A trace</title>
<style>
:root { --ground: #ffffff; --ink: #1f2933; --band: #f3f5f8; --edge: #d5dbe1; --cursor: #7c3aed; }
:root[data-theme=\"dark\"] { --ground: #15191e; --ink: #e4e7eb; --band: #1d232a; --edge: #333c46; --cursor: #b794f4; color-scheme: dark; }
* { box-sizing: border-box; }
body { margin: 0; height: 100vh; display: grid; grid-template: auto minmax(0, 1fr) / minmax(0, 1fr) 300px; font: 13px system-ui, sans-serif; color: var(--ink); background: var(--ground); }
header { grid-column: 1 / 3; display: flex; flex-wrap: wrap; gap: 12px; align-items: center; padding: 6px 10px; background: var(--band); border-bottom: 1px solid var(--edge); }
header h1 { font-size: 14px; margin: 0; }
header input, header button { font: inherit; color: inherit; background: var(--ground); border: 1px solid var(--edge); border-radius: 4px; padding: 3px 7px; }
form { display: flex; gap: 4px; }
canvas { display: block; }
#lanes { width: 100%; height: 100%; touch-action: none; }
aside { overflow: auto; padding: 8px 10px; border-left: 1px solid var(--edge); }
aside h2 { font-size: 13px; margin: 10px 0 4px; }
aside h2:first-child { margin-top: 0; }
#place { color: var(--cursor); font-weight: 600; }
#states { border-collapse: collapse; }
#states td { padding: 1px 8px 1px 0; }
#states tr.mode td { font-weight: 600; padding-top: 5px; }
#told { white-space: pre-wrap; font-family: ui-monospace, monospace; font-size: 12px; margin: 0 0 4px; }
#rows { overflow: auto; max-height: 40vh; margin: 0 0 4px; font: 12px ui-monospace, monospace; }
#answer { overflow: hidden; text-overflow: ellipsis; white-space: nowrap; max-width: 40vw; }
#found { max-height: 30vh; overflow: auto; }
#found button { display: block; width: 100%; padding: 1px 4px; border: 0; color: inherit; background: none; font: 12px ui-monospace, monospace; text-align: left; cursor: pointer; }
#found button:hover, #found button[aria-current] { background: var(--band); }
#found button[aria-current] { box-shadow: inset 3px 0 var(--cursor); }
#legend div { display: flex; gap: 8px; align-items: center; }
#legend canvas { margin: -2px 0; }
#tooltip { position: fixed; z-index: 1; max-width: 60vw; padding: 4px 7px; pointer-events: none; white-space: pre-wrap; font-size: 12px; background: var(--ground); border: 1px solid var(--ink); border-radius: 4px; }
label { display: block; }
#keys { border-collapse: collapse; }
#keys td { padding: 1px 8px 1px 0; vertical-align: top; }
</style>
</head>
<body>
<header>
<h1 id=\"title\">A trace</h1>
<form id=\"search\"><input id=\"words\" placeholder=\"words of a line\" aria-label=\"words of a line\"><button>Next</button></form>
<input id=\"filter\" placeholder=\"processes with\" aria-label=\"show processes whose name has\">
<button id=\"theme\" type=\"button\">Light or dark</button>
<span id=\"answer\" role=\"status\"></span>
</header>
<canvas id=\"lanes\" tabindex=\"0\" aria-label=\"lanes of the trace\"></canvas>
<aside>
<h2 id=\"place\"></h2>
<pre id=\"told\"></pre>
<table id=\"states\"></table>
<h2 id=\"before\" hidden></h2>
<pre id=\"rows\" hidden></pre>
<h2 id=\"count\" hidden></h2>
<div id=\"found\"></div>
<h2>Legend</h2>
<div id=\"legend\"></div>
<h2>Partitions</h2>
<div id=\"partitions\"></div>
<h2>Marks</h2>
<div id=\"kinds\"></div>
<h2>Keys</h2>
<table id=\"keys\">
<tr><td>wheel</td><td>zoom</td></tr>
<tr><td>+ -</td><td>zoom in, zoom out</td></tr>
<tr><td>0</td><td>all ticks</td></tr>
<tr><td>drag</td><td>move</td></tr>
<tr><td>&larr; &rarr;</td><td>earlier, later; also the wheel with Shift</td></tr>
<tr><td>&uarr; &darr;</td><td>other lanes; also the wheel with Alt</td></tr>
<tr><td>n p</td><td>next error, the one before</td></tr>
<tr><td>/</td><td>search; Enter: the next line found</td></tr>
<tr><td>click</td><td>cursor; with Shift the second one; on a mark its lines, and again those of the next one there</td></tr>
<tr><td>Esc</td><td>leave the search; no cursors</td></tr>
</table>
</aside>
<div id=\"tooltip\" role=\"tooltip\" hidden></div>
<script>
const TRACE = \"";

/// What comes between it and the windows of the module table.
pub const BETWEEN: &str = "\";
const WINDOWS = ";

/// What comes between these and the states.
pub const BEHIND_WINDOWS: &str = ";
const ROWS = ";

/// What comes between these and the ticks of the run.
pub const BEHIND_STATES: &str = ";
const TICKS = ";

/// What comes after all.
pub const BACK: &str = ";
</script>
<script>
\"use strict\";
// Shows a trace: lanes of partitions and processes, which can be moved, zoomed, searched and filtered.
//
// The page defines, before this script:
//   TRACE    the text of the trace, line by line
//   WINDOWS  null, or { frame, windows: [[partition, offset, length], ...] } of the module table
//   ROWS     null, or the rows of states of the module, as `mb state --json` writes them
//   TICKS    null, or for how many ticks the module ran
// Nothing is drawn that is not seen, so that a long trace moves as smoothly as a short one.

// ---- the trace

const STATES = [\"DORMANT\", \"READY\", \"RUNNING\", \"WAITING\"];
const MESSAGE_KINDS = [\"MOVE\", \"ARRIVE\", \"LOST\", \"OUT\"];

/** Whether a message leaves by a line. */
const isSent = (line) => line.kind === \"MOVE\" || line.kind === \"OUT\";

/** Whether the processes of a partition are gone with an error of it, and before the work of its tick. */
function isCleared([error, , level, action]) {
  return (error === \"DEADLINE_MISSED\" || error === \"HARDWARE_FAULT\") && level === \"PARTITION\" && action !== \"IGNORE\";
}

/** The kinds of marks, in the order in which they are drawn: errors last, and so above all others. */
const SIGNS = [\"message\", \"lost\", \"report\", \"flag\"];

/** Reads the lines of a trace. A line has its tick, its partition, its kind and the words behind that. */
function readTrace(text) {
  const lines = [];
  let begin = 0;
  while (begin < text.length) {
    const end = text.indexOf(\"\\n\", begin);
    const words = text.slice(begin, end).split(\" \");
    lines.push({ tick: Number(words[0]), partition: words[1], kind: words[2], words: words.slice(3), number: lines.length + 1 });
    begin = end + 1;
  }
  return lines;
}

/** The text of a line, without the zeros in front of its tick. */
function textOf(line) {
  return [line.tick, line.partition, line.kind, ...line.words].join(\" \");
}

/** The lowest of so many places that fits, if all those after it fit too; their number if none does. */
function lowest(places, fits) {
  let low = 0;
  let high = places;
  while (low < high) {
    const middle = (low + high) >> 1;
    if (fits(middle)) high = middle;
    else low = middle + 1;
  }
  return low;
}

// ---- states of the module

/** How the first row of a state begins. */
const TICK_ROW = '{\"partition\":null,\"tick\":';

/** A row of a state: its partition, and its text as `mb state` writes it without --json. A number stays a text, since a word may have more digits than one keeps here. */
function readRow(row) {
  const [, partition, ...words] = row.match(/\"[^\"]*\"|[-0-9a-z]+/g).map((it) => (it === \"null\" ? \"-\" : it.replaceAll('\"', \"\")));
  return { partition, text: [partition, ...words].join(\" \") };
}

/** The states that a text has, one after the other. */
class States {
  constructor(text) {
    this.rows = text.split(\"\\n\").slice(0, -1);
    this.begins = [];
    this.rows.forEach((row, place) => row.startsWith(TICK_ROW) && this.begins.push(place));
    this.ticks = this.begins.map((place) => Number.parseInt(this.rows[place].slice(TICK_ROW.length), 10));
  }

  /** The last state before a tick or before an earlier one: which tick that is, and its rows. Without such a state there is none. */
  upTo(tick) {
    const known = this.ticks.filter((it) => it <= tick);
    if (!known.length) return null;
    const before = known.reduce((one, other) => Math.max(one, other));
    const place = this.ticks.indexOf(before);
    return { tick: before, rows: this.rows.slice(this.begins[place], this.begins[place + 1]).map(readRow) };
  }
}

// ---- stays in a state

/** The states and modes, in the order in which they win: of short stays that share a pixel the first of these is drawn. */
const FOREMOST = [\"RUNNING\", \"READY\", \"WAITING\", \"DORMANT\", \"SHUTDOWN\", \"IDLE\", \"COLD_START\", \"WARM_START\", \"NORMAL\"];

/** The stays of a process in a state, of a partition in a mode, or of the module in its shutdown: from a tick on, and before another. */
class Stays {
  constructor() {
    this.from = [];
    this.to = [];
    this.state = [];
    this.places = new Map();
  }

  /** A stay begins; the one before it ends with the tick before `tick`, or with `tick` itself. */
  begin(tick, state, lastTickCounts) {
    this.end(lastTickCounts ? tick + 1 : tick);
    this.from.push(Math.max(tick, this.to.length ? this.to[this.to.length - 1] : 0));
    this.state.push(state);
  }

  /** The open stay ends before `tick`; one without a tick is none. */
  end(tick) {
    const place = this.to.length;
    if (place === this.from.length) return;
    const state = this.state[place];
    if (tick <= this.from[place]) {
      this.from.pop();
      this.state.pop();
      return;
    }
    this.to.push(tick);
    if (!this.places.has(state)) this.places.set(state, []);
    this.places.get(state).push(place);
  }

  /** Whether a stay is open, and in which state. */
  get open() {
    return this.to.length < this.from.length ? this.state[this.state.length - 1] : null;
  }

  /** The place of the last stay that begins at or before `tick`; -1 if none does. */
  at(tick) {
    return lowest(this.from.length, (place) => this.from[place] > tick) - 1;
  }

  /** Of the stays that begin at or after a tick and before another, the place of the one whose state wins; -1 if there are none. */
  foremost(from, to) {
    for (const state of FOREMOST) {
      const places = this.places.get(state) ?? [];
      const first = places[lowest(places.length, (it) => this.from[places[it]] >= from)];
      if (first !== undefined && this.from[first] < to) return first;
    }
    return -1;
  }

  /** The state in a tick, or null. */
  stateAt(tick) {
    const place = this.at(tick);
    return place >= 0 && tick < this.to[place] ? this.state[place] : null;
  }
}

/** The stays of all these processes end before a tick. */
function endAll(processes, tick) {
  for (const { stays } of processes.values()) stays.end(tick);
}

/** What a trace shows: the lanes in the order of their first lines, the marks on them, and the messages. */
class Story {
  constructor(lines, windows, ticks) {
    this.lines = lines;
    this.windows = windows;
    this.windowsBy = new Map();
    this.lanes = [];
    this.messages = [];
    this.marks = new Map();
    this.origins = [0];
    this.down = Infinity;
    this.module = null;
    this.byPartition = new Map();
    for (const line of lines) this.take(line);
    const last = lines.length ? lines[lines.length - 1].tick + 1 : 0;
    this.ticks = Math.max(ticks ?? last, last, 1);
    for (const lane of this.lanes) lane.stays.end(this.ticks);
    this.sort();
  }

  lane(kind, partition, name) {
    const lane = { kind, partition, name, stays: new Stays(), marks: [] };
    this.lanes.push(lane);
    return lane;
  }

  partition(name) {
    if (!this.byPartition.has(name)) this.byPartition.set(name, { mode: this.lane(\"mode\", name, \"mode\"), messages: null, processes: new Map() });
    return this.byPartition.get(name);
  }

  process(partition, name) {
    const { processes } = this.partition(partition);
    if (!processes.has(name)) processes.set(name, this.lane(\"process\", partition, name));
    return processes.get(name);
  }

  /** The lane of the messages of a partition; they have one of their own, so that they cover no mode. */
  messagesOf(partition) {
    const lanes = this.partition(partition);
    lanes.messages ??= this.lane(\"messages\", partition, \"messages\");
    return lanes.messages;
  }

  take(line) {
    const { partition, kind, words } = line;
    if (partition === \"-\") this.takeModule(line);
    else if (kind === \"STATE\") this.takeState(line);
    else if (kind === \"MODE\") this.takeMode(line);
    else if (kind === \"HM\") this.takeError(line);
    else if (kind === \"REPORT\") this.mark(this.process(partition, words[0]), line, \"report\");
    else if (MESSAGE_KINDS.includes(kind)) this.takeMessage(line);
  }

  mark(lane, line, sign, message = null) {
    const mark = { tick: line.tick, line, sign, message };
    lane.marks.push(mark);
    this.marks.set(line.number, mark);
  }

  /** Windows count anew from a reset of the module on; from its shutdown on there are none. */
  takeModule(line) {
    this.module ??= this.lane(\"module\", \"-\", \"the module\");
    this.mark(this.module, line, \"flag\");
    const action = line.words[line.words.length - 1];
    if (action === \"RESET\") this.reset(line.tick);
    if (action !== \"SHUTDOWN\") return;
    this.down = Math.min(this.down, line.tick);
    this.module.stays.begin(line.tick, \"SHUTDOWN\", false);
  }

  takeState({ tick, partition, words: [name, state] }) {
    const { stays } = this.process(partition, name);
    const gaveUp = stays.open === \"RUNNING\" && (state === \"WAITING\" || state === \"DORMANT\");
    stays.begin(tick, state, gaveUp);
  }

  /** With a reset the frames begin anew, and the processes of all partitions are gone before the work of the tick. */
  reset(tick) {
    this.origins.push(tick);
    for (const { processes } of this.byPartition.values()) endAll(processes, tick);
  }

  takeError(line) {
    const { tick, partition, words } = line;
    this.mark(this.marked(partition, words[1]), line, \"flag\");
    if (isCleared(words)) endAll(this.partition(partition).processes, tick);
  }

  /** A mode other than NORMAL ends all processes; a tick in which one ran still counts. */
  takeMode({ tick, partition, words: [mode] }) {
    const { mode: lane, processes } = this.partition(partition);
    lane.stays.begin(tick, mode, false);
    if (mode === \"NORMAL\") return;
    for (const { stays } of processes.values()) stays.end(stays.open === \"RUNNING\" ? tick + 1 : tick);
  }

  /** The lane of an error: that of its process, or of its partition. */
  marked(partition, who) {
    return who === \"-\" ? this.partition(partition).mode : this.process(partition, who);
  }

  /** A message begins with its MOVE, or at its arrival if it comes from outside; what follows it belongs to it. A port has it once. */
  takeMessage(line) {
    const lane = this.messagesOf(line.partition);
    const last = this.messages[this.messages.length - 1];
    const goesOn = last && line.kind !== \"MOVE\" && last.lines[0].tick === line.tick && sameWords(last.lines[0], line);
    const follows = goesOn && !last.lines.some((it) => isSamePort(it, line));
    const message = follows ? last : { lines: [] };
    if (!follows) this.messages.push(message);
    message.lines.push(line);
    this.mark(lane, line, line.kind === \"LOST\" ? \"lost\" : \"message\", message);
  }

  /** The module first, and then partition by partition, each with its modes and messages first, and INIT before the others. */
  sort() {
    const order = new Map([\"-\", ...this.byPartition.keys()].map((name, place) => [name, place]));
    const ranks = { mode: 0, messages: 1, INIT: 2, HANDLER: 3 };
    const rank = ({ kind, name }) => ranks[kind === \"process\" ? name : kind] ?? 4;
    this.lanes.sort((one, other) => order.get(one.partition) - order.get(other.partition) || rank(one) - rank(other));
  }

  /** The lane in which a line is looked for. */
  laneOf({ partition, kind, words }) {
    if (partition === \"-\") return this.module;
    const { mode, messages, processes } = this.byPartition.get(partition) ?? {};
    if (MESSAGE_KINDS.includes(kind)) return messages;
    return processes?.get(words[kind === \"HM\" ? 1 : 0]) ?? mode;
  }

  /** The windows of a partition, in the order of their offsets. */
  windowsOf(partition) {
    const windows = this.windowsBy.get(partition) ?? this.windows.windows.filter(([name]) => name === partition);
    if (!this.windowsBy.has(partition)) this.windowsBy.set(partition, windows.sort(([, one], [, other]) => one - other));
    return windows;
  }

  /** The windows of a partition between two ticks, as pairs. */
  *windowsIn(partition, from, to) {
    const { frame } = this.windows;
    const first = Math.max(lowest(this.origins.length, (place) => this.origins[place] > from) - 1, 0);
    for (let place = first; place < this.origins.length && this.origins[place] < to; place += 1) {
      const origin = this.origins[place];
      const end = Math.min(to, this.origins[place + 1] ?? Infinity, this.down);
      for (let begin = origin + Math.max(0, Math.floor((from - origin) / frame)) * frame; begin < end; begin += frame) {
        for (const [, offset, length] of this.windowsOf(partition)) {
          const [window, until] = [Math.max(begin + offset, from), Math.min(begin + offset + length, end)];
          if (window < until) yield [window, until];
        }
      }
    }
  }

  /** When processes of a partition may work between two ticks: in its windows if these are known, and not in a shutdown. */
  *worksIn(partition, from, to) {
    if (this.windows) yield* this.windowsIn(partition, from, to);
    else if (from < this.down) yield [from, Math.min(to, this.down)];
  }

  /** Why a process that is RUNNING or READY does not work in a tick; null if it may. */
  heldAt(lane, state, tick) {
    if (lane.kind !== \"process\" || (state !== \"RUNNING\" && state !== \"READY\")) return null;
    if (tick >= this.down) return \"the module is shut down\";
    return this.worksIn(lane.partition, tick, tick + 1).next().done ? \"not in its window\" : null;
  }

  /** The state of each process and the mode of each partition in a tick, and why a process is held. */
  statesAt(tick) {
    const lanes = this.lanes.filter((lane) => lane.kind === \"mode\" || lane.kind === \"process\");
    return lanes.map((lane) => {
      const state = lane.stays.stateAt(tick);
      return { lane, state, held: this.heldAt(lane, state, tick) };
    });
  }

  /** The lines that have all of these words. */
  find(words) {
    const wanted = words.toLowerCase().split(/\\s+/).filter(Boolean);
    if (!wanted.length) return [];
    return this.lines.filter((line) => {
      const text = textOf(line).toLowerCase();
      return wanted.every((word) => text.includes(word));
    });
  }
}

/** Whether two lines of messages are of one port. */
function isSamePort(one, other) {
  return one.kind !== \"OUT\" && other.kind !== \"OUT\" && one.partition === other.partition && one.words[0] === other.words[0];
}

function sameWords(one, other) {
  const [, ...first] = one.words;
  const [, ...second] = other.words;
  return first.length === second.length && first.every((word, place) => word === second[place]);
}

// ---- what is seen of it

/** The ticks that the page shows, and the lanes that are chosen. */
class View {
  constructor(story) {
    this.story = story;
    this.from = 0;
    this.to = story.ticks;
    this.top = 0;
    this.hidden = new Set();
    this.kinds = new Set(SIGNS);
    this.filter = \"\";
  }

  get lanes() {
    const wanted = this.filter.toLowerCase();
    return this.story.lanes.filter((lane) => {
      const isNamed = lane.kind !== \"process\" || `${lane.partition} ${lane.name}`.toLowerCase().includes(wanted);
      return isNamed && !this.hidden.has(lane.partition);
    });
  }

  /** The errors in these lanes, in their order. */
  get errors() {
    if (!this.kinds.has(\"flag\")) return [];
    const errors = this.lanes.flatMap((lane) => lane.marks.filter((mark) => mark.sign === \"flag\"));
    return errors.sort((one, other) => one.line.number - other.line.number);
  }

  /** Shows these ticks, at least two and at most all. */
  show(from, to) {
    const span = Math.min(Math.max(to - from, 2), this.story.ticks);
    this.from = Math.min(Math.max(from, 0), this.story.ticks - span);
    this.to = this.from + span;
  }

  zoom(factor, at) {
    this.show(at - (at - this.from) * factor, at + (this.to - at) * factor);
  }

  move(ticks) {
    this.show(this.from + ticks, this.to + ticks);
  }

  center(tick) {
    this.move(tick - (this.from + this.to) / 2);
  }
}

/** A step of 1, 2 or 5 times a power of ten for some `count` marks over so many ticks. */
function stepOf(ticks, count) {
  const least = Math.max(ticks / count, 1);
  const power = 10 ** Math.floor(Math.log10(least));
  return [1, 2, 5, 10].map((it) => it * power).find((it) => it >= least);
}

// ---- drawing

const GUTTER = 190;
const HEAD = 34;
const LANE = 22;
const FONT = \"12px system-ui, sans-serif\";
const BOLD = `600 ${FONT}`;
const THEMES = {
  light: {
    ground: \"#ffffff\", band: \"#f3f5f8\", ink: \"#1f2933\", grid: \"#d5dbe1\", window: \"#dfeaf3\", cursor: \"#7c3aed\",
    RUNNING: \"#4b86b8\", READY: \"#d99a2b\", WAITING: \"#7b8794\", DORMANT: \"#cbd2d9\", heldRUNNING: \"#b9cfe2\", heldREADY: \"#f0dcb6\",
    COLD_START: \"#b4bcc5\", WARM_START: \"#d6b985\", IDLE: \"#f0a3a3\", SHUTDOWN: \"#c9bfd9\",
    flag: \"#c4302b\", report: \"#1f2933\", message: \"#33691e\", lost: \"#b42318\",
  },
  dark: {
    ground: \"#15191e\", band: \"#1d232a\", ink: \"#e4e7eb\", grid: \"#333c46\", window: \"#22303d\", cursor: \"#b794f4\",
    RUNNING: \"#5b9bd5\", READY: \"#e0a93e\", WAITING: \"#8a97a6\", DORMANT: \"#4d5b69\", heldRUNNING: \"#35506a\", heldREADY: \"#5c4a26\",
    COLD_START: \"#48525d\", WARM_START: \"#6b5426\", IDLE: \"#8c2f2f\", SHUTDOWN: \"#4f4560\",
    flag: \"#ff6b63\", report: \"#e4e7eb\", message: \"#9ccc65\", lost: \"#ff8a80\",
  },
};

/** Draws states, modes and marks in the colours of a theme, each in a lane with its top at a height. */
class Pencil {
  constructor(pen, theme) {
    this.pen = pen;
    this.theme = theme;
  }

  /** The bar of a state: the nearer a process is to run, the higher it is. A process that is held gets a paler one. */
  state(state, left, width, y, isHeld = false) {
    const { pen, theme } = this;
    pen.fillStyle = theme[isHeld ? `held${state}` : state];
    if (state === \"RUNNING\" && isHeld) pen.fillRect(left, y + LANE / 2 - 2, width, 4);
    else if (state === \"RUNNING\") pen.fillRect(left, y + 3, width, LANE - 6);
    else if (state === \"READY\") pen.fillRect(left, y + LANE / 2, width, LANE / 2 - 3);
    else pen.fillRect(left, y + LANE / 2 - 1, width, state === \"WAITING\" ? 2 : 1);
  }

  /** The bar of a mode. NORMAL has none. */
  mode(mode, left, width, y) {
    if (!this.theme[mode]) return;
    this.pen.fillStyle = this.theme[mode];
    this.pen.fillRect(left, y + 3, width, LANE - 6);
  }

  window(left, width, y) {
    this.pen.fillStyle = this.theme.window;
    this.pen.fillRect(left, y, width, LANE);
  }

  /** A mark, with its middle at a height; the tip of a flag is on the right of its pole, or on the left. */
  mark(sign, leaves, x, y, isFollowed = false, side = 1) {
    const { pen } = this;
    pen.fillStyle = this.theme[sign];
    pen.strokeStyle = this.theme[sign];
    pen.lineWidth = 1;
    if (sign === \"flag\") this.flag(x, y, side);
    else if (sign === \"report\") this.lozenge(x, y);
    else if (sign === \"lost\") this.cross(x, y, isFollowed ? 5 : 3);
    else this.circle(x, y, isFollowed ? 5 : 3.5, leaves);
  }

  /** A flag has an edge in the colour of the ground, so that it is seen above bars and other flags. */
  flag(x, y, side) {
    const { pen } = this;
    pen.beginPath();
    pen.moveTo(x - side, y - 4);
    pen.lineTo(x + 10 * side, y);
    pen.lineTo(x + side, y + 4);
    pen.lineTo(x + side, y + LANE - 6);
    pen.lineTo(x - side, y + LANE - 6);
    pen.closePath();
    pen.strokeStyle = this.theme.ground;
    pen.lineWidth = 2;
    pen.stroke();
    pen.fill();
  }

  lozenge(x, y) {
    const { pen } = this;
    pen.beginPath();
    pen.moveTo(x, y - 6);
    pen.lineTo(x + 5, y);
    pen.lineTo(x, y + 6);
    pen.lineTo(x - 5, y);
    pen.closePath();
    pen.strokeStyle = this.theme.ground;
    pen.stroke();
    pen.fill();
  }

  cross(x, y, reach) {
    const { pen } = this;
    pen.lineWidth = 2;
    pen.beginPath();
    pen.moveTo(x - reach, y - reach);
    pen.lineTo(x + reach, y + reach);
    pen.moveTo(x - reach, y + reach);
    pen.lineTo(x + reach, y - reach);
    pen.stroke();
  }

  /** A disc for a message that leaves, a ring for one that arrives. */
  circle(x, y, reach, isFull) {
    const { pen } = this;
    pen.beginPath();
    pen.arc(x, y, reach, 0, 2 * Math.PI);
    if (isFull) pen.fill();
    else pen.stroke();
  }

  cursor(x, place, height) {
    const { pen } = this;
    pen.strokeStyle = this.theme.cursor;
    pen.lineWidth = 1;
    pen.setLineDash(place ? [5, 4] : []);
    pen.beginPath();
    pen.moveTo(x, 0);
    pen.lineTo(x, height);
    pen.stroke();
    pen.setLineDash([]);
  }
}

/** A canvas of this size for the pixels of the screen; returns its pen, with the ground drawn. */
function cleared(canvas, width, height, theme) {
  const scale = window.devicePixelRatio || 1;
  const [across, down] = [Math.round(width * scale), Math.round(height * scale)];
  if (canvas.width !== across || canvas.height !== down) [canvas.width, canvas.height] = [across, down];
  const pen = canvas.getContext(\"2d\");
  pen.setTransform(scale, 0, 0, scale, 0, 0);
  pen.fillStyle = theme.ground;
  pen.fillRect(0, 0, width, height);
  pen.textBaseline = \"middle\";
  return pen;
}

/** Draws what is seen. It keeps which marks and names it drew, and where. */
class Drawing {
  constructor(canvas, view) {
    this.canvas = canvas;
    this.view = view;
    this.theme = THEMES.light;
    this.cursors = [null, null];
    this.followed = null;
    this.frames = [];
    this.isAsked = false;
    this.marks = [];
    this.names = [];
  }

  /** Draws before the next picture of the screen, however often it is asked for until then. */
  ask() {
    if (this.isAsked) return;
    this.isAsked = true;
    requestAnimationFrame((now) => {
      this.isAsked = false;
      this.frames.push(now);
      if (this.frames.length > 600) this.frames.shift();
      this.draw();
    });
  }

  get width() {
    return this.canvas.clientWidth - GUTTER;
  }

  /** How many ticks a pixel shows. */
  get aPixel() {
    return (this.view.to - this.view.from) / this.width;
  }

  x(tick) {
    return GUTTER + (tick - this.view.from) / this.aPixel;
  }

  tick(x) {
    return this.view.from + (x - GUTTER) * this.aPixel;
  }

  /** Where a bar begins and how wide it is: between pixels of the screen, at least one wide, not far outside of what is seen, and not after its last pixel. */
  bar(from, to) {
    const scale = window.devicePixelRatio || 1;
    const end = GUTTER + this.width;
    const edge = (tick) => Math.round(Math.min(Math.max(this.x(tick), GUTTER - 9), end + 9) * scale) / scale;
    const left = Math.min(edge(from), end - 1);
    return [left, Math.max(edge(to) - left, 1)];
  }

  /** The lane at a height. */
  laneAt(y) {
    const place = Math.floor((y - HEAD) / LANE + this.view.top);
    return y < HEAD ? null : this.view.lanes[place] ?? null;
  }

  draw() {
    const { clientWidth: width, clientHeight: height } = this.canvas;
    const pen = cleared(this.canvas, width, height, this.theme);
    this.pencil = new Pencil(pen, this.theme);
    this.marks = [];
    this.names = [];
    this.drawGrid(pen, height);
    const first = Math.floor(this.view.top);
    const lanes = this.view.lanes.slice(first, first + Math.ceil(height / LANE) + 1);
    pen.save();
    pen.beginPath();
    pen.rect(0, HEAD, width, height - HEAD);
    pen.clip();
    lanes.forEach((lane, place) => this.drawLane(pen, lane, HEAD + (first + place - this.view.top) * LANE));
    pen.restore();
    this.cursors.forEach((tick, place) => tick !== null && this.x(tick) >= GUTTER && this.pencil.cursor(this.x(tick), place, height));
  }

  drawGrid(pen, height) {
    const { from, to } = this.view;
    const step = stepOf(to - from, this.width / 110);
    pen.font = FONT;
    pen.fillStyle = this.theme.ink;
    pen.fillText(\"tick\", 8, HEAD / 2);
    for (let tick = Math.ceil(from / step) * step; tick < to; tick += step) {
      const x = Math.round(this.x(tick)) + 0.5;
      pen.strokeStyle = this.theme.grid;
      pen.beginPath();
      pen.moveTo(x, HEAD - 8);
      pen.lineTo(x, height);
      pen.stroke();
      pen.fillText(String(tick), x + 3, HEAD / 2);
    }
  }

  drawLane(pen, lane, y) {
    const isProcess = lane.kind === \"process\";
    if (!isProcess) {
      pen.fillStyle = this.theme.band;
      pen.fillRect(0, y, this.canvas.clientWidth, LANE);
    }
    pen.save();
    pen.beginPath();
    pen.rect(GUTTER, y, this.width, LANE);
    pen.clip();
    const flags = this.flagsIn(lane);
    if (this.view.story.windows && lane.kind !== \"module\") this.drawWindows(lane.partition, y);
    this.drawStays(pen, lane, y, flags);
    this.drawMarks(lane, y);
    for (const flag of flags) this.drawMark(lane, flag.mark, flag.x, y + flag.down);
    if (lane.kind === \"module\") this.drawActions(pen, flags, y);
    pen.restore();
    const isHead = lane.kind === \"mode\" || lane.kind === \"module\";
    pen.fillStyle = this.theme.ink;
    pen.font = isHead ? BOLD : FONT;
    pen.fillText(lane.kind === \"mode\" ? lane.partition : lane.name, isHead ? 8 : 22, y + LANE / 2, GUTTER - 28);
  }

  drawWindows(partition, y) {
    const { story, from, to } = this.view;
    // Where windows are narrower than a pixel, the whole lane would be filled.
    if (this.aPixel > story.windows.frame) return;
    for (const [begin, end] of story.windowsIn(partition, from, to)) this.pencil.window(...this.bar(begin, end), y);
  }

  /** The stays that are drawn: those that are wider than a pixel, and of the others the foremost of each pixel, so that there are no more than pixels. */
  staysIn({ stays }) {
    const { aPixel } = this;
    const isWide = (place) => stays.to[place] - stays.from[place] >= aPixel;
    const drawn = [];
    let place = Math.max(stays.at(this.view.from), 0);
    while (place < stays.from.length && stays.from[place] < this.view.to) {
      if (isWide(place)) {
        drawn.push(place);
        place += 1;
        continue;
      }
      const end = (Math.floor(stays.from[place] / aPixel) + 1) * aPixel;
      drawn.push(Math.max(stays.foremost(stays.from[place], end), place));
      const last = lowest(stays.from.length, (it) => stays.from[it] >= end) - 1;
      // The last one that begins in the pixel may be wide.
      place = Math.max(isWide(last) ? last : last + 1, place + 1);
    }
    return drawn;
  }

  /** Draws the foremost states last, so that no other covers them. */
  drawStays(pen, lane, y, flags) {
    const drawn = this.staysIn(lane);
    for (const state of [...FOREMOST].reverse()) {
      for (const place of drawn) if (lane.stays.state[place] === state) this.drawStay(pen, lane, place, y, flags);
    }
  }

  drawStay(pen, lane, place, y, flags) {
    const { from, to, state } = lane.stays;
    const bar = this.bar(from[place], to[place]);
    if (lane.kind !== \"process\") {
      this.pencil.mode(state[place], ...bar, y);
      this.drawName(pen, state[place], ...bar, y, flags);
      return;
    }
    if (state[place] === \"RUNNING\" || state[place] === \"READY\") this.drawChosen(lane, place, y);
    else this.pencil.state(state[place], ...bar, y);
  }

  /** The name of a mode in its bar, to the right of the flags that would be on it; a short one if there is no room, or none. */
  drawName(pen, mode, left, width, y, flags) {
    pen.font = FONT;
    pen.fillStyle = this.theme.ink;
    const end = Math.min(left + width, GUTTER + this.width) - 4;
    for (const name of [mode, mode.split(\"_\")[0]]) {
      const wide = pen.measureText(name).width;
      let begin = Math.max(left, GUTTER) + 4;
      for (const { x } of flags) if (x - 12 < begin + wide && begin < x + 12) begin = x + 12;
      if (begin + wide > end) continue;
      pen.fillText(name, begin, y + LANE / 2);
      this.names.push({ name, left: begin, right: begin + wide, top: y + 4, bottom: y + LANE - 4 });
      return;
    }
  }

  /** A stay that is RUNNING or READY. It is paler where no process of the partition works, and what is not paler covers that. */
  drawChosen(lane, place, y) {
    const { story } = this.view;
    const { from, to, state } = lane.stays;
    const [begin, end] = [Math.max(from[place], this.view.from), Math.min(to[place], this.view.to)];
    // Where windows are narrower than a pixel, they are all one.
    const isCut = story.windows && this.aPixel <= story.windows.frame;
    const works = isCut ? [...story.worksIn(lane.partition, begin, end)] : [[begin, Math.min(end, story.down)]];
    const isHeld = works.reduce((ticks, [window, until]) => ticks + until - window, 0) < end - begin;
    if (isHeld) this.pencil.state(state[place], ...this.bar(begin, end), y, true);
    for (const [window, until] of works) if (window < until) this.pencil.state(state[place], ...this.bar(window, until), y);
  }

  /** The marks of one kind that are seen, each with its place. */
  *marksIn(lane, sign) {
    if (!this.view.kinds.has(sign)) return;
    for (let place = firstMark(lane.marks, this.view.from); place < lane.marks.length && lane.marks[place].tick < this.view.to; place += 1) {
      const mark = lane.marks[place];
      if (mark.sign === sign) yield [mark, this.x(mark.tick)];
    }
  }

  /** The errors that are seen. Those of one pixel stand one below the other, three of them at most. */
  flagsIn(lane) {
    const flags = [];
    let [last, count] = [-Infinity, 0];
    for (const [mark, x] of this.marksIn(lane, \"flag\")) {
      count = x - last < 1 ? count + 1 : 0;
      if (count === 0) last = x;
      if (count < 3) flags.push({ mark, x, down: 5 * count });
    }
    return flags;
  }

  /** Of other marks of one shape within one pixel one is drawn. */
  drawMarks(lane, y) {
    for (const sign of SIGNS.filter((it) => it !== \"flag\")) {
      const last = new Map();
      for (const [mark, x] of this.marksIn(lane, sign)) {
        const shape = isSent(mark.line);
        const isFollowed = this.followed !== null && mark.message === this.followed;
        if (x - (last.get(shape) ?? -Infinity) < 1 && !isFollowed) continue;
        last.set(shape, x);
        this.drawMark(lane, mark, x, y, isFollowed);
      }
    }
  }

  /** A flag at the end of what is seen points to the left. */
  drawMark(lane, mark, x, top, isFollowed) {
    const y = top + heightOf(mark);
    this.pencil.mark(mark.sign, isSent(mark.line), x, y, isFollowed, x + 11 > GUTTER + this.width ? -1 : 1);
    this.marks.push({ lane, mark, x, y });
  }

  /** What the module did on each error, where there is room up to the next one; the name of a shutdown is in its bar. */
  drawActions(pen, flags, y) {
    pen.font = FONT;
    pen.fillStyle = this.theme.ink;
    flags.forEach(({ mark, x }, place) => {
      const word = mark.line.words[mark.line.words.length - 1];
      if (word === \"SHUTDOWN\") return;
      const room = (flags[place + 1]?.x ?? GUTTER + this.width) - x;
      if (pen.measureText(word).width + 18 < room) pen.fillText(word, x + 13, y + LANE / 2);
    });
  }

  /** The place of the stay that is drawn in a column of a lane, where bars begin and end at the nearest column; -1 if there is none. */
  stayAt(lane, x) {
    const { stays } = lane;
    const [from, to] = [Math.floor(x) - 0.5, Math.floor(x) + 0.5].map((it) => this.tick(it));
    const place = stays.foremost(from, to);
    if (place >= 0) return place;
    const last = stays.at(to);
    return last >= 0 && to < stays.to[last] ? last : -1;
  }

  /** The mark that was drawn nearest to a point in its lane, at most nine pixels away. */
  nearest(x, y) {
    const lane = this.laneAt(y);
    let [found, least] = [null, 9];
    for (const it of this.marks) {
      const far = it.lane === lane ? Math.hypot(it.x - x, it.y - y) : Infinity;
      if (far <= least) [found, least] = [it, far];
    }
    return found;
  }

  /** The marks at a point: all those that share a pixel with the nearest one and have its shape, each message once. */
  marksAt(x, y) {
    const nearest = this.nearest(x, y);
    if (!nearest) return [];
    const isThere = ([mark, at]) => Math.abs(at - nearest.x) < 1 && isSent(mark.line) === isSent(nearest.mark.line);
    const marks = [...this.marksIn(nearest.lane, nearest.mark.sign)].filter(isThere).map(([mark]) => mark);
    return marks.filter(({ message }, place) => message === null || marks.findIndex((it) => it.message === message) === place);
  }
}

/** How far below the top of its lane the middle of a mark is: no kind of message is on another. */
function heightOf({ sign, line }) {
  if (sign === \"flag\" || isSent(line)) return 5;
  return sign === \"lost\" ? LANE - 5 : LANE / 2;
}

/** The place of the first mark at or after a tick. */
function firstMark(marks, tick) {
  return lowest(marks.length, (place) => marks[place].tick >= tick);
}

// ---- the page

/** What the legend explains: for each what draws it into a lane that is as wide as a swatch. */
const SWATCH = 30;
const LEGEND = [
  [\"RUNNING\", (pencil) => pencil.state(\"RUNNING\", 0, SWATCH, 0)],
  [\"RUNNING, not in its window\", (pencil) => pencil.state(\"RUNNING\", 0, SWATCH, 0, true), \"windows\"],
  [\"READY\", (pencil) => pencil.state(\"READY\", 0, SWATCH, 0)],
  [\"READY, not in its window\", (pencil) => pencil.state(\"READY\", 0, SWATCH, 0, true), \"windows\"],
  [\"WAITING\", (pencil) => pencil.state(\"WAITING\", 0, SWATCH, 0)],
  [\"DORMANT\", (pencil) => pencil.state(\"DORMANT\", 0, SWATCH, 0)],
  [\"COLD_START of a partition\", (pencil) => pencil.mode(\"COLD_START\", 0, SWATCH, 0)],
  [\"WARM_START\", (pencil) => pencil.mode(\"WARM_START\", 0, SWATCH, 0)],
  [\"IDLE\", (pencil) => pencil.mode(\"IDLE\", 0, SWATCH, 0)],
  [\"shutdown of the module\", (pencil) => pencil.mode(\"SHUTDOWN\", 0, SWATCH, 0), \"shutdown\"],
  [\"windows of the partition\", (pencil) => pencil.window(0, SWATCH, 0), \"windows\"],
  [\"error\", (pencil) => pencil.mark(\"flag\", false, SWATCH / 3, 5)],
  [\"application message\", (pencil) => pencil.mark(\"report\", false, SWATCH / 2, LANE / 2)],
  [\"message leaves\", (pencil) => pencil.mark(\"message\", true, SWATCH / 2, LANE / 2)],
  [\"message arrives\", (pencil) => pencil.mark(\"message\", false, SWATCH / 2, LANE / 2)],
  [\"message is lost\", (pencil) => pencil.mark(\"lost\", false, SWATCH / 2, LANE / 2)],
];

/** The most lines that are listed at once of those that a search found, and that a tooltip shows. */
const LISTED = 100;
const TIPPED = 8;

/** What the page does when it is moved, clicked and searched. */
class Page {
  constructor(story, rows) {
    this.story = story;
    this.moduleStates = rows === null ? null : new States(rows);
    this.view = new View(story);
    this.drawing = new Drawing(document.getElementById(\"lanes\"), this.view);
    this.sought = { words: \"\", lines: [], place: -1 };
    this.drag = null;
    this.shown = null;
    this.name();
    this.listen();
    this.listFilters();
    this.choose(matchMedia(\"(prefers-color-scheme: dark)\").matches ? \"dark\" : \"light\");
    this.tell();
  }

  /** The page is called as its file is, if this has a name. The page does not have the name of the trace. */
  name() {
    const [, file] = /([^/]*?)(\\.html?)?$/.exec(location.pathname);
    if (!file) return;
    try {
      document.title = decodeURIComponent(file);
    } catch {
      document.title = file;
    }
    document.getElementById(\"title\").textContent = document.title;
  }

  choose(theme) {
    this.themeName = theme;
    document.documentElement.dataset.theme = theme;
    this.drawing.theme = THEMES[theme];
    this.drawLegend();
    this.drawing.ask();
  }

  drawLegend() {
    const { theme } = this.drawing;
    const needed = { windows: this.story.windows, shutdown: this.story.down < Infinity };
    const rows = LEGEND.filter(([, , need]) => !need || needed[need]).map(([words, draw]) => {
      const [row, canvas] = [document.createElement(\"div\"), document.createElement(\"canvas\")];
      canvas.style.width = `${SWATCH}px`;
      draw(new Pencil(cleared(canvas, SWATCH, LANE, theme), theme));
      row.append(canvas, words);
      return row;
    });
    document.getElementById(\"legend\").replaceChildren(...rows);
  }

  listen() {
    const canvas = this.drawing.canvas;
    canvas.addEventListener(\"wheel\", (event) => this.roll(event), { passive: false });
    canvas.addEventListener(\"pointerdown\", (event) => this.press(event));
    canvas.addEventListener(\"pointermove\", (event) => this.pull(event));
    canvas.addEventListener(\"pointerup\", (event) => this.release(event));
    canvas.addEventListener(\"pointerleave\", () => this.tip([]));
    window.addEventListener(\"resize\", () => this.drawing.ask());
    document.addEventListener(\"keydown\", (event) => this.type(event));
    document.getElementById(\"theme\").addEventListener(\"click\", () => this.choose(this.themeName === \"light\" ? \"dark\" : \"light\"));
    document.getElementById(\"search\").addEventListener(\"submit\", (event) => {
      event.preventDefault();
      this.search(document.getElementById(\"words\").value);
    });
    document.getElementById(\"filter\").addEventListener(\"input\", (event) => {
      this.view.filter = event.target.value;
      this.changed();
    });
  }

  listFilters() {
    const list = document.getElementById(\"partitions\");
    const addLanes = (partition, name) => this.addBox(list, name, (isOn) => (isOn ? this.view.hidden.delete(partition) : this.view.hidden.add(partition)));
    if (this.story.module) addLanes(\"-\", this.story.module.name);
    for (const name of this.story.byPartition.keys()) addLanes(name, name);
    const kinds = document.getElementById(\"kinds\");
    for (const [sign, name] of [[\"flag\", \"errors\"], [\"report\", \"application messages\"], [\"message\", \"messages\"], [\"lost\", \"lost messages\"]]) {
      this.addBox(kinds, name, (isOn) => (isOn ? this.view.kinds.add(sign) : this.view.kinds.delete(sign)));
    }
  }

  addBox(list, name, choose) {
    const label = document.createElement(\"label\");
    const box = document.createElement(\"input\");
    box.type = \"checkbox\";
    box.checked = true;
    box.addEventListener(\"change\", () => {
      choose(box.checked);
      this.changed();
    });
    label.append(box, ` ${name}`);
    list.append(label);
  }

  changed() {
    this.view.top = Math.min(this.view.top, Math.max(this.view.lanes.length - 1, 0));
    this.drawing.ask();
    this.tell();
  }

  roll(event) {
    event.preventDefault();
    this.tip([]);
    const span = this.view.to - this.view.from;
    if (event.shiftKey || Math.abs(event.deltaX) > Math.abs(event.deltaY)) this.view.move(((event.deltaX || event.deltaY) / 600) * span);
    else if (event.altKey) this.scroll(Math.sign(event.deltaY) * 2);
    else this.view.zoom(Math.exp(event.deltaY / 400), this.drawing.tick(event.offsetX));
    this.drawing.ask();
  }

  scroll(lanes) {
    this.view.top = Math.min(Math.max(this.view.top + lanes, 0), Math.max(this.view.lanes.length - 1, 0));
    this.drawing.ask();
  }

  press(event) {
    this.drag = { x: event.offsetX, y: event.offsetY, from: this.view.from, top: this.view.top, hasMoved: false };
    this.drawing.canvas.setPointerCapture(event.pointerId);
  }

  pull(event) {
    this.tip(this.drag ? [] : this.linesAt(event.offsetX, event.offsetY), event);
    if (!this.drag) return;
    const [right, down] = [event.offsetX - this.drag.x, event.offsetY - this.drag.y];
    if (Math.abs(right) + Math.abs(down) > 3) this.drag.hasMoved = true;
    if (!this.drag.hasMoved) return;
    const span = this.view.to - this.view.from;
    const from = this.drag.from - (right / this.drawing.width) * span;
    this.view.show(from, from + span);
    this.view.top = this.drag.top;
    this.scroll(-down / LANE);
  }

  release(event) {
    const drag = this.drag;
    this.drag = null;
    if (!drag || drag.hasMoved) return;
    const marks = this.drawing.marksAt(event.offsetX, event.offsetY);
    const place = marks.length ? (marks.indexOf(this.shown) + 1) % marks.length : 0;
    const mark = marks[place] ?? null;
    this.answer(marks.length > 1 ? `${place + 1} of ${marks.length} here; a click goes to the next one` : \"\");
    this.drawing.followed = mark?.message ?? null;
    const tick = mark ? mark.tick : Math.floor(this.drawing.tick(event.offsetX));
    this.put(tick, event.shiftKey ? 1 : 0, mark);
  }

  /** What is at a point: the lane, the stay that is drawn there, and the lines of the marks. */
  linesAt(x, y) {
    const { drawing } = this;
    const lane = drawing.laneAt(y);
    if (!lane) return [];
    const name = lane.kind === \"module\" ? lane.name : lane.kind === \"mode\" ? lane.partition : `${lane.partition} ${lane.name}`;
    const place = drawing.stayAt(lane, x);
    const lines = [x < GUTTER || place < 0 ? name : `${name} ${this.stayText(lane, place, Math.floor(drawing.tick(x)))}`];
    if (x < GUTTER) return lines;
    const near = [drawing.tick(x - 9), drawing.tick(x + 9)];
    const marks = lane.marks.slice(firstMark(lane.marks, near[0]), firstMark(lane.marks, near[1])).filter((it) => this.view.kinds.has(it.sign));
    marks.sort((one, other) => SIGNS.indexOf(other.sign) - SIGNS.indexOf(one.sign));
    lines.push(...marks.slice(0, TIPPED).map(({ line }) => textOf(line)));
    if (marks.length > TIPPED) lines.push(`and ${marks.length - TIPPED} lines more`);
    return lines;
  }

  stayText({ kind, partition, stays }, place, tick) {
    const [from, to, state] = [stays.from[place], stays.to[place], stays.state[place]];
    const held = this.story.heldAt({ kind, partition }, state, Math.min(Math.max(tick, from), to - 1));
    return `${state}${held ? `, ${held}` : \"\"}, ticks ${from} to ${to - 1} (${to - from})`;
  }

  /** Shows lines at the pointer; none are no tooltip. */
  tip(lines, event) {
    const tip = document.getElementById(\"tooltip\");
    tip.hidden = !lines.length;
    if (tip.hidden) return;
    tip.textContent = lines.join(\"\\n\");
    const { offsetWidth: width, offsetHeight: height } = tip;
    tip.style.left = `${Math.max(Math.min(event.clientX + 12, innerWidth - width - 4), 0)}px`;
    tip.style.top = `${event.clientY + 18 + height > innerHeight ? event.clientY - height - 8 : event.clientY + 18}px`;
  }

  /** Sets a cursor. */
  put(tick, place, mark = null) {
    this.drawing.cursors[place] = Math.min(Math.max(tick, 0), this.story.ticks - 1);
    this.shown = mark;
    this.drawing.ask();
    this.tell();
  }

  /** Does what a key says. Keys with Ctrl and the like are those of the browser, and letters in a field are letters. */
  type(event) {
    if (event.ctrlKey || event.metaKey || event.altKey) return;
    if (event.target instanceof HTMLInputElement && event.target.type !== \"checkbox\") {
      if (event.key === \"Escape\") event.target.blur();
      return;
    }
    const span = this.view.to - this.view.from;
    const middle = (this.view.from + this.view.to) / 2;
    const deeds = {
      ArrowLeft: () => this.view.move(-span / 8),
      ArrowRight: () => this.view.move(span / 8),
      ArrowUp: () => this.scroll(-1),
      ArrowDown: () => this.scroll(1),
      \"+\": () => this.view.zoom(0.6, middle),
      \"-\": () => this.view.zoom(1 / 0.6, middle),
      0: () => this.view.show(0, this.story.ticks),
      n: () => this.goToError(1),
      p: () => this.goToError(-1),
      \"/\": () => document.getElementById(\"words\").focus(),
      Escape: () => this.clear(),
    };
    const deed = deeds[event.key];
    if (!deed) return;
    event.preventDefault();
    this.tip([]);
    deed();
    this.drawing.ask();
  }

  clear() {
    this.drawing.cursors = [null, null];
    this.drawing.followed = null;
    this.shown = null;
    this.tell();
  }

  answer(text) {
    const answer = document.getElementById(\"answer\");
    answer.textContent = text;
    answer.title = text;
  }

  /** Goes to a line: it puts a cursor there, and shows its lane and its tick. */
  goTo(line) {
    const mark = this.story.marks.get(line.number) ?? { tick: line.tick, line };
    const place = this.view.lanes.indexOf(this.story.laneOf(line));
    const shown = Math.floor((this.drawing.canvas.clientHeight - HEAD) / LANE);
    if (place >= 0 && (place < this.view.top || place >= this.view.top + shown - 1)) this.view.top = Math.max(place - 2, 0);
    if (line.tick < this.view.from || line.tick >= this.view.to) this.view.center(line.tick);
    this.drawing.followed = mark.message ?? null;
    this.put(line.tick, 0, mark);
  }

  /** Goes to the next error in the lanes that are shown, or to the one before; after the last comes the first. */
  goToError(step) {
    const { errors } = this.view;
    if (!errors.length) {
      this.answer(\"no error is shown\");
      return;
    }
    const tick = this.drawing.cursors[0] ?? this.view.from;
    const here = this.shown?.line.number ?? lowest(this.story.lines.length, (place) => this.story.lines[place].tick >= tick) + 0.5;
    const behind = lowest(errors.length, (place) => errors[place].line.number > here);
    const before = lowest(errors.length, (place) => errors[place].line.number >= here) - 1;
    const place = ((step > 0 ? behind : before) + errors.length) % errors.length;
    this.answer(`error ${place + 1} of ${errors.length}: line ${errors[place].line.number}: ${textOf(errors[place].line)}`);
    this.goTo(errors[place].line);
  }

  /** Goes to the next line that has these words; the first search for them finds all. */
  search(words) {
    if (this.sought.words !== words) this.sought = { words, lines: this.story.find(words), place: -1 };
    const { lines } = this.sought;
    if (lines.length) this.goToFound((this.sought.place + 1) % lines.length);
    else this.answer(\"no line has these words\");
    this.listFound();
  }

  goToFound(place) {
    const { lines } = this.sought;
    this.sought.place = place;
    this.answer(`${place + 1} of ${lines.length}: line ${lines[place].number}: ${textOf(lines[place])}`);
    this.goTo(lines[place]);
  }

  /** Lists what a search found; of many lines the hundred with the one that is shown. */
  listFound() {
    const { words, lines, place } = this.sought;
    const count = document.getElementById(\"count\");
    const first = Math.floor(Math.max(place, 0) / LISTED) * LISTED;
    const listed = lines.slice(first, first + LISTED);
    count.hidden = !words;
    count.textContent = lines.length === 1 ? \"1 line found\" : `${lines.length} lines found`;
    if (listed.length < lines.length) count.textContent += `, here ${first + 1} to ${first + listed.length}`;
    const buttons = listed.map((line, at) => this.foundButton(line, first + at));
    document.getElementById(\"found\").replaceChildren(...buttons);
    buttons[place - first]?.scrollIntoView({ block: \"nearest\" });
  }

  foundButton(line, place) {
    const button = document.createElement(\"button\");
    button.textContent = textOf(line);
    if (place === this.sought.place) button.setAttribute(\"aria-current\", \"true\");
    button.addEventListener(\"click\", () => {
      this.goToFound(place);
      this.listFound();
    });
    return button;
  }

  /** Writes beside the lanes what the cursors show. */
  tell() {
    const [one, other] = this.drawing.cursors;
    const place = document.getElementById(\"place\");
    place.textContent = one === null ? `${this.story.ticks} ticks, ${this.story.lines.length} lines` : `tick ${one}`;
    if (one !== null && other !== null) place.textContent = `from tick ${Math.min(one, other)} to ${Math.max(one, other)}: ${Math.abs(other - one)} ticks`;
    const told = this.shown?.message?.lines ?? (this.shown ? [this.shown.line] : []);
    document.getElementById(\"told\").textContent = told.map(textOf).join(\"\\n\");
    const list = document.getElementById(\"states\");
    list.replaceChildren();
    if (one !== null) for (const it of this.story.statesAt(one)) if (!this.view.hidden.has(it.lane.partition)) this.tellState(list, it);
    this.tellRows(one);
  }

  /** Shows the rows of the last state up to a tick, if states are known, without those of partitions that are hidden. */
  tellRows(tick) {
    const [before, rows] = [\"before\", \"rows\"].map((it) => document.getElementById(it));
    const state = tick === null || this.moduleStates === null ? null : this.moduleStates.upTo(tick);
    before.hidden = tick === null || this.moduleStates === null;
    before.textContent = state ? `state before tick ${state.tick}` : \"no state up to this tick\";
    rows.hidden = !state;
    rows.textContent = state ? state.rows.filter((it) => !this.view.hidden.has(it.partition)).map((it) => it.text).join(\"\\n\") : \"\";
  }

  tellState(list, { lane, state, held }) {
    const row = document.createElement(\"tr\");
    const words = [lane.kind === \"mode\" ? lane.partition : lane.name, state === null ? \"\" : held ? `${state}, ${held}` : state];
    for (const word of words) row.insertCell().textContent = word;
    row.className = lane.kind === \"process\" ? \"process\" : \"mode\";
    list.append(row);
  }
}

if (typeof document !== \"undefined\") window.page = new Page(new Story(readTrace(TRACE), WINDOWS, TICKS), ROWS);
if (typeof module !== \"undefined\") module.exports = { readTrace, textOf, States, Stays, Story, View, stepOf, firstMark };
</script>
</body>
</html>
";
