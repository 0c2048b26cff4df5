//! What stands around two pages in one.

/// From the first line of the page to the first journal's name. The script stands before the frames, since these tell
/// at once where they are.
pub(crate) const BESIDE_HEAD: &str = r##"<!DOCTYPE html>
<html lang="en">
<head>
<meta charset="utf-8">
<meta name="viewport" content="width=device-width, initial-scale=1">
<meta http-equiv="Content-Security-Policy"
  content="default-src 'none'; style-src 'unsafe-inline'; script-src 'unsafe-inline'; img-src data:">
<link rel="icon" href="data:,">
<title>Two journals of the forging cell, side by side</title>
<style>
:root { color-scheme: light dark; --ground: #fbfaf7; --ink: #1c2226; --line: #6b7780; --panel: #f0eee8;
  --mark: #2a5d9f; --differ: #00695c; }
@media (prefers-color-scheme: dark) {
  :root { --ground: #15191c; --ink: #e6e9ea; --line: #82909a; --panel: #1f2529; --mark: #85b7f5; --differ: #5fd0c0; }
}
* { box-sizing: border-box; }
body { margin: 0; height: 100vh; display: flex; flex-direction: column; background: var(--ground);
  color: var(--ink); font: 16px/1.45 system-ui, sans-serif; }
#both { display: flex; flex-wrap: wrap; gap: 0.3rem 0.5rem; align-items: center; padding: 0.3rem 1rem;
  border-bottom: 1px solid var(--line); }
h1 { font-size: 1.1rem; margin: 0 0.6rem 0 0; }
button { font: inherit; color: inherit; background: var(--panel); border: 1px solid var(--line); border-radius: 4px;
  padding: 0.2rem 0.6rem; min-height: 2.1rem; }
button[aria-disabled=true] { color: var(--line); }
#play-both { width: 6.5rem; }
#difference { color: var(--differ); font-weight: 600; }
:focus-visible { outline: 3px solid var(--mark); outline-offset: 2px; }
main { flex: 1; min-height: 0; display: grid; grid-template-columns: 1fr 1fr; grid-template-rows: auto 1fr;
  grid-auto-flow: column; }
h2 { font-size: 1rem; margin: 0; padding: 0.15rem 1rem; background: var(--panel); }
iframe { width: 100%; height: 100%; border: 0; }
h2 ~ h2, h2 ~ h2 + iframe { border-left: 2px solid var(--line); }
@media (max-width: 56rem) {
  body { height: auto; }
  #both { position: sticky; top: 0; background: var(--ground); padding: 0.3rem 0.5rem; }
  main { display: block; }
  iframe { height: 92vh; display: block; }
  h2 ~ h2, h2 ~ h2 + iframe { border-left: 0; }
}
@media print {
  body { height: auto; display: block; }
  #both button, #both label { display: none; }
  main { display: block; }
  iframe { height: 23cm; break-inside: avoid; break-after: page; }
  #both { padding: 0 1rem; }
  h2 { break-after: avoid; }
}
</style>
<noscript><style>#both button, #both label { display: none; }</style></noscript>
<script>
"use strict";
(() => {
  // Where each of the two pages is: its entry, its first and its last one, as it tells.
  const places = new Map();
  const el = (id) => document.getElementById(id);
  const all = () => [...document.querySelectorAll("iframe")];
  const frames = () => all().map((frame) => frame.contentWindow);
  const send = (frame, entry) => frame.postMessage({ entry }, "*");
  const sendAll = (entry) => frames().forEach((frame) => send(frame, Math.max(0, entry)));
  const farthest = () => Math.max(...[...places.values()].map(({ entry }) => entry));
  const starts = () => Math.min(...[...places.values()].map(({ first }) => first));
  const ends = () => Math.max(...[...places.values()].map(({ last }) => last));
  // The address tells the entry once both rest there.
  let resting;
  const keep = (entry) => {
    clearTimeout(resting);
    resting = setTimeout(() => history.replaceState(null, "", "#entry=" + entry), 100);
  };
  const go = (entry) => {
    if (places.size < 2) return;
    const bounded = Math.min(ends(), Math.max(starts(), entry));
    sendAll(bounded);
    keep(bounded);
  };
  const entryIn = (address) => Number(/#entry=(\d+)$/.exec(address)?.[1] ?? 0);

  // The rows of both, where each has some, and the entries in which they differ: another record, or none.
  let rows = [];
  let differing = [];
  const readRows = () => {
    let within = "";
    rows = all().map((frame) => {
      const data = frame.contentDocument?.getElementById("journal")?.textContent;
      const journal = data === undefined ? { first: 0, entries: 0, rows: [] } : JSON.parse(data);
      const list = Array(journal.first).concat(journal.rows);
      if (journal.first > 0 || list.length <= journal.entries) within = " that are shown";
      return list;
    });
    const longest = Math.max(...rows.map((list) => list.length));
    for (let i = Math.max(1, starts()); i < longest; i += 1)
      if (rows[0][i]?.[12] !== rows[1][i]?.[12]) differing.push(i);
    el("difference").textContent = differing.length === 0 ? `No difference in their good entries${within}`
      : "First difference: entry " + differing[0];
    el("to-difference").setAttribute("aria-disabled", String(differing.length === 0));
    frames().forEach((frame) => frame.postMessage({ differing }, "*"));
  };
  // Each page marks in what its state differs from that of the other one.
  const compare = () => {
    frames().forEach((frame, side) => {
      const place = places.get(frames()[1 - side]);
      const list = rows[1 - side] ?? [];
      const other = place === undefined ? null : list[Math.min(place.entry, list.length - 1)] ?? null;
      frame.postMessage({ other }, "*");
    });
  };

  // Both play in step, by one clock.
  let timer = null;
  const isTogether = () => el("together").checked;
  const pause = () => {
    clearInterval(timer);
    timer = null;
    el("play-both").textContent = "Play both";
    el("play-both").setAttribute("aria-pressed", "false");
  };
  const play = () => {
    if (places.size < 2) return;
    if (farthest() === ends()) go(0);
    clearInterval(timer);
    timer = setInterval(() => {
      go(farthest() + 1);
      if (farthest() + 1 >= ends()) pause();
    }, Number(all()[0].contentDocument?.getElementById("speed")?.value ?? 333));
    el("play-both").textContent = "Pause both";
    el("play-both").setAttribute("aria-pressed", "true");
  };
  const toggle = () => (timer === null ? play() : pause());
  const stepTo = (entry) => {
    if (timer !== null) pause();
    go(entry);
  };

  // A page tells where it is: the other one goes there too, unless each is stepped alone.
  window.addEventListener("message", ({ source, data }) => {
    if (!frames().includes(source)) return;
    if (data.toggle) {
      if (isTogether()) toggle();
      else source.postMessage({ toggle: true }, "*");
      return;
    }
    const isNew = !places.has(source);
    places.set(source, data);
    if (isNew && places.size === 2) {
      readRows();
      go(entryIn(location.hash));
    }
    compare();
    if (isNew || data.isAsked) return;
    if (timer !== null) pause();
    keep(data.entry);
    if (isTogether()) frames().filter((frame) => frame !== source).forEach((frame) => send(frame, data.entry));
  });
  const moves = {
    ArrowLeft: () => stepTo(farthest() - 1), ArrowRight: () => stepTo(farthest() + 1),
    PageUp: () => stepTo(farthest() - 1), PageDown: () => stepTo(farthest() + 1),
    Home: () => stepTo(0), End: () => stepTo(ends()), " ": toggle,
  };
  const buttons = { play: toggle, difference: () => { if (differing.length > 0) stepTo(differing[0]); } };
  window.addEventListener("keydown", (event) => {
    if (event.ctrlKey || event.metaKey || event.altKey || moves[event.key] === undefined) return;
    if (event.key === " " && event.target.closest("button, input") !== null) return;
    event.preventDefault();
    moves[event.key]();
  });
  window.addEventListener("hashchange", ({ newURL }) => stepTo(entryIn(newURL)));
  window.addEventListener("click", ({ target }) => (moves[target.dataset?.move] ?? buttons[target.dataset?.act])?.());
})();
</script>
</head>
<body>
<header id="both">
<h1>Two journals</h1>
<button type="button" data-move="Home">Both to the start</button>
<button type="button" data-move="ArrowLeft">Both back</button>
<button type="button" data-act="play" id="play-both" aria-pressed="false">Play both</button>
<button type="button" data-move="ArrowRight">Both forward</button>
<button type="button" data-move="End">Both to the end</button>
<button type="button" data-act="difference" id="to-difference" aria-disabled="true">To the first difference</button>
<span id="difference" role="status"></span>
<label><input type="checkbox" id="together" checked> A step in one is a step in both</label>
</header>
<main>
<h2>The journal: "##;

/// From the first journal's name to its page, which stands in an attribute.
pub(crate) const BESIDE_FRAME: &str = r##"</h2>
<iframe title="The journal" srcdoc=""##;

/// From the first page to the other journal's name.
pub(crate) const BESIDE_MIDDLE: &str = r##""></iframe>
<h2>The other one, of --beside: "##;

/// From the other journal's name to its page.
pub(crate) const BESIDE_OTHER: &str = r##"</h2>
<iframe title="The other journal" srcdoc=""##;

/// From the second page to the end.
pub(crate) const BESIDE_END: &str = r##""></iframe>
</main>
</body>
</html>
"##;
