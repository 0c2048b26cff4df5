//! The beginning of the page.

/// From the first line of the page to its heading.
pub(crate) const HEAD: &str = r##"<!DOCTYPE html>
<html lang="en">
<head>
<meta charset="utf-8">
<meta name="viewport" content="width=device-width, initial-scale=1">
<meta http-equiv="Content-Security-Policy"
  content="default-src 'none'; style-src 'unsafe-inline'; script-src 'unsafe-inline'; img-src data:">
<link rel="icon" href="data:,">
<title>The forging cell, entry by entry</title>
<style>
:root {
  color-scheme: light dark;
  --ground: #fbfaf7; --ink: #1c2226; --soft: #56616a; --line: #6b7780; --panel: #f0eee8; --edge: #d5d8d6;
  --machine: #e4e8ea; --bed: #f7f9fa; --steel: #667085; --raw: #ffffff; --forged: #f0b45c;
  --red: #b3201f; --green: #1b7a3d; --mark: #2a5d9f; --held: #cfe0f5; --follow: #8a2f8f; --differ: #00695c;
  --change: #b45309; --halo: #ffe28a;
  --top: 6.6rem; --foot: 6.3rem; --waits: 6.2rem;
}
@media (prefers-color-scheme: dark) {
  :root:not(.printing) {
    --ground: #15191c; --ink: #e6e9ea; --soft: #a9b5bc; --line: #82909a; --panel: #1f2529; --edge: #3a4449;
    --machine: #2a3237; --bed: #3d474e; --steel: #9aa7b5; --raw: #f4f5f3; --forged: #f0b45c;
    --red: #ff7b72; --green: #56c271; --mark: #85b7f5; --held: #233d5c; --follow: #e59be8; --differ: #5fd0c0;
    --change: #ffb454; --halo: #5c4708;
  }
}
* { box-sizing: border-box; }
/* What is scrolled to or focused isn't hidden by the controls. */
html { scroll-padding-bottom: calc(var(--foot) + 0.4rem); }
body { margin: 0; padding: 0 0 var(--foot); background: var(--ground); color: var(--ink);
  font: 16px/1.45 system-ui, sans-serif; }
main { padding: 0.4rem 1rem 0; }
h1 { font-size: 1rem; margin: 0; color: var(--soft); font-weight: 600; height: 1.6rem; overflow: hidden; }
h2 { font-size: 1rem; margin: 1rem 0 0.35rem; }
p { margin: 0; }
#last { height: calc(var(--top) - 2.2rem); overflow-y: auto; }
#last strong { font-size: 1.15rem; line-height: 1.35; display: block; overflow-wrap: anywhere; }
.soft { color: var(--soft); font-size: 0.9rem; margin: 0; }
#why { color: var(--red); font-weight: 600; }
.answer { border: 2px solid var(--red); padding: 0.2rem 0.6rem; font-weight: 600; }
.shown { border: 2px solid var(--mark); padding: 0.1rem 0.6rem; font-size: 0.9rem; }
figure { margin: 0; }
button, select, input[type=number], input[type=search] {
  font: inherit; color: inherit; background: var(--panel); border: 1px solid var(--line); border-radius: 4px;
  padding: 0.2rem 0.55rem; min-height: 2.1rem; min-width: 2.1rem;
}
button[aria-disabled=true] { color: var(--soft); border-color: var(--edge); }
button[aria-pressed=true] { border-color: var(--mark); box-shadow: inset 0 -3px var(--mark); }
input[type=number] { width: 5.6rem; }
input[type=range] { accent-color: var(--mark); }
:focus-visible { outline: 3px solid var(--mark); outline-offset: 2px; }
kbd { border: 1px solid var(--line); border-radius: 3px; padding: 0 0.3em; font: inherit; font-size: 0.9em; }
.off { visibility: hidden; }

/* The drawing, who waits, and the spans, which always are on one screen, and the controls at its lower edge. */
#stage { height: calc(100vh - var(--top) - var(--foot)); height: calc(100dvh - var(--top) - var(--foot));
  min-height: 31rem; display: flex; flex-direction: column; gap: 0.4rem; }
#picture { flex: none; }
#cell { display: block; width: 100%; height: auto; max-height: 44vh; margin: 0 auto; }
#picture figcaption { display: none; }
#waits { flex: none; height: var(--waits); overflow-y: auto; scrollbar-width: thin; }
#waits h2 { margin: 0; }
#waits ul { margin: 0; padding: 0; list-style: none; font-size: 0.85rem; line-height: 1.3; }
#waits li { padding: 0.1rem 0.3rem; border-left: 4px solid var(--edge); margin-bottom: 0.15rem; cursor: default; }
#waits li:hover, #waits li:focus { border-color: var(--ink); background: var(--panel); }
#waits li:focus-visible { outline-offset: -3px; }
#spans { flex: 1; min-height: 0; display: flex; flex-direction: column; }
#foot { position: fixed; z-index: 2; left: 0; right: 0; bottom: 0; height: var(--foot); padding: 0.3rem 1rem;
  background: var(--ground); border-top: 1px solid var(--line); }
#controls, #jumps { display: flex; gap: 0.4rem; align-items: center; height: 2.8rem; white-space: nowrap; }
#controls input[type=range] { flex: 1 1 8rem; min-width: 4rem; height: 2.1rem; margin: 0; }
#play { width: 5rem; }
#followed { flex: 1 1 4rem; min-width: 0; overflow: hidden; text-overflow: ellipsis; }
#jumps > * { flex-shrink: 0; }
#jumps > #followed { flex-shrink: 1; font-size: 0.78rem; line-height: 1.2;
  max-height: 2.4em; white-space: normal; }
#jumps #plate { width: 4.8rem; }
#jumps select { max-width: 8rem; }
#found { width: 4.8rem; overflow: hidden; text-overflow: ellipsis; }
#search { width: 6.6rem; }
@media (min-width: 1200px) and (min-aspect-ratio: 6/5) {
  #stage { display: grid; grid-template-columns: minmax(0, 11fr) minmax(0, 10fr); gap: 0 1.2rem;
    grid-template-rows: minmax(0, 1fr) auto auto; }
  #picture, #waits { grid-column: 1; }
  #picture { align-self: center; }
  #spans { grid-area: 1 / 2 / 3 / 3; }
  #cell { max-height: calc(100vh - var(--top) - var(--foot) - var(--waits) - 6rem); }
  #picture figcaption { display: block; margin-top: 0.3rem; }
  .answer, .shown { grid-column: 1 / -1; }
}
@media (min-width: 1400px) { #stage { grid-template-columns: minmax(0, 1fr) minmax(0, 1fr); } }
@media (max-width: 68rem) {
  :root { --foot: 6.4rem; }
  #foot { position: static; height: auto; border: 0; padding: 0; }
  #controls { position: fixed; z-index: 2; left: 0; right: 0; bottom: 0; height: var(--foot); padding: 0.3rem 0.5rem;
    background: var(--ground); border-top: 1px solid var(--line); flex-wrap: wrap; align-content: space-around;
    justify-content: space-between; }
  #controls input[type=range] { flex: 1 1 100%; }
  #jumps { height: auto; flex-wrap: wrap; margin: 0.6rem 0; }
  #jumps > #followed { flex: 1 1 100%; font-size: 0.9rem; max-height: none; height: 2.9em; overflow-y: auto; }
}
@media (max-width: 40rem) {
  :root { --top: 8.4rem; --waits: 5.2rem; }
  main { padding: 0.3rem 0.5rem 0; }
  #controls .word { display: none; }
  #controls { gap: 0.2rem; }
  #controls button { min-width: 2.5rem; min-height: 2.6rem; padding: 0.1rem; }
  #controls #play { width: 4rem; }
  #controls input[type=number] { width: 4.6rem; min-height: 2.6rem; padding: 0.1rem 0.3rem; }
  #controls .speed { display: none; }
}

/* Low and not wide, as each of two side by side: more room for the rows. */
@media (min-width: 41rem) and (max-width: 1199px) and (min-height: 34rem) and (max-height: 56rem) {
  :root { --waits: 4.2rem; }
}
@media (min-width: 41rem) and (max-width: 1199px) and (min-height: 49rem) and (max-height: 56rem) {
  #cell { max-height: 40vh; }
}
@media (max-height: 34rem) {
  #stage { height: auto; }
  #cell { max-height: 80vh; }
  #rows { flex: none; height: 24rem; }
}
@media (max-height: 34rem) and (min-width: 36rem) and (max-width: 68rem) {
  :root { --foot: 3.2rem; }
  #controls { flex-wrap: nowrap; }
  #controls input[type=range] { flex: 1 1 4rem; }
  #controls .word, #controls .speed { display: none; }
}

/* The drawing. */
#cell text { fill: var(--ink); font: 13px system-ui, sans-serif; }
#cell .small { font-size: 12.5px; fill: var(--soft); }
#cell .name { font-weight: 600; }
#cell .body { fill: var(--machine); stroke: var(--ink); stroke-width: 2; }
#cell .bed { fill: var(--bed); stroke: var(--line); stroke-width: 1.5; }
#cell .failed .body { stroke: var(--red); stroke-width: 4; stroke-dasharray: 9 4; }
#cell .sign { fill: var(--red); font-weight: 700; font-size: 12px; }
#cell .place { fill: none; stroke: var(--line); stroke-dasharray: 2 3; }
#cell .plate .tile { fill: var(--raw); stroke: #000000; stroke-width: 1.5; }
#cell .plate.forged .tile { fill: var(--forged); }
#cell .plate .halo { display: none; fill: none; stroke: var(--follow); stroke-width: 5; }
#cell .plate.followed .halo { display: inline; }
#cell .plate text { fill: #111111; text-anchor: middle; dominant-baseline: central; font-weight: 600;
  font-size: min(15px, calc(70px / var(--letters))); }
#cell .zone .area { pointer-events: all; fill: none; stroke: var(--line); stroke-dasharray: 4 3; stroke-width: 1.5; }
#cell .zone.held .area { fill: var(--held); stroke: var(--mark); stroke-width: 2; stroke-dasharray: none; }
#cell .zone .pill { fill: var(--ground); stroke: var(--mark); }
#cell .zone.held .pill { fill: var(--mark); }
#cell .zone.held .name { fill: var(--ground); }
#cell .zone .name { text-anchor: middle; font-size: 12px; }
#cell .zone .small { font-size: 12px; fill: var(--ink); }
#cell .zone .middled { text-anchor: middle; }
#cell .zone.followed .area { stroke: var(--follow); stroke-width: 4; }
#cell .machine.followed .name { fill: var(--follow); text-decoration: underline; }
#cell .arm { stroke: var(--steel); stroke-width: 10; }
#cell .hand { fill: var(--raw); stroke: var(--ink); stroke-width: 2; }
#cell .arm-name { font-size: 12px; text-anchor: middle; dominant-baseline: central; fill: #111111; }
#cell .arm-disc { fill: var(--raw); stroke: var(--ink); stroke-width: 1.5; }
#cell .failed .arm { stroke: var(--red); }
#cell .ghost { stroke: var(--mark); stroke-width: 3; stroke-dasharray: 5 6; fill: none; }
#cell .flow { stroke: var(--mark); stroke-width: 3; fill: none; }
#cell .pointer { fill: var(--ink); }
#cell .pointer-aim { fill: none; stroke: var(--mark); stroke-width: 2; stroke-dasharray: 3 3; }
#cell .rail { stroke: var(--steel); stroke-width: 2; fill: none; }
#cell .bead { fill: var(--ink); stroke: var(--ink); stroke-width: 2; }
#cell .aim { fill: var(--ground); stroke: var(--mark); stroke-width: 2.5; }
#cell .failed .ghost, #cell .failed .aim, #cell .failed .flow, #cell .failed .pointer-aim { stroke: var(--red); }
#cell .light { stroke: var(--ink); stroke-width: 2; }
#cell .light.red { fill: var(--red); }
#cell .light.green { fill: var(--green); }
#cell .part { cursor: pointer; outline: none; }
#cell .hit { fill: none; pointer-events: visible; }
#cell .arm, #cell .hand, #cell .ghost, #cell .flow { pointer-events: none; }
#cell .part .ring { fill: none; stroke: none; }
#cell .part:focus-visible .ring { stroke: var(--mark); stroke-width: 3; }
/* What the last entry changed: a frame, and words as under a marker. */
#cell .acting .body, #cell .changed .area, #cell .changed .light, #cell .changed .tile, #cell .place.changed,
#cell .bead.changed, #cell .aim.changed, #cell .hand.changed, #cell .bed.changed { stroke: var(--change);
  stroke-width: 4; }
#cell .arm.changed, #cell .ghost.changed, #cell .flow.changed, #cell .pointer-aim.changed { stroke: var(--change); }
#cell .pointer.changed { fill: var(--change); }
#cell .flow.changed, #cell .ghost.changed { stroke-width: 4; }
#cell .place.changed { stroke-dasharray: none; }
#cell .acting > .name, #cell text.changed, #cell .changed > text { paint-order: stroke; stroke: var(--halo);
  stroke-width: 7px; stroke-linejoin: round; fill: var(--ink); }
#cell .plate.changed > text { stroke: none; fill: #111111; }
#cell .sign.changed { fill: var(--red); }
#cell .zone.changed .pill { stroke: var(--change); stroke-width: 3; }
#cell .zone.held.changed > .name { stroke: none; fill: var(--ground); }
#cell .failed.acting .body { stroke: var(--red); stroke-width: 6; }
/* What a refusal names, and in what two journals differ. */
#cell .in-the-way .body, #cell .light.in-the-way, #cell .zone.in-the-way .area, #cell .in-the-way .light {
  stroke: var(--red); stroke-width: 6; stroke-dasharray: none; }
#cell .plate.in-the-way .halo { display: inline; visibility: visible; stroke: var(--red); }
#cell .in-the-way > .name, #cell .axis.in-the-way { fill: var(--red); font-weight: 600; text-decoration: underline; }
/* For what the machine waits at whose line one points. */
#cell .awaited .body, #cell .light.awaited, #cell .zone.awaited .area, #cell .awaited .light { stroke: var(--ink);
  stroke-width: 6; stroke-dasharray: none; }
#cell .plate.awaited .halo { display: inline; visibility: visible; stroke: var(--ink); }
#cell .awaited > .name, #cell .axis.awaited { font-weight: 700; text-decoration: underline; }
#cell .differs .body, #cell .zone.differs .area, #cell .light.differs, #cell .differs .light, #cell .differs .tile,
#cell .place.differs { stroke: var(--differ); stroke-width: 5; stroke-dasharray: 2 2; }
#cell .bead.differs, #cell .arm.differs, #cell .hand.differs, #cell .bed.differs { stroke: var(--differ); }
#cell .pointer.differs { fill: var(--differ); }
#cell text.differs { fill: var(--differ); text-decoration: underline double; }
#moving-line { display: none; font-weight: 600; height: 1.45em; overflow: hidden; text-overflow: ellipsis;
  white-space: nowrap; }

/* The spans. */
#spans-head { display: flex; gap: 0.35rem; align-items: center; height: 2.2rem; }
#spans-head h2 { margin: 0; flex: 1; overflow: hidden; text-overflow: ellipsis; white-space: nowrap; }
#spans-head button { min-height: 1.9rem; min-width: 1.9rem; padding: 0 0.5rem; }
#strip, #lanes { position: relative; }
#strip { height: 30px; margin: 0.2rem 0 0 var(--names); cursor: pointer; touch-action: none; }
#whole { width: 100%; height: 30px; display: block; background: var(--panel); }
#window { position: absolute; top: 0; bottom: 0; border: 1px solid var(--ink); pointer-events: none; }
#here { position: absolute; top: 0; bottom: 0; width: 3px; margin-left: -1px; background: var(--mark);
  pointer-events: none; }
#lanes { --names: 9rem; flex: 1; min-height: 0; display: flex; flex-direction: column; overflow: hidden; }
#spans { --names: 9rem; }
#ruler { height: 18px; margin-left: var(--names); display: block; flex: none; }
#rows { flex: 1; min-height: 0; overflow-y: auto; overflow-x: hidden; position: relative; scrollbar-width: thin; }
#names { position: absolute; left: 0; top: 0; width: var(--names); }
#names button { position: absolute; left: 0; width: calc(100% - 4px); min-height: 0; padding: 0 0.2rem; border: 0;
  background: none; text-align: left; font-size: 0.8rem; line-height: 1; overflow: hidden; text-overflow: ellipsis;
  white-space: nowrap; cursor: pointer; border-radius: 0; }
#names button.followed { color: var(--follow); font-weight: 700; text-decoration: underline; }
#names button.acting { background: var(--halo); }
#names button:focus-visible { outline-offset: -3px; }
#bars { position: absolute; left: var(--names); top: 0; display: block; cursor: crosshair; touch-action: pan-y; }
#now { position: absolute; top: 0; bottom: 0; left: var(--names); width: 3px; border: 1px solid var(--mark);
  border-width: 0 1px; pointer-events: none; }
#now::before { content: ""; position: absolute; inset: 0; background: var(--mark); opacity: 0.35; }
#now.fault { border-color: var(--red); }
#now.fault::before { background: var(--red); }
#under { flex: none; height: 2rem; font-size: 0.8rem; line-height: 1.25; overflow: hidden; }
@media (max-width: 40rem) { #lanes, #spans { --names: 6rem; } #spans-head h2 { font-size: 0.9rem; } }

/* What stands below. */
#facts { columns: 24rem 2; column-gap: 2rem; margin: 0; }
#facts div { display: flex; gap: 0.5rem; border-top: 1px solid var(--edge); padding: 0.25rem 0; break-inside: avoid; }
#facts dt { flex: 0 0 6.5rem; color: var(--soft); }
#facts dd { margin: 0; overflow-wrap: anywhere; }
#events { margin: 0; padding: 0; list-style: none; max-height: 16rem; overflow-y: auto; }
#events button { border: 0; background: none; text-align: left; width: 100%; overflow-wrap: anywhere; }
#events button.current { background: var(--halo); }
dialog { max-width: 54rem; color: var(--ink); background: var(--ground); border: 2px solid var(--line); }
dialog dl { display: grid; grid-template-columns: max-content 1fr; gap: 0.25rem 1rem; margin: 0.5rem 0; }
dialog dd { margin: 0; }
dialog h2 { margin-top: 0; }
dialog p { margin-top: 0.5rem; }

/* Larger words in the drawing: fewer of them, and some elsewhere. */
.large #cell text { font-size: 28px; paint-order: stroke; stroke: var(--ground); stroke-width: 5px;
  stroke-linejoin: round; }
.large #cell .sign { font-size: 26px; }
.large #cell .axis, .large #cell .aside, .large #cell .stop { display: none; }
.large #cell .plate text { stroke: none; font-size: min(24px, calc(70px / var(--letters))); }
.large #cell .arm-name { font-size: 17px; stroke: none; }
.large #cell .arm-disc { r: 10px; }
.large #cell .zone .name { font-size: 20px; stroke: none; }
.large #cell .zone .pill { transform-box: fill-box; transform-origin: center; transform: scale(1.3, 1.35); }
.large #cell .zone .small { font-size: 24px; }
.large #cell .zone .free { display: none; }
.large #cell #holder-0, .large #cell #holder-1, .large #cell #holder-4 { transform: translateY(-3px); }
.large #cell #holder-2, .large #cell #holder-3 { transform: translate(56px, 5px); }
.large #cell #counts text { font-size: 24px; }
.large #counts .name { transform: translateX(10px); }
.large #counts .second { transform: translateY(10px); }
.large #counts .name.second { transform: translate(10px, 10px); }
.large #counts .third { transform: translateY(20px); }
.large #counts .name.third { transform: translate(10px, 20px); }
.large #counts .waiting { transform: translate(-602px, 346px); }
.large #counts .waiting.second { transform: translate(-602px, 358px); }
.large #counts .name.waiting { transform: translate(-508px, 346px); }
.large #counts .name.waiting.second { transform: translate(-508px, 358px); }
.large #machine-0 .name { transform: translateY(8px); }
.large #machine-5 .name { transform: translate(-14px, 8px); }
.large #cell #lamp-word-0, .large #cell #lamp-word-1 { transform: translate(-28px, 6px); }
.large #moving-line { display: block; }
.back-row #last strong { font-size: 1.9rem; }
.back-row #why { font-size: 1.4rem; }
.back-row .soft, .back-row #facts { font-size: 1.1rem; }
.back-row #names button { font-size: 1rem; }
@media (min-width: 40rem) { .back-row #lanes, .back-row #spans { --names: 11.2rem; } }
.back-row #waits ul { font-size: 1.2rem; }
.back-row #under { height: 2.5rem; font-size: 1rem; }
.back-row { --top: 9rem; --waits: 7.4rem; }
.back-row #picture figcaption { display: none; }

@media print {
  body { padding: 0; }
  h1 { height: auto; }
  #last { height: auto; }
  #foot, #strip, #spans-head button, #events-part, #keys, #moving-line, dialog, #under { display: none; }
  #stage { height: auto; min-height: 0; display: block; }
  #waits { height: auto; }
  #picture, #spans, #facts div { break-inside: avoid; }
  #cell { max-height: 7.4cm; }
  #last, h1 { font-size: 0.9rem; }
  #names button { font-size: 0.7rem; }
  h2 { margin: 0.5rem 0 0.2rem; }
  #facts { columns: 2; font-size: 0.7rem; line-height: 1.3; }
  #facts div { padding: 0; }
  #facts dt { flex-basis: 4.5rem; }
  #spans, #lanes { display: block; }
  #rows { height: var(--all-rows); overflow: hidden; }
  #cell, canvas { print-color-adjust: exact; -webkit-print-color-adjust: exact; }
}
.ready .chart { display: none; }
</style>
<noscript><style>
#last, #picture, #waits, #foot, #spans, #below { display: none; }
#stage { height: auto; min-height: 0; display: block; }
body { padding: 0; }
.still { overflow-x: auto; }
.still svg { display: block; width: 100%; min-width: 34rem; max-width: 60rem; height: auto; }
</style></noscript>
</head>
<body>
<main>
<h1>The forging cell, entry by entry</h1>
"##;
