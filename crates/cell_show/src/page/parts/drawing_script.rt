//! The first part of the page's script: it reads the data, and makes and updates the drawing.

/// From the end of the data on.
pub(crate) const DRAWING_SCRIPT: &str = r##"
]}
</script>
<script>
"use strict";
(() => {
  const journal = JSON.parse(document.getElementById("journal").textContent);
  const { machines, stations, axes, parts, movers, places, owners, visitors, poses, ways, zones, lights, geometry,
    first, entries, waits, refused } = journal;
  // The row after each number of entries, from the first one that is shown on.
  const rows = Array(first).concat(journal.rows);
  // The entries are good up to this one. After it comes a step for the record that is refused or can't be read, if
  // there is one: it leaves what the last good entry left.
  const good = rows.length - 1;
  if (refused !== null) rows.push([...rows[good].slice(0, 11), ...refused.slice(3)]);
  const last = rows.length - 1;
  // What each machine waits for in each state: what it wants, why that is refused, and the part of the drawing; or
  // nothing. The data have 0 where that is as in the state before.
  const waiting = Array(first);
  for (let i = first; i <= last; i += 1) {
    const before = i === first ? machines.map(() => []) : waiting[i - 1];
    const cells = i > good || waits[i - first].every((cell) => cell === 0) ? null : waits[i - first];
    waiting.push(cells === null ? before : cells.map((cell, m) => (cell === 0 ? before[m] : cell)));
  }
  const actors = [...machines, "operator"];
  const known = new Map();
  const el = (id) => {
    if (!known.has(id)) known.set(id, document.getElementById(id));
    return known.get(id);
  };
  const machineOfAxis = movers.map((name) => machines.indexOf(name));
  const faults = ["declared", "stop_asked", "quarantined", "repaired"];

  const read = (i) => {
    const [plates, forged, at, going, holders, failed, asked, lamps, expected, quarantine, totals, actor, record,
      sentence] = rows[i];
    return { plates, forged, at, going, holders, failed, asked, lamps, expected, quarantine, totals, actor, record,
      sentence };
  };
  const named = (names, letter) => (letter === "-" ? null : names[letter.charCodeAt(0) - 97]);
  const kindOf = (i) => rows[i][12].split(",", 1)[0];
  const isFailed = (state, a) => state.failed[machineOfAxis[a]] === "1";
  const isGoing = (state, a) => state.going[a] !== "-";
  const plateText = (state, s) => state.plates[s] + (state.forged[s] === "1" ? "*" : "");
  const goingText = (state, a) => (isGoing(state, a) ? " \u2192 " + named(ways, state.going[a]) : "");
  const axisText = (state, a) => named(poses, state.at[a]) + goingText(state, a);
  const sentenceOf = (i) => {
    if (i === 0) return "The opening: nothing is booked.";
    if (i <= good) return rows[i][13];
    return rows[i][13] === "" ? "Here the journal stops." : "Refused: " + rows[i][13];
  };
  const placeOf = (i) => {
    const record = rows[i][12] === "" ? "" : ` \u00B7 ${rows[i][12]}`;
    const time = hasTimes && i > first && i <= good ? ` \u00B7 ends at ${timeOf(i)}` : "";
    return (i <= good ? `Entry ${i} of ${entries}` : `Record ${refused[0]}; the good entries end at ${good}`) + record
      + time;
  };
  const listed = (texts) => (texts.length === 0 ? "none" : texts.join(", "));
  const svg = (name, attributes, text) => {
    const node = document.createElementNS("http://www.w3.org/2000/svg", name);
    Object.entries(attributes).forEach(([key, value]) => node.setAttribute(key, value));
    if (text !== undefined) node.textContent = text;
    return node;
  };

  // The drawing is made of the places that the pictures have. A pose is named by its letter, as in the rows.
  const point = ([x, y]) => ({ x, y });
  const robot = point(geometry.centre);
  const spots = geometry.stations.map(point);
  const turnLetters = "hijklm";
  const armOf = (arm, turn) => geometry.arms[turnLetters.indexOf(turn)][arm];
  const tip = (arm, turn, reach) => point(armOf(arm, turn)[reach === "o" ? 1 : 0]);
  const angleOf = (arm, turn) => {
    const end = tip(arm, turn, "o");
    return (Math.atan2(end.y - robot.y, end.x - robot.x) * 180) / Math.PI;
  };
  const lengthOf = (reach) => Math.hypot(tip(0, "h", reach).x - robot.x, tip(0, "h", reach).y - robot.y);
  const armTwoBehind = angleOf(1, "h") - angleOf(0, "h");
  // The heights of the table and of the presses, by axis and pose.
  const heights = {
    1: { d: geometry.lift[0], e: geometry.lift[1] },
    6: { p: geometry.press1[0], q: geometry.press1[1], r: geometry.press1[2] },
    7: { p: geometry.press2[0], q: geometry.press2[1], r: geometry.press2[2] },
  };
  const heightAxes = [1, 6, 7];
  const bedStations = { 1: 2, 6: 5, 7: 6 };

  const floor = el("floor");
  const box = ([x, y, width, height], attributes, more = 0) => svg("rect", { x: x - more, y: y - more,
    width: width + 2 * more, height: height + 2 * more, ...attributes });
  const part = (id, kind, ring) => {
    const group = svg("g", { id, class: "part " + kind, tabindex: 0, role: "button" });
    group.append(svg("title", {}), ring);
    return group;
  };
  const lineOf = (m, line) => ({ x: geometry.names[m][0], y: geometry.names[m][1] + 17 * line });
  // The line below its machine's name in which an axis is told, and the one in which it is told that it stopped.
  const axisLines = [1, 1, 2, 3, 1, 2, 1, 1, 1];
  const stopLines = [2, 4, 5, 2, 2, 2];
  const makeMachine = (m) => {
    const [x, y, width] = geometry.bodies[m];
    const round = m === 1 || m === 2;
    const group = part("machine-" + m, "machine", box(geometry.bodies[m], { class: "ring", rx: 8 }, 7));
    group.append(round
      ? svg("circle", { class: "body", cx: x + width / 2, cy: y + width / 2, r: width / 2 })
      : box(geometry.bodies[m], { class: "body", rx: 4 }));
    return group;
  };
  const makeWords = (m) => {
    const group = el("machine-" + m);
    group.append(svg("text", { class: "name", ...lineOf(m, 0) }, machines[m]),
      svg("text", { class: "sign", id: "sign-" + m, ...lineOf(m, 0) }),
      svg("text", { class: "sign stop", id: "stop-" + m, ...lineOf(m, stopLines[m]) }));
    axes.forEach((_, a) => {
      if (machineOfAxis[a] === m)
        group.append(svg("text", { class: "small axis", id: "axis-" + a, ...lineOf(m, axisLines[a]) }));
    });
    if (m === 1 || m === 2)
      group.append(svg("text", { class: "small axis", id: "going-" + (m + 1), ...lineOf(m, m === 1 ? 3 : 4) }));
  };
  const makeBed = (axis) => {
    const { x, y } = spots[bedStations[axis]];
    el("machine-" + machineOfAxis[axis]).append(axis === 1
      ? svg("circle", { class: "bed", id: "bed-1", cx: x, cy: y, r: 30 })
      : svg("rect", { class: "bed", id: "bed-" + axis, rx: 4 }));
  };
  const makeGauge = (axis) => {
    const marks = Object.values(heights[axis]).map(([spot]) => `M${spot[0] - 9} ${spot[1]}h18`).join("");
    const ends = Object.values(heights[axis]).map(([spot]) => spot[1]);
    const x = Object.values(heights[axis])[0][0][0];
    el("machine-" + machineOfAxis[axis]).append(
      svg("path", { class: "rail", d: `${marks}M${x} ${Math.min(...ends)}V${Math.max(...ends)}` }),
      svg("line", { class: "ghost", id: "way-" + axis, x1: x, x2: x }),
      svg("circle", { class: "aim", id: "aim-" + axis, cx: x, r: 6 }),
      svg("circle", { class: "bead", id: "bead-" + axis, cx: x, r: 6 }));
  };
  const makeFlow = (id, from, dest) => svg("line", { class: "flow", id, x1: spots[from].x + 26, x2: spots[dest].x - 26,
    y1: spots[from].y, y2: spots[dest].y, "marker-end": "url(#head)" });
  const makePointer = (id, kind) => {
    const { x, y } = spots[2];
    return svg("path", { class: kind, id, d: `M${x + 27} ${y - 11}L${x + 41} ${y}L${x + 27} ${y + 11}Z` });
  };
  const makePlace = (s) => svg("rect", { class: "place", id: "place-" + s, x: spots[s].x - 23, y: spots[s].y - 13,
    width: 46, height: 26, rx: 5 });
  const makePlate = (s) => {
    const tile = { x: -23, y: -13, width: 46, height: 26, rx: 5 };
    const around = { x: -28, y: -18, width: 56, height: 36, rx: 8 };
    const group = part("plate-" + s, "plate", svg("rect", { class: "ring", x: -31, y: -21, width: 62, height: 42,
      rx: 10 }));
    group.append(svg("rect", { class: "halo", ...around }), svg("rect", { class: "tile", ...tile }), svg("text", {}));
    return group;
  };
  const makeZone = (z) => {
    const [x, y] = geometry.marks[z];
    const [holderX, holderY] = geometry.holders[z];
    const group = part("zone-" + z, "zone", box(geometry.zones[z], { class: "ring" }, 4));
    const lies = z === 2 || z === 3;
    group.append(box(geometry.zones[z], { class: "area" }),
      svg("rect", { class: "pill", x: x - 13, y: y - 9, width: 26, height: 18, rx: 9 }),
      svg("text", { class: "name", x, y: y + 4 }, zones[z].split(" ")[1]),
      svg("text", { class: lies ? "small" : "small middled", id: "holder-" + z, x: lies ? holderX : x, y: holderY }));
    return group;
  };
  const makeLamp = (b) => {
    const [x, y] = geometry.lights[b];
    const group = part("lamp-" + b, "lamp", box([x - 12, y - 12, 90, 24], { class: "ring", rx: 6 }));
    group.append(svg("circle", { class: "light", cx: x, cy: y, r: 9 }),
      svg("text", { class: "aside", x: x + 15, y: y + 4 }, "light"),
      svg("text", { id: "lamp-word-" + b, x: x + 49, y: y + 4 }));
    return group;
  };
  const makeArms = () => {
    const group = el("machine-2");
    [0, 1].forEach((arm) => group.append(
      svg("line", { class: "ghost", id: "arm-aim-" + arm, x1: robot.x, y1: robot.y })));
    [0, 1].forEach((arm) => group.append(
      svg("line", { class: "arm", id: "arm-" + arm, x1: robot.x, y1: robot.y }),
      svg("circle", { class: "hand", id: "hand-" + arm, r: 8 })));
    group.append(group.querySelector(".body"));
    [0, 1].forEach((arm) => group.append(svg("circle", { class: "arm-disc", id: "arm-disc-" + arm, r: 8 }),
      svg("text", { class: "arm-name", id: "arm-name-" + arm }, arm + 1)));
  };
  const makeDrawing = () => {
    [0, 5, 3, 4, 1].forEach((m) => floor.append(makeMachine(m)));
    el("machine-0").append(makePlace(0), makePlace(1));
    el("machine-5").append(makePlace(7), makePlace(8));
    heightAxes.forEach((axis) => makeBed(axis));
    [2, 5, 6].forEach((s) => el("machine-" + machines.indexOf(places[s])).append(makePlace(s)));
    heightAxes.forEach((axis) => makeGauge(axis));
    el("machine-1").append(makePointer("pointer-aim", "pointer-aim"), makePointer("pointer", "pointer"));
    zones.forEach((_, z) => floor.append(makeZone(z)));
    [0, 1, 2, 5, 6, 7, 8].forEach((s) => floor.append(makePlate(s)));
    floor.append(makeFlow("flow-0b", 0, 1), makeFlow("flow-0c", 1, 2), makeFlow("flow-8b", 7, 8));
    floor.append(makeMachine(2));
    makeArms();
    [3, 4].forEach((s) => floor.append(makePlate(s)));
    machines.forEach((_, m) => makeWords(m));
    lights.forEach((_, b) => floor.append(makeLamp(b)));
  };
  makeDrawing();

  // Where a part is hit, besides its shapes: in a square of 24 pixels, whatever the width. It begins so many of its
  // sides to the right of a point and below it, so that no square lies over another. The robot is hit as far as its
  // hands are when they are in; arms and arrows, which cross other parts, aren't hit.
  const squares = [];
  const addHit = (id, hit) => el(id).lastChild.before(hit);
  const addSquare = (id, { x, y }, across, down) => {
    squares.push({ hit: svg("rect", { class: "hit", transform: `translate(${x} ${y})` }), across, down });
    addHit(id, squares.at(-1).hit);
  };
  const makeHits = () => {
    stations.forEach((_, s) => addSquare("plate-" + s, { x: 0, y: 0 }, -0.5, -0.5));
    [1, 3, 4].forEach((m) => {
      const [x, y] = geometry.names[m];
      addSquare("machine-" + m, { x, y: y - 6 }, 0, -0.5);
    });
    addHit("machine-2", svg("circle", { class: "hit", cx: robot.x, cy: robot.y, r: lengthOf("n") }));
    [0, 1, 4].forEach((z) => {
      const [x, y, width] = geometry.zones[z];
      addSquare("zone-" + z, { x: x + width - 14, y: y - 2 }, -0.5, -1);
    });
    addSquare("zone-2", tip(0, "i", "n"), -1.5, -1.5);
    addSquare("zone-3", tip(0, "k", "n"), -1.5, 0.5);
    geometry.lights.forEach(([x, y], b) => addSquare("lamp-" + b, { x: x - 12, y: y + 16 }, 0, -1));
  };
  const sizeHits = () => {
    const scale = el("cell").getScreenCTM()?.a;
    if (!(scale > 0)) return;
    const side = Math.ceil(24 / scale);
    squares.forEach(({ hit, across, down }) => Object.entries({ x: across * side, y: down * side, width: side,
      height: side }).forEach(([key, value]) => hit.setAttribute(key, value)));
  };
  makeHits();
  new ResizeObserver(sizeHits).observe(el("cell"));

  // What a part of the drawing is called, and what is so of it.
  const name = (id, text) => {
    el(id).setAttribute("aria-label", text);
    el(id).firstChild.textContent = text;
  };
  const setText = (id, text) => {
    if (el(id).textContent !== text) el(id).textContent = text;
  };
  const drawPlates = (state) => {
    const focused = stations.findIndex((_, s) => document.activeElement === el("plate-" + s));
    const plate = focused === -1 ? 0 : parseInt(el("plate-" + focused).lastChild.textContent, 10);
    stations.forEach((station, s) => {
      const group = el("plate-" + s);
      const text = state.plates[s] === 0 ? "" : plateText(state, s);
      group.classList.toggle("off", text === "");
      group.classList.toggle("forged", state.forged[s] === "1");
      group.style.setProperty("--letters", Math.max(2, text.length));
      group.setAttribute("tabindex", text === "" ? -1 : 0);
      group.lastChild.textContent = text;
      if (text !== "") name("plate-" + s, `plate ${state.plates[s]} at ${station}`
        + (state.forged[s] === "1" ? ", forged" : ", not forged"));
    });
    // The focus goes with the plate, or to the machine from which it left the cell.
    if (focused === -1 || state.plates[focused] === plate) return;
    const to = state.plates.indexOf(plate);
    el(to === -1 ? "machine-" + machines.indexOf(places[focused]) : "plate-" + to).focus();
  };

  // What moves smoothly: the robot's turn, its arms, the heights, the table's turn, and plates.
  const numbersOf = (state) => ({
    angle: angleOf(0, state.at[3]),
    reach: [lengthOf(state.at[4] === "o" ? "o" : "n"), lengthOf(state.at[5] === "o" ? "o" : "n")],
    height: heightAxes.map((axis) => heights[axis][state.at[axis]][0][1]),
    bed: heightAxes.map((axis) => heights[axis][state.at[axis]][1]),
    turn: state.at[2] === "g" ? 0 : 180,
  });
  const mix = (from, to, share) => from + (to - from) * share;
  const mixAll = (from, to, share) => from.map((value, place) => mix(value, to[place], share));
  const mixAngle = (from, to, share) => from + ((((to - from + 540) % 360) + 360) % 360 - 180) * share;
  const mixNumbers = (from, to, share) => ({
    angle: mixAngle(from.angle, to.angle, share),
    reach: mixAll(from.reach, to.reach, share),
    height: mixAll(from.height, to.height, share),
    bed: mixAll(from.bed, to.bed, share),
    turn: mix(from.turn, to.turn, share),
  });
  const turned = (angle, along) => ({
    x: robot.x + along * Math.cos((angle * Math.PI) / 180),
    y: robot.y + along * Math.sin((angle * Math.PI) / 180),
  });
  const set = (id, values) => Object.entries(values).forEach(([key, value]) =>
    el(id).setAttribute(key, typeof value === "number" ? value.toFixed(1) : value));
  const spotOf = (s, numbers) => {
    const arm = s - 3;
    return arm === 0 || arm === 1 ? turned(numbers.angle + arm * armTwoBehind, numbers.reach[arm]) : spots[s];
  };
  const placeArms = (numbers) => {
    [0, 1].forEach((arm) => {
      const angle = numbers.angle + arm * armTwoBehind;
      const end = turned(angle, numbers.reach[arm]);
      const number = turned(angle, 28);
      set("arm-" + arm, { x2: end.x, y2: end.y });
      set("hand-" + arm, { cx: end.x, cy: end.y });
      set("arm-disc-" + arm, { cx: number.x, cy: number.y });
      set("arm-name-" + arm, { x: number.x, y: number.y });
    });
  };
  const placeParts = (numbers) => {
    heightAxes.forEach((axis, place) => {
      const { x, y } = spots[bedStations[axis]];
      const half = numbers.bed[place];
      set("bead-" + axis, { cy: numbers.height[place] });
      set("bed-" + axis, axis === 1 ? { r: half } : { x: x - half, y: y - half, width: 2 * half, height: 2 * half });
    });
    set("pointer", { transform: `rotate(${numbers.turn.toFixed(1)} ${spots[2].x} ${spots[2].y})` });
  };
  const placePlates = (state, numbers, starts, share) => {
    stations.forEach((_, s) => {
      const spot = spotOf(s, numbers);
      const start = starts[state.plates[s]] ?? spot;
      const x = mix(start.x, spot.x, share).toFixed(1);
      const y = mix(start.y, spot.y, share).toFixed(1);
      el("plate-" + s).setAttribute("transform", `translate(${x} ${y})`);
    });
  };
  const place = (state, numbers, starts, share) => {
    placeArms(numbers);
    placeParts(numbers);
    placePlates(state, numbers, starts, share);
  };
  // Where the plates begin that are at another station than before, by their numbers.
  const startsOf = (before, state, numbers) => {
    const starts = {};
    before.plates.forEach((plate, s) => {
      if (plate !== 0 && state.plates[s] !== plate) starts[plate] = spotOf(s, numbers);
    });
    return starts;
  };
  let frame = null;
  // Moves all from where it was to where it is, within so many milliseconds; at once where that is 0.
  const moveTo = (before, state, milliseconds) => {
    cancelAnimationFrame(frame);
    const goal = numbersOf(state);
    place(state, goal, {}, 1);
    if (milliseconds === 0) return;
    const from = numbersOf(before);
    const starts = startsOf(before, state, from);
    const began = performance.now();
    const draw = (now) => {
      const part = Math.min(1, Math.max(0, (now - began) / milliseconds));
      const share = part * part * (3 - 2 * part);
      place(state, mixNumbers(from, goal, share), starts, share);
      if (part < 1) frame = requestAnimationFrame(draw);
    };
    place(state, from, starts, 0);
    frame = requestAnimationFrame(draw);
  };

  // Broken lines, rings and arrows to where axes are going.
  const drawAims = (state) => {
    const turn = isGoing(state, 3) ? state.going[3] : state.at[3];
    [0, 1].forEach((arm) => {
      const axis = 4 + arm;
      const end = tip(arm, turn, isGoing(state, axis) ? state.going[axis] : state.at[axis]);
      el("arm-aim-" + arm).classList.toggle("off", !isGoing(state, 3) && !isGoing(state, axis));
      set("arm-aim-" + arm, { x2: end.x, y2: end.y });
    });
    heightAxes.forEach((axis) => {
      const going = isGoing(state, axis);
      el("way-" + axis).classList.toggle("off", !going);
      el("aim-" + axis).classList.toggle("off", !going);
      if (!going) return;
      const to = heights[axis][state.going[axis]][0][1];
      set("way-" + axis, { y1: heights[axis][state.at[axis]][0][1], y2: to });
      set("aim-" + axis, { cy: to });
    });
    el("pointer-aim").classList.toggle("off", !isGoing(state, 2));
    set("pointer-aim", { transform: `rotate(${state.going[2] === "g" ? 0 : 180} ${spots[2].x} ${spots[2].y})` });
    ["0b", "0c", "8b"].forEach((flow) => el("flow-" + flow).classList.toggle("off", state.going[flow[0]] !== flow[1]));
  };
  const drawAxes = (state) => {
    axes.forEach((_, a) => {
      const split = a === 2 || a === 3;
      const short = parts[a].replace("the ", "");
      setText("axis-" + a, short + (split ? named(poses, state.at[a]) : axisText(state, a)));
      if (split) setText("going-" + a, goingText(state, a).trim());
    });
  };

  const drawMachines = (state) => {
    machines.forEach((machine, m) => {
      const failed = state.failed[m] === "1";
      const own = axes.map((_, a) => a).filter((a) => machineOfAxis[a] === m);
      const stopped = failed && own.some((a) => isGoing(state, a));
      el("machine-" + m).classList.toggle("failed", failed);
      if (m === 0 || m === 5)
        ["0b", "0c", "8b"].filter((flow) => machineOfAxis[flow[0]] === m)
          .forEach((flow) => el("flow-" + flow).style.setProperty("stroke", failed ? "var(--red)" : ""));
      setText("sign-" + m, failed ? "FAILED" : state.asked[m] === "1" ? "stop asked" : "");
      setText("stop-" + m, stopped ? "stopped on the way" : "");
      const says = own.map((a) => (parts[a].replace("the ", "") + axisText(state, a)).trim());
      name("machine-" + m, `${machine}: ${failed ? "failed" + (stopped ? ", stopped on the way" : "") + "; " : ""}`
        + (state.asked[m] === "1" ? "a stop is asked; " : "") + says.join("; "));
    });
    zones.forEach((zone, z) => {
      const holder = named(machines, state.holders[z]);
      el("zone-" + z).classList.toggle("held", holder !== null);
      el("holder-" + z).classList.toggle("free", holder === null);
      setText("holder-" + z, holder === null ? "free" : holder);
      name("zone-" + z, `${zone}, between ${owners[z]} and ${visitors[z]}: `
        + (holder === null ? "free" : "held by the " + holder).replace("the press", "press"));
    });
    lights.forEach((light, b) => {
      const green = state.lamps[b] === "g";
      const lens = el("lamp-" + b).children[2].classList;
      lens.toggle("red", !green);
      lens.toggle("green", green);
      setText("lamp-word-" + b, green ? "green" : "red");
      name("lamp-" + b, `${light}: ${green ? "green" : "red"}`);
    });
  };
  // The signs of failures stand behind the machines' names; in larger words below them.
  const placeSigns = (isLarge) => {
    machines.forEach((_, m) => {
      const [x, y] = geometry.names[m];
      const behind = el("sign-" + m).previousSibling.getComputedTextLength() + 5;
      set("sign-" + m, isLarge ? { x, y: y + 28 } : { x: x + behind, y });
    });
  };

  // Tells why a record isn't booked, and marks what the refusal names.
  const drawRefusal = (i) => {
    const part = i > good && refused[2] !== "" ? el(refused[2]) : null;
    document.querySelectorAll("#cell .in-the-way").forEach((mark) => mark.classList.remove("in-the-way"));
    [part, part?.closest('[id^="machine-"]')].forEach((mark) => mark?.classList.add("in-the-way"));
    setText("why", i > good ? refused[1] : "");
  };

  // Who waits: a line for each machine that does. While one points at it, what stands in its way is outlined.
  const waitLines = machines.map(() => document.createElement("li"));
  let pointed = -1;
  const outline = () => {
    const part = pointed === -1 ? "" : waiting[current][pointed][2] ?? "";
    document.querySelectorAll("#cell .awaited").forEach((mark) => mark.classList.remove("awaited"));
    if (part !== "")
      [el(part), el(part).closest('[id^="machine-"]')].forEach((mark) => mark?.classList.add("awaited"));
  };
  const pointAt = (m) => {
    pointed = m;
    outline();
  };
  const makeWaits = () => {
    waitLines.forEach((line, m) => {
      line.tabIndex = 0;
      ["focus", "mouseenter"].forEach((kind) => line.addEventListener(kind, () => pointAt(m)));
      line.addEventListener("blur", () => pointAt(-1));
      line.addEventListener("mouseleave", () => pointAt(waitLines.indexOf(document.activeElement)));
      el("waits-list").append(line);
    });
  };
  // The refusal is told without its name, which the line's title has, and a held zone with its holder in that state.
  const waitText = ([wanted, why, part], i) => {
    const holder = part.startsWith("zone-") ? named(machines, rows[i][4][part.slice(5)]) : null;
    const by = holder === null ? "" : ` by the ${holder}`.replace("the press", "press");
    return `next is "${wanted}", but ${why.slice(why.indexOf(": ") + 2)}${by}`;
  };
  const drawWaits = (i) => {
    waiting[i].forEach((cell, m) => {
      if (cell.length === 0 && document.activeElement === waitLines[m]) el("machine-" + m).focus();
      waitLines[m].hidden = cell.length === 0;
      if (cell.length === 0) return;
      const text = waitText(cell, i);
      if (waitLines[m].textContent !== text) waitLines[m].textContent = text;
      waitLines[m].title = cell[1];
    });
    el("waits-none").hidden = waiting[i].some((cell) => cell.length > 0);
    outline();
  };

  const drawCounts = (state) => {
    const [, admitted, forged, , delivered] = state.totals;
    setText("admitted-count", String(admitted));
    setText("forged-count", String(forged));
    setText("delivered-count", String(delivered));
    setText("quarantine-count", String(state.quarantine));
    setText("expected-plate", state.expected === 0 ? "none" : "plate " + state.expected);
  };

  const writeFacts = (state) => {
    const [entries, admitted, forged, quarantined, delivered, reinstated] = state.totals;
    const full = stations.map((_, s) => s).filter((s) => state.plates[s] !== 0);
    const all = axes.map((_, a) => a);
    const moving = all.filter((a) => isGoing(state, a) && !isFailed(state, a));
    const stopped = all.filter((a) => isGoing(state, a) && isFailed(state, a));
    const resting = all.filter((a) => !isGoing(state, a));
    const flagged = (flags) => listed(machines.filter((_, m) => flags[m] === "1"));
    setText("moving-line", moving.length === 0 ? "Nothing moves." : moving.map((a) => axes[a] + goingText(state, a))
      .join(", "));
    const facts = {
      plates: listed(full.map((s) =>
        `${state.plates[s]}${state.forged[s] === "1" ? " (forged)" : ""} at ${stations[s]}`)),
      moving: listed(moving.map((a) => `${axes[a]}: ${axisText(state, a)}`)),
      rest: listed(resting.map((a) => `${axes[a]}: ${axisText(state, a)}`)),
      stopped: listed(stopped.map((a) => `${axes[a]}: on the way from ${named(poses, state.at[a])} `
        + `(${named(ways, state.going[a])})`)),
      zones: zones.map((name, z) => `${name}: ${named(machines, state.holders[z]) ?? "free"}`).join(", "),
      lights: lights.map((name, b) => `${name}: ${state.lamps[b] === "g" ? "green" : "red"}`).join(", "),
      failed: flagged(state.failed),
      asked: flagged(state.asked),
      expected: state.expected === 0 ? "none" : "plate " + state.expected,
      quarantine: String(state.quarantine),
      totals: `${entries} entries; ${admitted} admitted, ${forged} forged, ` +
        `${quarantined} quarantined, ${delivered} delivered, ${reinstated} laid back`,
    };
    Object.entries(facts).forEach(([name, text]) => setText("fact-" + name, text));
  };

"##;
