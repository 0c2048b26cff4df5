//! The second part of the page's script: the spans.

/// From the rows of the spans to what the pointer does in them.
pub(crate) const SPANS_SCRIPT: &str =
    r##"  // The spans: rows of bars, each from the entry that begins something to the one that ends it.
  // All are found once. A bar is [from, to, what], and what is told by a letter or a number.
  const spansOf = (whatAt) => {
    const spans = [];
    let since = first;
    let what = whatAt(rows[first], first);
    for (let i = first + 1; i <= good; i += 1) {
      const now = whatAt(rows[i], i);
      if (now !== what) {
        if (what !== "") spans.push([since, i, what]);
        since = i;
        what = now;
      }
    }
    if (what !== "") spans.push([since, last + 1, what]);
    return spans;
  };
  const shortAxes = axes.map((name) => name.replace("the ", "").replace("'s", ""));
  const short = (text) => text.replace(/^(to )?(the )?/, "").replace("at ", "");
  const motionFill = (what) => (what === "F" ? "fault" : what === "q" ? "#f0b45c" : "#a9c3e4");
  const holderFills = ["#c5e1a5", "#ffe082", "#b39ddb", "#ffab91", "#f48fb1", "#80cbc4"];
  const motionRows = axes.map((axis, a) => ({
    name: shortAxes[a], kind: "axis", place: a, machine: machineOfAxis[a],
    spans: spansOf((row) => (row[5][machineOfAxis[a]] === "1" ? "F" : row[3][a] === "-" ? "" : row[3][a])),
    fill: motionFill,
    word: (what) => (what === "F" ? "FAILED" : named(ways, what).replace(/^to (the )?/, "")),
    tell: (what) => (what === "F" ? "failed" : "goes " + named(ways, what)),
  }));
  const zoneRows = zones.map((zone, z) => ({
    name: `${zone.split(" ")[1]} ${owners[z]}, ${visitors[z]}`.replaceAll(" belt", ""),
    kind: "zone", place: z, machine: -1,
    spans: spansOf((row) => (row[4][z] === "-" ? "" : row[4][z])),
    fill: (what) => holderFills[what.charCodeAt(0) - 97],
    word: (what) => named(machines, what),
    tell: (what) => "held by the " + named(machines, what),
  }));
  const stationRows = stations.map((station, s) => ({
    name: "at " + station.replace("the ", "").replace("'s", ""), kind: "station", place: s,
    machine: machines.indexOf(places[s]),
    spans: spansOf((row) => (row[0][s] === 0 ? "" : row[0][s] + (row[1][s] === "1" ? "*" : ""))),
    fill: (what) => (what.endsWith("*") ? "#f0b45c" : "#ffffff"),
    word: (what) => what,
    tell: (what) => "plate " + what.replace("*", ", forged"),
  }));
  const lightRows = lights.map((light, b) => ({
    name: light.replace("the ", ""), kind: "light", place: b, machine: b === 0 ? 0 : 5,
    spans: spansOf((row) => (row[7][b] === "g" ? "g" : "")),
    fill: () => "#8fd19e", word: () => "green", tell: () => "green",
  }));
  const lanes = [...motionRows, ...zoneRows, ...stationRows, ...lightRows];
  // Where machines wait, which is told in the row of each machine's first axis.
  const waitSpans = machines.map((_, m) => spansOf((_, i) => (waiting[i][m].length === 0 ? "" : "waits")));
  // Rows of one kind stand together, with a space before each kind.
  const spaceBefore = lanes.map((lane, r) => (r > 0 && lanes[r - 1].kind !== lane.kind ? 1 : 0));

  // Where entries stand: each one further than the one before, or at the time at which it ends.
  const ends = document.querySelector(".chart metadata")?.textContent.trim().split(/\s+/).map(Number) ?? [];
  const hasTimes = ends.length === good - first && good > first;
  const latest = ends.reduce((most, end) => Math.max(most, end), 1);
  const earliest = first === 0 ? 0 : ends.reduce((least, end) => Math.min(least, end), latest);
  const view = { byTime: false, start: first, span: last + 1 - first, width: 1, row: 16, chosen: 0 };
  // Where all that is shown begins, and how long it is.
  let origin = first;
  let whole = last + 1 - first;
  const timeOf = (i) => (i <= first ? earliest : i > good ? latest : ends[i - 1 - first]);
  const at = (i) => (view.byTime ? timeOf(i) : i);
  const xOf = (i) => ((at(i) - view.start) * view.width) / view.span;
  // The entries by the times at which they end.
  const byEnd = Array.from({ length: last + 1 - first }, (_, i) => first + i);
  const endOf = (i) => (i > good ? Infinity : timeOf(i));
  if (hasTimes) byEnd.sort((a, b) => endOf(a) - endOf(b) || a - b);
  const entryAt = (value) => {
    if (!view.byTime) return Math.min(last, Math.max(first, Math.floor(value)));
    let low = 0;
    let high = last - first;
    while (low < high) {
      const middle = Math.ceil((low + high) / 2);
      if (timeOf(byEnd[middle]) <= value) low = middle;
      else high = middle - 1;
    }
    return byEnd[low];
  };

  // A canvas for a size in the page's pixels.
  const penOf = (canvas, width, height) => {
    const ratio = window.devicePixelRatio || 1;
    canvas.width = Math.max(1, Math.round(width * ratio));
    canvas.height = Math.max(1, Math.round(height * ratio));
    canvas.style.height = height + "px";
    const pen = canvas.getContext("2d");
    pen.scale(ratio, ratio);
    return pen;
  };
  const colour = (name) => getComputedStyle(document.documentElement).getPropertyValue(name).trim();
  const topOf = lanes.map(() => 0);
  const layRows = () => {
    const spaces = spaceBefore.reduce((sum, space) => sum + space, 0);
    const room = el("rows").clientHeight;
    const least = window.matchMedia("(pointer: coarse)").matches ? 24 : 15;
    const high = Math.max(least, Math.min(26, Math.floor((room - spaces * 5) / lanes.length)));
    view.row = document.documentElement.classList.contains("printing") ? 13 : high;
    let top = 0;
    lanes.forEach((_, r) => {
      top += spaceBefore[r] * 5;
      topOf[r] = top;
      const button = el("names").children[r];
      button.style.top = top + "px";
      button.style.height = view.row + "px";
      top += view.row;
    });
    view.height = top;
    el("rows").style.setProperty("--all-rows", top + "px");
    view.width = document.documentElement.classList.contains("printing") ? 520
      : Math.max(1, el("rows").clientWidth - el("bars").offsetLeft);
    el("bars").style.width = el("ruler").style.width = view.width + "px";
  };

  const drawBar = (pen, lane, r, [from, to, what], words) => {
    const left = Math.max(-2, xOf(from));
    const right = Math.min(view.width + 2, xOf(to));
    const fill = lane.fill(what);
    const width = Math.max(1.5, right - left);
    pen.fillStyle = fill === "fault" ? words.red : fill === "#ffffff" && width < 3 ? words.line : fill;
    pen.fillRect(left, topOf[r] + 1, width, view.row - 3);
    if (width < 3) {
      pen.fillStyle = "#555555";
      [1, view.row - 3].forEach((down) => pen.fillRect(left, topOf[r] + down, width, 1));
      return;
    }
    pen.strokeStyle = words.follows(lane, what) ? words.follow : "#555555";
    pen.lineWidth = words.follows(lane, what) ? 3 : 1;
    pen.strokeRect(left + 0.5, topOf[r] + 1.5, width - 1, view.row - 4);
    const letters = Math.floor((width - 5) / 7);
    const text = lane.word(what);
    if (view.row < 12 || letters < Math.min(2, text.length)) return;
    pen.fillStyle = fill === "fault" ? words.ground : "#111111";
    const cut = text.length <= letters ? text : text.slice(0, Math.max(1, letters - 1)) + "\u2026";
    const x = Math.max(left, 0) + 3;
    pen.fillText(cut, x, topOf[r] + view.row / 2, Math.max(1, right - x - 2));
  };
  const follows = (lane, what) => (lane.kind === "station" && followed.plate !== 0
    && parseInt(what, 10) === followed.plate) || (lane.kind === "zone" && lane.place === followed.zone)
    || (lane.kind === "axis" && lane.machine === followed.machine);
  const drawBars = () => {
    const pen = penOf(el("bars"), view.width, view.height);
    pen.font = "12px system-ui, sans-serif";
    pen.textBaseline = "middle";
    const words = { red: colour("--red"), ground: colour("--ground"), line: colour("--line"),
      follow: colour("--follow"), follows };
    pen.fillStyle = colour("--edge");
    lanes.forEach((_, r) => pen.fillRect(0, topOf[r] + view.row - 1, view.width, 1));
    lanes.forEach((lane, r) => {
      let drawnTo = -2;
      lane.spans.forEach((span) => {
        const right = xOf(span[1]);
        if (right < 0 || xOf(span[0]) > view.width || (right - drawnTo < 1 && span[2] !== "F")) return;
        drawnTo = right;
        drawBar(pen, lane, r, span, words);
      });
    });
    drawWaitSpans(pen);
    drawRuler();
  };
  const drawWaitSpans = (pen) => {
    pen.fillStyle = colour("--change");
    machines.forEach((_, m) => {
      const line = topOf[machineOfAxis.indexOf(m)] + view.row - 3;
      let drawnTo = -2;
      waitSpans[m].forEach(([from, to]) => {
        const left = Math.max(-2, xOf(from));
        const right = Math.min(view.width + 2, xOf(to));
        if (right < 0 || left > view.width || right - drawnTo < 1) return;
        drawnTo = right;
        pen.fillRect(left, line, Math.max(1.5, right - left), 2);
      });
    });
  };
  const steps = [1, 2, 5, 10, 20, 50, 100, 200, 500, 1000, 2000, 5000, 10000, 20000, 50000, 100000, 1e6, 1e7, 1e8];
  const drawRuler = () => {
    const pen = penOf(el("ruler"), view.width, 18);
    pen.font = "11px system-ui, sans-serif";
    pen.textAlign = "center";
    pen.fillStyle = colour("--soft");
    const step = steps.find((wide) => (wide * view.width) / view.span >= 56) ?? view.span;
    const offset = view.byTime ? 0 : 0.5;
    for (let k = Math.ceil(view.start / step); k * step < view.start + view.span; k += 1) {
      const x = ((k * step + offset - view.start) * view.width) / view.span;
      if (k * step <= origin + whole) {
        pen.fillText(k * step, Math.max(x, 4), 11);
        pen.fillRect(x - 0.5, 14, 1, 4);
      }
    }
    const mark = (list, name) => {
      pen.fillStyle = colour(name);
      list.forEach((i) => {
        const x = xOf(i);
        if (x > -3 && x < view.width) pen.fillRect(x, 15, Math.max(3, xOf(i + 1) - x - 1), 3);
      });
    };
    mark(followed.all, "--follow");
    mark(found.list, "--mark");
    mark(differing, "--differ");
    mark(failures, "--red");
  };
  // All of it in one strip: failures, and what is followed, found or different.
  const drawStrip = () => {
    const width = el("strip").clientWidth;
    const pen = penOf(el("whole"), width, 30);
    const x = (i) => ((at(i) - origin) * width) / whole;
    pen.fillStyle = colour("--red");
    motionRows.forEach((lane) => lane.spans.filter(([, , what]) => what === "F").forEach(([from, to]) =>
      pen.fillRect(x(from), 2 + lane.machine * 3, Math.max(2, x(to) - x(from)), 3)));
    failures.forEach((i) => pen.fillRect(x(i), 0, 2, 20));
    const mark = (list, name, top) => {
      pen.fillStyle = colour(name);
      list.forEach((i) => pen.fillRect(x(i), top, 2, 4));
    };
    mark(followed.all, "--follow", 25);
    mark(found.list, "--mark", 21);
    mark(differing, "--differ", 21);
  };
  const drawSpans = () => {
    layRows();
    drawStrip();
    drawBars();
    placeWindow();
    showInSpans(current, true);
  };
  const placeWindow = () => {
    el("window").style.left = `${(100 * Math.max(0, view.start - origin)) / whole}%`;
    el("window").style.width = `${Math.min(100, (100 * view.span) / whole)}%`;
  };
  // Looks at another part: from so far on, and so wide.
  const look = (start, span) => {
    const least = Math.min(whole, view.byTime ? whole / Math.max(1, last - first) : 8);
    view.span = Math.min(whole, Math.max(least, span));
    view.start = origin + Math.min(whole - view.span, Math.max(0, start - origin));
    drawBars();
    placeWindow();
    placeCursor(current);
  };
  const zoom = (share, value = at(current)) => {
    const inside = value >= view.start && value <= view.start + view.span;
    const fixed = inside ? value : view.start + view.span / 2;
    const span = Math.min(whole, view.span * share);
    look(fixed - ((fixed - view.start) * span) / view.span, span);
  };
  const placeCursor = (i) => {
    const width = Math.max(3, view.byTime ? 3 : xOf(i + 1) - xOf(i));
    // What ends last by time stands at the very end, and its cursor before that.
    const x = at(i) < origin + whole ? xOf(i) : Math.min(xOf(i), xOf(last + 1) - width);
    const shown = x > -width && x < view.width;
    el("now").classList.toggle("off", !shown);
    el("now").classList.toggle("fault", i > good || (i > 0 && kindOf(i) === "declared"));
    el("now").style.transform = `translateX(${x.toFixed(1)}px)`;
    el("now").style.width = width + "px";
    el("here").style.left = `${(100 * (at(i) - origin)) / whole}%`;
  };
  // What a row has at a place, which is an entry, or a time: a bar, else where its machine waits, else the gap.
  const spanAt = (lane, value, where) => {
    const holds = ([from, to]) => where(from) <= value && value < where(to);
    const bar = lane.spans.find(holds);
    if (bar !== undefined) return [...bar, lane.tell(bar[2])];
    const waits = lane.kind === "axis" && machineOfAxis.indexOf(lane.machine) === lane.place
      ? waitSpans[lane.machine].find(holds) : undefined;
    if (waits !== undefined) return [...waits, "waits"];
    const before = lane.spans.findLast(([, to]) => where(to) <= value);
    const after = lane.spans.find(([from]) => where(from) > value);
    return [before?.[1] ?? first, after?.[0] ?? last + 1, "", "nothing"];
  };
  const tellLane = (r, i, value = i, where = (entry) => entry) => {
    const lane = lanes[r];
    const [from, to, what, words] = spanAt(lane, value, where);
    const until = to > good ? "on" : "to " + to;
    const since = from === first && first > 0 ? `${from} or before` : from;
    const isPart = (from === first && first > 0) || (to > good && good < entries);
    const times = hasTimes ? `; time ${timeOf(from)} to ${timeOf(to)}, ${timeOf(to) - timeOf(from)} long`
      + (isPart ? ", as far as shown" : "") : "";
    const k = Math.min(to - 1, Math.max(from, i));
    const why = what === "waits" ? "; " + waitText(waiting[k][lane.machine], k) : "";
    return `${lane.name}: ${words}, from entry ${since} ${until}${times}${why}`;
  };
  const showInSpans = (i, stays = false) => {
    const value = at(i);
    const wide = view.byTime ? 0 : 1;
    const end = origin + whole;
    const ahead = value < end ? value >= view.start + view.span : view.start + view.span < end;
    if (!stays && (value + wide <= view.start || ahead)) {
      look(value - view.span * (ahead ? 0.15 : 0.85), view.span);
    }
    placeCursor(i);
    const chosen = el("names").children[view.chosen];
    chosen.setAttribute("aria-label", tellLane(view.chosen, i));
    if (document.activeElement === chosen) setText("under", tellLane(view.chosen, i));
  };

  // The pointer: a click goes to an entry, dragging moves, the wheel and two fingers zoom.
  const pointers = new Map();
  let dragged = null;
  const valueAt = (event) => view.start + ((event.clientX - el("bars").getBoundingClientRect().left) * view.span)
    / view.width;
  const spread = () => {
    const [one, two] = [...pointers.values()];
    return { wide: Math.max(10, Math.abs(one.clientX - two.clientX)),
      middle: valueAt({ clientX: (one.clientX + two.clientX) / 2 }) };
  };
  const onDown = (event) => {
    if (event.button !== 0) return;
    pointers.set(event.pointerId, event);
    if (pointers.size === 1) dragged = { x: event.clientX, start: view.start, moved: false };
    if (pointers.size === 2) dragged = { ...spread(), span: view.span, moved: true };
  };
  const onMove = (event) => {
    if (event.buttons === 0) pointers.delete(event.pointerId);
    if (!pointers.has(event.pointerId)) return tellUnder(event);
    pointers.set(event.pointerId, event);
    if (pointers.size === 2 && dragged.wide !== undefined) {
      const { wide } = spread();
      const span = Math.min(whole, (dragged.span * dragged.wide) / wide);
      return look(dragged.middle - ((dragged.middle - view.start) * span) / view.span, span);
    }
    const far = event.clientX - dragged.x;
    if (Math.abs(far) > 4 && !dragged.moved) {
      dragged.moved = true;
      el("bars").setPointerCapture(event.pointerId);
    }
    if (dragged.moved && dragged.wide === undefined) look(dragged.start - (far * view.span) / view.width, view.span);
    return undefined;
  };
  const onUp = (event) => {
    if (!pointers.delete(event.pointerId) || event.type !== "pointerup" || dragged.moved) return;
    goTo(entryAt(valueAt(event)));
    tellUnder(event);
  };
  const laneAt = (event) => {
    const y = event.clientY - el("bars").getBoundingClientRect().top;
    return lanes.findIndex((_, r) => y >= topOf[r] && y < topOf[r] + view.row);
  };
  const tellUnder = (event) => {
    const r = laneAt(event);
    const value = valueAt(event);
    setText("under", r === -1 ? "" : tellLane(r, entryAt(value), value, at));
  };
  const onWheel = (event) => {
    event.preventDefault();
    if (event.shiftKey || Math.abs(event.deltaX) > Math.abs(event.deltaY)) {
      look(view.start + ((event.deltaX || event.deltaY) * view.span) / view.width, view.span);
      return;
    }
    // A wheel's step zooms by a quarter, and the many small ones of a touchpad by less. Some browsers count in lines.
    const far = event.deltaY * (event.deltaMode === 1 ? 33 : 1);
    zoom(Math.exp(Math.max(-1, Math.min(1, far / 100)) * 0.223), valueAt(event));
  };
  const onStrip = (event) => {
    if (event.type === "pointermove" && event.buttons === 0) return;
    const bounds = el("strip").getBoundingClientRect();
    goTo(entryAt(origin + ((event.clientX - bounds.left) / bounds.width) * whole));
  };
  // Rows: one of them can be reached by Tab, and others from it.
  const choose = (r) => {
    const buttons = el("names").children;
    buttons[view.chosen].tabIndex = -1;
    view.chosen = Math.min(lanes.length - 1, Math.max(0, r));
    buttons[view.chosen].tabIndex = 0;
    buttons[view.chosen].focus();
    showInSpans(current, true);
  };
  const toTimes = () => {
    view.byTime = !view.byTime;
    origin = view.byTime ? earliest : first;
    whole = view.byTime ? Math.max(1, latest - earliest) : last + 1 - first;
    el("by-time").setAttribute("aria-pressed", String(view.byTime));
    view.start = origin;
    view.span = whole;
    drawSpans();
  };
  const makeRows = () => {
    lanes.forEach((lane, r) => {
      const button = document.createElement("button");
      button.type = "button";
      button.tabIndex = r === 0 ? 0 : -1;
      button.textContent = lane.name;
      button.title = lane.name;
      button.addEventListener("click", () => {
        view.chosen = r;
        followLane(lane);
      });
      button.addEventListener("focus", () => setText("under", tellLane(r, current)));
      el("names").append(button);
    });
    el("by-time").hidden = !hasTimes;
    if (last - first > 400) view.span = 200;
  };

"##;
