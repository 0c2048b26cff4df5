//! The third part of the page's script: what is followed, found, changed, and failed.

/// From what is followed to the list of failures.
pub(crate) const FOLLOW_SCRIPT: &str =
    r##"  // What is followed: a plate's number, a zone's and a machine's place, and the entries of each and of all.
  const followed = { plate: 0, zone: -1, machine: -1, ofPlate: [], ofZone: [], ofMachine: [], all: [] };
  const numbered = Array.from({ length: good - first }, (_, i) => first + i + 1);
  const isOfPlate = (i, plate) =>
    rows[i][13].split(/[ ,]/).some((word, place, all) => word === String(plate) && all[place - 1] === "plate")
    || rows[i][0].indexOf(plate) !== rows[i - 1][0].indexOf(plate);
  const isOfZone = (i, zone) => rows[i][13].endsWith(zones[zone]) || rows[i][4][zone] !== rows[i - 1][4][zone];
  const isOfMachine = (i, m) => rows[i][11] === m || rows[i][5][m] !== rows[i - 1][5][m]
    || rows[i][6][m] !== rows[i - 1][6][m];
  const listFollowed = () => {
    const { plate, zone, machine } = followed;
    followed.ofPlate = plate === 0 ? [] : numbered.filter((i) => isOfPlate(i, plate));
    followed.ofZone = zone === -1 ? [] : numbered.filter((i) => isOfZone(i, zone));
    followed.ofMachine = machine === -1 ? [] : numbered.filter((i) => isOfMachine(i, machine));
    followed.all = [...new Set([...followed.ofPlate, ...followed.ofZone, ...followed.ofMachine])].sort((a, b) => a - b);
  };
  const failures = numbered.filter((i) => kindOf(i) === "declared");
  if (last > good) failures.push(last);
  const nextOf = (list) => list.find((i) => i > current);
  const beforeOf = (list) => list.findLast((i) => i < current);
  const soFar = (list, i) => `entry ${list.filter((k) => k <= i).length} of ${list.length}`;
  // The entries in which a text is found, and those in which this journal differs from the one beside it.
  const found = { text: "", list: [] };
  let differing = [];

  // A button that leads nowhere says so, and keeps the focus.
  const enable = (id, can) => el(id).setAttribute("aria-disabled", String(!can));
  const drawFollowed = (state, i) => {
    const { plate, zone, machine, ofPlate, ofZone, ofMachine, all } = followed;
    stations.forEach((_, s) => el("plate-" + s).classList.toggle("followed", plate !== 0 && state.plates[s] === plate));
    zones.forEach((_, z) => el("zone-" + z).classList.toggle("followed", z === zone));
    machines.forEach((_, m) => el("machine-" + m).classList.toggle("followed", m === machine));
    const station = state.plates.indexOf(plate);
    const where = station === -1 ? "not in the cell" : "at " + stations[station];
    const texts = [];
    if (plate !== 0) texts.push(`Plate ${plate}: ${where}; ${soFar(ofPlate, i)}.`);
    if (zone !== -1)
      texts.push(`Z${zones[zone].slice(1)}: ${named(machines, state.holders[zone]) ?? "free"}; ${soFar(ofZone, i)}.`);
    if (machine !== -1)
      texts.push(`${machines[machine][0].toUpperCase()}${machines[machine].slice(1)}: ${soFar(ofMachine, i)}.`);
    setText("followed", texts.length === 0 ? "Nothing is followed." : texts.join(" "));
    el("followed").title = texts.join(" ");
    const wanted = { "followed-back": beforeOf(all), "followed-on": nextOf(all),
      "failure-back": beforeOf(failures), "failure-on": nextOf(failures),
      "search-back": beforeOf(found.list), "search-on": nextOf(found.list) };
    Object.entries(wanted).forEach(([id, place]) => enable(id, place !== undefined));
  };
  const follow = () => {
    const plate = Number(el("plate").value);
    followed.plate = Number.isInteger(plate) && plate > 0 ? plate : 0;
    followed.zone = el("zone").value === "" ? -1 : Number(el("zone").value);
    followed.machine = el("machine").value === "" ? -1 : Number(el("machine").value);
    listFollowed();
    lanes.forEach((lane, r) => el("names").children[r].classList.toggle("followed",
      (lane.kind === "zone" && lane.place === followed.zone)
      || (lane.kind === "axis" && lane.machine === followed.machine)));
    drawStrip();
    drawBars();
    drawFollowed(read(current), current);
  };
  // Follows something, or no longer, if it is followed already.
  const toggleFollowed = (id, value) => {
    el(id).value = el(id).value === String(value) ? "" : value;
    follow();
  };
  const followLane = (lane) => {
    if (lane.kind === "zone") toggleFollowed("zone", lane.place);
    else if (lane.kind === "station" && rows[current][0][lane.place] !== 0)
      toggleFollowed("plate", rows[current][0][lane.place]);
    else if (lane.machine !== -1) toggleFollowed("machine", lane.machine);
  };
  const followPart = (part) => {
    const [kind, place] = [part.id.split("-")[0], Number(part.id.split("-")[1])];
    if (kind === "plate") toggleFollowed("plate", rows[current][0][place]);
    if (kind === "zone" || kind === "machine") toggleFollowed(kind, place);
    if (kind === "lamp") toggleFollowed("machine", place === 0 ? 0 : 5);
  };
  const search = () => {
    found.text = el("search").value.trim().toLowerCase();
    found.list = found.text === "" ? [] : Array.from({ length: last - first }, (_, i) => first + i + 1)
      .filter((i) => (rows[i][13] + "\n" + rows[i][12]).toLowerCase().includes(found.text));
    setText("found", found.text === "" ? "" : found.list.length + " found");
    drawStrip();
    drawRuler();
    drawFollowed(read(current), current);
  };

  // What an entry changed: the machine that acts, and the parts that aren't as they were.
  const axisMarks = { 0: [], 1: ["bead-1", "bed-1", "aim-1"], 2: ["pointer", "pointer-aim"],
    3: ["arm-0", "arm-1", "arm-aim-0", "arm-aim-1"], 4: ["arm-0", "hand-0", "arm-aim-0"],
    5: ["arm-1", "hand-1", "arm-aim-1"], 6: ["bead-6", "bed-6", "aim-6"], 7: ["bead-7", "bed-7", "aim-7"], 8: [] };
  const flowsOf = { 0: ["flow-0b", "flow-0c"], 8: ["flow-8b"] };
  const partsOf = (a) => ["axis-" + a, ...(a === 2 || a === 3 ? ["going-" + a] : []), ...axisMarks[a],
    ...(flowsOf[a] ?? [])];
  const countIds = { 1: "admitted-count", 2: "forged-count", 4: "delivered-count" };
  // The ids of the parts in which two states differ.
  const differences = (one, two) => {
    const ids = [];
    axes.forEach((_, a) => { if (one[2][a] !== two[2][a] || one[3][a] !== two[3][a]) ids.push(...partsOf(a)); });
    stations.forEach((_, s) => {
      const shown = (row) => (row[0][s] === 0 ? "" : row[0][s] + row[1][s]);
      if (shown(one) !== shown(two)) ids.push(two[0][s] === 0 && (s < 3 || s > 4) ? "place-" + s : "plate-" + s);
    });
    zones.forEach((_, z) => { if (one[4][z] !== two[4][z]) ids.push("zone-" + z); });
    machines.forEach((_, m) => { if (one[5][m] + one[6][m] !== two[5][m] + two[6][m]) ids.push("sign-" + m); });
    lights.forEach((_, b) => { if (one[7][b] !== two[7][b]) ids.push("lamp-" + b); });
    if (one[8] !== two[8]) ids.push("expected-plate");
    if (one[9] !== two[9]) ids.push("quarantine-count");
    Object.entries(countIds).forEach(([k, id]) => { if (one[10][k] !== two[10][k]) ids.push(id); });
    return ids;
  };
  let marked = [];
  const drawChanges = (i) => {
    marked.forEach(([id, kind]) => el(id).classList.remove(kind));
    [...el("names").children].forEach((button, r) => button.classList.toggle("acting",
      i > 0 && lanes[r].kind === "axis" && lanes[r].machine === rows[i][11]));
    marked = [];
    if (i === first || i > good) return;
    const failing = machines.map((_, m) => m).filter((m) => rows[i][5][m] !== rows[i - 1][5][m]);
    const acting = rows[i][11] < 6 ? [rows[i][11]] : [];
    [...new Set([...acting, ...failing])].forEach((m) => marked.push(["machine-" + m, "acting"]));
    differences(rows[i - 1], rows[i]).forEach((id) => marked.push([id, "changed"]));
    marked.forEach(([id, kind]) => el(id).classList.add(kind));
  };

  // The list of failures, clearings and repairs.
  const happened = numbered.filter((i) => [...faults, "expected", "reinstated"].includes(kindOf(i)));
  if (last > good) happened.push(last);
  const makeEvents = () => {
    happened.slice(0, 2000).forEach((i) => {
      const item = document.createElement("li");
      const button = document.createElement("button");
      button.type = "button";
      button.dataset.entry = i;
      button.textContent = `${i}: ${sentenceOf(i)}`;
      button.addEventListener("click", () => goTo(i));
      item.append(button);
      el("events").append(item);
    });
    if (happened.length > 0 && happened.length <= 2000) return;
    const more = document.createElement("li");
    more.textContent = happened.length === 0 ? "None." : `${happened.length - 2000} more aren't listed.`;
    el("events").append(more);
  };
  let currentEvent = null;
  const drawEvents = (i) => {
    currentEvent?.classList.remove("current");
    const place = happened.indexOf(i);
    currentEvent = place === -1 || place >= 2000 ? null : el("events").children[place].firstChild;
    currentEvent?.classList.add("current");
  };

"##;
