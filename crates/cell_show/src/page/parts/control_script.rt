//! The last part of the page's script: steps, play, keys and controls.

/// To the end of the page.
pub(crate) const CONTROL_SCRIPT: &str = r##"  let current = -1;
  const show = (wanted, isAsked = false) => {
    const i = Math.min(last, Math.max(first, Math.trunc(Number(wanted)) || 0));
    el("number").value = el("slider").value = i;
    if (i === current) return;
    const before = current;
    current = i;
    const state = read(i);
    drawPlates(state);
    drawAims(state);
    moveTo(read(Math.max(first, before)), state, Math.abs(i - before) === 1 && before !== -1 ? smoothly() : 0);
    drawAxes(state);
    drawMachines(state);
    drawRefusal(i);
    drawWaits(i);
    drawCounts(state);
    writeFacts(state);
    drawChanges(i);
    drawEvents(i);
    drawFollowed(state, i);
    showInSpans(i);
    setText("sentence", sentenceOf(i));
    setText("count", placeOf(i));
    el("strip").setAttribute("aria-valuenow", i);
    const told = i === 0 ? "0, the opening" : `${i}, ${sentenceOf(i)}`;
    ["slider", "strip"].forEach((id) => el(id).setAttribute("aria-valuetext", told));
    ["first", "back"].forEach((id) => enable(id, i !== first));
    ["end", "forward"].forEach((id) => enable(id, i !== last));
    if (timer === null) keepAddress();
    around?.postMessage({ entry: i, first, last, isAsked }, "*");
  };
  // How many milliseconds a step may take to be drawn.
  const smoothly = () => {
    if (window.matchMedia("(prefers-reduced-motion: reduce)").matches) return 0;
    const pause = timer === null ? 500 : Number(el("speed").value);
    return pause < 80 ? 0 : Math.min(400, 0.8 * pause);
  };
  // The address tells the entry once one rests there: a browser takes as long to write it as to draw a step.
  let resting;
  const keepAddress = () => {
    if (around !== null) return;
    clearTimeout(resting);
    resting = setTimeout(() => history.replaceState(null, "", "#entry=" + current), 100);
  };

  // The page around this one, where two stand side by side: it is told each step, says where to go, in which entries
  // and parts the other journal differs, and whether all play.
  const around = location.protocol === "about:" ? window.parent : null;
  let different = [];
  const markDifferences = (ids) => {
    different.forEach((id) => el(id)?.classList.remove("differs"));
    different = ids;
    different.forEach((id) => el(id)?.classList.add("differs"));
  };
  const onMessage = ({ source, data }) => {
    if (around === null || source !== around) return;
    if (data.differing !== undefined) {
      differing = data.differing;
      drawStrip();
      drawRuler();
    }
    if (data.other !== undefined) markDifferences(data.other === null ? [] : differences(data.other, rows[current]));
    if (data.toggle) toggleAlone();
    if (data.entry === undefined) return;
    if (timer !== null) pause();
    show(data.entry, true);
  };

  let timer = null;
  const pause = () => {
    clearInterval(timer);
    timer = null;
    setText("play", "Play");
    el("play").setAttribute("aria-pressed", "false");
    el("last").setAttribute("aria-live", "polite");
    keepAddress();
  };
  const step = () => {
    show(current + 1);
    if (current === last || (el("stops").checked && happened.includes(current))) pause();
  };
  const play = () => {
    if (current === last) show(0);
    clearInterval(timer);
    timer = setInterval(step, Number(el("speed").value));
    setText("play", "Pause");
    el("play").setAttribute("aria-pressed", "true");
    el("last").setAttribute("aria-live", "off");
  };
  const toggleAlone = () => (timer === null ? play() : pause());
  // Where two stand side by side, the page around them decides which of them play.
  const toggle = () => (around === null ? toggleAlone() : around.postMessage({ toggle: true }, "*"));
  const goTo = (i) => {
    if (timer !== null) pause();
    show(i);
  };
  const jump = (i) => {
    if (i !== undefined) goTo(i);
  };

  // Larger words: in a narrow window always, and where they are asked for.
  const narrow = window.matchMedia("(max-width: 40rem)");
  const root = document.documentElement.classList;
  const size = () => {
    placeSigns(root.toggle("large", narrow.matches || root.contains("back-row")));
  };
  const enlarge = () => {
    el("words").setAttribute("aria-pressed", String(root.toggle("back-row")));
    size();
    drawSpans();
  };

  // The keys. A letter is one in small letters, and with Shift goes the other way.
  const pages = { PageUp: () => goTo(current - 1), PageDown: () => goTo(current + 1) };
  const moves = {
    ...pages, ArrowLeft: pages.PageUp, ArrowRight: pages.PageDown,
    Home: () => goTo(0), End: () => goTo(last), " ": toggle,
  };
  const letters = {
    d: () => jump(nextOf(failures)), D: () => jump(beforeOf(failures)),
    p: () => jump(nextOf(followed.ofPlate)), P: () => jump(beforeOf(followed.ofPlate)),
    z: () => jump(nextOf(followed.ofZone)), Z: () => jump(beforeOf(followed.ofZone)),
    m: () => jump(nextOf(followed.ofMachine)), M: () => jump(beforeOf(followed.ofMachine)),
    n: () => jump(nextOf(found.list)), N: () => jump(beforeOf(found.list)), g: () => el("number").focus(),
    w: enlarge, "/": () => el("search").focus(), "?": () => el("keys").showModal(),
    "+": () => zoom(0.6), "=": () => zoom(0.6), "-": () => zoom(1 / 0.6), 0: () => look(0, whole),
  };
  const inRows = { ArrowUp: () => choose(view.chosen - 1), ArrowDown: () => choose(view.chosen + 1) };
  const keysAt = ({ target }) => {
    if (el("keys").open) return {};
    if (target.type === "search" || target.type === "number") return pages;
    if (target.type === "select-one") return {};
    const all = el("letters").checked ? { ...moves, ...letters } : moves;
    return el("names").contains(target) ? { ...all, ...inRows } : all;
  };
  const onKey = (event) => {
    if (event.ctrlKey || event.metaKey || event.altKey) return;
    const { target } = event;
    const isPart = target.classList.contains("part");
    if (isPart && (event.key === "Enter" || event.key === " ")) {
      event.preventDefault();
      followPart(target);
      return;
    }
    // A box in which something was typed gives the keys back.
    const isBox = target.type === "number" || target.type === "search";
    if (isBox && (event.key === "Enter" || event.key === "Escape")) {
      event.preventDefault();
      if (target === el("number")) goTo(target.value);
      if (target === el("search") && event.key === "Enter") jump(nextOf(found.list) ?? found.list[0]);
      el("slider").focus();
      return;
    }
    const act = keysAt(event)[event.key];
    const pressed = target.type === "button" || target.type === "checkbox";
    if (act === undefined || (event.key === " " && pressed)) return;
    event.preventDefault();
    act();
  };
  const entryIn = (address) => Number(/#entry=(\d+)$/.exec(address)?.[1] ?? 0);
  const print = (isPrinting) => {
    root.toggle("printing", isPrinting);
    drawSpans();
  };

  el("slider").min = el("number").min = first;
  el("slider").max = el("number").max = last;
  el("strip").setAttribute("aria-valuemin", first);
  el("strip").setAttribute("aria-valuemax", last);
  zones.forEach((zone, z) => el("zone").add(new Option(zone, z)));
  machines.forEach((machine, m) => el("machine").add(new Option(machine, m)));
  const clicks = {
    first: () => goTo(0), back: () => goTo(current - 1), forward: () => goTo(current + 1), end: () => goTo(last),
    play: toggle, words: enlarge, help: letters["?"], close: () => el("keys").close(),
    "followed-back": () => jump(beforeOf(followed.all)), "followed-on": () => jump(nextOf(followed.all)),
    "failure-back": letters.D, "failure-on": letters.d, "search-back": letters.N, "search-on": letters.n,
    "zoom-in": letters["+"], "zoom-out": letters["-"], "zoom-all": letters[0], "by-time": toTimes,
  };
  Object.entries(clicks).forEach(([id, act]) => el(id).addEventListener("click", act));
  el("slider").addEventListener("input", (event) => goTo(event.target.value));
  el("number").addEventListener("change", (event) => goTo(event.target.value));
  ["plate", "zone", "machine"].forEach((id) => el(id).addEventListener("input", follow));
  // What is typed into a box takes the place of what stands there.
  ["number", "plate"].forEach((id) => ["focus", "click"].forEach((kind) =>
    el(id).addEventListener(kind, () => el(id).select())));
  el("search").addEventListener("input", search);
  el("speed").addEventListener("change", () => { if (timer !== null) play(); });
  el("cell").addEventListener("click", ({ target }) => {
    const part = target.closest(".part");
    if (part !== null) followPart(part);
  });
  el("bars").addEventListener("pointerdown", onDown);
  ["pointerup", "pointercancel"].forEach((kind) => window.addEventListener(kind, onUp));
  el("bars").addEventListener("pointermove", onMove);
  el("bars").addEventListener("pointerleave", (event) => { if (event.pointerType === "mouse") setText("under", ""); });
  el("bars").addEventListener("wheel", onWheel, { passive: false });
  ["pointerdown", "pointermove"].forEach((kind) => el("strip").addEventListener(kind, onStrip));
  document.addEventListener("keydown", onKey);
  window.addEventListener("hashchange", ({ newURL }) => goTo(entryIn(newURL)));
  window.addEventListener("message", onMessage);
  window.addEventListener("resize", drawSpans);
  window.addEventListener("beforeprint", () => print(true));
  window.addEventListener("afterprint", () => print(false));
  narrow.addEventListener("change", size);
  window.matchMedia("(prefers-color-scheme: dark)").addEventListener("change", drawSpans);
  makeRows();
  makeWaits();
  makeEvents();
  root.add("ready");
  layRows();
  show(entryIn(location.hash));
  size();
  drawSpans();
})();
</script>
</body>
</html>
"##;
