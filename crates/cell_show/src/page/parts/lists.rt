//! What stands beside and below the drawing.

/// The spans, the controls, the failures, the state in words and the keys.
pub(crate) const LISTS: &str = r##"<div id="spans" role="group" aria-labelledby="spans-name">
<div id="spans-head"><h2 id="spans-name">Who moves, who holds, where plates are</h2>
<button type="button" id="by-time" aria-pressed="false" title="By time, or by entry" hidden>By time</button>
<button type="button" id="zoom-out" aria-label="Zoom out" title="Zoom out (-)">&minus;</button>
<button type="button" id="zoom-in" aria-label="Zoom in" title="Zoom in (+)">+</button>
<button type="button" id="zoom-all" title="All entries (0)">All</button></div>
<div id="strip" tabindex="0" role="slider" aria-label="Entry among all">
<canvas id="whole"></canvas><div id="window"></div><div id="here"></div></div>
<div id="lanes"><canvas id="ruler"></canvas>
<div id="rows"><div id="names" role="group" aria-label="Rows"></div><canvas id="bars"></canvas></div>
<div id="now"></div></div>
<p class="soft" id="under"></p>
</div>
</div>
<div id="foot">
<div id="controls" role="group" aria-label="Go to an entry">
<input type="range" id="slider" min="0" value="0" step="1" aria-label="Entry">
<button type="button" id="first" title="Start (Home)" aria-label="Start">|&#9664;</button>
<button type="button" id="back" title="Step back (left)" aria-label="Step back">&#9664;
<span class="word">Back</span></button>
<button type="button" id="play" aria-pressed="false" title="Space">Play</button>
<button type="button" id="forward" title="Step forward (right)" aria-label="Step forward"><span
class="word">Forward</span> &#9654;</button>
<button type="button" id="end" title="End (End)" aria-label="End">&#9654;|</button>
<label><span class="word">Entry</span> <input type="number" id="number" min="0" step="1" value="0"
aria-label="Entry"></label>
<label class="speed">Speed <select id="speed">
<option value="1000">1 a second</option>
<option value="333" selected>3 a second</option>
<option value="100">10 a second</option>
<option value="33">30 a second</option>
</select></label>
<button type="button" id="help" aria-label="Keys and signs" title="Keys and signs (?)">?</button>
</div>
<div id="jumps" role="group" aria-label="Follow and jump">
<label>Plate <input type="number" id="plate" min="1" step="1" placeholder="none" aria-label="Follow plate"></label>
<select id="zone" aria-label="Follow zone"><option value="">no zone</option></select>
<select id="machine" aria-label="Follow machine"><option value="">no machine</option></select>
<button type="button" id="followed-back" title="Followed before" aria-label="Followed before">&#9664;</button>
<button type="button" id="followed-on" title="Next followed" aria-label="Next followed">&#9654;</button>
<p class="soft" id="followed"></p>
<span>Failure</span>
<button type="button" id="failure-back" title="Failure before (D)" aria-label="Failure before">&#9664;</button>
<button type="button" id="failure-on" title="Next failure (d)" aria-label="Next failure">&#9654;</button>
<label title="Play stops at failures, clearings and repairs"><input type="checkbox" id="stops"> stops</label>
<input type="search" id="search" placeholder="Search" aria-label="Search in entries" title="Search in entries (/)">
<button type="button" id="search-back" title="Found before (N)" aria-label="Found before">&#9664;</button>
<button type="button" id="search-on" title="Next found (n)" aria-label="Next found">&#9654;</button>
<span class="soft" id="found"></span>
<button type="button" id="words" aria-pressed="false" title="Larger words (w)">Larger words</button>
</div>
</div>
<div id="below">
<div id="events-part">
<h2>Failures, clearings and repairs</h2>
<ol id="events"></ol>
</div>
<h2>The state in words</h2>
<dl id="facts">
<div><dt>Plates</dt><dd id="fact-plates"></dd></div>
<div><dt>Moving</dt><dd id="fact-moving"></dd></div>
<div><dt>At rest</dt><dd id="fact-rest"></dd></div>
<div><dt>Stopped</dt><dd id="fact-stopped"></dd></div>
<div><dt>Zones</dt><dd id="fact-zones"></dd></div>
<div><dt>Lights</dt><dd id="fact-lights"></dd></div>
<div><dt>Failed</dt><dd id="fact-failed"></dd></div>
<div><dt>Stop asked</dt><dd id="fact-asked"></dd></div>
<div><dt>Expected back</dt><dd id="fact-expected"></dd></div>
<div><dt>In quarantine</dt><dd id="fact-quarantine"></dd></div>
<div><dt>So far</dt><dd id="fact-totals"></dd></div>
</dl>
</div>
<dialog id="keys" aria-labelledby="keys-name">
<h2 id="keys-name">Keys and signs</h2>
<dl>
<dt><kbd>&larr;</kbd> <kbd>&rarr;</kbd></dt><dd>step back and forward; <kbd>Page Up</kbd> and <kbd>Page Down</kbd>
too, as a presenter's remote sends them</dd>
<dt><kbd>Home</kbd> <kbd>End</kbd></dt><dd>to the start and to the end</dd>
<dt><kbd>Space</kbd></dt><dd>play and pause; with &ldquo;stops&rdquo; ticked, Play stops at failures, clearings and
repairs</dd>
<dt><kbd>g</kbd></dt><dd>type an entry's number, and <kbd>Enter</kbd> goes there</dd>
<dt><kbd>d</kbd></dt><dd>to the next entry that declares a machine failed, or that is refused</dd>
<dt><kbd>p</kbd> <kbd>z</kbd> <kbd>m</kbd></dt><dd>to the next entry of the plate, the zone, the machine that is
followed: click it to follow it</dd>
<dt><kbd>/</kbd> <kbd>n</kbd></dt><dd>search in entries; to the next one found</dd>
<dt><kbd>Shift</kbd></dt><dd>with a letter: to the one before</dd>
<dt><kbd>+</kbd> <kbd>-</kbd> <kbd>0</kbd></dt><dd>zoom the rows in and out; show all of them. The wheel and two
fingers zoom too; drag, or Shift and the wheel, moves them; a click goes to an entry; point to read times</dd>
<dt><kbd>&uarr;</kbd> <kbd>&darr;</kbd></dt><dd>in the rows: to another row; <kbd>Enter</kbd> follows what is in it</dd>
<dt><kbd>w</kbd></dt><dd>larger words</dd>
</dl>
<p>In the drawing a strong frame and marked words show what the last entry changed. A forged plate is orange and has a
star. A zone is blue while a machine holds it. Dashed lines, rings and arrows show where something is going; a dot on a
scale is a height. A failed machine is red and broken; what it was doing then is red and dashed.</p>
<p>In the rows a bar of a machine goes from its start to its arrival, and a red one from its failure to its repair. A
thin line below: the machine waits. The address keeps the entry.</p>
<p>A machine waits that wants something next which the book refuses, while it can do nothing else. Point at its line to
see in the drawing what stands in its way.</p>
<p><label><input type="checkbox" id="letters" checked> Letters are keys</label></p>
<p><button type="button" id="close">Close</button></p>
</dialog>
"##;
