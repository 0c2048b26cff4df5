//! The sentence of the entry, the drawing and who waits, which the script makes and updates.

/// The sentence of the entry, the drawing, and who waits.
pub(crate) const DRAWING: &str =
    r##"<div id="last" role="status" aria-live="polite"><strong id="sentence"></strong><p id="why"></p>
<p class="soft" id="count"></p></div>
<div id="stage">
<figure id="picture">
<svg id="cell" viewBox="8 54 790 422" role="group" aria-label="The cell from above" aria-describedby="facts">
<defs><marker id="head" viewBox="0 0 10 10" refX="9" refY="5" markerWidth="5" markerHeight="5" orient="auto">
<path d="M0 0 10 5 0 10Z" fill="context-stroke"/></marker></defs>
<g id="counts">
<text class="word" x="20" y="84">admitted</text><text class="name" id="admitted-count" x="130" y="84"></text>
<text class="second word" x="20" y="101">forged</text>
<text class="name second" id="forged-count" x="130" y="101"></text>
<text class="third word" x="20" y="118">delivered</text>
<text class="name third" id="delivered-count" x="130" y="118"></text>
<text class="waiting word" x="622" y="84">in quarantine</text>
<text class="name waiting" id="quarantine-count" x="726" y="84"></text>
<text class="waiting second word" x="622" y="101">expected back</text>
<text class="name waiting second" id="expected-plate" x="726" y="101"></text>
</g>
<g id="floor"></g>
</svg>
<p id="moving-line" aria-hidden="true"></p>
<figcaption class="soft">What the last entry changed has a strong frame and marked words. A forged plate is orange and
has a star. A zone, between two machines, is blue while one of them holds it. Dashed lines, rings and arrows show where
something is going. A dot on a scale is a height. Red and broken: failed. Click a plate, zone or machine to follow
it.</figcaption>
</figure>
<section id="waits" aria-labelledby="waits-name">
<h2 id="waits-name">Who waits</h2>
<ul id="waits-list"></ul>
<p class="soft" id="waits-none">No machine waits.</p>
</section>
"##;
