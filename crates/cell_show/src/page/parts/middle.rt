//! The end of what is shown, and the beginning of the page's data.

/// From below the lists, or below the chart where there is one, to the data.
pub(crate) const MIDDLE: &str = r##"</main>
<script type="application/json" id="journal">
{"##;
