//! Words that stand in the singular at 1.
ghost use Rattle.std.specs.Prelude.{◌≡◌};
ghost use Rattle.cell_explain.specs.Words.{are, plates, times, were};

pub(crate) fn plates(count: u32) -> &'static str
    ensures { result.now ≡ plates count }
{
    if count == 1 { " plate" } else { " plates" }
}

pub(crate) fn are(count: u32) -> &'static str
    ensures { result.now ≡ are count }
{
    if count == 1 { " is" } else { " are" }
}

pub(crate) fn were(count: u32) -> &'static str
    ensures { result.now ≡ were count }
{
    if count == 1 { " was" } else { " were" }
}

pub(crate) fn times(count: u32) -> &'static str
    ensures { result.now ≡ times count }
{
    if count == 1 { " time" } else { " times" }
}
