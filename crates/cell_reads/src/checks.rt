//! Lists of tests, each of which is asked only if none before it holds.

/// Answers the refusal of the first test that holds, or None.
macro_rules! refused_by {
    ($($test:expr),+ $(,)?) => {{
        $(
            let test = $test;
            if test.0 {
                return Some(test.1);
            }
        )+
        None
    }};
}

/// Answers the refusal of a test that holds, or else what the other tests say, which are asked only then.
macro_rules! unless {
    ($test:expr, $tests:expr $(,)?) => {{
        let test = $test;
        if test.0 {
            return Some(test.1);
        }
        $tests
    }};
}

/// Answers the refusal, if there is one, or else what the other tests say, which are asked only then.
macro_rules! unless_refused {
    ($refusal:expr, $tests:expr $(,)?) => {{
        let refusal = $refusal;
        if refusal.is_some() {
            return refusal;
        }
        $tests
    }};
}

pub(crate) use refused_by;
pub(crate) use unless;
pub(crate) use unless_refused;
