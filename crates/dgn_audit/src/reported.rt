// Which of the live elements with a hull are kept.
#[derive(Clone, Copy)]
pub(crate) enum Reported {
    // Those that can be fitted.
    Fitted,
    // Those whose stored range differs from the hull.
    Differing,
}
