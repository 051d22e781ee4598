//! The forms in which a check tells of an image.

/// What a check writes.
#[derive(Clone, Copy, PartialEq, Eq)]
pub enum Output {
    /// The whole report.
    Report,
    /// One line of sums.
    Summary,
    /// The faults alone.
    OnlyFaults,
    /// The whole report as one JSON object.
    Json,
}
