use em_record::Record;

/// What one operation does: the record that is stored under its key from then on, or none, and the
/// answer that it gives, or none.
#[derive(Clone, Copy, Debug, PartialEq, Eq)]
pub struct Step {
    pub stored: Option<Record>,
    pub answer: Option<Record>,
}
