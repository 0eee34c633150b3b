/// How a step ended that didn't stop.
#[derive(Clone, Copy, Debug, PartialEq, Eq, Drop)]
pub enum StepEnd {
    /// A line of the stimulus was read, and the line of its columns went out, or its end is pending in
    /// the printer.
    Printed,
    /// Nothing is left of the stimulus.
    End,
}
