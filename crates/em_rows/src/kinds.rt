// What the lines of a text of numbers are, and by which fields a list is printed.
ghost use Rattle.std.specs.Prelude.{◌≡◌};
ghost use Rattle.em_rows.specs.Ahead.{has_two};

/// What each line of a text of numbers is. A line has one number, or two with a space between.
#[derive(Clone, Copy, Debug, PartialEq, Eq, Drop)]
pub enum RowKind {
    /// `K V`, a key and a value: the command `Push`.
    Pair,
    /// `K`, which counts one for the key: the command `Add` of the value 1.
    Counted,
    /// `K`, the key of which the value is asked: the command `Get`.
    Asked,
    /// `LO HI`, a window with both ends: the command `Interval`.
    Window,
    /// `P`, a moment: the command `Stab`.
    Moment,
}

/// The fields of a record that its line has.
#[derive(Clone, Copy, Debug, PartialEq, Eq, Drop)]
pub enum Columns {
    /// `a` and `c`, as the key and the value of a pair.
    Pair,
    /// `c`, as the value of an answer.
    Value,
    /// `a` and `b`, as the number of a stab and that of an interval which holds its point.
    Numbers,
}

/// Whether a line of this kind has two numbers.
pub fn has_two(kind: RowKind) -> bool
    ensures is { result ≡ has_two kind }
{
    match kind {
        RowKind::Pair => true,
        RowKind::Counted => false,
        RowKind::Asked => false,
        RowKind::Window => true,
        RowKind::Moment => false,
    }
}
