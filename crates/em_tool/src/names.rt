// The names of a tool's files.
ghost use Rattle.std.specs.Prelude.{◌≡◌};
ghost use Rattle.em_tool.specs.Names.{name_at, names_of};

/// The name of this number, counted from 0, or the empty one past the last.
pub fn name_at(files: &[String], number: usize) -> &str
    ensures is { result.now ≡ name_at (names_of files.now) number }
{
    if number >= files.len() {
        return "";
    }
    files[number].as_str()
}
