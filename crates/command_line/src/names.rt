// The names of commands.
ghost use Rattle.std.specs.Prelude.{◌≡◌};
ghost use Rattle.command_line.specs.Names.{name_in};

#[derive(Clone, Copy, Debug)]
pub(crate) enum Name {
    Settle,
    Judge,
    Init,
    Serve,
    Sheet,
    Drill,
}

/// The command that a word names.
pub(crate) fn name_of(word: &str) -> Option<Name>
    ensures { result ≡ name_in word.now }
{
    if word == "settle" {
        return Some(Name::Settle);
    }
    if word == "judge" {
        return Some(Name::Judge);
    }
    if word == "init" {
        return Some(Name::Init);
    }
    if word == "serve" {
        return Some(Name::Serve);
    }
    if word == "sheet" {
        return Some(Name::Sheet);
    }
    if word == "drill" {
        return Some(Name::Drill);
    }
    None
}
