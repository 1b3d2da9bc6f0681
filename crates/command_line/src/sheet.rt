// The words of `sheet`.
ghost use Rattle.std.specs.Prelude.{◌≡◌, ◌≤◌, IfSome, length, drop, option_map};
ghost use Rattle.sat_base.specs.Limits.{IsMonthWithin};
ghost use Rattle.command_line.specs.Command.{sheet_of};
ghost use Rattle.command_line.specs.Words.{sheet_said};

use crate::values::month_in;
use sat_base::{Line, Month};
use word_pairs::{has_form, value};

/// What `sheet` is asked for.
#[derive(Clone, Copy, Debug)]
pub(crate) struct SheetWords<'a> {
    pub store: &'a str,
    pub month: Month,
}

/// What the words behind `sheet` ask for.
#[tactic(auto, unfolding(crate::specs::Command::sheet_of))]
pub(crate) fn sheet_in<'a>(line: &'a Line) -> Option<SheetWords<'a>>
    requires { 1 ≤ length line.now }
    ensures said { option_map sheet_said result ≡ sheet_of (drop 1 line.now) }
    ensures within { IfSome result (λ words. IsMonthWithin words.month.0) }
{
    if !has_form(line, &["--store", "--month"]) {
        return None;
    }
    let store = value(line, "--store", 1)?;
    let month = month_in(value(line, "--month", 1))?;
    Some(SheetWords { store, month })
}
