// A month on a command line.
ghost use Rattle.std.specs.Prelude.{◌≡◌, IfSome, option_map};
ghost use Rattle.sat_base.specs.Limits.{IsMonthWithin};
ghost use Rattle.command_line.specs.Values.{month_of};

use month_text::month_of_text;
use sat_base::Month;

/// A month, as `YYYY-MM`.
pub(crate) fn month_in(text: Option<&str>) -> Option<Month>
    ensures value { option_map (λ m. m.0) result ≡ month_of (option_map (λ v. v.now) text.entry) }
    ensures within { IfSome result (λ m. IsMonthWithin m.0) }
{
    month_of_text(text?.as_bytes())
}
