// Months and rates in a body.
ghost use Rattle.std.specs.Prelude.{◌≡◌, ◌≤◌, codes, IfOk};
ghost use Rattle.sat_base.specs.Limits.{AreRatesWithin, IsMonthWithin};
ghost use Rattle.sat_base.specs.declared.limits.TheConstants.{RATE};
ghost use Rattle.serde_json.specs.View.{view as data_of};
ghost use Rattle.http_edge.specs.Fields.{month_at, rate_at, rates_at};

use crate::errors::EdgeErr;
use crate::fields::{text_of, whole_number};
use month_text::month_of_text;
use sat_base::{Month, Rates, limits};
use serde_json::Value;

/// The month that a body names.
pub(crate) fn month_from(value: &Value) -> Result<Month, EdgeErr>
    ensures month { result ≡ month_at (data_of value.now) }
    ensures within { IfOk result (λ m. IsMonthWithin m.0) }
{
    let Some(text) = text_of(value, "month") else {
        return Err(EdgeErr::Field { place: 8 });
    };
    match month_of_text(text.as_bytes()) {
        Some(month) => Ok(month),
        None => Err(EdgeErr::Field { place: 8 }),
    }
}

fn rate_of(value: &Value, name: &str, place: u8) -> Result<u64, EdgeErr>
    ensures rate { result ≡ rate_at place name.now (data_of value.now) }
    ensures within { IfOk result (λ rate. rate ≤ RATE) }
{
    match whole_number(value, name) {
        Some(rate) if rate <= limits::RATE => Ok(rate),
        _ => Err(EdgeErr::Field { place }),
    }
}

/// The rates that a body sets.
pub(crate) fn rates_from(value: &Value) -> Result<Rates, EdgeErr>
    ensures rates { result ≡ rates_at (data_of value.now) }
    ensures within { IfOk result AreRatesWithin }
{
    let get = rate_of(value, "get", 9)?;
    let audit = rate_of(value, "audit", 10)?;
    let repair = rate_of(value, "repair", 11)?;
    let storage = rate_of(value, "storage", 12)?;
    Ok(Rates {
        get,
        audit,
        repair,
        storage,
    })
}
