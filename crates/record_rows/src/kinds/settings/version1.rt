// Settings as version 1 had them: without a version, and with the rates of every month.
ghost use Rattle.std.specs.Prelude.{◌≡◌, IfOk, IfErr, refl};
ghost use Rattle.sat_base.specs.declared.kinds.TheConstants as kinds;
ghost use Rattle.record_rows.specs.declared.version.Version.TheVariants as versions;
ghost use Rattle.record_rows.specs.Fits.{IsVetting};
ghost use Rattle.record_rows.specs.Version1.{IsOldRow, old_settings_body};
ghost use Rattle.record_rows.specs.Versions.{IsCause};

use crate::coded::Unread;
use crate::kind::{RowErr, read_whole};
use crate::kinds::settings::is_vetting;
use crate::made::Made;
use sat_base::{Caps, Month, Rates, Row, Scheme, Settings};
use std::alloc::Global;

/// Settings, and the rates beside them.
#[derive(Clone, Copy)]
pub(crate) struct Settings1 {
    pub settings: Settings,
    pub rates: Rates,
}

type Fields = ([u8; 32], (Scheme, (u16, (u8, (Rates, (Caps, Month))))));

impl Made for Settings1 {
    type Fields = Fields;

    ghost fields = { λ old. let s = old.settings in
        (s.secret, (s.scheme, (s.vet, (s.fresh, (old.rates, (s.caps, s.first_month)))))) };

    ghost bytes_of = { λ old. old_settings_body old.settings old.rates };

    ghost allows = { λ old. IsVetting old.settings.vet old.settings.fresh };

    fn of(given: Fields) -> Option<Self> {
        let (secret, (scheme, (vet, (fresh, (rates, (caps, first_month)))))) = given;
        if !is_vetting(vet, fresh) {
            return None;
        }
        let settings = Settings {
            secret,
            scheme,
            vet,
            fresh,
            caps,
            first_month,
        };
        Some(Settings1 { settings, rates })
    }

    ghost spelled = { λ old. refl };
}

/// Reads settings of version 1.
pub(crate) fn read_settings(alloc: Global, row: &Row) -> Result<Settings1, RowErr>
    requires { row.now.kind ≡ kinds.SETTINGS }
    ensures found { IfOk result (λ old. IsOldRow row.now old.settings old.rates) }
    ensures cause { IfErr result (IsCause versions.One row.now) }
{
    if !row.id.is_empty() {
        return Err(RowErr::Id);
    }
    match read_whole::<Fields>(alloc, row.body.as_slice()) {
        Ok(fields) => Settings1::of(fields).ok_or(RowErr::Body),
        Err(Unread::Form) => Err(RowErr::Body),
        Err(Unread::NoMemory) => Err(RowErr::NoMemory),
    }
}
