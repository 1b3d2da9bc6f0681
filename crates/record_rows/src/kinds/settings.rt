// Kind 1: what a store is set up with.
ghost use Rattle.std.specs.Prelude.{◌≡◌, ◌↔◌, ◌≤◌, ◌++◌, length, IsTrue, refl};
ghost use Rattle.std.proofs.Common.{sym};
ghost use Rattle.sat_base.specs.declared.kinds.TheConstants as kinds;
ghost use Rattle.sat_base.specs.declared.limits.TheConstants as limits;
ghost use Rattle.record_kinds.specs.declared.rec.Rec.TheVariants as rec;
ghost use Rattle.record_rows.specs.Settings.{scheme_bytes, settings_body};
ghost use Rattle.record_rows.specs.Fits.{SettingsFit, IsVetting};
ghost use Rattle.record_rows.specs.Numbers.{be8, be16};
ghost use Rattle.record_rows.specs.Laws.Apart.{four_first};
ghost use Rattle.record_rows.specs.Laws.Kinds.{the_settings};
ghost use Rattle.record_rows.specs.Laws.Records.{settings_apart, some_settings};

pub(crate) mod version1;

use crate::coded::{Coded, Spelled, Unread};
use crate::kind::Kind;
use crate::made::{Made, take_made};
use record_kinds::Rec;
use sat_base::{Caps, Month, NoMemory, Scheme, Settings, kinds, limits};
use std::alloc::Global;

/// The byte that the body begins with.
const VERSION: u8 = 2;

/// The greatest percent of places for fresh nodes.
const PERCENT: u8 = 100;

// The version, the secret, the scheme, and from how many audits on a node is vetted.
type Front = (u8, ([u8; 32], (Scheme, u16)));

type Fields = (Front, (u8, (Caps, Month)));

/// Whether nodes may be vetted so, and so many percent of places go to fresh ones.
pub(crate) fn is_vetting(vet: u16, fresh: u8) -> bool
    ensures { IsTrue result ↔ IsVetting vet fresh }
{
    1 <= vet && vet <= limits::VET && fresh <= PERCENT
}

impl Made for Settings {
    type Fields = Fields;

    ghost fields = { λ s. ((2, (s.secret, (s.scheme, s.vet))), (s.fresh, (s.caps, s.first_month))) };

    ghost bytes_of = { settings_body };

    ghost allows = { λ s. IsVetting s.vet s.fresh };

    fn of(given: Fields) -> Option<Self> {
        let (front, (fresh, (caps, first_month))) = given;
        let (version, (secret, (scheme, vet))) = front;
        if version != VERSION || !is_vetting(vet, fresh) {
            return None;
        }
        Some(Settings {
            secret,
            scheme,
            vet,
            fresh,
            caps,
            first_month,
        })
    }

    ghost spelled = { λ s.
        sym (four_first (be8 2) s.secret (scheme_bytes s.scheme.k s.scheme.m s.scheme.o s.scheme.n s.scheme.share) (be16 s.vet) _) };
}

impl Spelled for Settings {
    ghost spelling = { settings_body };

    fn put(&self, out: &mut Vec<u8>) -> Result<(), NoMemory> {
        let behind = (self.vet, (self.fresh, (self.caps, self.first_month)));
        (VERSION, (self.secret, (self.scheme, behind))).put(out)
    }
}

impl Coded for Settings {
    ghost fits = { SettingsFit };

    fn take(alloc: Global, bytes: &[u8]) -> Result<(Self, usize), Unread> {
        take_made(alloc, bytes)
    }

    ghost apart = { settings_apart };

    ghost some = { some_settings };
}

impl Kind for Settings {
    type Id = ();

    type Body = Settings;

    ghost KIND = { kinds.SETTINGS };

    const KIND: u8 = kinds::SETTINGS;

    ghost rec = { rec.Settings };

    ghost made = { λ _ settings. rec.Settings settings };

    fn put_id(&self, _out: &mut Vec<u8>) -> Result<(), NoMemory> {
        Ok(())
    }

    fn put_body(&self, out: &mut Vec<u8>) -> Result<(), NoMemory> {
        self.put(out)
    }

    fn of(_id: (), body: Settings) -> Rec {
        Rec::Settings(body)
    }

    ghost kind = { λ s. refl };

    ghost parts = { record {
      row = λ id body. refl;
      ranked = λ id body. refl;
      parted = λ id body fits. (tt, fits);
      joined = λ id body id_fits body_fits. body_fits;
      whole = λ rec is. let s = the_settings rec is in (tt, s.0, s.1);
    } };
}
