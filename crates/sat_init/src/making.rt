// The store is made.
ghost use Rattle.std.specs.Prelude.{◌≡◌, ◌≤◌, ◌⊎◌, ℕ, [], IfOk, IfErr, MatchResult};
ghost use Rattle.sat_base.specs.Month.{IsMonthOf};
ghost use Rattle.sat_base.specs.Outside.{Rose};
ghost use Rattle.sat_base.specs.Rows.{Rows, AreThe, changed};
ghost use Rattle.sat_init.specs.Init.{Cause, IsMade, Makes};
ghost use Rattle.sat_init.specs.NewStore.{new_rows, puts};

use crate::secret::secret_of;
use crate::setup::{InitErr, Setup};
use order_limits::Keys;
use record_rows::{write_marks, write_settings, write_tariff};
use sat_base::{
    Change, Clock, Committed, Hour, Keeper, Loaded, Marks, Moment, NoMemory, Settings, Tariff,
    Words, month_of,
};
use std::alloc::Global;

// The changes that make the store, with the month of the moment.
fn changes_of(
    alloc: Global,
    setup: &Setup,
    secret: [u8; 32],
    now: Moment,
) -> Result<Vec<Change>, NoMemory>
    ensures { IfOk result (λ changes. (month : ℕ) × IsMonthOf now month
        × (changes.items ≡ puts (new_rows setup.now secret now month))) }
{
    let month = month_of(now)?;
    let settings = Settings {
        secret,
        scheme: setup.scheme,
        vet: setup.vet,
        fresh: setup.fresh,
        caps: setup.caps,
        first_month: month,
    };
    let marks = Marks {
        time: now,
        segment: 1,
        serial: 1,
        plan: 1,
        month,
        hour: Hour(now.seconds() / 3600),
    };
    let tariff = Tariff {
        from: month,
        rates: setup.rates,
    };
    let settings = Change::Put(write_settings(alloc, &settings)?);
    let marks = Change::Put(write_marks(alloc, &marks)?);
    let tariff = Change::Put(write_tariff(alloc, &tariff)?);
    Ok(vec![in alloc; settings, marks, tariff]?)
}

// Whether the keeper has no row.
fn look<K: Keeper>(alloc: Global, keeper: &mut K) -> Result<(), InitErr>
    ensures clean { (K.about keeper.new).is_clean → (K.about keeper.old).is_clean }
    ensures opened { (K.about keeper.new).is_open → (K.about keeper.old).is_open }
    ensures told { (K.about keeper.new).is_open → (K.about keeper.old).tells → (K.about keeper.new).tells }
    ensures kept { (K.about keeper.new).is_open → (K.about keeper.old).tells → (K.about keeper.new).rows ≡ (K.about keeper.old).rows }
    ensures crash { (K.about keeper.new).is_clean → (m : Rows) → (K.about keeper.new).leaves m → (K.about keeper.old).leaves m }
    ensures faults { (K.about keeper.old).faults ≤ (K.about keeper.new).faults }
    ensures none { IfOk result (λ _. (K.about keeper.new).is_open → (K.about keeper.old).tells → AreThe (K.about keeper.old).rows []) }
    ensures cause { (before after : ℕ) → IfErr result (λ e. Cause e (K.about keeper.old).faults (K.about keeper.new).faults before after
        ((K.about keeper.new).is_open × (K.about keeper.old).tells) (K.about keeper.old).rows) }
{
    match keeper.load(alloc) {
        Loaded::Rows(rows) if rows.is_empty() => Ok(()),
        Loaded::Rows(_) => Err(InitErr::NotEmpty),
        Loaded::Fault => Err(InitErr::StoreFault),
        Loaded::NoMemory => Err(InitErr::NoMemory),
    }
}

// Commits the records of the store.
fn put<K: Keeper>(
    alloc: Global,
    setup: &Setup,
    keeper: &mut K,
    secret: [u8; 32],
    now: Moment,
) -> Result<(), InitErr>
    ensures clean { (K.about keeper.new).is_clean → (K.about keeper.old).is_clean }
    ensures opened { (K.about keeper.new).is_open → (K.about keeper.old).is_open }
    ensures told { (K.about keeper.new).is_open → (K.about keeper.old).tells → (K.about keeper.new).tells }
    ensures done { IfOk result (λ _. (month : ℕ) × IsMonthOf now month × ((K.about keeper.new).is_open → (K.about keeper.old).tells
        → (K.about keeper.new).rows ≡ changed (puts (new_rows setup.now secret now month)) (K.about keeper.old).rows)) }
    ensures left { IfErr result (λ _. (K.about keeper.new).is_open → (K.about keeper.old).tells → (K.about keeper.new).rows ≡ (K.about keeper.old).rows) }
    ensures cause { IfErr result (λ e. (e ≡ InitErr.StoreFault → Rose (K.about keeper.old).faults (K.about keeper.new).faults)
        × ((e ≡ InitErr.NotEmpty) ⊎ (e ≡ InitErr.WordsFault) → ⊥)) }
    ensures crash { (K.about keeper.new).is_clean → (m : Rows) → (K.about keeper.new).leaves m → (K.about keeper.old).leaves m
        ⊎ ((K.about keeper.old).is_open × IsMade setup.now (K.about keeper.old).tells (K.about keeper.old).rows m) }
    ensures open { IfOk result (λ _. (K.about keeper.new).is_clean → (K.about keeper.new).is_open) }
    ensures faults { (K.about keeper.old).faults ≤ (K.about keeper.new).faults }
{
    let Ok(changes) = changes_of(alloc, setup, secret, now) else {
        return Err(InitErr::NoMemory);
    };
    match keeper.commit(alloc, &changes) {
        Committed::Done => Ok(()),
        Committed::Fault => Err(InitErr::StoreFault),
        Committed::NoMemory => Err(InitErr::NoMemory),
    }
}

/// Makes a store in a keeper that has no rows, and gives the operator's key. Its settings, its marks and the tariff of its
/// first month are committed at once, at the clock's next moment. Without a secret the next four words are drawn as one.
///
/// Errors: `NotEmpty` where the keeper has a row; `StoreFault` and `WordsFault` only where that count of faults rose;
/// `NoMemory` has no cause that a clause names. The keeper's rows are then as they were. A crash leaves these, or those of
/// the store.
pub fn init<K: Keeper, T: Clock, W: Words>(
    alloc: Global,
    setup: &Setup,
    keeper: &mut K,
    clock: &mut T,
    words: &mut W,
) -> Result<[u8; 32], InitErr>
    ensures made { IfOk result (λ key. Makes setup.now (record {
      coming = T.coming clock.old;
      coming_after = T.coming clock.new;
      words = W.left words.old;
      words_after = W.left words.new;
    }) key ((K.about keeper.new).is_open × (K.about keeper.old).tells) (K.about keeper.new).rows) }
    ensures cause { IfErr result (λ e. Cause e (K.about keeper.old).faults (K.about keeper.new).faults
        (W.faults words.old) (W.faults words.new) ((K.about keeper.new).is_open × (K.about keeper.old).tells) (K.about keeper.old).rows) }
    ensures left { IfErr result (λ _. (K.about keeper.new).is_open → (K.about keeper.old).tells → (K.about keeper.new).rows ≡ (K.about keeper.old).rows) }
    ensures clean { (K.about keeper.new).is_clean → (K.about keeper.old).is_clean }
    ensures opened { (K.about keeper.new).is_open → (K.about keeper.old).is_open }
    ensures told { (K.about keeper.new).is_open → (K.about keeper.old).tells → (K.about keeper.new).tells }
    ensures open { IfOk result (λ _. (K.about keeper.new).is_clean → (K.about keeper.new).is_open) }
    ensures crash { (K.about keeper.new).is_clean → (m : Rows) → (K.about keeper.new).leaves m → (K.about keeper.old).leaves m
        ⊎ ((K.about keeper.old).is_open × IsMade setup.now (K.about keeper.old).tells (K.about keeper.old).rows m) }
    ensures faults { (K.about keeper.old).faults ≤ (K.about keeper.new).faults }
    ensures words_faults { W.faults words.old ≤ W.faults words.new }
{
    look(alloc, keeper)?;
    let secret = secret_of(alloc, setup.secret, words)?;
    let now = Moment::of(clock.now());
    put(alloc, setup, keeper, secret, now)?;
    Ok(Keys::new(secret).operator())
}
