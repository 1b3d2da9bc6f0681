//! A law of the two ways to rebuild, as the contract of a function that does nothing.

ghost use Rattle.std.specs.Prelude.{◌≡◌, ◌≤◌, ◌<◌, ◌+◌, ◌↔◌, ℕ, List, length};
ghost use Rattle.sat_base.specs.declared.items.Share.{Share};
ghost use Rattle.sat_base.specs.Scheme.{stripe_count};
ghost use Rattle.repair_core.specs.Answers.{answers_at};
ghost use Rattle.repair_core.specs.Stripes.{HasNear, IsUnclear};
ghost use Rattle.repair_core.specs.Rebuilt.{IsRebuilt};
ghost use Rattle.repair_core.specs.Progress.{Progress};
ghost use Rattle.repair_core.specs.Windows.{AreWhole, IsUnderWay, IsUnclearWindow, window_of, next_stripes};

/// To rebuild in windows, whatever their length, comes to what it comes to whole, where the windows' shares are cut
/// from whole pieces of right length: the same are blamed, the same pieces are made, and the refusals agree.
pub fn windows_agree()
    // A segment of some bytes has a window.
    ensures some { (k size len : ℕ) → 1 ≤ k → 1 ≤ size → 1 ≤ len → 1 ≤ stripe_count k size len }

    // At the end.
    ensures same { (k size n window count : ℕ) (sources targets : List ℕ) (pieces : List Share) (now : Progress)
        → 1 ≤ k → 1 ≤ size → k ≤ 256 → AreWhole size count sources pieces
        → IsUnderWay k size n window count sources targets pieces now → now.done ≡ now.count
        → (bytes blamed : List ℕ) (fresh : List Share) → IsRebuilt k size count targets pieces bytes blamed fresh
        → (now.blamed ≡ blamed) × (now.fresh ≡ fresh) }

    // Too few are too few both ways.
    ensures few { (k size n window count : ℕ) (sources targets : List ℕ) (pieces : List Share) (now : Progress)
        → AreWhole size count sources pieces → IsUnderWay k size n window count sources targets pieces now
        → (length (window_of now pieces) < now.k) ↔ (length pieces < k) }

    // The first stripe that none is near is the same, and the window that it falls into refuses it.
    ensures unclear { (k size n window count : ℕ) (sources targets : List ℕ) (pieces : List Share) (now : Progress)
        → AreWhole size count sources pieces → IsUnderWay k size n window count sources targets pieces now
        → (s : ℕ) → IsUnclearWindow now (window_of now pieces) s
        ↔ (IsUnclear k size count pieces s × (s < now.done + next_stripes now)) }

    // A finished stripe has a near one, and where a stripe of the segment has, that of the window has.
    ensures finished { (k size n window count : ℕ) (sources targets : List ℕ) (pieces : List Share) (now : Progress)
        → AreWhole size count sources pieces → IsUnderWay k size n window count sources targets pieces now
        → (s : ℕ) → s < now.done → HasNear k size (answers_at size count s pieces) }
    ensures left { (k size n window count : ℕ) (sources targets : List ℕ) (pieces : List Share) (now : Progress)
        → AreWhole size count sources pieces → IsUnderWay k size n window count sources targets pieces now
        → (s : ℕ) → s < next_stripes now → HasNear k size (answers_at size count (now.done + s) pieces)
        → HasNear now.k now.size (answers_at now.size (next_stripes now) s (window_of now pieces)) }
{}
