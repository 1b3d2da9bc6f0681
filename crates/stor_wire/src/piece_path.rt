// The paths of pieces.
ghost use Rattle.std.specs.Prelude.{◌≡◌, ℕ, IfSome, IfNone};
ghost use Rattle.sat_base.specs.declared.ids.SegId.{SegId};
ghost use Rattle.stor_wire.specs.PathSteps.{piece_at};
ghost use Rattle.stor_wire.specs.Paths.{IsPath};

use sat_base::{SegId, cut, number};

/// The segment and the index of a piece's path.
pub(crate) fn piece_of(path: &[u8]) -> Option<(SegId, u8)>
    ensures found { IfSome result (λ piece. IsPath path.now piece.0 piece.1) }
    ensures none { IfNone result ((segment : SegId) (index : ℕ) → IsPath path.now segment index → ⊥) }
{
    find_piece(path)
}

fn find_piece(path: &[u8]) -> Option<(SegId, u8)>
    ensures { result ≡ piece_at path.now }
{
    let Some(rest) = path.strip_prefix(b"/piece/") else {
        return None;
    };
    let (segment, index) = cut(rest, b'/')?;
    let segment = number(segment, u64::MAX)?;
    let index = number(index, 255)?;
    Some((SegId(segment), index as u8))
}
