// Pieces that stand one after another: the parts of a class name, the segments of a path, the names of parameters.
ghost use Rattle.std.specs.Prelude.{◌≡◌, option_map};
ghost use Rattle.gl_ast.specs.Scans.{after_pieces};
ghost use Rattle.gl_ast.specs.Words.{after_more_class, after_segment, after_spaced_name};
ghost use Rattle.gl_lex.specs.Class.{after_piece};

use crate::words::{after_more_class, after_segment, after_spaced_name};

/// A piece that may stand any number of times.
#[derive(Clone, Copy)]
pub enum Piece {
    /// `::` and a part of a class name.
    ClassPart,
    /// `.` and a segment.
    Segment,
    /// White space and a name that is not reserved.
    Name,
}

impl Piece {
    /// After one of them.
    pub fn after(self, bytes: &[u8]) -> Option<&[u8]>
        ensures { option_map (λ r. r.now) result ≡ after_piece self bytes.now }
    {
        match self {
            Piece::ClassPart => after_more_class(bytes),
            Piece::Segment => after_segment(bytes),
            Piece::Name => after_spaced_name(bytes),
        }
    }
}

/// After all of them.
pub fn after_pieces(piece: Piece, bytes: &[u8]) -> &[u8]
    ensures { result.now ≡ after_pieces (after_piece piece) 0 bytes.now }
{
    let mut rest = bytes;
    while let Some(next) = piece.after(rest) {
        rest = next;
    }
    rest
}
