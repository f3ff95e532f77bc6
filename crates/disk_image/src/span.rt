//! The bytes of a piece.
ghost use Rattle.std.specs.Prelude.{◌≡◌, ◌+◌, ◌^◌, ◌<◌, ◌≤◌};
ghost use Rattle.disk_image.specs.Parts.{piece_span};

use mirror_pieces::piece_range;
use tiger_base::Span;

/// The bytes of the file that piece `k` of a block has; piece 0 is the whole block.
pub fn piece_span(block: Span, pieces: u32, k: u32) -> Span
    requires piece { k ≤ pieces }
    requires short { block.len ≤ 2 ^ 20 }
    requires room { block.from + block.len < 2 ^ 64 }
    ensures { result ≡ piece_span block pieces k }
{
    if k == 0 {
        return block;
    }
    let (from, to) = piece_range(block.len, pieces, k);
    Span {
        file: block.file,
        from: block.from + from,
        len: to - from,
    }
}
