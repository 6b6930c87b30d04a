// Prints octets by the pieces of a hint.
ghost use Rattle.std.specs.Prelude.{◌≤◌, ◌≡◌, true, length};
ghost use Rattle.hint_form.specs.Hint.{read_hint, is_pieces, pieces_in};
ghost use Rattle.hint_piece.specs.Followed.{Followed};
ghost use Rattle.hint.specs.Print.{printing};

use hint_form::piece_at;
use hint_piece::{BadOctet, print_uses, repeats_of, uses_start};

// Writes a value by the pieces of a hint, the last of which repeats, or refuses the octet at fault. Indices, not iterators: a step
// is of as many octets as the piece says, and of as many bytes as it has.
pub fn print_pieces(hint: &[u8], value: &[u8], out: &mut [u8]) -> Result<usize, BadOctet>
    requires readable { is_pieces (read_hint hint.now) ≡ true }
    requires short { length value.now ≤ 1024 }
    requires room { length out.old ≡ 4096 }
    ensures { Followed (printing (pieces_in (read_hint hint.now)) value.now)
        0 result out.old out.new }
{
    let mut cursor = 0;
    let mut at = 0;
    let mut pos = 0;
    while at < value.len() {
        let Some((piece, next)) = piece_at(hint, cursor) else {
            return Ok(pos);
        };
        let start = uses_start(piece, at);
        let count = repeats_of(piece, value, at);
        pos = print_uses(value, start, piece, count, out, pos)?;
        at = start + count * piece.size;
        if next < hint.len() {
            cursor = next;
        }
    }
    Ok(pos)
}
