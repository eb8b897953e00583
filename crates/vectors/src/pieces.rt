// A function of messages fed piece by piece, as a caller does whose bytes do not lie side by side.
use streams::Stream;

// A length that fits no block, so that pieces and blocks fall apart.
const PIECE: usize = 13;

/// The result for a whole message in pieces, of which the last may be shorter.
pub fn in_pieces<S: Stream>(mut stream: S, message: &[u8]) -> S::Output {
    for piece in message.chunks(PIECE) {
        stream.update(piece);
    }
    stream.finish()
}
