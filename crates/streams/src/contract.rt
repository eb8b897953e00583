// The trait `Stream`: a hash or a tag in progress.
ghost use Rattle.std.specs.Prelude.{◌≡◌, ℕ, List, [], ◌++◌};

/// A function of messages in progress. Its meaning is a function from the bytes that may still follow to the final
/// result: so a new stream, an update by a, an update by b and a finish give the function of a and b together, with no
/// word of how the bytes are held in between.
pub trait Stream: Sized {
    /// The final result.
    type Output;

    /// The final result once these bytes have come too.
    ghost after: { Self → List ℕ → Self.Output };

    /// Takes in the bytes.
    fn update(&mut self, bytes: &[u8])
        ensures { (rest : List ℕ) → after self.new rest ≡ after self.old (bytes.now ++ rest) };

    /// The same with the bytes taken in.
    final fn with(mut self, bytes: &[u8]) -> Self
        ensures { (rest : List ℕ) → after result rest ≡ after self (bytes.now ++ rest) }
    {
        self.update(bytes);
        self
    }

    /// The result for the bytes that have come.
    fn finish(self) -> Self::Output
        ensures { result ≡ after self [] };
}
