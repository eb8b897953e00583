// The trait `Service`: a state, and what a request does to it.
ghost use Rattle.std.specs.Prelude.{◌≡◌, ℕ, List};
ghost use Rattle.terms.specs.declared.requests.Request.{Request};
ghost use Rattle.service.specs.Writing.{length_answer, written_into};

use terms::Request;

/// A deterministic service. Its meaning is a state: the state and a request fix the next state and the reply.
pub trait Service {
    /// What the service remembers.
    ghost State: { Type 0 };

    ghost state: { Self → State };
    /// The state after a request.
    ghost next: { State → Request → State };
    /// The reply to a request: status and value.
    ghost reply: { State → Request → ℕ × ℕ };
    /// The bytes that stand for a state.
    ghost written: { State → List ℕ };

    /// Carries out a request and answers its status, 0 for success, and its value.
    fn apply(&mut self, request: Request) -> (u32, u32)
        ensures answer { result ≡ reply (state self.old) request }
        ensures after { state self.new ≡ next (state self.old) request };

    /// How many bytes the written state has.
    fn written_len(&self) -> usize
        ensures { result ≡ length_answer (written (state self.now)) };

    /// Writes the state at the front of the buffer and answers the number of bytes, or, if the buffer is too short,
    /// answers `None` and writes nothing. The bytes behind the state stay.
    fn write(&self, out: &mut [u8]) -> Option<usize>
        ensures { (result, out.new) ≡ written_into (written (state self.now)) out.old };
}
