//! The [`Clerk`] trait: an object that stands behind a desk and answers one request at a time.

ghost use Rattle.std.specs.Prelude.{ℕ};

/// An object that answers one request at a time, and says what the history keeps of it.
///
/// Whatever can go wrong in a call, such as running out of memory or a fault of a device, is an answer like any other:
/// it has an entry, and later requests are answered in the state that it leaves.
pub trait Clerk: Drop {
    /// What a caller asks. It brings along the memory that its entry takes, so that an entry is never lost.
    type Request: Drop;
    /// What a caller is answered.
    type Reply: Drop;
    /// What the history keeps of a call.
    type Entry: Drop;
    /// What contracts see of the object. No value of it need be made.
    type State;

    // The state that the object is in.
    ghost state: { Self → Self.State };

    // Whether the call that an entry is of may be made in the first state, and leave the second. It is a relation, since
    // no contract says when memory is refused or a device fails.
    ghost step: { Self.State → Self.Entry → Self.State → Type 0 };

    // Whether an entry is of this request and this reply.
    ghost tells: { Self.Entry → Self.Request → Self.Reply → Type 0 };

    /// Answers a request, with the entry of the call. The entry takes no memory but what the request brought.
    fn answer(&mut self, request: Self::Request) -> (Self::Reply, Self::Entry)
        ensures step { step (state self.old) result.1 (state self.new) }
        ensures entry { tells result.1 request result.0 };
}
