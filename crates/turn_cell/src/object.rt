//! The sequential objects that a cell holds.
ghost use Rattle.std.specs.Prelude.{◌≡◌, ℕ, ◌+◌, ◌≤◌, IfOk, IfErr, OnOk, Option};
ghost use Rattle.fam_base.specs.declared.error.FamError.{FamError};
ghost use Rattle.turn_cell.specs.Refusals.{IsWant};

use fam_base::FamError;

/// A sequential object. Its meaning is what its calls read and change.
pub trait Object: Send + Drop {
    type Call: Send + Drop;

    type Reply: Send + Drop;

    ghost Meaning: { Type 0 };

    ghost meaning: { Self → Meaning };
    // At this meaning the call may be answered so, and leaves that meaning.
    ghost gives: { Meaning → Self.Call → Self.Reply → Meaning → Type 0 };
    // How many entries the call needs, and how many are reserved.
    ghost needs: { Meaning → Self.Call → ℕ };

    ghost held_back: { Meaning → ℕ };
    // The owner of a call.
    ghost owner: { Self.Call → Option ℕ };
    // What a caller of `room` shows. It is nothing where `room` itself tests the condition of the call.
    ghost asks: { Meaning → Self.Call → Type 0 };
    // The condition of the call. It holds where `room` gave a reply.
    ghost fits: { Meaning → Self.Call → Type 0 };
    // `room` was made for this call, and gave this reply.
    ghost ready: { Self → Self.Call → Self.Reply → Type 0 };
    // `room` may refuse the call so.
    ghost refuses: { Meaning → Self.Call → FamError → Type 0 };

    /// How many entries the call needs beside those that are reserved.
    fn need(&self, call: &Self::Call) -> u64
        ensures { result ≡ needs (meaning self.now) call.now };

    /// How many entries are reserved for calls to come.
    fn reserved(&self) -> u64
        ensures { result ≡ held_back (meaning self.now) };

    /// Makes room, so that `apply` takes no memory, and gives a reply for it to fill in. The meaning stays.
    fn room(&mut self, call: &Self::Call) -> Result<Self::Reply, FamError>
        requires { asks (meaning self.old) call.now }
        ensures same { meaning self.new ≡ meaning self.old }
        ensures fits { OnOk result (fits (meaning self.old) call.now) }
        ensures ready { IfOk result (λ r. ready self.new call.now r) }
        ensures refused { IfErr result (λ e. IsWant e × refuses (meaning self.old) call.now e) }
        ensures still { (r : Self.Reply) → ready self.old call.now r → ready self.new call.now r };

    /// Makes the call. Both replies, which `room` gave for it, become the answer: one stands in the entry, the other goes to the caller.
    fn apply(&mut self, call: &Self::Call, out: &mut Self::Reply, copy: &mut Self::Reply)
        requires { fits (meaning self.old) call.now × ready self.old call.now out.old × ready self.old call.now copy.old }
        ensures answer { gives (meaning self.old) call.now out.new (meaning self.new) }
        ensures copy { copy.new ≡ out.new }
        ensures reserved { held_back (meaning self.new) + 1 ≤ held_back (meaning self.old) + needs (meaning self.old) call.now };
}
