//! Where bytes go.

ghost use Rattle.std.specs.Prelude.{◌≡◌, ◌<◌, length, take, IfOk, OnErr};
ghost use Rattle.std.specs.Io.{WritesAtMost};
ghost use Rattle.std.specs.Io.KnownBytes.{Appends};
ghost use Rattle.fam_base.specs.Causes.{HasCause};
ghost use Rattle.fam_io.specs.State.{SourceState, SinkState, AddsPrefix, no_source};

use fam_base::Failed;

/// Bytes that go to the outside. It may tell what was written to it.
pub trait Sink {
    ghost sink: { Self → SinkState };

    // What the object is as a source, where it is one too. `Link` says so.
    ghost source_beside: { Self → SourceState } = { λ _. no_source };

    /// Takes bytes from the front of the piece, at least one where the piece is not empty.
    /// A write that fails may have added a prefix of the piece.
    fn write(&mut self, from: &[u8]) -> Result<usize, Failed>
        ensures bound { WritesAtMost result from.now }
        ensures some { IfOk result (λ n. 0 < length from.now → 0 < n) }
        ensures bytes { IfOk result (λ n.
            Appends (sink self.old).written (sink self.new).written (take n from.now)) }
        ensures lost { OnErr result (AddsPrefix (sink self.old) (sink self.new) from.now) }
        ensures cause { HasCause (sink self.old).faults (sink self.new).faults result }
        ensures beside { source_beside self.new ≡ source_beside self.old };

    /// How often a write has failed.
    fn write_faults(&self) -> u64
        ensures { result ≡ (sink self.now).faults };
}
