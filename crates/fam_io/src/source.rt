//! Where bytes come from.

ghost use Rattle.std.specs.Prelude.{◌≡◌, ◌<◌, length, take, IfOk, OnErr};
ghost use Rattle.std.specs.Io.{ReadsAtMost};
ghost use Rattle.std.specs.Io.KnownBytes.{IsAtEnd};
ghost use Rattle.fam_base.specs.Causes.{HasCause};
ghost use Rattle.fam_io.specs.State.{SourceState, SinkState, Moves, MovesUpTo, no_sink};

use fam_base::Failed;

/// Bytes that come from the outside. It may tell what was read of it, and what is left.
pub trait Source {
    ghost source: { Self → SourceState };

    // What the object is as a sink, where it is one too. `Link` says so.
    ghost sink_beside: { Self → SinkState } = { λ _. no_sink };

    /// Gives at most as many bytes as there is room. 0 where there is room is the end of input.
    /// A read that fails may have moved bytes from what is left to what was read.
    fn read(&mut self, into: &mut [u8]) -> Result<usize, Failed>
        ensures bound { ReadsAtMost result into.new }
        ensures bytes { IfOk result (λ n.
            Moves (source self.old) (source self.new) (take n into.new)) }
        ensures end { IfOk result (λ n.
            n ≡ 0 → 0 < length into.old → IsAtEnd (source self.new).left) }
        ensures lost { OnErr result
            (MovesUpTo (source self.old) (source self.new) (length into.old)) }
        ensures cause { HasCause (source self.old).faults (source self.new).faults result }
        ensures beside { sink_beside self.new ≡ sink_beside self.old };

    /// How often a read has failed.
    fn read_faults(&self) -> u64
        ensures { result ≡ (source self.now).faults };
}
