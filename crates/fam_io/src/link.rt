//! Both ways.

ghost use Rattle.std.specs.Prelude.{◌≡◌};

use crate::sink::Sink;
use crate::source::Source;

/// A source and a sink in one. A read leaves the sink as it was, and a write the source.
pub trait Link: Source + Sink {
    /// What a read leaves as it was is the sink.
    ghost same_sink: { (link : Self) → Self.sink_beside link ≡ Self.sink link };

    /// What a write leaves as it was is the source.
    ghost same_source: { (link : Self) → Self.source_beside link ≡ Self.source link };
}
