//! What a worker does in a phase that sends: its feed's rows, into its sink.
ghost use Rattle.std.specs.Prelude.{◌≡◌};

use crate::feed::Feed;
use dia_edge::Disk;
use std::marker::PhantomData;
use std::snapshot::Snapshot;

mod task;

/// A feed whose rows go into a sink. Contracts see both as they are, and as they were at its making.
#[derive(Drop)]
pub struct Sending<'p, D: Disk, S> {
    pub(crate) feed: Feed,
    pub(crate) sink: S,
    pub(crate) feed_was: Snapshot<Feed>,
    pub(crate) sink_was: Snapshot<S>,
    pub(crate) of: PhantomData<(&'p (), D)>,
}

impl<'p, D: Disk, S> Sending<'p, D, S> {
    /// Nothing was sent yet.
    pub fn new(feed: Feed, sink: S) -> Sending<'p, D, S>
        ensures feed { result.feed ≡ feed }
        ensures sink { result.sink ≡ sink }
        ensures feed_was { result.feed_was.value ≡ feed }
        ensures sink_was { result.sink_was.value ≡ sink }
    {
        let feed_was = Snapshot::of(&feed);
        let sink_was = Snapshot::of(&sink);
        Sending {
            feed,
            sink,
            feed_was,
            sink_was,
            of: PhantomData,
        }
    }
}
