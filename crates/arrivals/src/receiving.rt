//! What a worker does in a phase that receives: the rows of its box, into its sink.
ghost use Rattle.std.specs.Prelude.{◌≡◌, false};

use cat_stream::CatReader;
use dia_edge::Disk;
use std::marker::PhantomData;
use std::snapshot::Snapshot;

mod task;

/// A reader whose rows go into a sink. Contracts see both as they are, and as they were at its making.
#[derive(Drop)]
pub struct Receiving<'p, D: Disk, S> {
    pub(crate) reader: CatReader,
    /// Whether a block is pinned.
    pub(crate) pinned: bool,
    pub(crate) sink: S,
    pub(crate) reader_was: Snapshot<CatReader>,
    pub(crate) sink_was: Snapshot<S>,
    pub(crate) of: PhantomData<(&'p (), D)>,
}

impl<'p, D: Disk, S> Receiving<'p, D, S> {
    /// Nothing was read yet.
    pub fn new(reader: CatReader, sink: S) -> Receiving<'p, D, S>
        ensures reader { result.reader ≡ reader }
        ensures sink { result.sink ≡ sink }
        ensures pinned { result.pinned ≡ false }
        ensures reader_was { result.reader_was.value ≡ reader }
        ensures sink_was { result.sink_was.value ≡ sink }
    {
        let reader_was = Snapshot::of(&reader);
        let sink_was = Snapshot::of(&sink);
        Receiving {
            reader,
            pinned: false,
            sink,
            reader_was,
            sink_was,
            of: PhantomData,
        }
    }
}
