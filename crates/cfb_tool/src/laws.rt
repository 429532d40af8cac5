//! What is told to be done is stored. Neither function does anything: each has laws as its
//! contract.
ghost use Rattle.cfb_tool.specs.Laws.{AddedIsStored, DumpIsRebuilt, PutIsStored};
ghost use Rattle.cfb_whole_streams.specs.Laws.{WrittenIsStored};

use cfb_rules::laws::Seen;

/// Where a `put` or an `add` that was done to its end tells no refusal, or a stream was written whole
/// by one command, the stream at that path has exactly the bytes, and the file has not failed.
pub fn what_is_told_is_stored<S: Seen>()
    ensures written { WrittenIsStored S.seen S.promised }
    ensures put { PutIsStored S.seen S.promised }
    ensures added { AddedIsStored S.seen S.promised }
{}

/// Where all commands of a dump are done in an empty file, it has the tree that was dumped.
pub fn what_is_dumped_is_rebuilt<S: Seen>()
    ensures { DumpIsRebuilt S.seen S.promised }
{}
