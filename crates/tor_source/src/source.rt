//! Where the bytes of files come from: each file by its number.
ghost use Rattle.std.specs.Prelude.{◌≡◌, ◌≤◌, ◌<◌, None, Some, Ok, IfErr, IfOk, length};
ghost use Rattle.tor_source.specs.Answers.{Answers};
ghost use Rattle.tor_source.specs.Source.{IsReadAt, SourceFacts, told_length};

use std::fmt::Debug;

/// Files by their numbers, of which it tells the lengths and the bytes.
///
/// `FolderSource` (`folder.rt`) has files of the system; `MemSource`, `FailSource` and `ShortSource` have files in
/// memory. Three stand before another source: `Indexed` (`tor_meta`) gives its files other numbers, `Counting`
/// (`tor_cli`) counts what is read, and `OwnFiles` (`tor_recheck`) has some of its files alone.
///
/// A source is steady if it answers by facts that stay: for each file a content, or none if it is missing, and the
/// offsets that fail, each with its fault. Then `length` tells how long the content is, or the fault of the length,
/// each time. Into a buffer with room `read_at` gives from a byte that fails its fault, each time; from any other at
/// least one byte, and none from the next failing byte on; and from the end on no byte. A source need not be steady:
/// one of files that others may write is not.
pub trait Source: Sync {
    type Fault: Debug + Drop + Send;

    /// The source answers as these facts say, each time.
    ghost is_steady: { Self → SourceFacts Self.Fault → Type 0 };

    /// What the source answered. Generic code learns it from a call alone.
    ghost answers: { Self → Answers Self.Fault };

    /// How many bytes a file has; None if it is missing.
    fn length(&self, file: u64) -> Result<Option<u64>, Self::Fault>
        ensures steady { (facts : SourceFacts Self.Fault) → is_steady self.now facts → result ≡ told_length facts file }
        ensures gave { IfErr result ((answers self.now).gave file None) }
        ensures told { IfOk result ((answers self.now).told file) };

    /// Reads bytes of a file from an offset on into the buffer, and tells how many; what stands in the buffer after
    /// them is not said. A missing file has none.
    fn read_at(&self, file: u64, start: u64, buffer: &mut [u8]) -> Result<usize, Self::Fault>
        ensures steady { (facts : SourceFacts Self.Fault) → is_steady self.now facts →
            IsReadAt facts file start buffer.old buffer.new result }
        ensures within { IfOk result (λ count. count ≤ length buffer.old) }
        ensures gave { IfErr result ((answers self.now).gave file (Some start)) }
        ensures ended { result ≡ Ok 0 → 0 < length buffer.old → (answers self.now).ended file start };
}
