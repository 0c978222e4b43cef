//! What codes mean, and what can be done.
ghost use Rattle.std.specs.Prelude.{◌<◌, IfOk, IsTrue, length, string_bytes};
ghost use Rattle.tor_explain.specs.Plain.{IsPlainText, begins_plain};

use crate::line::Line;
use std::alloc::{AllocError, Global};
use tor_check::{ProveError, Refusal};
use tor_source::ScanFault;
use tor_sums::EngineError;
use tor_tree::{ListError, TreeFault};
use tor_v1::LayoutError;

/// What an L code means.
pub fn list_text(alloc: Global, fault: &ListError) -> Result<String, AllocError>
    ensures plain { IfOk result (λ text. IsPlainText (string_bytes text)) }
    ensures some { IfOk result (λ text. 0 < length (string_bytes text)) }
{
    plain_text(alloc, words_of_list(fault))
}

fn words_of_list(fault: &ListError) -> &'static str
    ensures { IsTrue (begins_plain result.now) }
{
    match fault {
        ListError::NoFiles => "there is no file: a torrent has one at least",
        ListError::Duplicate => "two files have the same path: name each file once",
        ListError::FileAndFolder => {
            "the path of a file is also that of a folder of another file: leave one of them out"
        }
        ListError::TooLarge => {
            "a file has more than 2^50 bytes, or all of them together more than 2^62: make several torrents"
        }
        ListError::Memory => NO_MEMORY,
    }
}

/// What a K code means.
pub fn tree_text(alloc: Global, fault: &TreeFault) -> Result<String, AllocError>
    ensures plain { IfOk result (λ text. IsPlainText (string_bytes text)) }
    ensures some { IfOk result (λ text. 0 < length (string_bytes text)) }
{
    plain_text(alloc, words_of_tree(fault))
}

fn words_of_tree(fault: &TreeFault) -> &'static str
    ensures { IsTrue (begins_plain result.now) }
{
    match fault {
        TreeFault::Shape =>
            "a folder of the file tree is no dictionary, a key is no name, or a file has no length",
        TreeFault::Length => "a length in the file tree is below 0",
        TreeFault::Empty => "the file tree has no file: it has to have one at least",
        TreeFault::TooLarge =>
            "a length in the file tree is above 2^50, or all together are above 2^62",
        TreeFault::Symlink => "an attr in the file tree has an l, a symbolic link",
        TreeFault::Mixed => "a folder of the file tree is a file too",
        TreeFault::Root =>
            "a file in the file tree that is not empty has no pieces root of 32 bytes",
        TreeFault::Memory => NO_MEMORY,
    }
}

/// What a Y code means.
pub fn layout_text(alloc: Global, fault: &LayoutError) -> Result<String, AllocError>
    ensures plain { IfOk result (λ text. IsPlainText (string_bytes text)) }
    ensures some { IfOk result (λ text. 0 < length (string_bytes text)) }
{
    plain_text(alloc, words_of_layout(fault))
}

fn words_of_layout(fault: &LayoutError) -> &'static str
    ensures { IsTrue (begins_plain result.now) }
{
    match fault {
        LayoutError::ReservedPad => {
            "a path begins with .pad, which a hybrid keeps for its padding: rename it, or leave it out"
        }
        LayoutError::Memory => NO_MEMORY,
    }
}

/// What a P code means.
pub fn proof_text(alloc: Global, fault: &ProveError) -> Result<String, AllocError>
    ensures plain { IfOk result (λ text. IsPlainText (string_bytes text)) }
    ensures some { IfOk result (λ text. 0 < length (string_bytes text)) }
{
    plain_text(alloc, words_of_proof(fault))
}

fn words_of_proof(fault: &ProveError) -> &'static str
    ensures { IsTrue (begins_plain result.now) }
{
    match fault {
        ProveError::Index => {
            "the torrent has no file of this number, or the file no piece of this index: both are counted from 0"
        }
        ProveError::NoTree => {
            "only a file that is not empty, in a torrent of version 2 or a hybrid, has a tree to prove pieces by"
        }
        ProveError::Memory => NO_MEMORY,
    }
}

/// What an F code means.
pub fn scan_text(alloc: Global, fault: &ScanFault) -> Result<String, AllocError>
    ensures plain { IfOk result (λ text. IsPlainText (string_bytes text)) }
    ensures some { IfOk result (λ text. 0 < length (string_bytes text)) }
{
    plain_text(alloc, words_of_scan(fault))
}

fn words_of_scan(fault: &ScanFault) -> &'static str
    ensures { IsTrue (begins_plain result.now) }
{
    match fault {
        ScanFault::NotUtf8 =>
            "a name is no text in UTF-8: rename it, or leave it out with --files-from",
        ScanFault::NotRegular => {
            "it is neither a file nor a folder, as a link or a FIFO: leave it out with --files-from"
        }
        ScanFault::TooDeep => "a path has more than 64 names: leave it out with --files-from",
        ScanFault::System => {
            "the system does not answer: look whether it is there, and whether it may be read"
        }
        ScanFault::Memory => NO_MEMORY,
    }
}

/// What an E code means, and of which file it is told.
pub fn sums_text<F>(alloc: Global, error: &EngineError<F>) -> Result<String, AllocError>
    ensures plain { IfOk result (λ text. IsPlainText (string_bytes text)) }
    ensures some { IfOk result (λ text. 0 < length (string_bytes text)) }
{
    let mut line = Line::new();
    match error {
        EngineError::Read { file, start, .. } => {
            say_file(&mut line, *file);
            match start {
                None => line.say("its length cannot be read"),
                Some(start) => {
                    line.say("it cannot be read from byte ");
                    line.number(*start);
                    line.say(" on");
                }
            }
            line.say(": look at its rights, and at the disk");
        }
        EngineError::Changed { file } => {
            say_file(&mut line, *file);
            line.say(
                "it changed while it was read, or another stands in its place: try again when none writes to it",
            );
        }
        EngineError::Missing { file } => {
            say_file(&mut line, *file);
            line.say("it is not there");
        }
        EngineError::Resources => line.say(NO_MEMORY),
        EngineError::StreamTooLong { file } => {
            say_file(&mut line, *file);
            line.say("it gave more than 2^50 bytes");
        }
    }
    line.into_text(alloc)
}

fn say_file(line: &mut Line, file: u64)
    ensures { 0 < length line.new }
{
    line.say("file ");
    line.number(file);
    line.say(": ")
}

const NO_MEMORY: &str = "memory or a thread was refused: try again with fewer workers";

/// Words that begin with a byte that is printed.
pub fn plain_text(alloc: Global, words: &str) -> Result<String, AllocError>
    requires { IsTrue (begins_plain words.now) }
    ensures plain { IfOk result (λ text. IsPlainText (string_bytes text)) }
    ensures some { IfOk result (λ text. 0 < length (string_bytes text)) }
{
    let mut line = Line::new();
    line.say(words);
    line.into_text(alloc)
}

/// What a V code means, where the bytes cannot be looked at.
pub fn code_text(alloc: Global, refusal: &Refusal) -> Result<String, AllocError>
    ensures plain { IfOk result (λ text. IsPlainText (string_bytes text)) }
    ensures some { IfOk result (λ text. 0 < length (string_bytes text)) }
{
    plain_text(alloc, words_of_refusal(refusal))
}

/// What a V code means, if no place is told.
pub(crate) fn words_of_refusal(refusal: &Refusal) -> &'static str
    ensures { IsTrue (begins_plain result.now) }
{
    match refusal {
        Refusal::Bencode { .. } => "the bytes spell no tree",
        Refusal::RootShape => "the root is no dictionary",
        Refusal::InfoShape => "info is absent, or no dictionary",
        Refusal::MetaVersion => "meta version is not 2",
        Refusal::PieceLength => "piece length is absent, or no length that pieces may have",
        Refusal::Name => "name is absent, or no name",
        Refusal::LengthAndFiles => "both or neither of length and files are there",
        Refusal::FileShape => "what describes a file has not its shape",
        Refusal::FileLength => "a length is below 0",
        Refusal::Duplicate => "two files have one path",
        Refusal::FileAndFolder => "the path of a file begins that of another",
        Refusal::NoFiles => "there is no file",
        Refusal::TooLarge => "a length is too large, or all of them together are",
        Refusal::Symlink => "an attr has an l, a symbolic link",
        Refusal::PiecesLength => "pieces has not 20 bytes for each piece",
        Refusal::MixedNode => "a folder of the file tree is a file too",
        Refusal::RootHash => "a file that is not empty has no pieces root of 32 bytes",
        Refusal::LayersAbsent =>
            "piece layers is no dictionary, or absent if a file is longer than a piece",
        Refusal::LayerAbsent => "a file longer than a piece has no hash list in piece layers",
        Refusal::LayerLength =>
            "a hash list in piece layers has not 32 bytes for each piece of its file",
        Refusal::LayerRoot =>
            "a hash list in piece layers does not give the pieces root of its file",
        Refusal::FilesDiffer => "files and file tree describe other files",
        Refusal::Alignment =>
            "a file begins at no piece of its own, or padding at the end is wrong",
        Refusal::Memory => NO_MEMORY,
        Refusal::AttrDiffer => "files and file tree give a file other letters",
    }
}
