//! What a torrent describes, as JSON.
ghost use Rattle.std.specs.List.{zip};
ghost use Rattle.std.specs.Prelude.{◌≡◌, ◌≤◌, ◌++◌, IfErr, OnOk, flat_map};
ghost use Rattle.serde_json.specs.Data.{object};
ghost use Rattle.serde_json.specs.Written.{compact_text};
ghost use Rattle.tor_bencode.specs.RefView.{view};
ghost use Rattle.tor_report.specs.Put.{Puts, Stops};
ghost use Rattle.tor_report.specs.Records.{file_data, files_data, members_of, placed_data, total_length};
ghost use Rattle.tor_report.specs.steps.Members.{after_files, announce_list_member, announce_member, before_files};
ghost use Rattle.tor_report.specs.steps.Members.{hash_members, item_after, plain_members};
ghost use Rattle.tor_tree.specs.declared.lists.TheConstants.{MAX_TOTAL};

use crate::buffer::Buffer;
use crate::lines::{root_of, v1_of, v2_of, word_of};
use crate::segment::Segment;
use crate::sink::Sink;
use tor_bencode::ItemRef;
use tor_check::{Torrent, ViewFile};
use tor_spec::{Hashes, WriteFault};
use tor_tree::TreeFile;
use tor_view::FilePieces;
use tor_view::laws::valid_torrents_are_cut;

impl Buffer {
    /// Puts the torrent with this tree, whose files have these pieces, as an object.
    pub(crate) fn put_object<S: Sink>(
        &mut self,
        out: &mut S,
        root: &ItemRef<'_>,
        torrent: &Torrent,
        pieces: &[FilePieces],
        hashes: &Hashes,
    ) -> Result<(), WriteFault>
        ensures put { OnOk result (Puts S.took
            (compact_text (object (members_of (view root.now) torrent.now pieces.now hashes.now)))
            out.old self.old out.new self.new) }
        ensures stopped { IfErr result (λ fault. Stops S.took S.fails
            (compact_text (object (members_of (view root.now) torrent.now pieces.now hashes.now)))
            out.old self.old out.new fault.written) }
    {
        self.put_before_files(out, root, hashes)?;
        self.put_files(out, torrent.files(), pieces)?;
        self.put_after_files(out, root, torrent)
    }

    fn put_before_files<S: Sink>(
        &mut self,
        out: &mut S,
        root: &ItemRef<'_>,
        hashes: &Hashes,
    ) -> Result<(), WriteFault>
        ensures put { OnOk result (Puts S.took (before_files (view root.now) hashes.now)
            out.old self.old out.new self.new) }
        ensures stopped { IfErr result (λ fault. Stops S.took S.fails (before_files (view root.now) hashes.now)
            out.old self.old out.new fault.written) }
    {
        self.put_announce_member(out, root)?;
        self.put_announce_list_member(out, root)?;
        self.put_hash_members(out, hashes)
    }

    fn put_announce_member<S: Sink>(
        &mut self,
        out: &mut S,
        root: &ItemRef<'_>,
    ) -> Result<(), WriteFault>
        ensures put { OnOk result (Puts S.took (announce_member (view root.now))
            out.old self.old out.new self.new) }
        ensures stopped { IfErr result (λ fault. Stops S.took S.fails (announce_member (view root.now))
            out.old self.old out.new fault.written) }
    {
        self.put(out, b"{\"announce\":")?;
        self.put_announce(out, root)
    }

    fn put_announce_list_member<S: Sink>(
        &mut self,
        out: &mut S,
        root: &ItemRef<'_>,
    ) -> Result<(), WriteFault>
        ensures put { OnOk result (Puts S.took (announce_list_member (view root.now))
            out.old self.old out.new self.new) }
        ensures stopped { IfErr result (λ fault. Stops S.took S.fails (announce_list_member (view root.now))
            out.old self.old out.new fault.written) }
    {
        self.put(out, b",\"announce_list\":")?;
        self.put_announce_list(out, root)
    }

    fn put_hash_members<S: Sink>(&mut self, out: &mut S, hashes: &Hashes) -> Result<(), WriteFault>
        ensures put { OnOk result (Puts S.took (hash_members hashes.now)
            out.old self.old out.new self.new) }
        ensures stopped { IfErr result (λ fault. Stops S.took S.fails (hash_members hashes.now)
            out.old self.old out.new fault.written) }
    {
        let segments = [
            Segment::Text(",\"btih\":"),
            Segment::JsonHash("", v1_of(hashes)),
            Segment::Text(",\"btmh\":"),
            Segment::JsonHash("1220", v2_of(hashes)),
            Segment::Text(",\"files\":"),
        ];
        self.put_all(out, &segments)
    }

    fn put_after_files<S: Sink>(
        &mut self,
        out: &mut S,
        root: &ItemRef<'_>,
        torrent: &Torrent,
    ) -> Result<(), WriteFault>
        ensures put { OnOk result (Puts S.took (after_files (view root.now) torrent.now)
            out.old self.old out.new self.new) }
        ensures stopped { IfErr result (λ fault. Stops S.took S.fails (after_files (view root.now) torrent.now)
            out.old self.old out.new fault.written) }
    {
        self.put_plain_members(out, torrent)?;
        self.put_url_list(out, root)?;
        self.put(out, b"}")
    }

    fn put_plain_members<S: Sink>(
        &mut self,
        out: &mut S,
        torrent: &Torrent,
    ) -> Result<(), WriteFault>
        ensures put { OnOk result (Puts S.took (plain_members torrent.now)
            out.old self.old out.new self.new) }
        ensures stopped { IfErr result (λ fault. Stops S.took S.fails (plain_members torrent.now)
            out.old self.old out.new fault.written) }
    {
        let segments = [
            Segment::Text(",\"kind\":"),
            Segment::JsonString(word_of(torrent.kind()).as_bytes()),
            Segment::Text(",\"name\":"),
            Segment::JsonString(torrent.name().as_bytes()),
            Segment::Text(",\"piece_length\":"),
            Segment::Number(torrent.piece_length()),
            Segment::Text(",\"pieces\":"),
            Segment::Number(torrent.piece_count()),
            Segment::Text(",\"private\":"),
            Segment::JsonBool(torrent.is_private()),
            Segment::Text(",\"total\":"),
            Segment::Number(total_length(torrent)),
            Segment::Text(",\"url_list\":"),
        ];
        self.put_all(out, &segments)
    }

    /// Puts the files as an array, each with its pieces.
    fn put_files<S: Sink>(
        &mut self,
        out: &mut S,
        files: &[ViewFile],
        pieces: &[FilePieces],
    ) -> Result<(), WriteFault>
        ensures put { OnOk result (Puts S.took (compact_text (files_data files.now pieces.now))
            out.old self.old out.new self.new) }
        ensures stopped { IfErr result (λ fault.
            Stops S.took S.fails (compact_text (files_data files.now pieces.now))
            out.old self.old out.new fault.written) }
    {
        let Some((first, others)) = files.split_first() else {
            return self.put(out, b"[]");
        };
        let Some((of_first, of_others)) = pieces.split_first() else {
            return self.put(out, b"[]");
        };
        self.put_file(out, b"[", first.file(), of_first)?;
        self.put_other_files(out, others, of_others)?;
        self.put(out, b"]")
    }

    fn put_other_files<S: Sink>(
        &mut self,
        out: &mut S,
        files: &[ViewFile],
        pieces: &[FilePieces],
    ) -> Result<(), WriteFault>
        ensures put { OnOk result (Puts S.took (flat_map (item_after placed_data) (zip files.now pieces.now))
            out.old self.old out.new self.new) }
        ensures stopped { IfErr result (λ fault.
            Stops S.took S.fails (flat_map (item_after placed_data) (zip files.now pieces.now))
            out.old self.old out.new fault.written) }
    {
        'files: for (shown, of_file) in files.iter().zip(pieces) {
            self.put_file(out, b",", shown.file(), of_file)?;
        }
        Ok(())
    }

    /// Puts a file with its pieces, after these bytes.
    fn put_file<S: Sink>(
        &mut self,
        out: &mut S,
        before: &[u8],
        file: &TreeFile,
        pieces: &FilePieces,
    ) -> Result<(), WriteFault>
        ensures put { OnOk result (Puts S.took (before.now ++ compact_text (file_data file.now pieces.now.span))
            out.old self.old out.new self.new) }
        ensures stopped { IfErr result (λ fault.
            Stops S.took S.fails (before.now ++ compact_text (file_data file.now pieces.now.span))
            out.old self.old out.new fault.written) }
    {
        self.put(out, before)?;
        self.put_placed(out, file, pieces)
    }

    /// Puts the object of a file with its pieces.
    fn put_placed<S: Sink>(
        &mut self,
        out: &mut S,
        file: &TreeFile,
        pieces: &FilePieces,
    ) -> Result<(), WriteFault>
        ensures put { OnOk result (Puts S.took (compact_text (file_data file.now pieces.now.span))
            out.old self.old out.new self.new) }
        ensures stopped { IfErr result (λ fault.
            Stops S.took S.fails (compact_text (file_data file.now pieces.now.span))
            out.old self.old out.new fault.written) }
    {
        let segments = [
            Segment::Text("{\"exec\":"),
            Segment::JsonBool(file.exec),
            Segment::Text(",\"first_piece\":"),
            Segment::Number(pieces.first()),
            Segment::Text(",\"hidden\":"),
            Segment::JsonBool(file.hidden),
            Segment::Text(",\"length\":"),
            Segment::Number(file.length),
            Segment::Text(",\"path\":"),
            Segment::JsonPath(&file.path),
            Segment::Text(",\"pieces\":"),
            Segment::Number(pieces.count()),
            Segment::Text(",\"root\":"),
            Segment::JsonHash("", root_of(file)),
            Segment::Text("}"),
        ];
        self.put_all(out, &segments)
    }
}

/// How many bytes the files of a torrent have together, padding not counted.
fn total_length(torrent: &Torrent) -> u64
    ensures { result ≡ total_length torrent.now.files }
{
    valid_torrents_are_cut();
    length_of_files(torrent.files())
}

/// How many bytes files have together.
fn length_of_files(files: &[ViewFile]) -> u64
    requires { total_length files.now ≤ MAX_TOTAL }
    ensures { result ≡ total_length files.now }
{
    let mut total = 0;
    'files: for shown in files {
        total += shown.file().length;
    }
    total
}
