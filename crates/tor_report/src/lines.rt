//! The lines that tell of a torrent, and the paths of its files.
ghost use Rattle.std.specs.Prelude.{◌≡◌, IfErr, OnOk, flat_map, option_map};
ghost use Rattle.tor_report.specs.Put.{Puts, Stops};
ghost use Rattle.tor_report.specs.Shown.{check_lines, ended_path, ended_paths, file_line, hash_line, hash_lines};
ghost use Rattle.tor_report.specs.Shown.{head_lines, root_line, root_lines, rooted_lines};
ghost use Rattle.tor_report.specs.Words.{word_of};

use crate::buffer::Buffer;
use crate::segment::Segment;
use crate::sink::Sink;
use crate::spelling::Spelling;
use tor_check::{Torrent, ViewFile};
use tor_spec::{Hashes, WriteFault};
use tor_tree::{Kind, TreeFile};

impl Buffer {
    /// Puts the torrent as a whole, then its files in its order, then its info hashes. The user's text is escaped.
    pub fn put_lines<S: Sink>(
        &mut self,
        out: &mut S,
        torrent: &Torrent,
        hashes: &Hashes,
    ) -> Result<(), WriteFault>
        ensures put { OnOk result (Puts S.took (check_lines torrent.now hashes.now)
            out.old self.old out.new self.new) }
        ensures stopped { IfErr result (λ fault. Stops S.took S.fails (check_lines torrent.now hashes.now)
            out.old self.old out.new fault.written) }
    {
        self.put_head(out, torrent)?;
        self.put_file_lines(out, torrent.files())?;
        self.put_hash_lines(out, hashes)
    }

    /// Puts the lines of the torrent as a whole.
    fn put_head<S: Sink>(&mut self, out: &mut S, torrent: &Torrent) -> Result<(), WriteFault>
        ensures put { OnOk result (Puts S.took (head_lines torrent.now)
            out.old self.old out.new self.new) }
        ensures stopped { IfErr result (λ fault. Stops S.took S.fails (head_lines torrent.now)
            out.old self.old out.new fault.written) }
    {
        let segments = [
            Segment::Text("kind "),
            Segment::Text(word_of(torrent.kind())),
            Segment::Text("\nname "),
            Segment::Spelled(Spelling::InLine, torrent.name().as_bytes()),
            Segment::Text("\npiece length "),
            Segment::Number(torrent.piece_length()),
            Segment::Text("\npieces "),
            Segment::Number(torrent.piece_count()),
            Segment::Text("\nfiles "),
            Segment::Number(torrent.files().len() as u64),
            Segment::Text("\n"),
        ];
        self.put_all(out, &segments)
    }

    /// Puts a line for each file.
    fn put_file_lines<S: Sink>(&mut self, out: &mut S, files: &[ViewFile]) -> Result<(), WriteFault>
        ensures put { OnOk result (Puts S.took (flat_map (λ shown. file_line shown.file) files.now)
            out.old self.old out.new self.new) }
        ensures stopped { IfErr result (λ fault.
            Stops S.took S.fails (flat_map (λ shown. file_line shown.file) files.now)
            out.old self.old out.new fault.written) }
    {
        'files: for shown in files {
            self.put_file_line(out, shown.file())?;
        }
        Ok(())
    }

    fn put_file_line<S: Sink>(&mut self, out: &mut S, file: &TreeFile) -> Result<(), WriteFault>
        ensures put { OnOk result (Puts S.took (file_line file.now)
            out.old self.old out.new self.new) }
        ensures stopped { IfErr result (λ fault. Stops S.took S.fails (file_line file.now)
            out.old self.old out.new fault.written) }
    {
        let segments = [
            Segment::Number(file.length),
            Segment::Text(" "),
            Segment::Path(Spelling::InLine, &file.path),
            Segment::Text("\n"),
        ];
        self.put_all(out, &segments)
    }

    /// Puts a line for each hash. That of version 2 is a multihash: 12 says SHA-256, 20 its 32 bytes.
    fn put_hash_lines<S: Sink>(&mut self, out: &mut S, hashes: &Hashes) -> Result<(), WriteFault>
        ensures put { OnOk result (Puts S.took (hash_lines hashes.now)
            out.old self.old out.new self.new) }
        ensures stopped { IfErr result (λ fault. Stops S.took S.fails (hash_lines hashes.now)
            out.old self.old out.new fault.written) }
    {
        self.put_hash_line(out, "btih ", v1_of(hashes))?;
        self.put_hash_line(out, "btmh 1220", v2_of(hashes))
    }

    fn put_hash_line<'a, S: Sink>(
        &mut self,
        out: &mut S,
        before: &'a str,
        hash: Option<&'a [u8]>,
    ) -> Result<(), WriteFault>
        ensures put { OnOk result (Puts S.took (hash_line before.now (option_map (λ bytes. bytes.now) hash.entry))
            out.old self.old out.new self.new) }
        ensures stopped { IfErr result (λ fault.
            Stops S.took S.fails (hash_line before.now (option_map (λ bytes. bytes.now) hash.entry))
            out.old self.old out.new fault.written) }
    {
        match hash {
            Some(hash) => self.put_all(
                out,
                &[
                    Segment::Text(before),
                    Segment::Digits(hash),
                    Segment::Text("\n"),
                ],
            ),
            None => Ok(()),
        }
    }

    /// Puts what `put_lines` puts, and then a line for each file that has a root.
    pub fn put_rooted_lines<S: Sink>(
        &mut self,
        out: &mut S,
        torrent: &Torrent,
        hashes: &Hashes,
    ) -> Result<(), WriteFault>
        ensures put { OnOk result (Puts S.took (rooted_lines torrent.now hashes.now)
            out.old self.old out.new self.new) }
        ensures stopped { IfErr result (λ fault. Stops S.took S.fails (rooted_lines torrent.now hashes.now)
            out.old self.old out.new fault.written) }
    {
        self.put_lines(out, torrent, hashes)?;
        self.put_root_lines(out, torrent.files())
    }

    /// Puts a line for each file that has a root, with the file's number.
    fn put_root_lines<S: Sink>(&mut self, out: &mut S, files: &[ViewFile]) -> Result<(), WriteFault>
        ensures put { OnOk result (Puts S.took (root_lines 0 files.now)
            out.old self.old out.new self.new) }
        ensures stopped { IfErr result (λ fault. Stops S.took S.fails (root_lines 0 files.now)
            out.old self.old out.new fault.written) }
    {
        'files: for number in 0..files.len() {
            self.put_root_line(out, number as u64, files[number].file())?;
        }
        Ok(())
    }

    fn put_root_line<S: Sink>(
        &mut self,
        out: &mut S,
        number: u64,
        file: &TreeFile,
    ) -> Result<(), WriteFault>
        ensures put { OnOk result (Puts S.took (root_line number file.now.root)
            out.old self.old out.new self.new) }
        ensures stopped { IfErr result (λ fault. Stops S.took S.fails (root_line number file.now.root)
            out.old self.old out.new fault.written) }
    {
        match root_of(file) {
            Some(root) => self.put_all(
                out,
                &[
                    Segment::Text("root "),
                    Segment::Digits(root),
                    Segment::Text(" "),
                    Segment::Number(number),
                    Segment::Text("\n"),
                ],
            ),
            None => Ok(()),
        }
    }

    /// Puts the paths of the files in the torrent's order, as they are, each ended by a zero byte.
    pub fn put_paths<S: Sink>(&mut self, out: &mut S, torrent: &Torrent) -> Result<(), WriteFault>
        ensures put { OnOk result (Puts S.took (ended_paths torrent.now)
            out.old self.old out.new self.new) }
        ensures stopped { IfErr result (λ fault. Stops S.took S.fails (ended_paths torrent.now)
            out.old self.old out.new fault.written) }
    {
        self.put_ended_paths(out, torrent.files())
    }

    fn put_ended_paths<S: Sink>(
        &mut self,
        out: &mut S,
        files: &[ViewFile],
    ) -> Result<(), WriteFault>
        ensures put { OnOk result (Puts S.took (flat_map (λ shown. ended_path shown.file) files.now)
            out.old self.old out.new self.new) }
        ensures stopped { IfErr result (λ fault.
            Stops S.took S.fails (flat_map (λ shown. ended_path shown.file) files.now)
            out.old self.old out.new fault.written) }
    {
        'files: for shown in files {
            self.put_ended_path(out, shown.file())?;
        }
        Ok(())
    }

    /// Puts the path of a file as it is, and a zero byte.
    pub fn put_ended_path<S: Sink>(
        &mut self,
        out: &mut S,
        file: &TreeFile,
    ) -> Result<(), WriteFault>
        ensures put { OnOk result (Puts S.took (ended_path file.now)
            out.old self.old out.new self.new) }
        ensures stopped { IfErr result (λ fault. Stops S.took S.fails (ended_path file.now)
            out.old self.old out.new fault.written) }
    {
        self.put_path(out, &file.path, Spelling::AsIs)?;
        self.put(out, b"\0")
    }
}

/// The word for a kind.
pub fn word_of(kind: Kind) -> &'static str
    ensures { result.now ≡ word_of kind }
{
    match kind {
        Kind::V1 => "v1",
        Kind::V2 => "v2",
        Kind::Hybrid => "hybrid",
    }
}

/// The hash of version 1.
pub fn v1_of(hashes: &Hashes) -> Option<&[u8]>
    ensures { option_map (λ bytes. bytes.now) result ≡ hashes.now.v1 }
{
    match &hashes.v1 {
        Some(hash) => Some(hash.as_slice()),
        None => None,
    }
}

/// The hash of version 2.
pub fn v2_of(hashes: &Hashes) -> Option<&[u8]>
    ensures { option_map (λ bytes. bytes.now) result ≡ hashes.now.v2 }
{
    match &hashes.v2 {
        Some(hash) => Some(hash.as_slice()),
        None => None,
    }
}

/// The root of a file.
pub(crate) fn root_of(file: &TreeFile) -> Option<&[u8]>
    ensures { option_map (λ bytes. bytes.now) result ≡ file.now.root }
{
    match &file.root {
        Some(root) => Some(root.as_slice()),
        None => None,
    }
}
