//! The path of a file.
ghost use Rattle.std.specs.Prelude.{◌++◌, IfErr, OnOk};
ghost use Rattle.std.specs.List.{join_by};
ghost use Rattle.tor_report.specs.Shown.{path_text};
ghost use Rattle.tor_report.specs.Put.{Puts, Stops};
ghost use Rattle.tor_report.specs.Spelled.{spelled};

use crate::buffer::Buffer;
use crate::sink::Sink;
use crate::spelling::Spelling;
use tor_spec::WriteFault;
use tor_tree::{FilePath, Name};

impl Buffer {
    /// Puts the names of a path, a slash between each two, spelled so.
    pub fn put_path<S: Sink>(
        &mut self,
        out: &mut S,
        path: &FilePath,
        spelling: Spelling,
    ) -> Result<(), WriteFault>
        ensures put { OnOk result (Puts S.took (spelled spelling (path_text path.now))
            out.old self.old out.new self.new) }
        ensures stopped { IfErr result (λ fault. Stops S.took S.fails (spelled spelling (path_text path.now))
            out.old self.old out.new fault.written) }
    {
        self.put_joined(out, path.names(), b"/", spelling)
    }

    /// Puts names, spelled so, and these bytes between each two.
    pub(crate) fn put_joined<S: Sink>(
        &mut self,
        out: &mut S,
        names: &[Name],
        between: &[u8],
        spelling: Spelling,
    ) -> Result<(), WriteFault>
        ensures put { OnOk result (Puts S.took (join_by (spelled spelling) between.now names.now)
            out.old self.old out.new self.new) }
        ensures stopped { IfErr result (λ fault. Stops S.took S.fails (join_by (spelled spelling) between.now names.now)
            out.old self.old out.new fault.written) }
    {
        let Some((first, others)) = names.split_first() else {
            return Ok(());
        };
        self.put_spelled(out, first.as_bytes(), spelling)?;
        'names: for name in others {
            self.put_next(out, between, name, spelling)?;
        }
        Ok(())
    }

    /// Puts these bytes, and a name after them.
    fn put_next<S: Sink>(
        &mut self,
        out: &mut S,
        between: &[u8],
        name: &Name,
        spelling: Spelling,
    ) -> Result<(), WriteFault>
        ensures put { OnOk result (Puts S.took (between.now ++ spelled spelling name.now)
            out.old self.old out.new self.new) }
        ensures stopped { IfErr result (λ fault. Stops S.took S.fails (between.now ++ spelled spelling name.now)
            out.old self.old out.new fault.written) }
    {
        self.put(out, between)?;
        self.put_spelled(out, name.as_bytes(), spelling)
    }
}
