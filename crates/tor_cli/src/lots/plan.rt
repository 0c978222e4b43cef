//! `tor plan`: its doing.
ghost use Rattle.std.specs.Prelude.{◌<◌, IfErr, IfOk, IfSome, OnOk, length, option_map};
ghost use Rattle.std.specs.List.Sorted.{IsStrictlySortedBy};
ghost use Rattle.tor_tree.specs.Path.{path_cmp};
ghost use Rattle.tor_cli.specs.lots.Planning.{DoesPlan, IsOfLengths, IsPlanAt, StopsPlanning};
ghost use Rattle.tor_cli.specs.make.Request.{StopsFinding};
ghost use Rattle.tor_cli.specs.Streams.{streams};

use crate::fault::Fault;
use crate::lots::plan_options::PlanOptions;
use crate::make::chosen_files::chosen_files;
use crate::make::command::files_to_make;
use crate::out_before::OutBefore;
use crate::whole_file::send_whole;
use std::io::{Read, Write};
use tor_meta::make_plan;
use tor_tree::FilePath;

/// Writes the plan of the file or the files at a place: what is to be made, and the list of the files with their
/// lengths. No file is read.
pub fn plan<R: Read, W: Write>(
    system: &HostRuntime,
    options: &PlanOptions<'_>,
    reader: &mut R,
    out: &mut W,
) -> Result<(), Fault>
    ensures made { OnOk result (DoesPlan options.now (streams (R.remaining reader.old) (R.remaining reader.new)
        (W.contents out.old) (W.contents out.new))) }
    ensures stopped { IfErr result (StopsPlanning options.now (streams (R.remaining reader.old) (R.remaining reader.new)
        (W.contents out.old) (W.contents out.new))) }
{
    let before = OutBefore::at(system, options.torrent.out);
    let chosen = chosen_files(system.alloc(), system, options.torrent.list, reader)?;
    let plan = plan_at(system, options, chosen)?;
    send_whole(system, out, options.torrent.out, &before, &plan)
}

/// The plan of the file or the files at a place.
fn plan_at(
    system: &HostRuntime,
    options: &PlanOptions<'_>,
    chosen: Option<Vec<FilePath>>,
) -> Result<Vec<u8>, Fault>
    requires { IfSome chosen (λ paths. IsStrictlySortedBy path_cmp paths.items) }
    ensures made { IfOk result
        (λ plan. IsPlanAt options.now.torrent (option_map (λ paths. paths.items) chosen) plan.items) }
    ensures some { IfOk result (λ plan. 0 < length plan.items) }
    ensures stopped { IfErr result (StopsFinding options.now.torrent (option_map (λ paths. paths.items) chosen)) }
    ensures lengths { IfErr result IsOfLengths }
{
    let (found, order) = files_to_make(system, &options.torrent, options.place, chosen)?;
    Ok(make_plan(system.alloc(), &found.source, &found.files, &order)?)
}
