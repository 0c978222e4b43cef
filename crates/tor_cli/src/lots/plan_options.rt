//! What `tor plan` is to plan.
ghost use Rattle.std.specs.Prelude.{◌≡◌};
ghost use Rattle.tor_cli.specs.declared.make.way.Way.TheVariants.{Shared};
ghost use Rattle.tor_sums.specs.declared.how.How.TheVariants.{One};

use crate::make::options::MakeOptions;

/// Of which files a plan is made, and what is to be made of them.
#[derive(Clone, Copy)]
pub struct PlanOptions<'a> {
    /// Who hashes is not a plan's: one worker stands for it.
    pub torrent: MakeOptions<'a>,
    /// The file or folder.
    pub place: &'a str,
    ghost shared: { torrent.way ≡ Shared One },
}
