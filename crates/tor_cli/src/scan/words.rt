//! What the words of `tor scan` ask for.
ghost use Rattle.clap.specs.Words.{found_of, rows_of};
ghost use Rattle.std.specs.Prelude.{◌≡◌, IfSome};
ghost use Rattle.tor_cli.specs.Words.{IsScanIn, scan_form_of};

use clap::ArgMatches;

/// What is printed of the files at a place.
#[derive(Clone, Copy)]
pub enum ScanForm {
    /// A line for each, the totals, and a line for each refusal.
    Lines,
    /// The paths of those that are taken, and nothing else.
    Paths,
    /// All that the lines tell, as JSON.
    Record,
}

/// Which files are looked for, and what is printed of them.
#[derive(Clone, Copy)]
pub struct ScanOptions<'a> {
    /// The file or folder.
    pub place: &'a str,
    /// The file that lists which files below the folder are looked for, or `-` for standard input; all if there is
    /// none.
    pub list: Option<&'a str>,
    pub form: ScanForm,
}

/// What is to be scanned, of the words; none if `clap` let through words that have none.
pub fn scan_options<'a>(matches: &ArgMatches<'a>) -> Option<ScanOptions<'a>>
    ensures { IfSome result (λ options. IsScanIn options (rows_of (found_of matches.now))) }
{
    Some(ScanOptions {
        place: matches.get_str("path")?,
        list: matches.get_str("files-from"),
        form: scan_form_of(matches.get_flag("null"), matches.get_flag("json")),
    })
}

/// What the flags `--null` and `--json` ask for; they do not stand beside each other.
pub fn scan_form_of(null: bool, json: bool) -> ScanForm
    ensures { result ≡ scan_form_of null json }
{
    match (null, json) {
        (_, true) => ScanForm::Record,
        (true, false) => ScanForm::Paths,
        (false, false) => ScanForm::Lines,
    }
}
