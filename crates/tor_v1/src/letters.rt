//! The letters of files, put on their entries (BEP 47, "attr").
ghost use Rattle.std.specs.Prelude.{◌≡◌, slice_index_or};
ghost use Rattle.tor_tree.specs.Letters.{no_letters};
ghost use Rattle.tor_v1.specs.Entries.{with_attr, with_letters};

use crate::entry::Entry;
use tor_tree::Attr;

/// Gives each entry that is no padding the letters of its file; of more entries than letters the last have none.
pub(crate) fn put_letters(entries: &mut [Entry], attrs: &[Attr])
    ensures { entries.new ≡ with_letters attrs.now entries.old }
{
    // How many entries had letters.
    let mut count = 0;
    'entries: for entry in entries.iter_mut() {
        if !entry.pad {
            put_attr(entry, attr_at(attrs, count));
            count += 1;
        }
    }
}

fn put_attr(entry: &mut Entry, attr: Attr)
    ensures { entry.new ≡ with_attr attr entry.old }
{
    entry.exec = attr.exec;
    entry.hidden = attr.hidden;
}

fn attr_at(attrs: &[Attr], i: usize) -> Attr
    ensures { result ≡ slice_index_or attrs.now i no_letters }
{
    attrs.get(i).copied().unwrap_or(Attr::NONE)
}
