//! The servers that a torrent names, as JSON: trackers (BEP 3, BEP 12) and web seeds (BEP 19).
ghost use Rattle.std.specs.Prelude.{◌≡◌, ◌++◌, IfErr, OnOk, flat_map, map};
ghost use Rattle.std.specs.List.{list_all};
ghost use Rattle.serde_json.specs.Data.{array};
ghost use Rattle.serde_json.specs.View.{items_of};
ghost use Rattle.serde_json.specs.Written.{compact_text};
ghost use Rattle.tor_bencode.specs.RefView.{view};
ghost use Rattle.tor_report.specs.Put.{Puts, Stops};
ghost use Rattle.tor_report.specs.Servers.{announce_data, announce_list_data, are_texts, are_tiers, are_urls};
ghost use Rattle.tor_report.specs.Servers.{text_data, texts_data, tiers_data, url_list_data, urls_data};
ghost use Rattle.tor_report.specs.steps.Members.{item_after, told_text, told_tier};
ghost use Rattle.tor_spec.specs.valid.Parts.{is_list, is_string, items_of_list, text_of};

use crate::buffer::Buffer;
use crate::sink::Sink;
use tor_bencode::ItemRef;
use tor_spec::WriteFault;

impl Buffer {
    /// Puts the URL of the tracker that the tree of a torrent names; `null` if it names none.
    pub(crate) fn put_announce<S: Sink>(
        &mut self,
        out: &mut S,
        root: &ItemRef<'_>,
    ) -> Result<(), WriteFault>
        ensures put { OnOk result (Puts S.took (compact_text (announce_data (view root.now)))
            out.old self.old out.new self.new) }
        ensures stopped { IfErr result (λ fault. Stops S.took S.fails (compact_text (announce_data (view root.now)))
            out.old self.old out.new fault.written) }
    {
        let Some(value) = root.get(b"announce") else {
            return self.put(out, b"null");
        };
        if is_string(value) {
            self.put_text(out, b"", value)
        } else {
            self.put(out, b"null")
        }
    }

    /// Puts the tiers of trackers that the tree of a torrent names, as arrays in an array; `null` if it names none.
    pub(crate) fn put_announce_list<S: Sink>(
        &mut self,
        out: &mut S,
        root: &ItemRef<'_>,
    ) -> Result<(), WriteFault>
        ensures put { OnOk result (Puts S.took (compact_text (announce_list_data (view root.now)))
            out.old self.old out.new self.new) }
        ensures stopped { IfErr result (λ fault.
            Stops S.took S.fails (compact_text (announce_list_data (view root.now)))
            out.old self.old out.new fault.written) }
    {
        let Some(value) = root.get(b"announce-list") else {
            return self.put(out, b"null");
        };
        if are_tiers(value) {
            self.put_tiers(out, items_of(value))
        } else {
            self.put(out, b"null")
        }
    }

    /// Puts the web seeds that the tree of a torrent names, as an array; `null` if it names none.
    pub(crate) fn put_url_list<S: Sink>(
        &mut self,
        out: &mut S,
        root: &ItemRef<'_>,
    ) -> Result<(), WriteFault>
        ensures put { OnOk result (Puts S.took (compact_text (url_list_data (view root.now)))
            out.old self.old out.new self.new) }
        ensures stopped { IfErr result (λ fault. Stops S.took S.fails (compact_text (url_list_data (view root.now)))
            out.old self.old out.new fault.written) }
    {
        let Some(value) = root.get(b"url-list") else {
            return self.put(out, b"null");
        };
        if are_urls(value) {
            self.put_urls(out, value)
        } else {
            self.put(out, b"null")
        }
    }

    /// Puts a byte string, or a list of them, as an array of strings.
    fn put_urls<S: Sink>(&mut self, out: &mut S, value: &ItemRef<'_>) -> Result<(), WriteFault>
        ensures put { OnOk result (Puts S.took (compact_text (urls_data (view value.now)))
            out.old self.old out.new self.new) }
        ensures stopped { IfErr result (λ fault. Stops S.took S.fails (compact_text (urls_data (view value.now)))
            out.old self.old out.new fault.written) }
    {
        if is_string(value) {
            self.put_text(out, b"[", value)?;
            self.put(out, b"]")
        } else {
            self.put_texts(out, b"", value)
        }
    }

    /// Puts lists of byte strings as arrays in an array.
    fn put_tiers<S: Sink>(&mut self, out: &mut S, tiers: &[ItemRef<'_>]) -> Result<(), WriteFault>
        ensures put { OnOk result (Puts S.took (compact_text (array (items_of (map told_tier tiers.now))))
            out.old self.old out.new self.new) }
        ensures stopped { IfErr result (λ fault.
            Stops S.took S.fails (compact_text (array (items_of (map told_tier tiers.now))))
            out.old self.old out.new fault.written) }
    {
        let Some((first, others)) = tiers.split_first() else {
            return self.put(out, b"[]");
        };
        self.put_texts(out, b"[", first)?;
        self.put_other_tiers(out, others)?;
        self.put(out, b"]")
    }

    fn put_other_tiers<S: Sink>(
        &mut self,
        out: &mut S,
        tiers: &[ItemRef<'_>],
    ) -> Result<(), WriteFault>
        ensures put { OnOk result (Puts S.took (flat_map (item_after told_tier) tiers.now)
            out.old self.old out.new self.new) }
        ensures stopped { IfErr result (λ fault. Stops S.took S.fails (flat_map (item_after told_tier) tiers.now)
            out.old self.old out.new fault.written) }
    {
        'tiers: for tier in tiers {
            self.put_texts(out, b",", tier)?;
        }
        Ok(())
    }

    /// Puts a list of byte strings as an array of strings, after these bytes.
    fn put_texts<S: Sink>(
        &mut self,
        out: &mut S,
        before: &[u8],
        value: &ItemRef<'_>,
    ) -> Result<(), WriteFault>
        ensures put { OnOk result (Puts S.took (before.now ++ compact_text (texts_data (view value.now)))
            out.old self.old out.new self.new) }
        ensures stopped { IfErr result (λ fault.
            Stops S.took S.fails (before.now ++ compact_text (texts_data (view value.now)))
            out.old self.old out.new fault.written) }
    {
        self.put(out, before)?;
        self.put_strings(out, items_of(value))
    }

    /// Puts byte strings as an array of strings.
    fn put_strings<S: Sink>(&mut self, out: &mut S, texts: &[ItemRef<'_>]) -> Result<(), WriteFault>
        ensures put { OnOk result (Puts S.took (compact_text (array (items_of (map told_text texts.now))))
            out.old self.old out.new self.new) }
        ensures stopped { IfErr result (λ fault.
            Stops S.took S.fails (compact_text (array (items_of (map told_text texts.now))))
            out.old self.old out.new fault.written) }
    {
        let Some((first, others)) = texts.split_first() else {
            return self.put(out, b"[]");
        };
        self.put_text(out, b"[", first)?;
        self.put_other_strings(out, others)?;
        self.put(out, b"]")
    }

    fn put_other_strings<S: Sink>(
        &mut self,
        out: &mut S,
        texts: &[ItemRef<'_>],
    ) -> Result<(), WriteFault>
        ensures put { OnOk result (Puts S.took (flat_map (item_after told_text) texts.now)
            out.old self.old out.new self.new) }
        ensures stopped { IfErr result (λ fault. Stops S.took S.fails (flat_map (item_after told_text) texts.now)
            out.old self.old out.new fault.written) }
    {
        'texts: for text in texts {
            self.put_text(out, b",", text)?;
        }
        Ok(())
    }

    /// Puts a byte string as a string, after these bytes.
    fn put_text<S: Sink>(
        &mut self,
        out: &mut S,
        before: &[u8],
        value: &ItemRef<'_>,
    ) -> Result<(), WriteFault>
        ensures put { OnOk result (Puts S.took (before.now ++ compact_text (text_data (view value.now)))
            out.old self.old out.new self.new) }
        ensures stopped { IfErr result (λ fault.
            Stops S.took S.fails (before.now ++ compact_text (text_data (view value.now)))
            out.old self.old out.new fault.written) }
    {
        self.put(out, before)?;
        self.put_json_bytes(out, text_of(value))
    }
}

fn is_string(value: &ItemRef<'_>) -> bool
    ensures { result ≡ is_string (view value.now) }
{
    matches!(value, ItemRef::Bytes(_))
}

fn is_list(value: &ItemRef<'_>) -> bool
    ensures { result ≡ is_list (view value.now) }
{
    matches!(value, ItemRef::List(_))
}

/// Whether it is a byte string, or a list of them.
fn are_urls(value: &ItemRef<'_>) -> bool
    ensures { result ≡ are_urls (view value.now) }
{
    is_string(value) || are_texts(value)
}

/// Whether it is a list of lists of byte strings.
fn are_tiers(value: &ItemRef<'_>) -> bool
    ensures { result ≡ are_tiers (view value.now) }
{
    is_list(value) && all_are_texts(items_of(value))
}

fn all_are_texts(items: &[ItemRef<'_>]) -> bool
    ensures { result ≡ list_all (λ item. are_texts (view item)) items.now }
{
    items.iter().all(|item| are_texts(item))
}

/// Whether it is a list of byte strings.
fn are_texts(value: &ItemRef<'_>) -> bool
    ensures { result ≡ are_texts (view value.now) }
{
    is_list(value) && all_are_strings(items_of(value))
}

fn all_are_strings(items: &[ItemRef<'_>]) -> bool
    ensures { result ≡ list_all (λ item. is_string (view item)) items.now }
{
    items.iter().all(|item| is_string(item))
}

/// The bytes of a byte string; of another value none.
fn text_of<'a>(value: &'a ItemRef<'_>) -> &'a [u8]
    ensures { result.now ≡ text_of (view value.now) }
{
    match value {
        ItemRef::Bytes(bytes) => bytes,
        _ => &[],
    }
}

/// The items of a list; of another value none.
fn items_of<'a, 'b>(value: &'a ItemRef<'b>) -> &'a [ItemRef<'b>]
    ensures { map view result.now ≡ items_of_list (view value.now) }
{
    match value {
        ItemRef::List(items) => items.as_slice(),
        _ => &[],
    }
}
