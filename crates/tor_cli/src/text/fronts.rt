//! The beginnings of texts.

ghost use Rattle.std.specs.Prelude.{◌≡◌, ◌++◌, ℕ, IfSome, List, length};
ghost use Rattle.std.specs.Option.{IsSomeAnd};

/// What comes after a beginning.
pub fn after<'a>(beginning: &[u8], text: &'a [u8]) -> Option<&'a [u8]>
    ensures written { IfSome result (λ rest. text.now ≡ beginning.now ++ rest.now) }
    ensures read { (rest : List ℕ) → text.now ≡ beginning.now ++ rest → IsSomeAnd result (λ r. r.now ≡ rest) }
{
    text.strip_prefix(beginning)
}

/// The first bytes of a text, so many, and what comes after the end that follows them.
pub fn cut<'a>(text: &'a [u8], count: usize, ending: &[u8]) -> Option<(&'a [u8], &'a [u8])>
    ensures written { IfSome result (λ r. text.now ≡ r.0.now ++ (ending.now ++ r.1.now)) }
    ensures read { (first rest : List ℕ) → length first ≡ count → text.now ≡ first ++ (ending.now ++ rest)
        → IsSomeAnd result (λ r. (r.0.now ≡ first) × (r.1.now ≡ rest)) }
{
    let (first, end) = text.split_at_checked(count)?;
    Some((first, after(ending, end)?))
}
