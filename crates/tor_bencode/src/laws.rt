//! Laws over the definitions alone.
ghost use Rattle.std.specs.Prelude.{◌≡◌, ◌≤◌, ◌⊎◌, ◌↔◌, ◌∷◌, ◌++◌, ℕ, ℤ, suc, FitsSigned, List, None, Some};
ghost use Rattle.std.specs.Int.{w64};
ghost use Rattle.tor_bencode.specs.Data.{Data, integer, string, list, dictionary, Items, no_items, item, Pairs};
ghost use Rattle.tor_bencode.specs.Data.{no_pairs, pair, keys_of};
ghost use Rattle.tor_bencode.specs.declared.fault.Fault.{Fault};
ghost use Rattle.tor_bencode.specs.Fault.{IsFaultAt};
ghost use Rattle.tor_bencode.specs.Find.{value_in, value_of};
ghost use Rattle.tor_bencode.specs.Lawful.{AreRising, HasRisingKeys, IsLawful, IsLawfulWithin};
ghost use Rattle.tor_bencode.specs.Lawful.{ItemsAreLawfulWithin, PairsAreLawfulWithin};
ghost use Rattle.tor_bencode.specs.Span.{IsSpelledAt, IsTree, span_of};
ghost use Rattle.tor_bencode.specs.Spelling.{spelling};
ghost use Rattle.tor_bencode.specs.declared.TheConstants.{MAX_NESTING};

/// No lawful spelling begins another, so bytes have at most one lawful tree.
pub fn no_spelling_begins_another()
    ensures { (c d : Data) (rest more : List ℕ) → IsLawful c → IsLawful d
        → spelling c ++ rest ≡ spelling d ++ more → (c ≡ d) × (rest ≡ more) }
{}

/// Bytes either spell a lawful tree or have a fault, and never both; they have one fault at most.
pub fn one_tree_or_one_fault()
    ensures either { (bytes : List ℕ)
        → IsTree bytes ⊎ ((fault : Fault) × (offset : ℕ) × IsFaultAt bytes fault offset) }
    ensures not_both { (bytes : List ℕ) (fault : Fault) (offset : ℕ)
        → IsTree bytes → ¬ IsFaultAt bytes fault offset }
    ensures one_fault { (bytes : List ℕ) (first second : Fault) (m n : ℕ)
        → IsFaultAt bytes first m → IsFaultAt bytes second n → (first ≡ second) × (m ≡ n) }
{}

/// Rising pairs with the same value for each key are the same pairs.
pub fn pairs_by_their_values()
    ensures { (p q : Pairs) → AreRising (keys_of p) → AreRising (keys_of q)
        → ((key : List ℕ) → value_in key p ≡ value_in key q) → p ≡ q }
{}

/// A key that comes before all keys of a dictionary has no value in it.
pub fn no_value_before_the_first_key()
    ensures { (key : List ℕ) (pairs : Pairs) → AreRising (key ∷ keys_of pairs) → value_in key pairs ≡ None }
{}

/// At the span of a key its value is spelled, and a key has a span if it has a value.
pub fn span_of_a_value()
    ensures spelled { (key : List ℕ) (d : Data) (start end : ℕ) → span_of key d ≡ Some (start, end)
        → (value : Data) × (value_of key d ≡ Some value) × IsSpelledAt value (spelling d) start end }
    ensures none { (key : List ℕ) (d : Data) → (span_of key d ≡ None) ↔ (value_of key d ≡ None) }
{}

/// What is lawful if so many lists and dictionaries may be opened is lawful if more may be.
pub fn lawful_within_more()
    ensures value { (room more : ℕ) (d : Data) → room ≤ more → IsLawfulWithin room d → IsLawfulWithin more d }
    ensures items { (room more : ℕ) (items : Items) → room ≤ more
        → ItemsAreLawfulWithin room items → ItemsAreLawfulWithin more items }
    ensures pairs { (room more : ℕ) (pairs : Pairs) → room ≤ more
        → PairsAreLawfulWithin room pairs → PairsAreLawfulWithin more pairs }
{}

/// When a value is lawful: a list and a dictionary take one of the room.
pub fn lawful_values()
    ensures integer { (room : ℕ) (n : ℤ) → FitsSigned w64 n → IsLawfulWithin room (integer n) }
    ensures string { (room : ℕ) (bytes : List ℕ) → IsLawfulWithin room (string bytes) }
    ensures list { (room : ℕ) (items : Items)
        → IsLawfulWithin (suc room) (list items) ↔ ItemsAreLawfulWithin room items }
    ensures dictionary { (room : ℕ) (pairs : Pairs) → IsLawfulWithin (suc room) (dictionary pairs)
        ↔ (AreRising (keys_of pairs) × PairsAreLawfulWithin room pairs) }
{}

/// When the items of a list and the values of a dictionary are lawful: when each is.
pub fn lawful_one_by_one()
    ensures no_items { (room : ℕ) → ItemsAreLawfulWithin room no_items }
    ensures item { (room : ℕ) (d : Data) (items : Items) → ItemsAreLawfulWithin room (item d items)
        ↔ (IsLawfulWithin room d × ItemsAreLawfulWithin room items) }
    ensures no_pairs { (room : ℕ) → PairsAreLawfulWithin room no_pairs }
    ensures pair { (room : ℕ) (key : List ℕ) (d : Data) (pairs : Pairs) → PairsAreLawfulWithin room (pair key d pairs)
        ↔ (IsLawfulWithin room d × PairsAreLawfulWithin room pairs) }
{}

/// The keys inside a value rise if those of its dictionary do.
pub fn values_have_rising_keys()
    ensures { (key : List ℕ) (d value : Data) → HasRisingKeys d → value_of key d ≡ Some value → HasRisingKeys value }
{}

/// So many lists and dictionaries may be open.
pub fn limit_of_nesting()
    ensures { MAX_NESTING ≡ 100 }
{}
