//! Laws over the definitions alone.
ghost use Rattle.std.specs.Prelude.{◌≡◌, ◌+◌, ◌<◌, ◌≤◌, ◌≢◌, ◌^◌, ℕ, All, List, [], None, true, Option, length, map};
ghost use Rattle.std.specs.Prelude.{IfSome, slice_index_or};
ghost use Rattle.std.specs.Cmp.{IsTotalOrder};
ghost use Rattle.std.specs.List.{AllZip};
ghost use Rattle.std.specs.List.Sorted.{IsPermutation, IsStrictlySortedBy};
ghost use Rattle.std.specs.declared.cmp.Ordering.TheVariants.{Less};
ghost use Rattle.tor_bencode.specs.Data.{Data};
ghost use Rattle.tor_bencode.specs.Lawful.{HasRisingKeys, IsLawfulWithin};
ghost use Rattle.tor_tree.specs.FileList.{IsFileList, IsInPathOrder, is_inside, lengths_fault, paths_fault};
ghost use Rattle.tor_tree.specs.FileTree.{files_of_tree, tree_fault};
ghost use Rattle.tor_tree.specs.Name.{name_fault};
ghost use Rattle.tor_tree.specs.Path.{HasNames, IsFilePath, path_cmp};
ghost use Rattle.tor_tree.specs.PathList.{AreIndices};
ghost use Rattle.tor_tree.specs.TidyTree.{AtMostOneTree, HasItsRoot, IsFileTreeOf};
ghost use Rattle.tor_tree.specs.WrittenTree.{file_tree};
ghost use Rattle.tor_merkle.specs.declared.TheConstants.{MAX_LENGTH};
ghost use Rattle.tor_tree.specs.declared.attr.Attr.{Attr};
ghost use Rattle.tor_tree.specs.declared.lists.TheConstants.{MAX_TOTAL, ROUNDING};
ghost use Rattle.tor_tree.specs.declared.paths.TheConstants.{MAX_NAMES};

/// A list of files with their letters and roots has at most one tidy file tree.
pub fn one_file_tree()
    ensures { AtMostOneTree }
{}

/// That tree is `file_tree`, of files in the order of their paths, each of which has letters, or none, and a root
/// exactly if it is not empty.
pub fn file_tree_of_list()
    ensures { (files : List (List (List ℕ) × ℕ)) (attrs : List Attr) (roots : List (Option (List ℕ))) →
        length attrs ≡ length files → IsInPathOrder files → All (λ file. HasNames file.0) files →
        AllZip HasItsRoot files roots → IsFileTreeOf files attrs roots (file_tree files attrs roots) }
{}

/// It is a lawful tree, two dictionaries deeper than the most names of a path.
pub fn file_tree_is_lawful()
    ensures { (names : ℕ) (files : List (List (List ℕ) × ℕ)) (attrs : List Attr) (roots : List (Option (List ℕ))) →
        length attrs ≡ length files → IsInPathOrder files → All (λ file. HasNames file.0) files →
        AllZip HasItsRoot files roots → All (λ file. file.1 < 2 ^ 63) files →
        All (λ file. length file.0 ≤ names) files → IsLawfulWithin (names + 2) (file_tree files attrs roots) }
{}

/// The `file_tree` of a list of files, whose lengths are small, is a lawful tree, two dictionaries deeper than the most
/// names of a path.
pub fn tree_of_list_is_lawful()
    ensures { (names : ℕ) (files : List (List (List ℕ) × ℕ)) (attrs : List Attr) (roots : List (Option (List ℕ))) →
        length attrs ≡ length files → IsFileList files → AllZip HasItsRoot files roots →
        All (λ file. length file.0 ≤ names) files → IsLawfulWithin (names + 2) (file_tree files attrs roots) }
{}

/// And it is a file tree without fault, if the roots have 32 bytes.
pub fn tree_of_list_is_readable()
    ensures { (files : List (List (List ℕ) × ℕ)) (attrs : List Attr) (roots : List (Option (List ℕ))) →
        length attrs ≡ length files → IsFileList files → AllZip HasItsRoot files roots →
        All (λ root. IfSome root (λ bytes. length bytes ≡ 32)) roots →
        tree_fault (file_tree files attrs roots) ≡ None }
{}

/// A name without fault is not empty, and so no name of a file's path is, or of a list's files.
pub fn paths_have_names()
    ensures name { (name : List ℕ) → name_fault name ≡ None → name ≢ [] }
    ensures path { (path : List (List ℕ)) → IsFilePath path → HasNames path }
    ensures list { (files : List (List (List ℕ) × ℕ)) → IsFileList files → All (λ file. HasNames file.0) files }
{}

/// No file of a list is too long.
pub fn files_are_small()
    ensures { (files : List (List (List ℕ) × ℕ)) → IsFileList files → All (λ file. file.1 ≤ MAX_LENGTH) files }
{}

/// Paths have the same fault in every order, and so have lengths.
pub fn faults_in_any_order()
    ensures paths { (paths others : List (List (List ℕ))) → IsPermutation paths others →
        paths_fault paths ≡ paths_fault others }
    ensures lengths { (lengths others : List ℕ) → IsPermutation lengths others →
        lengths_fault lengths ≡ lengths_fault others }
{}

/// Paths are in a total order, in which a folder comes before all that is inside it.
pub fn paths_are_ordered()
    ensures total { IsTotalOrder path_cmp }
    ensures inside { (folder path : List (List ℕ)) → is_inside folder path ≡ true → path_cmp folder path ≡ Less }
{}

/// Roots that are there exactly if their files are not empty, index by index, are those of the whole list.
pub fn roots_by_index()
    ensures { (files : List (List (List ℕ) × ℕ)) (roots : List (Option (List ℕ))) → length roots ≡ length files →
        ((k : ℕ) (file : List (List ℕ) × ℕ) (root : Option (List ℕ)) → k < length files →
        HasItsRoot (slice_index_or files k file) (slice_index_or roots k root)) →
        AllZip HasItsRoot files roots }
{}

/// What stands at the indices of a list of paths is all that was handed in, in another order.
pub fn at_indices<T>()
    ensures { (xs : List T) (d : T) (indices : List ℕ) → AreIndices indices → length indices ≡ length xs →
        IsPermutation xs (map (λ index. slice_index_or xs index d) indices) }
{}

/// The files of a tree whose keys rise are in the order of their paths, each path once.
pub fn rising_paths()
    ensures { (tree : Data) → HasRisingKeys tree →
        IsStrictlySortedBy path_cmp (map (λ file. file.path) (files_of_tree tree)) }
{}

/// The files of a tree without fault have paths, and each has a root exactly if it is not empty.
pub fn files_of_tree_are_files()
    ensures paths { (tree : Data) → tree_fault tree ≡ None →
        All (λ file. IsFilePath file.path) (files_of_tree tree) }
    ensures roots { (tree : Data) → tree_fault tree ≡ None →
        AllZip HasItsRoot (map (λ file. (file.path, file.length)) (files_of_tree tree))
        (map (λ file. file.root) (files_of_tree tree)) }
{}

/// The limits of a list of files, in bytes, and of a path, in names.
pub fn limits_of_lists()
    ensures total { MAX_TOTAL ≡ 2 ^ 62 }
    ensures rounding { ROUNDING ≡ 2 ^ 30 }
    ensures names { MAX_NAMES ≡ 64 }
{}
