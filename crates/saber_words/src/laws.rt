//! Which words are a command, in plain words.
ghost use Rattle.std.specs.Prelude.{◌≡◌, ◌≢◌, ◌∷◌, [], None, Some, codes, List, ℕ, true};
ghost use Rattle.std.specs.List.{list_all};
ghost use Rattle.saber_words.specs.Commands.{chain_of, check_of, command_of, demo_of, is_file_name, run_of};
ghost use Rattle.saber_words.specs.Many.{many_of, many_of_files, AskedMany, HasManySizes};

/// A law with no code: what words of file names come to. The first word is the name of the program
/// and may be any, and a word of more than one byte that begins with `-` is no file name. Such
/// words give no option, so a run has tasks of 1,024 rows, files of at most `2^40` lines, whose
/// timestamps don't fall, and an end of the input that closes no window; a chain has the same
/// sizes; `demo` asks for no files, and its words are two numbers.
pub fn words_of_file_names()
    ensures empty { command_of [] ≡ None }
    ensures alone { (program : List ℕ) → command_of (program ∷ []) ≡ None }
    ensures run { (program : List ℕ) (files : List (List ℕ)) → list_all is_file_name files ≡ true
        → command_of (program ∷ codes "run" ∷ files) ≡ run_of files }
    ensures check { (program : List ℕ) (files : List (List ℕ)) → list_all is_file_name files ≡ true
        → command_of (program ∷ codes "check" ∷ files) ≡ check_of files }
    ensures demo { (program : List ℕ) (words : List (List ℕ)) → list_all is_file_name words ≡ true
        → command_of (program ∷ codes "demo" ∷ words) ≡ demo_of words }
    ensures chain { (program : List ℕ) (files : List (List ℕ)) → list_all is_file_name files ≡ true
        → command_of (program ∷ codes "chain" ∷ files) ≡ chain_of files }
    ensures other { (program name : List ℕ) (rest : List (List ℕ))
        → name ≢ codes "run" → name ≢ codes "check" → name ≢ codes "demo" → name ≢ codes "chain"
        → command_of (program ∷ name ∷ rest) ≡ None }
{}

/// A law with no code: what words of `many` come to. File names alone are the left file and the
/// files of one to eight queries, in this order, and words that name another command are never
/// `many`. Whatever the words, each query has at most eight threads, and beside them the sizes of a
/// run.
pub fn words_of_many()
    ensures empty { many_of [] ≡ None }
    ensures alone { (program : List ℕ) → many_of (program ∷ []) ≡ None }
    ensures files { (program : List ℕ) (files : List (List ℕ)) → list_all is_file_name files ≡ true
        → many_of (program ∷ codes "many" ∷ files) ≡ many_of_files files }
    ensures other { (program name : List ℕ) (rest : List (List ℕ)) → name ≢ codes "many"
        → many_of (program ∷ name ∷ rest) ≡ None }
    ensures sizes { (words : List (List ℕ)) (m : AskedMany) → many_of words ≡ Some m → HasManySizes m }
{}
