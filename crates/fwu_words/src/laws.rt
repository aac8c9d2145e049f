//! What the definition of an order says of plain words.
ghost use Rattle.std.specs.Prelude.{◌≡◌, ◌≢◌, ◌↔◌, Bool, List, [], ◌∷◌, Option, ℕ, None, Some, codes, true};
ghost use Rattle.clap.specs.Faults.{fault_of};
ghost use Rattle.clap.specs.Words.{Text};
ghost use Rattle.fwu_model.specs.Allow.{Admits, after_list, asks_list, list_name};
ghost use Rattle.fwu_words.specs.Allow.{NamesList, NamesNone};
ghost use Rattle.fwu_words.specs.Commands.{fwu_app};
ghost use Rattle.fwu_words.specs.Order.{asked, boot, boot_partitioned, format_by, run, run_partitioned, serve, show, soak_by};
ghost use Rattle.clap_words.specs.Plain.{IsPlain};
ghost use Rattle.fwu_words.specs.Values.{banks_of, file_named, number_read, rows_of};
ghost use Rattle.clap_words.specs.Words.{reads};

/// The words name no command exactly where `clap` refuses them.
pub fn refusals_are_of_clap()
    ensures { (words : List Text) → (reads fwu_app words ≡ None) ↔ (fault_of fwu_app words ≢ []) }
{}

/// Words that begin with no hyphen are taken as they stand.
pub fn plain_words_are_taken()
    ensures run { asked (codes "run" ∷ []) ≡ Some run }
    ensures boot { asked (codes "boot" ∷ []) ≡ Some boot }
    ensures run_partitioned { asked (codes "run" ∷ codes "--gpt" ∷ []) ≡ Some run_partitioned }
    ensures boot_partitioned { asked (codes "boot" ∷ codes "--gpt" ∷ []) ≡ Some boot_partitioned }
    ensures show { asked (codes "show" ∷ []) ≡ Some show }
    ensures format { (layout file : Text) → IsPlain layout → IsPlain file
        → asked (codes "format" ∷ layout ∷ file ∷ []) ≡ format_by (Some 2) (rows_of layout) (file_named file) }
    ensures banks { (banks layout file : Text) → IsPlain banks → IsPlain layout → IsPlain file
        → asked (codes "format" ∷ codes "--banks" ∷ banks ∷ layout ∷ file ∷ [])
        ≡ format_by (banks_of (Some banks)) (rows_of layout) (file_named file) }
    ensures soak { (seed rounds : Text) → IsPlain seed → IsPlain rounds
        → asked (codes "soak" ∷ seed ∷ rounds ∷ []) ≡ soak_by (number_read seed) (number_read rounds) }
    ensures soak_alone { asked (codes "soak" ∷ []) ≡ None }
    ensures seed_alone { (seed : Text) → IsPlain seed → asked (codes "soak" ∷ seed ∷ []) ≡ None }
    ensures third { (seed rounds other : Text) → IsPlain seed → IsPlain rounds → IsPlain other
        → asked (codes "soak" ∷ seed ∷ rounds ∷ other ∷ []) ≡ None }
    ensures serve { asked (codes "serve" ∷ []) ≡ Some serve }
    ensures serve_by_table { asked (codes "serve" ∷ codes "--gpt" ∷ []) ≡ None }
    ensures serve_more { (other : Text) → IsPlain other → asked (codes "serve" ∷ other ∷ []) ≡ None }
    ensures help { asked (codes "--help" ∷ []) ≡ None }
    ensures nothing { asked [] ≡ None }
{}

/// What the definition of whose manifests pass says of words that begin with `--allow`. It is the name and the words behind it
/// where there is a name, and nothing where there is none.
pub fn lists_are_told()
    ensures asks { (words rest : List (List ℕ)) (name : List ℕ) → NamesList words name rest → asks_list words ≡ true }
    ensures name { (words rest : List (List ℕ)) (name : List ℕ) → NamesList words name rest → list_name words ≡ Some name }
    ensures rest { (words rest : List (List ℕ)) (name : List ℕ) → NamesList words name rest → after_list words ≡ rest }
    ensures none { (words rest : List (List ℕ)) (files : List ℕ → Option (List ℕ)) (passes : List ℕ → Bool)
        → NamesNone words → Admits words files passes rest → ⊥ }
{}
