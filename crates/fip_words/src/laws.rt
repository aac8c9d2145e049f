//! What the definition of an order says of plain words.
ghost use Rattle.std.specs.Prelude.{◌≡◌, ◌≢◌, ◌<◌, ◌++◌, ◌↔◌, List, [], ◌∷◌, ℕ, None, Some, All, codes, length, true};
ghost use Rattle.base_core.specs.Guid.{guid_text};
ghost use Rattle.clap.specs.Faults.{fault_of};
ghost use Rattle.clap.specs.Words.{Text};
ghost use Rattle.fip_words.specs.Commands.{fip_app};
ghost use Rattle.fip_words.specs.Order.{asked, capsule_by, create_by, info_by, manifest_by, repackage_by, remove_by, unpack_by, update_by};
ghost use Rattle.clap_words.specs.Plain.{IsPlain};
ghost use Rattle.fip_words.specs.Values.{bin, file_named, is_unpacked, names_of, number_read, named_parts_of, named_rows_of};
ghost use Rattle.clap_words.specs.Words.{reads};

/// The words name no command exactly where `clap` refuses them.
pub fn refusals_are_of_clap()
    ensures { (words : List Text) → (reads fip_app words ≡ None) ↔ (fault_of fip_app words ≢ []) }
{}

/// Words that begin with no hyphen are taken as they stand.
pub fn plain_words_are_taken()
    ensures info { (file : Text) → IsPlain file → asked (codes "info" ∷ file ∷ []) ≡ info_by (file_named file) }
    ensures source { asked (codes "info" ∷ codes "-" ∷ []) ≡ info_by (file_named (codes "-")) }
    ensures create { (out part : Text) → IsPlain out → IsPlain part
        → asked (codes "create" ∷ out ∷ part ∷ []) ≡ create_by (Some 1) (file_named out) (named_parts_of (part ∷ [])) }
    ensures align { (align out part : Text) → IsPlain align → IsPlain out → IsPlain part
        → asked (codes "create" ∷ codes "--align" ∷ align ∷ out ∷ part ∷ [])
        ≡ create_by (number_read align) (file_named out) (named_parts_of (part ∷ [])) }
    ensures update { (from out part : Text) → IsPlain from → IsPlain out → IsPlain part
        → asked (codes "update" ∷ from ∷ out ∷ part ∷ [])
        ≡ update_by (Some 1) (file_named from) (file_named out) (named_parts_of (part ∷ [])) }
    ensures remove { (from out name : Text) → IsPlain from → IsPlain out → IsPlain name
        → asked (codes "remove" ∷ from ∷ out ∷ name ∷ [])
        ≡ remove_by (Some 1) (file_named from) (file_named out) (names_of (name ∷ [])) }
    ensures unpack { (from prefix name : Text) → IsPlain from → IsPlain prefix → IsPlain name
        → asked (codes "unpack" ∷ from ∷ prefix ∷ name ∷ [])
        ≡ unpack_by (file_named from) (file_named prefix) (names_of (name ∷ [])) }
    ensures manifest { (out security row : Text) → IsPlain out → IsPlain security → IsPlain row
        → asked (codes "manifest" ∷ out ∷ security ∷ row ∷ [])
        ≡ manifest_by (file_named out) (number_read security) (named_rows_of (row ∷ [])) }
    ensures capsule { (from out : Text) → IsPlain from → IsPlain out
        → asked (codes "capsule" ∷ from ∷ out ∷ []) ≡ capsule_by (file_named from) (file_named out) }
    ensures package { (from out : Text) → IsPlain from → IsPlain out
        → asked (codes "package" ∷ from ∷ out ∷ []) ≡ repackage_by (Some 1) (file_named from) (file_named out) }
    ensures aligned_package { (align from out : Text) → IsPlain align → IsPlain from → IsPlain out
        → asked (codes "package" ∷ codes "--align" ∷ align ∷ from ∷ out ∷ [])
        ≡ repackage_by (number_read align) (file_named from) (file_named out) }
    ensures help { asked (codes "--help" ∷ []) ≡ None }
    ensures nothing { asked [] ≡ None }
{}

/// A file is one that `unpack` may write exactly where it is the prefix, the text of a UUID, and `.bin`.
pub fn unpacked_files()
    ensures written { (prefix guid : List ℕ) → length guid ≡ 16 → All (λ b. b < 256) guid
        → is_unpacked prefix (prefix ++ guid_text guid ++ bin) ≡ true }
    ensures only { (prefix file : List ℕ) → is_unpacked prefix file ≡ true
        → (guid : List ℕ) × (file ≡ prefix ++ guid_text guid ++ bin) }
{}
