//! How words that are written out are read.
ghost use Rattle.std.specs.Prelude.{◌≡◌, ◌≢◌, ℕ, List, codes, [], ◌∷◌, Ok, Err, Some, None};
ghost use Rattle.udf_words.specs.Words.{command_by, command_in, udffsck_app};
ghost use Rattle.clap.specs.Words.{fault_of, matches_of};
ghost use Rattle.udf_words.specs.declared.cause.Cause.TheVariants.{Words, Value, Mode};

/// A size may stand in the word of its option, options may follow the medium, and after `--` a word is the medium.
#[tactic(auto, unfolding(clap::proofs::OnLiterals::clap_on_literals, crate::specs::Arguments::found_in, crate::specs::Arguments::tool_app, crate::specs::Words::udffsck_app, crate::specs::Words::size_in, crate::specs::Words::command_by, crate::specs::Words::command_in))]
pub fn taken_law()
    ensures attached { command_in (codes "-c" ∷ codes "-B512" ∷ codes "a.img" ∷ [])
        ≡ Ok (record { size = Some 512; medium = codes "a.img"; side = None }) }
    ensures equals { command_in (codes "-p" ∷ codes "--blocksize=2048" ∷ codes "a.img" ∷ [])
        ≡ Ok (record { size = Some 2048; medium = codes "a.img"; side = Some (codes "a.img.redo") }) }
    ensures after { command_in (codes "a.img" ∷ codes "--redo" ∷ codes "b" ∷ codes "-p" ∷ [])
        ≡ Ok (record { size = None; medium = codes "a.img"; side = Some (codes "b") }) }
    ensures dashes { command_in (codes "-c" ∷ codes "--" ∷ codes "-p" ∷ [])
        ≡ Ok (record { size = None; medium = codes "-p"; side = None }) }
{}

/// A missing or third word, a flag or option given twice, an unknown one, and a wish for help or the version.
#[tactic(auto, unfolding(clap::proofs::OnLiterals::clap_on_literals, crate::specs::Arguments::found_in, crate::specs::Arguments::tool_app, crate::specs::Words::udffsck_app, crate::specs::Words::size_in, crate::specs::Words::command_by, crate::specs::Words::command_in))]
pub fn refused_law()
    ensures empty { command_in [] ≡ Err Words }
    ensures missing { command_in (codes "-c" ∷ []) ≡ Err Words }
    ensures third { command_in (codes "-c" ∷ codes "a.img" ∷ codes "b.img" ∷ []) ≡ Err Words }
    ensures twice { command_in (codes "-c" ∷ codes "-c" ∷ codes "a.img" ∷ []) ≡ Err Words }
    ensures sizes { command_in (codes "-c" ∷ codes "-B512" ∷ codes "-B512" ∷ codes "a.img" ∷ []) ≡ Err Words }
    ensures unknown { command_in (codes "-x" ∷ codes "a.img" ∷ []) ≡ Err Words }
    ensures help { command_in (codes "--help" ∷ []) ≡ Err Words }
    ensures version { command_in (codes "--version" ∷ []) ≡ Err Words }
{}

/// The words are tried first, then the value, then the mode.
#[tactic(auto, unfolding(clap::proofs::OnLiterals::clap_on_literals, crate::specs::Arguments::found_in, crate::specs::Arguments::tool_app, crate::specs::Words::udffsck_app, crate::specs::Words::size_in, crate::specs::Words::command_by, crate::specs::Words::command_in))]
pub fn order_law()
    ensures value { command_in (codes "-B513" ∷ codes "a.img" ∷ []) ≡ Err Value }
    ensures mode { command_in (codes "-c" ∷ codes "-p" ∷ codes "a.img" ∷ []) ≡ Err Mode }
    ensures words { command_in (codes "-B513" ∷ []) ≡ Err Words }
{}

/// The words are faulty exactly where `clap` refuses them for another cause than memory.
pub fn exact_law()
    ensures refused { (words : List (List ℕ)) → command_in words ≡ Err Words → fault_of udffsck_app words ≢ [] }
    ensures faulty { (words : List (List ℕ)) → fault_of udffsck_app words ≢ [] → command_in words ≡ Err Words }
    ensures read { (words : List (List ℕ)) → fault_of udffsck_app words ≡ []
        → command_in words ≡ command_by (matches_of udffsck_app words) }
{}
