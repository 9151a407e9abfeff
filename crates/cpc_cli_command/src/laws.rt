//! What the words mean, as laws that do not speak of clap.
ghost use Rattle.clap.specs.Words.{fault_of};
ghost use Rattle.std.specs.Prelude.{◌≡◌, false, true, List, Some, None, [], ◌∷◌, ◌++◌, codes};
ghost use Rattle.cpc_base.specs.Bytes.{Text};
ghost use Rattle.cpc_cli_command.specs.Commands.{Check, Command, Exec, Run, Translate, command_of, cpc_app};
ghost use Rattle.cpc_cli_command.specs.Usage.{BreaksNumber, EntersOperand, IsBounded, IsPlain, Means, is_verb};
ghost use Rattle.cpc_cli_command.specs.Usage.{cells_by, defaults, exec_by, run_by, sample_by, section_steps_by, steps_by, told_by, traced, workers_by};

/// The words that ask for a command, where no file or number begins with `-`.
pub fn asking_words()
    ensures check { (file : Text) → IsPlain file → Means (codes "check" ∷ file ∷ []) (Some (Check file)) }
    ensures translate { (file : Text) → IsPlain file → Means (codes "translate" ∷ file ∷ []) (Some (Translate file)) }
    ensures run { (file : Text) → IsPlain file → Means (codes "run" ∷ file ∷ []) (Some (Run file defaults false)) }
    ensures text { (file : Text) → IsPlain file
        → Means (codes "run" ∷ file ∷ codes "--text" ∷ []) (Some (Run file defaults true)) }
    ensures steps { (file number : Text) → IsPlain file → IsPlain number
        → Means (codes "run" ∷ file ∷ codes "--steps" ∷ number ∷ []) (run_by file (steps_by number)) }
    ensures joined { (file number : Text) → IsPlain file
        → Means (codes "run" ∷ file ∷ (codes "--steps=" ++ number) ∷ []) (run_by file (steps_by number)) }
    ensures before { (file number : Text) → IsPlain file → IsPlain number
        → Means (codes "run" ∷ codes "--steps" ∷ number ∷ file ∷ []) (run_by file (steps_by number)) }
    ensures cells { (file number : Text) → IsPlain file → IsPlain number
        → Means (codes "run" ∷ file ∷ codes "--cells" ∷ number ∷ []) (run_by file (cells_by number)) }
    ensures cells_joined { (file number : Text) → IsPlain file
        → Means (codes "run" ∷ file ∷ (codes "--cells=" ++ number) ∷ []) (run_by file (cells_by number)) }
    ensures section_steps { (file number : Text) → IsPlain file → IsPlain number
        → Means (codes "run" ∷ file ∷ codes "--section-steps" ∷ number ∷ []) (run_by file (section_steps_by number)) }
    ensures section_steps_joined { (file number : Text) → IsPlain file
        → Means (codes "run" ∷ file ∷ (codes "--section-steps=" ++ number) ∷ []) (run_by file (section_steps_by number)) }
    ensures workers { (file number : Text) → IsPlain file → IsPlain number
        → Means (codes "run" ∷ file ∷ codes "--workers" ∷ number ∷ []) (run_by file (workers_by number)) }
    ensures workers_joined { (file number : Text) → IsPlain file
        → Means (codes "run" ∷ file ∷ (codes "--workers=" ++ number) ∷ []) (run_by file (workers_by number)) }
    ensures history { (file history : Text) → IsPlain file → IsPlain history
        → Means (codes "run" ∷ file ∷ codes "--history" ∷ history ∷ []) (Some (Run file (told_by history) false)) }
    // Behind `=` the name of a history may be any, the empty one too.
    ensures history_joined { (file history : Text) → IsPlain file
        → Means (codes "run" ∷ file ∷ (codes "--history=" ++ history) ∷ []) (Some (Run file (told_by history) false)) }
    ensures trace { (file : Text) → IsPlain file → Means (codes "run" ∷ file ∷ codes "--trace" ∷ []) (Some (Run file traced false)) }
    ensures sample { (number : Text) → IsPlain number → Means (codes "sample" ∷ number ∷ []) (sample_by number) }
    // Behind `--` a file may begin with `-`.
    ensures any_file { (file : Text) → Means (codes "check" ∷ codes "--" ∷ file ∷ []) (Some (Check file)) }
{}

/// The words that ask for `exec`, which has the options of `run` but `--text`.
pub fn exec_words()
    ensures plain { (file : Text) → IsPlain file → Means (codes "exec" ∷ file ∷ []) (Some (Exec file defaults)) }
    ensures steps { (file number : Text) → IsPlain file
        → Means (codes "exec" ∷ file ∷ (codes "--steps=" ++ number) ∷ []) (exec_by file (steps_by number)) }
    ensures cells { (file number : Text) → IsPlain file
        → Means (codes "exec" ∷ file ∷ (codes "--cells=" ++ number) ∷ []) (exec_by file (cells_by number)) }
    ensures section_steps { (file number : Text) → IsPlain file
        → Means (codes "exec" ∷ file ∷ (codes "--section-steps=" ++ number) ∷ []) (exec_by file (section_steps_by number)) }
    ensures workers { (file number : Text) → IsPlain file
        → Means (codes "exec" ∷ file ∷ (codes "--workers=" ++ number) ∷ []) (exec_by file (workers_by number)) }
    ensures history { (file history : Text) → IsPlain file → IsPlain history
        → Means (codes "exec" ∷ file ∷ codes "--history" ∷ history ∷ []) (Some (Exec file (told_by history))) }
    ensures history_joined { (file history : Text) → IsPlain file
        → Means (codes "exec" ∷ file ∷ (codes "--history=" ++ history) ∷ []) (Some (Exec file (told_by history))) }
    ensures trace { (file : Text) → IsPlain file → Means (codes "exec" ∷ file ∷ codes "--trace" ∷ []) (Some (Exec file traced)) }
    ensures no_text { (file : Text) → IsPlain file → Means (codes "exec" ∷ file ∷ codes "--text" ∷ []) None }
{}

/// Words that ask for none.
pub fn other_words()
    ensures nothing { Means [] None }
    ensures verb { (verb : Text) (rest : List Text) → IsPlain verb → is_verb verb ≡ false → Means (verb ∷ rest) None }
    ensures no_file { Means (codes "check" ∷ []) None × Means (codes "translate" ∷ []) None × Means (codes "run" ∷ []) None
        × Means (codes "exec" ∷ []) None }
    ensures no_number { Means (codes "sample" ∷ []) None }
    ensures two_numbers { (one two : Text) → IsPlain one → IsPlain two → Means (codes "sample" ∷ one ∷ two ∷ []) None }
    ensures no_options { (number steps : Text) → IsPlain number → Means (codes "sample" ∷ number ∷ (codes "--steps=" ++ steps) ∷ []) None }
    ensures two_files { (one two : Text) → IsPlain one → IsPlain two → Means (codes "check" ∷ one ∷ two ∷ []) None }
    ensures twice { (one two file : Text)
        → Means (codes "run" ∷ (codes "--steps=" ++ one) ∷ (codes "--steps=" ++ two) ∷ file ∷ []) None }
    ensures cells_twice { (one two file : Text)
        → Means (codes "run" ∷ (codes "--cells=" ++ one) ∷ (codes "--cells=" ++ two) ∷ file ∷ []) None }
    ensures section_steps_twice { (one two file : Text)
        → Means (codes "run" ∷ (codes "--section-steps=" ++ one) ∷ (codes "--section-steps=" ++ two) ∷ file ∷ []) None }
    ensures workers_twice { (one two file : Text)
        → Means (codes "run" ∷ (codes "--workers=" ++ one) ∷ (codes "--workers=" ++ two) ∷ file ∷ []) None }
    // `check` has no options.
    ensures no_workers { (number file : Text) → Means (codes "check" ∷ (codes "--workers=" ++ number) ∷ file ∷ []) None }
    ensures history_twice { (one two file : Text)
        → Means (codes "run" ∷ (codes "--history=" ++ one) ∷ (codes "--history=" ++ two) ∷ file ∷ []) None }
    ensures trace_twice { (file : Text) → Means (codes "run" ∷ codes "--trace" ∷ codes "--trace" ∷ file ∷ []) None }
{}

/// What words ask for that clap takes: it has entered a subcommand, and its FILE or N has a value, so they ask for a
/// command unless a number breaks its rule.
pub fn taken_words()
    ensures operand { (words : List Text) → fault_of cpc_app words ≡ [] → EntersOperand words }
    ensures number { (words : List Text) → fault_of cpc_app words ≡ [] → command_of words ≡ None → BreaksNumber words }
{}

/// The numbers of the command that words ask for are within their bounds.
pub fn bounded_words()
    ensures { (words : List Text) (command : Command) → command_of words ≡ Some command → IsBounded command }
{}
