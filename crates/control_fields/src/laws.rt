// Laws of reading and writing.
ghost use Rattle.std.specs.Prelude.{◌≡◌, ℕ, Option, List, ◌∷◌, []};
ghost use Rattle.std.specs.List.{AllByRecursion};
ghost use Rattle.control_fields.specs.declared.field.Field.{Field as AField};
ghost use Rattle.std.specs.Str.{IsUtf8};
ghost use Rattle.control_fields.specs.Names.{Lacks, IsName, trim_end, trim_start};
ghost use Rattle.control_fields.specs.Grammar.{Reads, ReadsOne, IsPlaced, lines_of};
ghost use Rattle.control_fields.specs.Faults.{IsFaultOf, IsFaultOfOne, IsReadTo};
ghost use Rattle.control_fields.specs.declared.located.Located.{Located};
ghost use Rattle.control_fields.specs.declared.fault.ControlFault.{ControlFault};
ghost use Rattle.control_fields.specs.declared.fault.ControlFault.TheVariants.{NoMemory};
ghost use Rattle.control_fields.specs.Spelling.{spell, spell_all, IsField, IsParagraph};

/// Written paragraphs read back as those paragraphs, and what is read can be written. A name and a trimmed value of
/// one line make a field that has a written form.
pub fn what_is_written_is_read()
    ensures one { (p : List AField) → IsParagraph p → Reads (lines_of (spell p)) (p ∷ []) }
    ensures all { (ps : List (List AField)) → AllByRecursion IsParagraph ps
        → Reads (lines_of (spell_all ps)) ps }
    ensures writable { (bytes : List ℕ) (ps : List (List AField)) → Reads (lines_of bytes) ps
        → AllByRecursion IsParagraph ps }
    ensures one_line { (f : AField) → IsName f.name → Lacks f.name 58 → IsUtf8 f.first
        → Lacks f.first 10 → trim_end f.first ≡ f.first → trim_start f.first ≡ f.first → f.more ≡ []
        → IsField f }
{}

/// A text has one reading, and is one paragraph in one way. A text that has a reading, or is one paragraph, or has
/// none, has no fault but want of memory. Each field that was read stands on the line that its paragraph's line and
/// the fields before it tell.
pub fn reading_is_exact()
    ensures once { (ls : List (List ℕ)) (ps qs : List (List AField)) → Reads ls ps → Reads ls qs
        → ps ≡ qs }
    ensures one_once { (ls : List (List ℕ)) (p q : List AField) → ReadsOne ls p → ReadsOne ls q
        → p ≡ q }
    ensures no_fault { (ls : List (List ℕ)) (ps : List (List AField)) (fault : ControlFault)
        → Reads ls ps → IsFaultOf ls fault → fault ≡ NoMemory }
    ensures one_no_fault { (ls : List (List ℕ)) (p : List AField) (fault : ControlFault)
        → ReadsOne ls p → IsFaultOfOne ls fault → fault ≡ NoMemory }
    ensures lines { (ls : List (List ℕ)) (paragraphs : List Located) (begun : Located)
        (fault : Option ControlFault) → IsReadTo ls paragraphs begun fault
        → AllByRecursion (IsPlaced ls) paragraphs × IsPlaced ls begun }
{}
