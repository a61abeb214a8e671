//! What the definitions say, whatever the input.

ghost use Rattle.std.specs.Prelude.{◌≡◌, ◌≤◌, ◌↔◌, ℕ, [], ◌∷◌, List, Option, Some, Ok, Err, true};
ghost use Rattle.std.specs.List.{AllByRecursion};
ghost use Rattle.tap_block.specs.Chars.{IsChar, characters};
ghost use Rattle.tap_block.specs.Reading.{Mode, AfterLogon, InputPiece, HasOneReading, Reads, IsBody, items_of, a_block};
ghost use Rattle.tap_block.specs.Fields.{AreParts, HasValue, HasFault, block_of, escaped, content_parts, read_field};
ghost use Rattle.tap_block.specs.declared.ends.End.{End};
ghost use Rattle.tap_block.specs.declared.faults.FieldFault.{FieldFault};

/// Each character list has exactly one reading, and each field at most one value.
pub fn one_reading()
    ensures reading { (password : Option (List ℕ)) (mode : Mode) (x : List ℕ) → HasOneReading password mode x }
    ensures value { (field v w : List ℕ) → HasValue field v → HasValue field w → v ≡ w }
{}

/// A block that was written is read as this one block, and the field that spells a value has this value.
pub fn written_is_read()
    ensures block { (password : Option (List ℕ)) (body : List ℕ) (end : End) → AllByRecursion IsChar body → IsBody body
        → (piece : InputPiece) × Reads password AfterLogon (piece ∷ []) [] (characters (block_of body end)) × (items_of password (piece ∷ []) ≡ a_block body end true ∷ []) }
    ensures escaped { (value : List ℕ) → AllByRecursion (λ c. c ≤ 126) value → HasValue (escaped value) value }
{}

/// A field has exactly one of a value and a fault, and the function gives it.
pub fn value_or_fault()
    ensures value { (field value : List ℕ) → (read_field field ≡ Ok value) ↔ HasValue field value }
    ensures fault { (field : List ℕ) (fault : FieldFault) → (read_field field ≡ Err fault) ↔ HasFault field fault }
{}

/// The parts that the function gives are the parts of the content, and it gives none exactly where a content has none.
pub fn parts()
    ensures { (content first second : List ℕ) → (content_parts content ≡ Some (first, second)) ↔ AreParts content first second }
{}
