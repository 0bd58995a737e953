//! Laws of the grammar.

ghost use Rattle.std.specs.Prelude.{◌≡◌, ℕ, List, ◌++◌, codes};
ghost use Rattle.cif_grammar.specs.Words.{◌⋅◌, Takes, skip};
ghost use Rattle.cif_grammar.specs.Grammar.{Command, command, end, is_gap, Placed, Spells, Longest};

/// At most one command with its end stands first in any bytes, and one rest behind all blanks and semicolons that follow.
pub fn one_command()
    ensures { (at : ℕ) (bytes : List ℕ) (c d : Command) (rest behind : List ℕ) → Takes (command c ⋅ end c) at bytes rest → Takes (command d ⋅ end d) at bytes behind → (c ≡ d) × (skip is_gap rest ≡ skip is_gap behind) }
{}

/// No text spells two lists of commands. A text has one longest front of whole items and one list of commands there,
/// and in a text that is spelled whole this front ends before the `E`.
pub fn one_spelling()
    ensures commands { (text : List ℕ) (c d : List Placed) → Spells text c → Spells text d → c ≡ d }
    ensures longest { (text : List ℕ) (c d : List Placed) (front rest before behind : List ℕ) → Longest text c front rest → Longest text d before behind → (c ≡ d) × (front ≡ before) × (rest ≡ behind) }
    ensures end { (text : List ℕ) (c : List Placed) (s : Spells text c) → Longest text c s.front (codes "E" ++ s.rest) }
{}
