//! A law of words.

ghost use Rattle.std.specs.Prelude.{◌≡◌, ℕ, List};
ghost use Rattle.defect_sweep.specs.declared.sides.SideWeight.{SideWeight};
ghost use Rattle.defect_sweep.specs.SideTexts.{sides_text};
ghost use Rattle.command_inputs.specs.Sides.{SpellsSides};

/// A word spells one list of sides at most, and the word that a report prints spells the sides that were asked for.
pub fn one_list_of_sides()
    ensures one { (word : List ℕ) (sides others : List SideWeight) → SpellsSides word sides → SpellsSides word others → sides ≡ others }
    ensures printed { (word : List ℕ) (sides : List SideWeight) → SpellsSides word sides → SpellsSides (sides_text sides) sides }
{}
