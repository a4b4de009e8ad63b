//! What a reader of the definition may expect of it.

ghost use Rattle.std.specs.Prelude.{◌≡◌, ◌≤◌, List, Some};
ghost use Rattle.yr_syntax.specs.Condition.{Condition};
ghost use Rattle.yr_rules.specs.Loops.{Loop};
ghost use Rattle.yr_rules.specs.NodeTree.{NodeTree};
ghost use Rattle.yr_rules.specs.Weight.{node_weight};
ghost use Rattle.yr_conditions.specs.Meanings.{Around, Scope};
ghost use Rattle.yr_conditions.specs.Nodes.{node_of};
ghost use Rattle.yr_conditions.specs.Readers.{Readers};
ghost use Rattle.yr_conditions.specs.SetWeights.{set_weights};

/// A checked condition weighs at least what the sets of its condition weigh.
pub fn lower_bound()
    ensures { (readers : Readers) (around : Around) (c : Condition) (n : NodeTree) (scopes : List Scope) (loops : List Loop)
        → node_of readers around c scopes ≡ Some n → set_weights around c ≤ node_weight n loops }
{}
