//! Small trees, which the definitions are tried on.

ghost use Rattle.std.specs.Prelude.{◌≡◌, codes, pos, true};
ghost use Rattle.yr_syntax.specs.Condition as tree;
ghost use Rattle.yr_syntax.specs.Height.{height};
ghost use Rattle.yr_syntax.specs.declared.operator.Infix.TheVariants as infix';
ghost use Rattle.yr_syntax.specs.declared.operator.PrefixOp.TheVariants as prefix';

/// A leaf has the height 1, a prefix operator adds nothing, and every other node adds one to the highest below it.
pub fn heights()
    ensures leaf { height tree.FileSize ≡ 1 }
    ensures prefix { height (tree.Prefix prefix'.Not (tree.Prefix prefix'.Minus tree.FileSize)) ≡ 1 }
    ensures path { height (tree.Path (tree.name_step (codes "elf") (tree.index_step (tree.Count (codes "a")) tree.no_step))) ≡ 2 }
    ensures chain { height (tree.Chain (tree.Flag true) (tree.link infix'.And (tree.OffsetAt (codes "a") (tree.Number (pos 1))) tree.no_link)) ≡ 3 }
    ensures loop_over_list { height (tree.ForIn tree.Any (codes "i") (tree.OverList (tree.item (tree.Number (pos 1)) tree.no_item)) (tree.Flag true)) ≡ 2 }
    ensures set { height (tree.Of (tree.Percent (tree.Number (pos 50))) tree.Them (tree.At (tree.Chain tree.FileSize tree.no_link))) ≡ 3 }
{}
